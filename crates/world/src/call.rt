//! The calls and what they answer.

use crate::panel::PanelId;
pub use crate::written_calls::{Copying, Making, Query, Refresh, Stacking, Writing};
use cell::{Cell, WinId};
use streams::Sent;

/// A call, by the group that it is in. Lines and columns count from 0.
#[derive(Clone, Copy)]
pub enum Call<'a> {
    Making(Making),
    Writing(Writing<'a>),
    Copying(Copying),
    Query(Query),
    Stacking(Stacking),
    Refresh(Refresh),
}

/// How many cells of windows an `update_panels` read.
#[derive(Clone, Copy, PartialEq, Eq, Debug)]
pub struct Composed {
    pub cells: u32,
}

/// What a call answers that isn't refused.
#[derive(Clone, Copy, PartialEq, Eq, Debug)]
pub enum Reply {
    Nothing,
    /// The number of a new window or pad, or of a panel's window.
    Number(WinId),
    /// A line and a column; a number of lines and one of columns; the first line of a region and the last; or the bits
    /// of attributes and the number of a pair.
    TwoNumbers(u16, u16),
    Cell(Cell),
    /// Yes or no.
    Flag(bool),
    /// A new panel, or a panel's neighbour, if it has one.
    Panel(Option<PanelId>),
    Composed(Composed),
    Sent(Sent),
}
