//! The calls on windows that write, under their X/Open names, over the table of windows. Each writing call answers the
//! smallest rectangle of the window that holds what it wrote.
//!
//! - `copying`: the copies
//! - `drawing`: drawings, each some writes of a line
//! - `frame`: rectangles of drawings
//! - `given`: cells that a program gives
//! - `queries`: `winch`
//! - `state`: what a call reads of its window
//! - `table`: the `Windows`
//! - `writing`: the calls that write
#![tactic(auto)]

mod copying;
mod drawing;
mod frame;
mod given;
mod queries;
mod state;
mod table;
mod writing;

pub use cell::{Attr, Cell, Rect, Refusal, WinId};
pub use grids::Grids;
pub use table::Windows;
pub use world::{Columns, Settings};
