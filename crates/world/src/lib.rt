//! The world that calls change: windows, panels, colour pairs and the virtual screen, and each call as data. Its
//! definitions are in `specs/`: when a call is refused, what it changes and what it answers.
//!
//! - `call`: calls and answers
//! - `laws`: the laws, each the contract of a function
//! - `panel`: numbers of panels
//! - `settings`: the settings of a window, and columns of a line
//! - `written_calls`: the calls of each group, written by a tool
#![tactic(auto)]

pub mod call;
pub mod laws;
mod panel;
mod settings;
mod written_calls;

pub use call::{Call, Composed, Copying, Making, Query, Refresh, Reply, Stacking, Writing};
pub use cell::{Attr, Cell, Rect, Refusal, WinId};
pub use panel::PanelId;
pub use settings::{Columns, Settings};
pub use streams::Sent;
