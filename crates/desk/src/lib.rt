//! The `Screen`: a desk, for which the crate is named, with a painter over a writer; and runs of calls and of script
//! lines, with what they send and log.
//!
//! - `history`: a list of calls that are all made, whatever becomes of the writes
//! - `run_script`: the calls of a script, with their log
//! - `screen`: the `Screen`: calls and runs
#![tactic(auto)]

mod history;
mod run_script;
mod screen;

pub use calls::{Answer, Calls};
pub use cell::{Attr, Cell, Rect, Refusal, VirtualScreen, WinId};
pub use compose::Desk;
pub use history::RunAllEnd;
pub use screen::{Fault, RunEnd, Screen};
pub use script::{ScriptEnd, ScriptFault, TextFault};
pub use streams::{Counted, CountedReader, Sent, Sink, Source, WriteFault};
pub use windows::Windows;
pub use world::{
    Call, Composed, Copying, Making, PanelId, Query, Refresh, Reply, Stacking, Writing,
};
