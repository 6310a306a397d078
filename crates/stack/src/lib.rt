//! The order of panels: which are visible, one above another, which are hidden, and the window of each. It knows
//! windows by their numbers alone.
//!
//! - `calls`: each call on panels
//! - `entries`: which numbers are panels', and their windows
//! - `holders`: the panel of each window
//! - `links`: a panel leaves the order, or enters it
//! - `nodes`: panels by number, with their neighbours
//! - `queries`: queries about panels
//! - `table`: the `Stack`
//! - `visible`: walks through the order
#![tactic(auto)]

mod calls;
mod entries;
mod holders;
mod links;
mod nodes;
mod queries;
mod table;
mod visible;

pub use cell::{Refusal, WinId};
pub use table::Stack;
pub use visible::Visible;
pub use world::PanelId;
