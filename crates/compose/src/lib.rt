//! The `Desk`: windows, panels, colour pairs and the virtual screen together, with each call and what it damages of the
//! screen. The crate is named for its chief work, which is to compose the picture.
//!
//! - `damaging_calls`: a call with what it damages
//! - `damaging`: what a call damages
//! - `desk`: the `Desk` and what can be read of it
//! - `dispatch`: a call of each group that changes something, made
//! - `given`: cells that a program gives, with what they damage
//! - `marks`: touched columns and clear flags of what makes up the picture
//! - `panels`: the calls that look at windows and panels together
//! - `queries`: the calls that only ask
//! - `refresh`: what a window or a pad puts into the virtual screen
//! - `virtual_picture`: what the virtual screen shows, and what changed of it
//! - `written_dispatch`: the calls that write in a window, written by a tool
#![tactic(auto)]

mod damaging;
mod damaging_calls;
mod desk;
mod dispatch;
mod given;
mod marks;
mod panels;
mod queries;
mod refresh;
mod virtual_picture;
mod written_dispatch;

pub use desk::Desk;
pub use picture::{Rows, Span, compose_row};
