//! What the picture of the screen is made of: spans of the lines of windows, put into a line.
//!
//! - `line`: `compose_row`
//! - `owners`: the search from the top, along the lines of the screen
//! - `parts`: which part of the screen shows something of a window
//! - `piece`: a part of a window's line, put into a picture
//! - `repair`: the damaged lines composed again
//! - `rows`: the lines of windows, with a count of the cells that are read
//! - `search`: what the search finds at a place, and the topmost's cursor
//! - `span`: a span of a line
//! - `spans`: the spans of a line, over which panels are laid
#![tactic(auto)]

mod line;
mod owners;
mod parts;
mod piece;
mod repair;
mod rows;
mod search;
mod span;
mod spans;

pub use extents::Extents;
pub use line::compose_row;
pub use owners::Owners;
pub use parts::{following_part, panel_part, shared_part, window_part};
pub use piece::show_piece;
pub use repair::show_damaged;
pub use rows::{Rows, TableRows};
pub use search::{cell_found, cursor_on_screen, wanted_cursor};
pub use span::{Span, owner_span};
