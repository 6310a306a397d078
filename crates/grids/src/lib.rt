//! The table of windows: which windows and pads there are, which cells they share, and the writes of lines
//! of which every write is made.
//!
//! - `frame`: rectangles joined
//! - `ink`: characters printed with a pen
//! - `list`: the slots by number, and the change of one
//! - `making`: windows and pads are made, placed and deleted
//! - `marks`: lines are touched and untouched
//! - `moves`: copies within one grid
//! - `parents`: from a window to its parent and on, up to the grid
//! - `place`: a place of a window or a grid
//! - `queries`: queries about a window
//! - `rectangle`: a copy of several lines
//! - `rows`: a line is read, filled, printed in or copied
//! - `sharing`: which windows share cells
//! - `slot`: what is kept of one window
//! - `sync`: what is touched goes to ancestors and comes from them
//! - `table`: the table
//! - `touched`: the touched columns of a line
//! - `touched_lines`: those of each line of a window
#![tactic(auto)]

pub mod frame;
mod ink;
mod list;
mod making;
mod marks;
mod moves;
mod parents;
mod place;
mod queries;
mod rectangle;
mod rows;
mod sharing;
mod slot;
mod sync;
mod table;
mod touched;
mod touched_lines;

pub use cell::{Attr, Cell, Rect, Refusal, WinId};
pub use place::Place;
pub use table::Grids;
pub use world::{Columns, Settings};
