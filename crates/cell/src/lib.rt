//! What every layer of Curspan uses: characters with attributes, grids and pictures of them, windows by number, and
//! refusals.
//!
//! - `attr`: sets of attributes
//! - `cell`: a character with attributes and a pair, what a window holds
//! - `colour`: colours, pairs and the table of pairs
//! - `colour_bits`: a pair's colours as bits of a shown cell
//! - `difference`: the first and the last column in which two lines differ
//! - `grid`: lines of cells of one width
//! - `lanes`: cells that are looked at together
//! - `limits`: the greatest sizes and numbers
//! - `refusal`: why a call is refused
//! - `shown`: renditions and shown cells
//! - `virtual_screen`: what a painter reads of a virtual screen
//! - `window`: numbers of windows, and rectangles
//! - `written_refusals`: the refusals and their texts, written by a tool
#![tactic(auto)]

mod attr;
mod cell;
mod colour;
mod colour_bits;
mod difference;
mod grid;
mod lanes;
mod limits;
pub mod refusal;
mod shown;
mod virtual_screen;
mod window;
mod written_refusals;

pub use attr::{Attr, hex_digits};
pub use cell::{Cell, all_give_cells, are_printable, gives_cell, is_printable};
pub use colour::{Colour, ColourPair, PairId, Pairs};
pub use difference::{first_diff, last_diff};
pub use grid::{Element, Grid, give_cells, show_cells};
pub use lanes::{LANES, have_rendition};
pub use limits::{
    FIRST_CHARACTER, LARGEST_PAD, LARGEST_SCREEN, LAST_CHARACTER, LAST_COLOUR, LAST_PAIR,
    MOST_PANELS, MOST_WINDOWS, is_no_size, limits_in_numerals,
};
pub use refusal::Refusal;
pub use shown::{Rendition, Shown};
pub use virtual_screen::VirtualScreen;
pub use window::{Rect, WinId};
