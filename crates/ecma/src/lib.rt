//! Control sequences of ECMA-48: how they are spelled, and what a terminal does with them.
//!
//! - `cells`: the cells of a page, and what is known of them
//! - `laws`: laws of streams
//! - `page`: what control functions do to the picture
//! - `parameter`: parameters of a control sequence
//! - `positions`: positions of a screen, whose numbers are spelled once
//! - `reader`: what is kept of a stream that is read byte by byte
//! - `selection`: SGR
//! - `spelling`: the bytes of a token
//! - `terminal`: a terminal that reads bytes
//! - `token`: what is sent to a terminal
#![tactic(auto)]

mod cells;
pub mod laws;
mod page;
mod parameter;
mod positions;
mod reader;
mod selection;
mod spelling;
mod terminal;
mod token;

pub use positions::Positions;
pub use reader::NotInProfile;
pub use spelling::{LONGEST_SPELLING, position_length, selection_length, spell};
pub use terminal::Terminal;
pub use token::{Erase, Token};
