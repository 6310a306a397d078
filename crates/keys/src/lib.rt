//! Which bytes of a terminal are which key. Each byte is in exactly one key, however the bytes are cut.
//!
//! - `asked`: what a terminal was asked to tell beside the keys
//! - `decoder`: takes one byte at a time, and the end of the delay; keeps the bytes that are pending
//! - `grammar`: which bytes go on a sequence, and where it is whole
//! - `key`: keys as values
//! - `laws`: laws of readings
//! - `meaning`: which key a sequence is
//! - `parameters`: the numbers of a control sequence
//! - `utf8`: characters
#![tactic(auto)]

mod asked;
mod decoder;
mod grammar;
mod key;
pub mod laws;
mod meaning;
mod parameters;
mod utf8;

pub use asked::Asked;
pub use decoder::{Answer, Decoder, Progress, Taken};
pub use grammar::LONGEST;
pub use key::{Action, Key, Modifiers, Mouse, Name};
