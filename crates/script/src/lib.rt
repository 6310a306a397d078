//! Scripts, with one call per line: the reading of a script's text, and the lines of its log.
//!
//! - `arguments`: its arguments
//! - `bytes`: lines, however the reader cuts them
//! - `fault`: faults of a text, and how a script ends
//! - `laws`: no word is missing, and the limits in numerals
//! - `limits`: the greatest lengths and numbers
//! - `line`: what a line says
//! - `log`: the lines of the log
//! - `numbers`: numbers, as digits
//! - `text`: texts, with their escapes
//! - `words`: what a word says, by its row
//! - `written_words`: the words, listed by first letter, with a row for each call, written by a tool
//!
//! What looks through several bytes at once, in `bytes` and `line`, and numbers that are read and split off in one pass,
//! are there for speed: a line of a long script takes 357 instructions by them, and 557 without.
#![tactic(auto)]

mod arguments;
mod bytes;
mod fault;
pub mod laws;
mod limits;
mod line;
mod log;
mod numbers;
mod text;
mod words;
mod written_words;

pub use arguments::Arguments;
pub use bytes::{LineEnd, Lines};
pub use fault::{ScriptEnd, ScriptFault, TextFault};
pub use limits::{ALL_ATTRIBUTES, GREATEST_NUMBER, GREATEST_SIGNED, LONGEST_LINE, MOST_ARGUMENTS};
pub use line::{next_argument, read_line, split_at_space};
pub use log::{LogLine, last_line, log_answer};
pub use numbers::has_digits_alone;
pub use words::{Form, Word};
pub use written_words::{
    CopyingWord, MakingWord, QueryWord, RefreshWord, StackingWord, WORDS, WritingWord,
};
