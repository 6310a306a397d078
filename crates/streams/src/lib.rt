//! Streams of bytes: what takes them and what gives them, with a count of their failures, and streams that a signal
//! interrupts.
//!
//! - `discard`: a sink that keeps nothing
//! - `gather`: a text in a buffer of fixed size
//! - `outcome`: by which kind of error a call failed
//! - `patient`: a stream whose reads and writes are made again where a signal interrupted them
//! - `sending`: a piece, through short writes
//! - `sink`: where bytes go
//! - `source`: where bytes come from
#![tactic(auto)]

mod discard;
mod gather;
mod outcome;
mod patient;
mod sending;
mod sink;
mod source;

pub use discard::Discard;
pub use gather::{MOST_DECIMAL_DIGITS, append, append_decimal};
pub use outcome::fails_by;
pub use patient::Patient;
pub use sending::{Sent, WriteFault, send};
pub use sink::{Counted, Sink};
pub use source::{CountedReader, Source};
