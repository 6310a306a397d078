//! The `Painter`, which sends pictures to a terminal; the crate is named for what it does.
//!
//! - `blanks`: where a line, and a page, are blank up to their end
//! - `changes`: a picture that is wanted over the one that is shown, and where they may differ
//! - `drawing`: strokes drawn, one after another or rendition by rendition
//! - `laws`: laws of agreement
//! - `line`: the changed cells of a line, and runs of them
//! - `outbox`: the bytes that are gathered on their way to the sink
//! - `painter`: the `Painter`
//! - `pen`: move, select, print, erase
//! - `strokes`: the strokes of an update, found line by line
//! - `tally`: how many bytes strokes take, in either order
#![tactic(auto)]

mod blanks;
mod changes;
mod drawing;
pub mod laws;
mod line;
mod outbox;
mod painter;
mod pen;
mod strokes;
mod tally;

pub use painter::Painter;
pub use streams::{Counted, Sent, Sink, WriteFault};
