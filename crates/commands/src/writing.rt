//! Writing a text of any length.

ghost use Rattle.commands.specs.{ℕ, List, Seen, PuttingEnds, TriesToLog, WritingEnds};

use streams::{Sink, send};

/// How many bytes are sent at once.
const PIECE: usize = 4096;

/// Writes a text, and answers whether all of it went out. If not, a prefix of it did. It flushes nothing.
pub fn put<W: Sink>(sink: &mut W, text: &[u8]) -> bool
    ensures { PuttingEnds result (W.seen sink.old) (W.seen sink.new) text.now }
{
    let mut rest = text;
    while !rest.is_empty() {
        let (piece, after) = rest.split_at(rest.len().min(PIECE));
        match send(sink, 0, piece) {
            Ok(_) => rest = after,
            Err(_) => return false,
        }
    }
    true
}

/// Writes a text and flushes, and answers whether all of it went out.
pub fn write_out<W: Sink>(sink: &mut W, text: &[u8]) -> bool
    ensures { WritingEnds result (W.seen sink.old) (W.seen sink.new) text.now }
{
    let is_put = put(sink, text);
    flush_after(sink, is_put)
}

/// Flushes after a text if all of it went out, and answers whether that is so and the flush succeeded.
#[tactic(auto, using(crate::proofs::PutLemmas::not_put, crate::proofs::PutLemmas::flushed_after))]
pub fn flush_after<W: Sink>(sink: &mut W, is_put: bool) -> bool
    ensures { (start : Seen) (text : List ℕ) → PuttingEnds is_put start (W.seen sink.old) text → WritingEnds result start (W.seen sink.new) text }
{
    if !is_put {
        return false;
    }
    sink.flush().is_ok()
}

/// Writes a line on the log and flushes it. Where that fails, there is no further place to report it.
pub fn write_log<L: Sink>(log: &mut L, line: &[u8])
    ensures { TriesToLog (L.seen log.old) (L.seen log.new) line.now }
{
    write_out(log, line);
}
