//! Escapes a text that may hold any byte, as the words of a command line do, since a terminal may show it.

ghost use Rattle.std.specs.Prelude.{◌≡◌, ◌≤◌, ◌+◌, ◌++◌};
ghost use Rattle.commands.specs.{length, escaped_text, escaped_byte, PuttingEnds, TriesToLog, WritingEnds};

use crate::writing::{flush_after, put};
use arrayvec::ArrayVec;
use cell::{hex_digits, is_printable};
use streams::{Sink, append};

/// How many bytes are escaped at once.
const PIECE: usize = 256;

/// Room for a piece with its bytes escaped: four bytes for each of its own.
const ROOM: usize = 1024;

/// A piece with its bytes escaped.
type Escaped = ArrayVec<u8, ROOM>;

/// Appends a byte, as it is if it is printable or a newline, and else as `\x1b`.
fn append_escaped(text: &mut Escaped, byte: u8)
    requires { length text.old.items + 4 ≤ ROOM }
    ensures text { text.new.items ≡ text.old.items ++ escaped_byte byte }
    ensures short { length text.new.items ≤ length text.old.items + 4 }
{
    if is_printable(byte) || byte == b'\n' {
        append(text, &[byte]);
    } else {
        append(text, b"\\x");
        append(text, &hex_digits(byte));
    }
}

/// A piece with its bytes escaped.
fn escaped_text(piece: &[u8]) -> Escaped
    requires { length piece.now ≤ PIECE }
    ensures { result.items ≡ escaped_text piece.now }
{
    let mut text = Escaped::new();
    for byte in piece {
        append_escaped(&mut text, *byte);
    }
    text
}

/// Writes a text with its bytes escaped, and answers whether all of it went out. Nothing is flushed.
pub fn put_escaped<W: Sink>(sink: &mut W, text: &[u8]) -> bool
    ensures { PuttingEnds result (W.seen sink.old) (W.seen sink.new) (escaped_text text.now) }
{
    let mut rest = text;
    while !rest.is_empty() {
        let (piece, after) = rest.split_at(rest.len().min(PIECE));
        if !put(sink, escaped_text(piece).as_slice()) {
            return false;
        }
        rest = after;
    }
    true
}

/// Writes a text with its bytes escaped and flushes, and answers whether all of it went out.
fn write_escaped<W: Sink>(sink: &mut W, text: &[u8]) -> bool
    ensures { WritingEnds result (W.seen sink.old) (W.seen sink.new) (escaped_text text.now) }
{
    let is_put = put_escaped(sink, text);
    flush_after(sink, is_put)
}

/// Writes a text with its bytes escaped on the log and flushes it, as `write_log` does a line.
pub fn log_escaped<L: Sink>(log: &mut L, text: &[u8])
    ensures { TriesToLog (L.seen log.old) (L.seen log.new) (escaped_text text.now) }
{
    write_escaped(log, text);
}
