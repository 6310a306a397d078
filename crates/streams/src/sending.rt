//! Sending a text to a sink.

ghost use Rattle.std.specs.Prelude.{◌≡◌, ◌+◌, ◌^◌, ◌<◌};
ghost use Rattle.streams.specs.{length, Sends, WritesOnce};

use crate::sink::Sink;

/// How many bytes of a text were sent.
#[derive(Clone, Copy, PartialEq, Eq, Debug)]
pub struct Sent {
    pub bytes: u32,
}

/// The sink failed after it had taken that many bytes of the text.
#[derive(Clone, Copy, PartialEq, Eq, Debug)]
pub struct WriteFault {
    pub sent: u32,
}

/// Sends the next piece of a text, of which `sent` bytes went out, through as many writes as it takes. It answers how
/// many bytes of the text went out then. An error, or an answer of 0, ends it. Where no write is short, it takes one.
pub fn send<W: Sink>(sink: &mut W, sent: u32, piece: &[u8]) -> Result<u32, WriteFault>
    requires { sent + length piece.now < 2 ^ 32 }
    ensures sends { Sends (W.seen sink.old) (W.seen sink.new) sent piece.now result }
    ensures once { WritesOnce (W.seen sink.old) (W.seen sink.new) }
    ensures same { W.name sink.new ≡ W.name sink.old }
{
    let mut total = sent;
    let mut rest = piece;
    while !rest.is_empty() {
        match sink.write(rest) {
            Ok(0) => return Err(WriteFault { sent: total }),
            Ok(taken) => {
                rest = &rest[taken..];
                total += taken as u32;
            }
            Err(_) => return Err(WriteFault { sent: total }),
        }
    }
    Ok(total)
}
