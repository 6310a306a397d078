//! A sink that keeps nothing.

ghost use Rattle.std.specs.Prelude.{◌≡◌};
ghost use Rattle.streams.specs.{None, nothing_seen};

use crate::sink::Sink;
use std::io;

/// A sink that takes every byte, and keeps none. It never fails.
#[derive(Drop)]
pub struct Discard {
    whole_writes: u64,
    flushes: u64,
    flushed: bool,
}

impl Discard {
    /// A sink to which nothing was written.
    pub fn new() -> Discard
        ensures { ⟦<Discard as Sink>⟧.seen result ≡ nothing_seen }
    {
        Discard {
            whole_writes: 0,
            flushes: 0,
            flushed: false,
        }
    }
}

impl Sink for Discard {
    ghost seen = { λ s. record { taken = None; failures = 0; whole_writes = s.whole_writes; flushes = s.flushes; flushed = s.flushed } };

    fn write(&mut self, piece: &[u8]) -> io::Result<usize> {
        if !piece.is_empty() {
            self.flushed = false;
        }
        self.whole_writes = self.whole_writes.wrapping_add(1);
        Ok(piece.len())
    }

    fn flush(&mut self) -> io::Result<()> {
        self.flushes = self.flushes.wrapping_add(1);
        self.flushed = true;
        Ok(())
    }
}
