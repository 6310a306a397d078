//! Sinks: what takes the bytes of a text.

ghost use Rattle.std.specs.Prelude.{◌≡◌};
ghost use Rattle.streams.specs.{ℕ, false, is_err, WritesAtMost, WriteAppends, Keeps, count_after, next_count, Seen, write_fails, write_is_whole, flushed_after_write, flushed_after_flush};

use std::io;
use std::io::Write;

/// What takes bytes, and counts its failures: an error, an answer of 0 for a piece that isn't empty, or a flush that
/// fails.
pub trait Sink {
    // What it took, how often it failed, how many writes took all of their piece, how often a flush was tried, and
    // whether it was flushed.
    ghost seen: { Self → Seen };

    // Which sink it is: two borrowed ones with one name are the same borrow. The name of one that isn't borrowed is 0.
    ghost name: { Self → ℕ } = { λ s. 0 };

    /// Takes a prefix of the piece, and says how long it is.
    fn write(&mut self, piece: &[u8]) -> io::Result<usize>
        ensures bound { WritesAtMost result piece.now }
        ensures bytes { WriteAppends (seen self.old).taken (seen self.new).taken result piece.now }
        ensures failures { (seen self.new).failures ≡ count_after (write_fails piece.now result) (seen self.old).failures }
        ensures writes { (seen self.new).whole_writes ≡ count_after (write_is_whole piece.now result) (seen self.old).whole_writes }
        ensures flushes { (seen self.new).flushes ≡ (seen self.old).flushes }
        ensures flushed { (seen self.new).flushed ≡ flushed_after_write (seen self.old).flushed result }
        ensures same { name self.new ≡ name self.old };

    /// Flushes: passes on all bytes that were taken.
    fn flush(&mut self) -> io::Result<()>
        ensures bytes { Keeps (seen self.old).taken (seen self.new).taken }
        ensures failures { (seen self.new).failures ≡ count_after (is_err result) (seen self.old).failures }
        ensures writes { (seen self.new).whole_writes ≡ (seen self.old).whole_writes }
        ensures flushes { (seen self.new).flushes ≡ next_count (seen self.old).flushes }
        ensures flushed { (seen self.new).flushed ≡ flushed_after_flush (seen self.old).flushed result }
        ensures same { name self.new ≡ name self.old };
}

impl<S: Sink> Sink for &mut S {
    ghost seen = { λ s. S.seen s.now };

    ghost name = { λ s. s.ghost_name };

    fn write(&mut self, piece: &[u8]) -> io::Result<usize> {
        Sink::write(&mut **self, piece)
    }

    fn flush(&mut self) -> io::Result<()> {
        Sink::flush(&mut **self)
    }
}

/// A sink made of any writer.
#[derive(Drop)]
pub struct Counted<W> {
    writer: W,
    failures: u64,
    whole_writes: u64,
    flushes: u64,
    flushed: bool,
}

impl<W: Write> Counted<W> {
    /// A sink that took what the writer has taken, with no failure yet.
    pub fn new(writer: W) -> Counted<W>
        ensures { ⟦<Counted<W> as Sink>⟧.seen result ≡ record { taken = W.contents writer; failures = 0; whole_writes = 0; flushes = 0; flushed = false } }
    {
        Counted {
            writer,
            failures: 0,
            whole_writes: 0,
            flushes: 0,
            flushed: false,
        }
    }

    /// The writer.
    pub fn get_ref(&self) -> &W
        ensures { W.contents result.now ≡ (⟦<Counted<W> as Sink>⟧.seen self.now).taken }
    {
        &self.writer
    }

    /// Gives the writer back.
    pub fn into_inner(self) -> W
        ensures { W.contents result ≡ (⟦<Counted<W> as Sink>⟧.seen self).taken }
    {
        let Counted {
            writer,
            failures: _,
            whole_writes: _,
            flushes: _,
            flushed: _,
        } = self;
        writer
    }
}

impl<W: Write> Sink for Counted<W> {
    ghost seen = { λ s. record {
      taken = W.contents s.writer;
      failures = s.failures;
      whole_writes = s.whole_writes;
      flushes = s.flushes;
      flushed = s.flushed;
    } };

    fn write(&mut self, piece: &[u8]) -> io::Result<usize> {
        let outcome = self.writer.write(piece);
        match outcome {
            Ok(0) if piece.is_empty() => {}
            Ok(0) | Err(_) => self.failures = self.failures.wrapping_add(1),
            Ok(_) => self.flushed = false,
        }
        match outcome {
            Ok(taken) if taken == piece.len() => {
                self.whole_writes = self.whole_writes.wrapping_add(1);
            }
            _ => {}
        }
        outcome
    }

    fn flush(&mut self) -> io::Result<()> {
        let outcome = self.writer.flush();
        self.flushes = self.flushes.wrapping_add(1);
        match outcome {
            Ok(()) => self.flushed = true,
            Err(_) => self.failures = self.failures.wrapping_add(1),
        }
        outcome
    }
}
