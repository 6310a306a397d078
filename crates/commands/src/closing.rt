//! Outputs of which it is known whether somebody reads them.

ghost use Rattle.std.specs.Prelude.{◌≡◌, ◌↔◌};
ghost use Rattle.commands.specs.{Bool, IsErrAnd, IsTrue, false, is_err, WritesAtMost, Keeps, WriteAppends, ClosedAfter, count_after, next_count, write_fails, write_is_whole, flushed_after_write};
ghost use Rattle.commands.specs.{flushed_after_flush};
ghost use Rattle.std.specs.IoError.{error_kind};

use std::io;
use std::io::ErrorKind;
use streams::{Discard, Sink, fails_by};

/// A sink of which it is known whether somebody reads it.
pub trait Closable: Sink {
    // Whether nobody reads it.
    ghost closed: { Self → Bool };

    /// Whether nobody reads it.
    fn is_closed(&self) -> bool
        ensures { result ≡ closed self.now };
}

impl<S: Closable> Closable for &mut S {
    ghost closed = { λ s. S.closed s.now };

    fn is_closed(&self) -> bool {
        Closable::is_closed(&**self)
    }
}

impl Closable for Discard {
    ghost closed = { λ s. false };

    fn is_closed(&self) -> bool {
        false
    }
}

/// An output that notes once nobody reads it: once a write or a flush of it fails by `BrokenPipe` (`EPIPE` of POSIX).
/// What it takes and answers is what the sink does.
#[derive(Drop)]
pub struct Output<W> {
    sink: W,
    is_closed: bool,
}

impl<W: Sink> Output<W> {
    /// An output of which it isn't known that nobody reads it.
    pub fn new(sink: W) -> Output<W>
        ensures seen { ⟦<Output<W> as Sink>⟧.seen result ≡ W.seen sink }
        ensures closed { ⟦<Output<W> as Closable>⟧.closed result ≡ false }
    {
        Output {
            sink,
            is_closed: false,
        }
    }
}

impl<W: Sink> Sink for Output<W> {
    ghost seen = { λ s. W.seen s.sink };

    ghost name = { λ s. W.name s.sink };

    fn write(&mut self, piece: &[u8]) -> io::Result<usize>
        ensures bound { WritesAtMost result piece.now }
        ensures bytes { WriteAppends (W.seen self.old.sink).taken (W.seen self.new.sink).taken result piece.now }
        ensures failures { (W.seen self.new.sink).failures ≡ count_after (write_fails piece.now result) (W.seen self.old.sink).failures }
        ensures writes { (W.seen self.new.sink).whole_writes ≡ count_after (write_is_whole piece.now result) (W.seen self.old.sink).whole_writes }
        ensures flushes { (W.seen self.new.sink).flushes ≡ (W.seen self.old.sink).flushes }
        ensures flushed { (W.seen self.new.sink).flushed ≡ flushed_after_write (W.seen self.old.sink).flushed result }
        ensures same { W.name self.new.sink ≡ W.name self.old.sink }
        ensures closed { ClosedAfter self.old.is_closed result self.new.is_closed }
    {
        let taken = self.sink.write(piece);
        if fails_by(&taken, ErrorKind::BrokenPipe) {
            self.is_closed = true;
        }
        taken
    }

    fn flush(&mut self) -> io::Result<()>
        ensures bytes { Keeps (W.seen self.old.sink).taken (W.seen self.new.sink).taken }
        ensures failures { (W.seen self.new.sink).failures ≡ count_after (is_err result) (W.seen self.old.sink).failures }
        ensures writes { (W.seen self.new.sink).whole_writes ≡ (W.seen self.old.sink).whole_writes }
        ensures flushes { (W.seen self.new.sink).flushes ≡ next_count (W.seen self.old.sink).flushes }
        ensures flushed { (W.seen self.new.sink).flushed ≡ flushed_after_flush (W.seen self.old.sink).flushed result }
        ensures same { W.name self.new.sink ≡ W.name self.old.sink }
        ensures closed { ClosedAfter self.old.is_closed result self.new.is_closed }
    {
        let passed = self.sink.flush();
        if fails_by(&passed, ErrorKind::BrokenPipe) {
            self.is_closed = true;
        }
        passed
    }
}

impl<W: Sink> Closable for Output<W> {
    ghost closed = { λ s. s.is_closed };

    fn is_closed(&self) -> bool {
        self.is_closed
    }
}
