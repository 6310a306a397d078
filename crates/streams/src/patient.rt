//! A stream whose reads and writes are made again where a signal interrupted them.

ghost use Rattle.std.specs.Prelude.{◌≡◌, ◌≢◌};
ghost use Rattle.streams.specs.{IfErr, ReadsAtMost, WritesAtMost, ReadConsumes, WriteAppends, error_kind};

use crate::outcome::fails_by;
use std::io;
use std::io::{ErrorKind, Read, Write};

/// A stream of which each read and each write is made again as long as a signal interrupts it (`EINTR` of POSIX). After
/// 2^64 - 1 times it fails by `TimedOut`. A flush is passed on.
#[derive(Drop)]
pub struct Patient<T> {
    pub stream: T,
}

/// The error of a call that was interrupted each time.
fn gave_up() -> io::Error
    ensures { error_kind result ≡ ErrorKind.TimedOut }
{
    io::Error::from(ErrorKind::TimedOut)
}

impl<R: Read> Read for Patient<R> {
    ghost remaining = { λ s. R.remaining s.stream };

    fn read(&mut self, buf: &mut [u8]) -> io::Result<usize>
        ensures bound { ReadsAtMost result buf.new }
        ensures bytes { ReadConsumes (R.remaining self.old.stream) (R.remaining self.new.stream) result buf.new }
        ensures again { IfErr result (λ e. error_kind e ≢ ErrorKind.Interrupted) }
    {
        for _ in 0..u64::MAX {
            let given = self.stream.read(buf);
            if !fails_by(&given, ErrorKind::Interrupted) {
                return given;
            }
        }
        Err(gave_up())
    }
}

impl<W: Write> Write for Patient<W> {
    ghost contents = { λ s. W.contents s.stream };

    fn write(&mut self, buf: &[u8]) -> io::Result<usize>
        ensures bound { WritesAtMost result buf.now }
        ensures bytes { WriteAppends (W.contents self.old.stream) (W.contents self.new.stream) result buf.now }
        ensures again { IfErr result (λ e. error_kind e ≢ ErrorKind.Interrupted) }
    {
        for _ in 0..u64::MAX {
            let taken = self.stream.write(buf);
            if !fails_by(&taken, ErrorKind::Interrupted) {
                return taken;
            }
        }
        Err(gave_up())
    }

    fn flush(&mut self) -> io::Result<()> {
        self.stream.flush()
    }
}
