//! Sources: what gives the bytes of a text.

ghost use Rattle.std.specs.Prelude.{◌≡◌, ◌-◌, ◌^◌, ◌||◌};
ghost use Rattle.streams.specs.{false, is_err, IsErr, ReadsAtMost, ReadConsumes, count_after, SourceSeen, met_end_after_read};

use std::io;
use std::io::{ErrorKind, Read};

/// What gives bytes, and counts its failures: each error is one. Every source ends.
pub trait Source {
    // What is left of it, whether its end was met and read past, how often it failed, and how many reads are left.
    ghost seen: { Self → SourceSeen };

    /// Puts the next bytes at the start of the buffer, and says how many. An answer of 0 for a buffer that isn't empty
    /// is the end.
    fn read(&mut self, buffer: &mut [u8]) -> io::Result<usize>
        ensures bound { ReadsAtMost result buffer.new }
        ensures bytes { ReadConsumes (seen self.old).left (seen self.new).left result buffer.new }
        ensures end { (seen self.new).met_end ≡ met_end_after_read (seen self.old).met_end buffer.new result }
        ensures past { (seen self.new).read_past_end ≡ ((seen self.old).read_past_end || (seen self.old).met_end) }
        ensures failures { (seen self.new).failures ≡ count_after (is_err result) (seen self.old).failures }
        ensures reads { (seen self.new).reads_left ≡ (seen self.old).reads_left - 1 }
        ensures exhausted { (seen self.old).reads_left ≡ 0 → IsErr result };
}

/// A source made of any reader. After 2^64 - 1 reads each further one is an error.
#[derive(Drop)]
pub struct CountedReader<R> {
    reader: R,
    met_end: bool,
    read_past_end: bool,
    failures: u64,
    reads_left: u64,
}

impl<R: Read> CountedReader<R> {
    /// A source of what the reader has left, with no failure yet.
    pub fn new(reader: R) -> CountedReader<R>
        ensures { ⟦<CountedReader<R> as Source>⟧.seen result
            ≡ record { left = R.remaining reader; met_end = false; read_past_end = false; failures = 0; reads_left = 2 ^ 64 - 1 } }
    {
        CountedReader {
            reader,
            met_end: false,
            read_past_end: false,
            failures: 0,
            reads_left: u64::MAX,
        }
    }
}

impl<R: Read> Source for CountedReader<R> {
    ghost seen = { λ s. record {
      left = R.remaining s.reader;
      met_end = s.met_end;
      read_past_end = s.read_past_end;
      failures = s.failures;
      reads_left = s.reads_left;
    } };

    fn read(&mut self, buffer: &mut [u8]) -> io::Result<usize> {
        self.read_past_end |= self.met_end;
        if self.reads_left == 0 {
            self.failures = self.failures.wrapping_add(1);
            return Err(io::Error::from(ErrorKind::Other));
        }
        self.reads_left -= 1;
        let outcome = self.reader.read(buffer);
        match outcome {
            Ok(0) if !buffer.is_empty() => self.met_end = true,
            Ok(_) => {}
            Err(_) => self.failures = self.failures.wrapping_add(1),
        }
        outcome
    }
}
