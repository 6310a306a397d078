//! Faulty readers and writers for tests: they give or take pieces, fail, are interrupted, and count.
#![tactic(auto)]

ghost use Rattle.std.specs.Prelude.{◌≡◌, ◌-◌, ◌^◌, None, Some, [], false, true};

use std::alloc::Global;
use std::io;
use std::io::{ErrorKind, Read, Write};

/// A reader that gives some bytes, at most `step` at a time, and then fails or ends.
#[derive(Drop)]
pub struct Pieces<'a> {
    pub bytes: &'a [u8],
    pub step: usize,
    pub fails: bool,
}

impl Read for Pieces<'_> {
    fn read(&mut self, buf: &mut [u8]) -> io::Result<usize> {
        if self.bytes.is_empty() && self.fails {
            return Err(io::Error::from(ErrorKind::Other));
        }
        let count = self.step.min(buf.len()).min(self.bytes.len());
        let (front, rest) = self.bytes.split_at(count);
        buf[..count].copy_from_slice(front);
        self.bytes = rest;
        Ok(count)
    }
}

/// A writer that takes at most `step` bytes a call. Once, where it has taken `stop` bytes, its next write fails or
/// takes none, or its next flush fails; and once more `again` bytes after that. One that is stuck can't be flushed. It
/// counts its writes.
#[derive(Drop)]
pub struct Halting {
    pub taken: Vec<u8>,
    pub writes: u32,
    step: usize,
    stop: Option<usize>,
    again: Option<usize>,
    fails: bool,
    is_stuck: bool,
}

impl Halting {
    /// A writer that takes all, at most so many bytes a call.
    pub fn in_pieces(alloc: Global, step: usize, is_stuck: bool) -> Halting
        ensures taken { result.taken.items ≡ [] }
        ensures rest { result ≡ record { taken = result.taken; writes = 0; step = step; stop = None; again = None; fails = false; is_stuck = is_stuck } }
    {
        Halting {
            taken: Vec::new(alloc),
            writes: 0,
            step,
            stop: None,
            again: None,
            fails: false,
            is_stuck,
        }
    }

    /// A writer that stops once, where it has taken so many bytes.
    pub fn until(alloc: Global, stop: usize, fails: bool) -> Halting
        ensures taken { result.taken.items ≡ [] }
        ensures rest { result ≡ record { taken = result.taken; writes = 0; step = 2 ^ 64 - 1; stop = Some stop; again = None; fails = fails; is_stuck = false } }
    {
        Halting {
            taken: Vec::new(alloc),
            writes: 0,
            step: usize::MAX,
            stop: Some(stop),
            again: None,
            fails,
            is_stuck: false,
        }
    }

    /// A writer that fails where it has taken so many bytes, and once more so many after that.
    pub fn twice(alloc: Global, stop: usize, again: usize) -> Halting
        ensures taken { result.taken.items ≡ [] }
        ensures rest { result ≡ record { taken = result.taken; writes = 0; step = 2 ^ 64 - 1; stop = Some stop; again = Some again; fails = true; is_stuck = false } }
    {
        let mut writer = Halting::until(alloc, stop, true);
        writer.again = Some(again);
        writer
    }

    /// It has stopped.
    fn go_on(&mut self) {
        self.stop = match self.again {
            Some(again) => Some(self.taken.len().saturating_add(again)),
            None => None,
        };
        self.again = None;
    }
}

impl Write for Halting {
    fn write(&mut self, buf: &[u8]) -> io::Result<usize> {
        self.writes = self.writes.saturating_add(1);
        let mut count = self.step.min(buf.len());
        if let Some(stop) = self.stop {
            let room = stop.saturating_sub(self.taken.len());
            if room == 0 {
                self.go_on();
                if self.fails {
                    return Err(io::Error::from(ErrorKind::Other));
                }
                return Ok(0);
            }
            count = count.min(room);
        }
        self.taken.extend_from_slice(&buf[..count])?;
        Ok(count)
    }

    fn flush(&mut self) -> io::Result<()> {
        if self.is_stuck || (self.fails && self.stop == Some(self.taken.len())) {
            self.go_on();
            return Err(io::Error::from(ErrorKind::Other));
        }
        Ok(())
    }
}

/// A stream of which each third read or write is made, and the others are interrupted. It counts them all.
#[derive(Drop)]
pub struct Interrupted<T> {
    pub stream: T,
    pub calls: u32,
}

impl<T> Interrupted<T> {
    /// Counts a call, and fails where it is interrupted.
    fn begin_call(&mut self) -> io::Result<()> {
        self.calls = self.calls.saturating_add(1);
        if self.calls % 3 == 0 {
            Ok(())
        } else {
            Err(io::Error::from(ErrorKind::Interrupted))
        }
    }
}

impl<R: Read> Read for Interrupted<R> {
    fn read(&mut self, buf: &mut [u8]) -> io::Result<usize> {
        self.begin_call()?;
        self.stream.read(buf)
    }
}

impl<W: Write> Write for Interrupted<W> {
    fn write(&mut self, buf: &[u8]) -> io::Result<usize> {
        self.begin_call()?;
        self.stream.write(buf)
    }

    fn flush(&mut self) -> io::Result<()> {
        self.stream.flush()
    }
}
