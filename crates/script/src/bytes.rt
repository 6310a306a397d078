//! The bytes of a script, one after another, and its lines.

ghost use Rattle.std.specs.Prelude.{◌≡◌, ◌≤◌, ◌<◌, ◌+◌, ◌∷◌};
ghost use Rattle.script.specs.{ℕ, [], length, slice_index, take, drop, position, IfSome, true, false, is_newline, ReadingEnds, ReadsLine, ReadsWhole, end_failed, goes_on, has_newline, line_ended};
ghost use Rattle.script.specs.{line_failed, met_end, position_or_len, MovesBytes, ReadsByte, byte_ended, byte_failed, is_byte};

use crate::limits::LONGEST_LINE;
use arrayvec::ArrayVec;
use std::marker::Model;
use std::simd::prelude::*;
use streams::{Source, append};

/// How many bytes are read at once, at most. No line among them is too long.
const LONGEST_PIECE: usize = 512;

/// What comes next of a script.
#[derive(Clone, Copy)]
enum Next {
    Byte(u8),
    End,
    Failed,
}

/// What follows a line.
#[derive(Clone, Copy, PartialEq, Eq)]
pub enum LineEnd {
    Newline,
    /// The script ends.
    ScriptEnd,
    /// A read failed.
    ReadFailed,
}

/// How many bytes are looked through at once.
const LANES: usize = 16;

/// How many of the bytes that are looked through at once come before a newline: all, where none is one.
fn before_newline(text: &[u8], from: usize) -> usize
    requires { from + LANES ≤ length text.now }
    ensures within { result ≤ LANES }
    ensures none { (k : ℕ) → from ≤ k → k < from + result → is_newline (slice_index text.now k) ≡ false }
    ensures found { result < LANES → is_newline (slice_index text.now (from + result)) ≡ true }
{
    let newlines = u8x16::from_slice(&text[from..])
        .simd_eq(u8x16::splat(b'\n'))
        .to_bitmask();
    if newlines == 0 {
        LANES
    } else {
        newlines.trailing_zeros() as usize
    }
}

/// Where the first newline is of a few bytes.
fn newline_of_few(text: &[u8]) -> Option<usize>
    ensures { result ≡ position is_newline text.now }
{
    text.iter().position(|b| *b == b'\n')
}

/// Where the first newline is.
fn first_newline(text: &[u8]) -> Option<usize>
    ensures { result ≡ position is_newline text.now }
{
    let mut from = 0;
    while text.len() - from >= LANES {
        let before = before_newline(text, from);
        if before < LANES {
            return Some(from + before);
        }
        from += LANES;
    }
    match newline_of_few(&text[from..]) {
        Some(at) => Some(from + at),
        None => None,
    }
}

/// How many bytes come before the first newline: all, where there is none.
fn before_first_newline(text: &[u8]) -> usize
    ensures value { result ≡ position_or_len is_newline text.now }
    ensures within { result ≤ length text.now }
{
    match first_newline(text) {
        Some(at) => at,
        None => text.len(),
    }
}

/// Bytes that were read and are not used.
#[derive(Drop)]
struct Bytes {
    piece: [u8; LONGEST_PIECE],
    from: usize,
    to: usize,
}

impl Model for Bytes {
    ghost use Rattle.std.specs.Prelude.{ℕ, List, ◌-◌, ◌≤◌, take, drop};
    ghost use Rattle.script.specs.declared.bytes.TheConstants.{LONGEST_PIECE};

    ghost Value = { List ℕ };

    ghost view = { λ b. take (b.to - b.from) (drop b.from b.piece) };

    ghost invariant = { λ b. (b.from ≤ b.to) × (b.to ≤ LONGEST_PIECE) };
}

impl Bytes {
    /// No byte yet.
    fn new() -> Bytes
        ensures { result ≡ [] }
    {
        Bytes {
            piece: [0; LONGEST_PIECE],
            from: 0,
            to: 0,
        }
    }

    /// Where the first newline is.
    #[inline(always)]
    fn first_newline(&self) -> Option<usize>
        ensures newline { result ≡ position is_newline self.now }
        ensures short { IfSome result (λ at. at < LONGEST_PIECE) }
    {
        first_newline(&self.piece[self.from..self.to])
    }

    /// The first bytes.
    fn first(&self, count: usize) -> &[u8]
        requires { count ≤ length self.now }
        ensures { result.now ≡ take count self.now }
    {
        &self.piece[self.from..self.from + count]
    }

    /// Leaves out the first bytes.
    #[tactic(auto, using(crate::proofs::ByteLemmas::first_left_out))]
    fn leave_out(&mut self, count: usize)
        requires { count ≤ length self.old }
        ensures { self.new ≡ drop count self.old }
    {
        self.from += count;
    }

    /// The first byte that is not used.
    fn take(&mut self) -> u8
        requires { 0 < length self.old }
        ensures { self.old ≡ result ∷ self.new }
    {
        let byte = self.piece[self.from];
        self.from += 1;
        byte
    }

    /// The next byte. It reads where all bytes are used.
    fn next<R: Source>(&mut self, source: &mut R) -> Next
        ensures byte { ReadsByte (R.seen source.old) (R.seen source.new) self.old self.new result }
        ensures ends { ReadingEnds (R.seen source.old) (R.seen source.new) self.old self.new (byte_ended result) (byte_failed result) (is_byte result) }
    {
        if self.from < self.to {
            return Next::Byte(self.take());
        }
        match source.read(&mut self.piece) {
            Ok(0) => Next::End,
            Ok(count) => {
                self.from = 0;
                self.to = count;
                Next::Byte(self.take())
            }
            Err(_) => Next::Failed,
        }
    }

    /// Moves the bytes before the first newline to the end of a line, as many as it has room for.
    fn move_into(&mut self, line: &mut ArrayVec<u8, LONGEST_LINE>)
        ensures { MovesBytes self.old self.new line.old.items line.new.items }
    {
        let unused = &self.piece[self.from..self.to];
        let room = LONGEST_LINE - line.len();
        let count = before_first_newline(unused).min(room);
        append(line, &unused[..count]);
        self.leave_out(count);
    }

    /// The bytes up to the next newline, in place of what was in `line`, and what follows them. Of a line that is
    /// too long it takes as many as a line may have, and one more, and answers none. Where the end is met, nothing is
    /// read after it.
    #[inline(never)]
    fn gather_line<R: Source>(
        &mut self,
        source: &mut R,
        line: &mut ArrayVec<u8, LONGEST_LINE>,
    ) -> Option<LineEnd>
        ensures line { ReadsLine (R.seen source.old) (R.seen source.new) self.old self.new line.new.items result }
        ensures ends { ReadingEnds (R.seen source.old) (R.seen source.new) self.old self.new (line_ended result) (line_failed result) (goes_on result) }
    {
        line.clear();
        loop {
            self.move_into(line);
            match self.next(source) {
                Next::Byte(byte) => {
                    if byte == b'\n' {
                        return Some(LineEnd::Newline);
                    }
                    if line.is_full() {
                        return None;
                    }
                    line.push(byte);
                }
                Next::End => return Some(LineEnd::ScriptEnd),
                Next::Failed => return Some(LineEnd::ReadFailed),
            }
        }
    }
}

/// The lines of a script, one after another. One that is whole in a piece, its newline too, is read there, not copied.
#[derive(Drop)]
pub struct Lines {
    bytes: Bytes,
    /// How many of the bytes are the line that was read last and its newline. It is 0 where that was gathered.
    used: usize,
    gathered: ArrayVec<u8, LONGEST_LINE>,
}

impl Model for Lines {
    ghost use Rattle.std.specs.Prelude.{◌≤◌, ◌-◌, ◌==◌, length, take, drop, if◌then◌else◌};
    ghost use Rattle.script.specs.Lines.{Held};
    ghost use Rattle.script.specs.declared.bytes.TheConstants.{LONGEST_PIECE};

    ghost Value = { Held };

    ghost view = { λ l. record {
      line = if l.used == 0 then l.gathered.items else take (l.used - 1) l.bytes;
      unused = drop l.used l.bytes;
    } };

    ghost invariant = { λ l. (l.used ≤ length l.bytes) × (l.used ≤ LONGEST_PIECE) };
}

impl Lines {
    /// No line yet.
    pub fn new() -> Lines
        ensures { result ≡ record { line = []; unused = [] } }
    {
        Lines {
            bytes: Bytes::new(),
            used: 0,
            gathered: ArrayVec::new(),
        }
    }

    /// The line that was read last.
    pub fn line(&self) -> &[u8]
        ensures line { result.now ≡ self.now.line }
        ensures short { length result.now ≤ LONGEST_LINE }
    {
        if self.used == 0 {
            self.gathered.as_slice()
        } else {
            self.bytes.first(self.used - 1)
        }
    }

    /// Reads the bytes up to the next newline, and answers what follows them. Of a line that is too long it takes as
    /// many as a line may have, and one more, and answers none. Where the end is met, nothing is read after it.
    #[inline(always)]
    #[tactic(auto, using(crate::proofs::ByteLemmas::unread_line))]
    pub fn next_line<R: Source>(&mut self, source: &mut R) -> Option<LineEnd>
        ensures line { ReadsLine (R.seen source.old) (R.seen source.new) self.old.unused self.new.unused self.new.line result }
        ensures ends { ReadingEnds (R.seen source.old) (R.seen source.new) self.old.unused self.new.unused
            (line_ended result) (line_failed result) (goes_on result) }
    {
        self.bytes.leave_out(self.used);
        match self.bytes.first_newline() {
            Some(at) => {
                self.used = at + 1;
                Some(LineEnd::Newline)
            }
            None => {
                self.used = 0;
                self.bytes.gather_line(source, &mut self.gathered)
            }
        }
    }

    /// Reads the bytes up to the next newline, where they are no more than a line may have; else they are left out. It
    /// answers what follows them, and whether they were kept. Where the end is met, nothing is read after it.
    pub fn next_whole_line<R: Source>(&mut self, source: &mut R) -> (LineEnd, bool)
        ensures line { ReadsWhole (R.seen source.old) (R.seen source.new) self.old.unused self.new.unused self.new.line result.0 result.1 }
        ensures ends { ReadingEnds (R.seen source.old) (R.seen source.new) self.old.unused self.new.unused
            (met_end result.0) (end_failed result.0) (has_newline result.0) }
    {
        let mut is_kept = true;
        loop {
            match self.next_line(source) {
                Some(end) => return (end, is_kept),
                None => is_kept = false,
            }
        }
    }
}
