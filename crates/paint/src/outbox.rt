//! Gathers a text in a buffer of fixed size, from which it goes out in pieces.

ghost use Rattle.std.specs.Prelude.{◌≡◌, ◌≤◌, ◌<◌, ◌+◌, ◌++◌, ◌^◌};
ghost use Rattle.paint.specs.{ℕ, IfOk, List, [], length, slice_index_or, array_vec_len, IsShown, shown_blank, LANES, LARGEST_SCREEN, Sends, WritesOnce, Seen, WritesFew, Gathers, GoesOut, IsGathered};
ghost use Rattle.paint.specs.{empty_outbox, characters};
ghost use Rattle.paint.specs.declared.outbox.TheConstants.{ROOM};

use arrayvec::ArrayVec;
use cell::{LANES, Shown};
use std::alloc::{AllocError, Global};
use std::marker::Model;
use streams::{Sink, WriteFault, send};

/// How many bytes are gathered before they are sent.
pub const ROOM: usize = 4_096;

/// The next piece of a text, and how many bytes went out before it. Once a write failed nothing more is sent. The piece
/// is in a box, so that an outbox is moved in a few words.
#[derive(Drop)]
pub struct Outbox {
    room: Box<ArrayVec<u8, ROOM>>,
    sent: u32,
    failed: bool,
}

impl Model for Outbox {
    ghost use Rattle.paint.specs.steps.Gathering.{Outbox};

    ghost Value = { Outbox };

    ghost view = { λ outbox. record { room = outbox.room.value.items; sent = outbox.sent; failed = outbox.failed } };
}

impl Outbox {
    /// An outbox in which nothing was gathered, and from which nothing was sent.
    pub fn new(alloc: Global) -> Result<Outbox, AllocError>
        ensures { IfOk result (λ outbox. outbox ≡ empty_outbox) }
    {
        Ok(Outbox {
            room: Box::new(alloc, ArrayVec::new())?,
            sent: 0,
            failed: false,
        })
    }

    /// Begins a text: nothing of it was gathered, and nothing was sent.
    pub fn begin(&mut self)
        ensures { self.new ≡ empty_outbox }
    {
        self.room.clear();
        self.sent = 0;
        self.failed = false;
    }

    /// Puts a piece after what was gathered. Nothing is sent where there is room for it.
    pub fn put<W: Sink>(&mut self, sink: &mut W, piece: &[u8])
        requires { length piece.now ≤ LARGEST_SCREEN }
        ensures gathers { Gathers (W.seen sink.old) (W.seen sink.new) self.old self.new piece.now }
        ensures quiet { length self.old.room + length piece.now ≤ ROOM → W.seen sink.new ≡ W.seen sink.old }
        ensures same { W.name sink.new ≡ W.name sink.old }
    {
        self.make_room(sink, piece.len());
        append(&mut self.room, piece);
    }

    /// Puts the characters of cells after what was gathered. Nothing is sent where there is room for them.
    pub fn put_characters<W: Sink>(&mut self, sink: &mut W, cells: &[Shown])
        requires { length cells.now ≤ LARGEST_SCREEN }
        ensures gathers { Gathers (W.seen sink.old) (W.seen sink.new) self.old self.new (characters cells.now) }
        ensures quiet { length self.old.room + length cells.now ≤ ROOM → W.seen sink.new ≡ W.seen sink.old }
        ensures sound { (k : ℕ) → k < length cells.now → IsShown (slice_index_or cells.now k shown_blank) }
        ensures same { W.name sink.new ≡ W.name sink.old }
    {
        self.make_room(sink, cells.len());
        append_characters(&mut self.room, cells);
    }

    /// Sends what was gathered, unless so many more bytes fit.
    fn make_room<W: Sink>(&mut self, sink: &mut W, more: usize)
        requires { more ≤ LARGEST_SCREEN }
        ensures gathers { Gathers (W.seen sink.old) (W.seen sink.new) self.old self.new [] }
        ensures room { length self.new.room + more ≤ ROOM }
        ensures quiet { length self.old.room + more ≤ ROOM → W.seen sink.new ≡ W.seen sink.old }
        ensures same { W.name sink.new ≡ W.name sink.old }
    {
        if self.room.remaining_capacity() < more {
            self.hand_on(sink);
        }
    }

    /// Sends what was gathered.
    fn hand_on<W: Sink>(&mut self, sink: &mut W)
        ensures goes_out { (start : Seen) (text : List ℕ) → GoesOut self.old.failed start (W.seen sink.old) self.old.room self.old.sent text
            → GoesOut self.new.failed start (W.seen sink.new) [] self.new.sent (text ++ []) }
        ensures once { WritesOnce (W.seen sink.old) (W.seen sink.new) }
        ensures empty { self.new.room ≡ [] }
        ensures same { W.name sink.new ≡ W.name sink.old }
    {
        (self.sent, self.failed) = send_on(sink, self.room.as_slice(), self.sent, self.failed);
        self.room.clear();
    }

    /// Sends what is left of a text, and says how many bytes went out.
    pub fn finish<W: Sink>(&mut self, sink: &mut W) -> Result<u32, WriteFault>
        ensures sends { (start : Seen) (text : List ℕ) → IsGathered start (W.seen sink.old) self.old text → length text < 2 ^ 32
            → Sends start (W.seen sink.new) 0 text result }
        ensures few { (start : Seen) (text : List ℕ) → IsGathered start (W.seen sink.old) self.old text
            → WritesFew start (W.seen sink.new) (length text) }
        ensures same { W.name sink.new ≡ W.name sink.old }
    {
        self.hand_on(sink);
        if self.failed {
            Err(WriteFault { sent: self.sent })
        } else {
            Ok(self.sent)
        }
    }
}

/// Sends the next piece of a text, of which so many bytes went out, unless a write failed before. It answers how many
/// bytes went out then, and whether a write failed.
fn send_on<W: Sink>(sink: &mut W, piece: &[u8], sent: u32, failed: bool) -> (u32, bool)
    requires { length piece.now ≤ ROOM }
    ensures goes_out { (start : Seen) (text : List ℕ) → GoesOut failed start (W.seen sink.old) piece.now sent text
        → GoesOut result.1 start (W.seen sink.new) [] result.0 (text ++ []) }
    ensures once { WritesOnce (W.seen sink.old) (W.seen sink.new) }
    ensures same { W.name sink.new ≡ W.name sink.old }
{
    if failed {
        return (sent, true);
    }
    match send(sink, 0, piece) {
        Ok(more) => (sent.saturating_add(more), false),
        Err(fault) => (sent.saturating_add(fault.sent), true),
    }
}

/// Appends a piece.
fn append(bytes: &mut ArrayVec<u8, ROOM>, piece: &[u8])
    requires { array_vec_len bytes.old + length piece.now ≤ ROOM }
    ensures { bytes.new.items ≡ bytes.old.items ++ piece.now }
{
    if bytes.try_extend_from_slice(piece).is_err() {
        unreachable!();
    }
}

/// Appends the characters of cells, of many at once.
fn append_characters(bytes: &mut ArrayVec<u8, ROOM>, cells: &[Shown])
    requires { array_vec_len bytes.old + length cells.now ≤ ROOM }
    ensures appended { bytes.new.items ≡ bytes.old.items ++ characters cells.now }
    ensures sound { (k : ℕ) → k < length cells.now → IsShown (slice_index_or cells.now k shown_blank) }
{
    let mut start = 0;
    while cells.len() - start >= LANES {
        append(bytes, &characters_of(&cells[start..start + LANES]));
        start += LANES;
    }
    append_few(bytes, &cells[start..]);
}

/// The characters of so many cells, by a loop with one exit, which the compiler vectorizes.
fn characters_of(cells: &[Shown]) -> [u8; LANES]
    requires { length cells.now ≡ LANES }
    ensures characters { result ≡ characters cells.now }
    ensures sound { (k : ℕ) → k < length cells.now → IsShown (slice_index_or cells.now k shown_blank) }
{
    let mut characters = [0; LANES];
    for x in 0..LANES {
        characters[x] = cells[x].ch();
    }
    characters
}

/// Appends the characters of cells, one after another.
fn append_few(bytes: &mut ArrayVec<u8, ROOM>, cells: &[Shown])
    requires { array_vec_len bytes.old + length cells.now ≤ ROOM }
    ensures appended { bytes.new.items ≡ bytes.old.items ++ characters cells.now }
    ensures sound { (k : ℕ) → k < length cells.now → IsShown (slice_index_or cells.now k shown_blank) }
{
    for cell in cells {
        bytes.push(cell.ch());
    }
}
