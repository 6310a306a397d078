//! A terminal: it reads a stream of bytes in pieces, and shows what the stream says.

ghost use Rattle.std.specs.Prelude.{◌≡◌, ◌↔◌, ◌⊎◌, ◌||◌, ◌<◌, ◌≤◌, if◌then◌else◌};
ghost use Rattle.ecma.specs.{ℕ, All, IfOk, IfErr, IfNone, IfSome, IsErrOf, IsTrue, List, [], length, Some, is_no_size, is_place, line_of, shown_at, HasRead, HasReadSome, Follows, HasFailed};
ghost use Rattle.ecma.specs.{blank_terminal, IsInProfile};
ghost use Rattle.ecma.specs.Terminals;

use crate::reader::{NotInProfile, Reader};
use cell::{Grid, LARGEST_SCREEN, Refusal, Rendition, Shown, is_no_size};
use std::alloc::Global;
use std::marker::Model;

/// A terminal that reads a stream in pieces, cut anywhere. It takes no memory once it is made.
#[derive(Drop)]
pub struct Terminal {
    reader: Reader,
}

impl Model for Terminal {
    ghost use Rattle.ecma.specs.Readers.{Reader, HasReadSome};

    ghost Value = { Reader };

    ghost view = { λ t. t.reader };

    ghost invariant = { λ t. HasReadSome t.reader };
}

impl Terminal {
    /// A blank terminal with the cursor at its first place and the empty rendition. It has 1 to `LARGEST_SCREEN` lines
    /// and columns; another size is refused as `BadSize`, and the only other refusal is `NoMemory`.
    pub fn new(alloc: Global, lines: u16, columns: u16) -> Result<Terminal, Refusal>
        ensures read { IfOk result (HasRead [] (blank_terminal lines columns)) }
        ensures blank { IfOk result (λ terminal. terminal.terminal ≡ blank_terminal lines columns) }
        ensures size { IsErrOf result Refusal.BadSize ↔ IsTrue (is_no_size LARGEST_SCREEN lines || is_no_size LARGEST_SCREEN columns) }
        ensures memory { IfErr result (λ refusal. (refusal ≡ Refusal.BadSize) ⊎ (refusal ≡ Refusal.NoMemory)) }
    {
        if is_no_size(LARGEST_SCREEN, lines) || is_no_size(LARGEST_SCREEN, columns) {
            return Err(Refusal::BadSize);
        }
        match Reader::new(alloc, lines, columns) {
            Ok(reader) => Ok(Terminal { reader }),
            Err(_) => Err(Refusal::NoMemory),
        }
    }

    /// Reads the next piece of the stream, of any length, and answers whether all that was read is in the profile.
    pub fn feed(&mut self, piece: &[u8]) -> Result<(), NotInProfile>
        ensures follows { Follows piece.now self.old self.new }
        ensures profile { (stream : List ℕ) (first : Terminals.Terminal) → HasRead stream first self.new
            → IfOk result (λ _. IsInProfile stream first self.new.terminal) }
        ensures fault { (stream : List ℕ) (first : Terminals.Terminal) → HasRead stream first self.new
            → IfErr result (λ fault. HasFailed stream first self.new.terminal fault.at) }
    {
        for byte in piece {
            self.reader.step(*byte);
        }
        match self.reader.fault() {
            Some(fault) => Err(fault),
            None => Ok(()),
        }
    }

    /// Where the stream that was read leaves the profile, and none where it is in the profile.
    pub fn fault(&self) -> Option<NotInProfile>
        ensures read { HasReadSome self.now }
        ensures profile { (stream : List ℕ) (first : Terminals.Terminal) → HasRead stream first self.now
            → IfNone result (IsInProfile stream first self.now.terminal) }
        ensures fault { (stream : List ℕ) (first : Terminals.Terminal) → HasRead stream first self.now
            → IfSome result (λ fault. HasFailed stream first self.now.terminal fault.at) }
    {
        self.reader.fault()
    }

    /// How many lines there are.
    pub fn lines(&self) -> u16
        ensures { result ≡ length self.now.terminal.picture }
    {
        self.reader.page.lines
    }

    /// The picture.
    pub fn picture(&self) -> &Grid<Shown>
        ensures picture { result.now ≡ self.now.terminal.picture }
        ensures narrow { All (λ line. length line ≤ LARGEST_SCREEN) result.now }
    {
        self.reader.page.picture.picture()
    }

    /// The cells of line `y`, from left to right.
    pub fn row(&self, y: u16) -> &[Shown]
        requires { y < length self.now.terminal.picture }
        ensures { result.now ≡ line_of self.now.terminal.picture y }
    {
        self.picture().row(usize::from(y))
    }

    /// The cell at line `y` and column `x`, and none off the screen.
    pub fn cell(&self, y: u16, x: u16) -> Option<Shown>
        ensures { result ≡ (if is_place self.now.terminal.picture (y, x) then Some (shown_at self.now.terminal.picture (y, x)) else None) }
    {
        if y < self.reader.page.lines && x < self.reader.page.columns {
            Some(self.row(y)[usize::from(x)])
        } else {
            None
        }
    }

    /// The line and the column of the cursor, and none where it is unknown.
    pub fn cursor(&self) -> Option<(u16, u16)>
        ensures { result ≡ self.now.terminal.cursor }
    {
        self.reader.page.cursor
    }

    /// The rendition of what is printed next.
    pub fn rendition(&self) -> Rendition
        ensures { result ≡ self.now.terminal.rendition }
    {
        self.reader.page.rendition
    }
}
