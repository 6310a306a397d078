//! The text of a finding, as it is gathered.

ghost use Rattle.std.specs.Prelude.{◌≡◌, ◌≤◌};
ghost use Rattle.checks.specs.{length, true, list_all, is_printable};
ghost use Rattle.checks.specs.declared.said.TheConstants.{MOST_CALLS, ROOM};

use arrayvec::ArrayVec;
use cell::is_printable;
use itoa::Buffer;
use script::{RefreshWord, Word};
use std::marker::Model;

/// Room for what is said of a line: two words of it, and 512 bytes more.
pub const ROOM: usize = 1536;

/// How many calls a line names at its end.
pub const MOST_CALLS: usize = 4;

/// What is said of a line, and the calls that it names at its end. Only bytes that are printed get into it, and as many
/// as there is room for.
#[derive(Drop)]
pub struct Said {
    text: ArrayVec<u8, ROOM>,
    calls: [Word; MOST_CALLS],
    count: usize,
}

impl Model for Said {
    ghost use Rattle.std.specs.Prelude.{◌≡◌, ◌≤◌, ℕ, List, take, true};
    ghost use Rattle.checks.specs.declared.said.TheConstants.{MOST_CALLS};
    ghost use Rattle.script.specs.declared.words.Word.{Word};
    ghost use Rattle.std.specs.List.{list_all};
    ghost use Rattle.cell.specs.Glyphs.{is_printable};

    ghost Value = { List ℕ × List Word };

    ghost view = { λ said. (said.text.items, take said.count said.calls) };

    ghost invariant = { λ said. (list_all is_printable said.text.items ≡ true) × (said.count ≤ MOST_CALLS) };
}

impl Said {
    pub fn new() -> Said {
        Said {
            text: ArrayVec::new(),
            calls: [Word::Refresh(RefreshWord::Doupdate); MOST_CALLS],
            count: 0,
        }
    }

    /// Adds a text.
    pub fn text(&mut self, piece: &[u8]) {
        for byte in piece {
            if is_printable(*byte) && !self.text.is_full() {
                self.text.push(*byte);
            }
        }
    }

    /// Adds a number.
    pub fn number(&mut self, n: usize) {
        let mut buffer = Buffer::new();
        self.text(buffer.format(n as u64).as_bytes());
    }

    /// Adds a call to those that are named.
    pub fn call(&mut self, word: Word) {
        if self.count < MOST_CALLS {
            self.calls[self.count] = word;
            self.count += 1;
        }
    }

    /// What was said.
    pub fn bytes(&self) -> &[u8]
        ensures text { result.now ≡ self.now.0 }
        ensures printable { list_all is_printable result.now ≡ true }
        ensures short { length result.now ≤ ROOM }
    {
        self.text.as_slice()
    }

    /// The calls that are named.
    pub fn calls(&self) -> &[Word]
        ensures calls { result.now ≡ self.now.1 }
        ensures few { length result.now ≤ MOST_CALLS }
    {
        &self.calls[..self.count]
    }
}
