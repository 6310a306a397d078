//! What is kept of a stream that is read byte by byte.

#![tactic(auto, using(crate::proofs::Readers::otherwise))]

ghost use Rattle.std.specs.Prelude.{◌≡◌, ◌+◌, ◌≤◌, ◌∷◌};
ghost use Rattle.ecma.specs.{ℕ, IfNone, IfOk, IfSome, List, [], LARGEST_SCREEN, IsDigit, separator, HasRead, Follows, HasFailed, blank_terminal, saturating_u64, IsInProfile};
ghost use Rattle.ecma.specs.Terminals;

use crate::page::Page;
use crate::parameter::Parameter;
use std::alloc::{AllocError, Global};
use std::marker::Model;

/// A stream isn't in the profile: no item with an effect begins at this offset. An offset past the greatest u64 is
/// given as that.
#[derive(Clone, Copy, PartialEq, Eq)]
pub struct NotInProfile {
    pub at: u64,
}

/// Where the bytes read so far end.
#[derive(Clone, Copy)]
pub enum State {
    /// After an item, or at the start.
    Text,
    /// After an escape.
    Escape,
    /// Within the parameters of a control sequence.
    Parameters,
    /// After the stream's failure.
    Failed,
}

/// The escape, which begins control sequences.
const ESCAPE: u8 = 27;

/// What follows the escape of a control sequence.
const BRACKET: u8 = b'[';

/// What is between two parameters.
const SEPARATOR: u8 = b';';

/// The most parameters that a separator ends.
const MOST_ENDED: usize = 15;

/// The page that a stream leaves, and what is kept of its end. It takes no memory once it is made.
#[derive(Drop)]
pub struct Reader {
    pub page: Page,
    state: State,
    ended: [Parameter; MOST_ENDED],
    count: usize,
    current: Parameter,
    read: u64,
    start: u64,
}

impl Model for Reader {
    ghost use Rattle.std.specs.Prelude.{◌≤◌, take};
    ghost use Rattle.ecma.specs.Readers.{Reader};
    ghost use Rattle.ecma.specs.declared.reader.TheConstants.{MOST_ENDED};

    ghost Value = { Reader };

    ghost view = { λ t. record { terminal = t.page; state = t.state; ended = take t.count t.ended; current = t.current; read = t.read; start = t.start } };

    ghost invariant = { λ t. t.count ≤ MOST_ENDED };
}

impl Reader {
    /// A blank page with the cursor at its first place, of the empty stream.
    pub fn new(alloc: Global, lines: u16, columns: u16) -> Result<Reader, AllocError>
        requires lines { 1 ≤ lines }
        requires few_lines { lines ≤ LARGEST_SCREEN }
        requires columns { 1 ≤ columns }
        requires few_columns { columns ≤ LARGEST_SCREEN }
        ensures read { IfOk result (HasRead [] (blank_terminal lines columns)) }
        ensures blank { IfOk result (λ reader. reader.terminal ≡ blank_terminal lines columns) }
    {
        Ok(Reader {
            page: Page::new(alloc, lines, columns)?,
            state: State::Text,
            ended: [Parameter::EMPTY; MOST_ENDED],
            count: 0,
            current: Parameter::EMPTY,
            read: 0,
            start: 0,
        })
    }

    /// Where the stream that was read leaves the profile, and none where it is in the profile.
    pub fn fault(&self) -> Option<NotInProfile>
        ensures profile { (stream : List ℕ) (first : Terminals.Terminal) → HasRead stream first self.now
            → IfNone result (IsInProfile stream first self.now.terminal) }
        ensures fault { (stream : List ℕ) (first : Terminals.Terminal) → HasRead stream first self.now
            → IfSome result (λ fault. HasFailed stream first self.now.terminal fault.at) }
    {
        match self.state {
            State::Failed => Some(NotInProfile { at: self.start }),
            _ => None,
        }
    }
}

impl Reader {
    /// Reads one byte.
    pub fn step(&mut self, byte: u8)
        ensures { Follows (byte ∷ []) self.old self.new }
    {
        let at = self.read;
        self.read = at.saturating_add(1);
        match self.state {
            State::Text => self.read_text(at, byte),
            State::Escape => self.read_escaped(at, byte),
            State::Parameters => self.read_parameter(at, byte),
            State::Failed => {}
        }
    }

    /// Reads the byte at an offset after an item.
    fn read_text(&mut self, at: u64, byte: u8)
        requires state { self.old.state ≡ State.Text }
        requires read { self.old.read ≡ saturating_u64 (at + 1) }
        ensures { Follows (byte ∷ []) (record self.old { read = at }) self.new }
    {
        if byte == ESCAPE {
            self.start = at;
            self.state = State::Escape;
        } else if !self.page.print(byte) {
            self.start = at;
            self.state = State::Failed;
        }
    }

    /// Reads the byte at an offset after an escape.
    #[tactic(auto, using(crate::proofs::Readers::in_escape))]
    fn read_escaped(&mut self, at: u64, byte: u8)
        requires state { self.old.state ≡ State.Escape }
        requires read { self.old.read ≡ saturating_u64 (at + 1) }
        ensures { Follows (byte ∷ []) (record self.old { read = at }) self.new }
    {
        if byte == ESCAPE {
            self.start = at;
        } else if byte == BRACKET {
            self.count = 0;
            self.current = Parameter::EMPTY;
            self.state = State::Parameters;
        } else {
            self.state = State::Failed;
        }
    }

    /// Reads the byte at an offset within the parameters of a control sequence.
    fn read_parameter(&mut self, at: u64, byte: u8)
        requires state { self.old.state ≡ State.Parameters }
        requires read { self.old.read ≡ saturating_u64 (at + 1) }
        ensures { Follows (byte ∷ []) (record self.old { read = at }) self.new }
    {
        if byte == ESCAPE {
            self.start = at;
            self.state = State::Escape;
        } else if byte.is_ascii_digit() {
            self.read_digit(byte);
        } else if byte == SEPARATOR {
            self.read_separator();
        } else {
            self.read_final(byte);
        }
    }

    /// Reads a digit of a parameter.
    #[tactic(auto, using(crate::proofs::Readers::in_digits))]
    fn read_digit(&mut self, digit: u8)
        requires state { self.old.state ≡ State.Parameters }
        requires digit { IsDigit digit }
        ensures { (at : ℕ) → self.old.read ≡ saturating_u64 (at + 1) → Follows (digit ∷ []) (record self.old { read = at }) self.new }
    {
        match self.current.with_digit(digit) {
            Some(longer) => self.current = longer,
            None => self.state = State::Failed,
        }
    }

    /// Reads the separator after a parameter.
    #[tactic(auto, using(crate::proofs::Readers::at_separator))]
    fn read_separator(&mut self)
        requires { self.old.state ≡ State.Parameters }
        ensures { (at : ℕ) → self.old.read ≡ saturating_u64 (at + 1) → Follows (separator ∷ []) (record self.old { read = at }) self.new }
    {
        if self.count < MOST_ENDED {
            self.ended[self.count] = self.current;
            self.count += 1;
            self.current = Parameter::EMPTY;
        } else {
            self.state = State::Failed;
        }
    }

    /// Reads a byte that can only be the final one of a control sequence.
    fn read_final(&mut self, byte: u8)
        requires state { self.old.state ≡ State.Parameters }
        requires no_escape { byte ≡ 27 → ⊥ }
        requires no_digit { IsDigit byte → ⊥ }
        requires no_separator { byte ≡ separator → ⊥ }
        ensures { (at : ℕ) → self.old.read ≡ saturating_u64 (at + 1) → Follows (byte ∷ []) (record self.old { read = at }) self.new }
    {
        let done = self
            .page
            .control(byte, &self.ended[..self.count], self.current);
        self.state = if done { State::Text } else { State::Failed };
    }
}
