//! A cell: a character with attributes and a colour pair.

ghost use Rattle.std.specs.Prelude.{◌≡◌, ◌+◌, ◌*◌, ◌&&◌, ◌<◌, if◌then◌else◌};
ghost use Rattle.cell.specs.{nat_le, true, bits_of, valid_attributes, given_cell, gives_cell, IsCell, is_printable, same_glyph, partial_equiv_from_equiv, list_all};
ghost use Rattle.cell.specs.declared.limits.TheConstants.{LAST_PAIR};

use crate::attr::Attr;
use crate::colour::PairId;
use crate::limits::{FIRST_CHARACTER, LAST_CHARACTER};
use bitflags::Flags;
use std::marker::Model;

/// A character from 32 to 126 with its attributes and the number of its colour pair. It is kept as its number of
/// `bits`.
#[derive(Clone, Copy, Debug)]
pub struct Cell {
    bits: u32,
}

impl Model for Cell {
    ghost use Rattle.cell.specs.Glyphs.{Glyph, IsCell};
    ghost use Rattle.cell.specs.Packing.{glyph_bits, glyph_of};
    ghost use Rattle.cell.specs.PackingLaws.{glyph_bits-of};

    ghost Value = { Glyph };

    ghost view = { λ c. glyph_of c.bits };

    ghost invariant = { λ c. IsCell (glyph_of c.bits) };

    ghost inverse = { λ glyph. record { bits = glyph_bits glyph } };

    ghost inverse_ok = { λ c h i. record { bits = glyph_bits-of c.bits i } };
}

impl PartialEq for Cell {
    ghost use Rattle.cell.specs.EqualityLaws.{same_glyph-equivalence};

    ghost eq = { same_glyph };

    ghost laws = { partial_equiv_from_equiv same_glyph-equivalence };

    fn eq(&self, other: &Cell) -> bool {
        self.bits == other.bits
    }
}

impl Eq for Cell {
    ghost use Rattle.cell.specs.EqualityLaws.{same_glyph-equivalence};

    ghost laws = { same_glyph-equivalence };
}

impl Cell {
    /// The space without attributes, of pair 0.
    pub const BLANK: Cell = Cell { bits: 32 };

    /// The cell of a character from 32 to 126 and a pair up to `LAST_PAIR`, and none for others.
    pub fn new(ch: u8, attr: Attr, pair: u16) -> Option<Cell>
        ensures { result ≡ (if is_printable ch && nat_le pair LAST_PAIR
            then Some (record { character = ch; attributes = valid_attributes (bits_of attr); pair = pair }) else None) }
    {
        match PairId::new(pair) {
            Some(pair) if is_printable(ch) => Some(pack(ch, attr.valid_attributes(), pair)),
            _ => None,
        }
    }

    /// The cell that a number gives, without bits beyond the six attributes.
    pub fn of_number(number: u32) -> Cell
        requires { gives_cell number ≡ true }
        ensures value { result ≡ given_cell number }
        ensures sound { IsCell result }
    {
        Cell {
            bits: number - number / 16_384 % 4 * 16_384,
        }
    }

    /// The cell with another pair.
    pub fn with_pair(self, pair: PairId) -> Cell
        ensures { result ≡ record self { pair = pair } }
    {
        pack(self.ch(), self.attr(), pair)
    }

    /// The cell with another character, from 32 to 126.
    pub fn with_character(self, ch: u8) -> Cell
        requires { is_printable ch ≡ true }
        ensures { result ≡ record self { character = ch } }
    {
        Cell {
            bits: self.bits - self.bits % 256 + u32::from(ch),
        }
    }

    /// The character.
    pub fn ch(self) -> u8
        ensures value { result ≡ self.character }
        ensures sound { IsCell self }
    {
        (self.bits % 256) as u8
    }

    /// The attributes.
    pub fn attr(self) -> Attr
        ensures value { bits_of result ≡ self.attributes }
        ensures sound { IsCell self }
    {
        Attr::from_bits_retain((self.bits / 256 % 256) as u8)
    }

    /// The colour pair.
    pub fn pair(self) -> PairId
        ensures value { result ≡ self.pair }
        ensures sound { IsCell self }
    {
        PairId::of_number((self.bits / 65_536) as u8)
    }

    /// The cell as one number: 65,536 times its pair, 256 times its attributes, and its character.
    pub fn bits(self) -> u32
        ensures value { result ≡ 65536 * self.pair + 256 * self.attributes + self.character }
        ensures sound { IsCell self }
    {
        self.bits
    }
}

/// The cell of a printable character, some of the six attributes and a pair.
fn pack(ch: u8, attr: Attr, pair: PairId) -> Cell
    requires character { is_printable ch ≡ true }
    requires attributes { bits_of attr < 64 }
    ensures { result ≡ record { character = ch; attributes = bits_of attr; pair = pair } }
{
    Cell {
        bits: u32::from(pair.number()) * 65_536 + u32::from(attr.bits()) * 256 + u32::from(ch),
    }
}

/// Whether a cell can hold a character: the space to the tilde.
pub fn is_printable(ch: u8) -> bool
    ensures { result ≡ is_printable ch }
{
    (FIRST_CHARACTER..=LAST_CHARACTER).contains(&ch)
}

/// Whether a cell can hold each character of a text, by a loop with one exit, which the compiler vectorizes.
pub fn are_printable(text: &[u8]) -> bool
    ensures { result ≡ list_all is_printable text.now }
{
    let mut all = true;
    for ch in text {
        all &= is_printable(*ch);
    }
    all
}

/// Whether a cell can hold the character and the pair that a number gives: where its other bits are left out, it is the
/// character.
pub fn gives_cell(number: u32) -> bool
    ensures { result ≡ gives_cell number }
{
    let rest = number - number / 256 % 16_384 * 256;
    (u32::from(FIRST_CHARACTER)..=u32::from(LAST_CHARACTER)).contains(&rest)
}

/// Whether each of some numbers gives a cell, by a loop of the same form.
pub fn all_give_cells(numbers: &[u32]) -> bool
    ensures { result ≡ list_all gives_cell numbers.now }
{
    let mut all = true;
    for number in numbers {
        all &= gives_cell(*number);
    }
    all
}
