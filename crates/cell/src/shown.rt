//! A shown cell: a character with a rendition.

ghost use Rattle.std.specs.Prelude.{◌≡◌, ◌<◌, if◌then◌else◌};
ghost use Rattle.cell.specs.{true, bits_of, valid_attributes, is_printable, IsRendition, IsShown, default_pair, rendition_with, shown_in, same_rendition, same_shown, rendition_bits, rendition_of};
ghost use Rattle.cell.specs.{shown_bits, shown_of, partial_equiv_from_equiv};

use crate::attr::Attr;
use crate::cell::{Cell, is_printable};
use crate::colour::ColourPair;
use crate::colour_bits::ColourBits;
use bitflags::Flags;
use std::marker::Model;

/// How characters are printed: with attributes, and in the colours of a pair. It is kept as the number of a shown cell
/// without its character.
#[derive(Clone, Copy, Debug)]
pub struct Rendition {
    bits: u32,
}

impl Model for Rendition {
    ghost use Rattle.std.specs.Prelude.{◌≡◌, ◌%◌};
    ghost use Rattle.cell.specs.Packing.{rendition_bits, rendition_of};
    ghost use Rattle.cell.specs.PackingLaws.{rendition_bits-of};
    ghost use Rattle.cell.specs.ShownCells.{Rendition, IsRendition};

    ghost Value = { Rendition };

    ghost view = { λ r. rendition_of r.bits };

    ghost invariant = { λ r. IsRendition (rendition_of r.bits) × (r.bits % 256 ≡ 0) };

    ghost inverse = { λ rendition. record { bits = rendition_bits rendition } };

    ghost inverse_ok = { λ r h i. record { bits = rendition_bits-of r.bits h.1 i } };
}

impl PartialEq for Rendition {
    ghost use Rattle.cell.specs.EqualityLaws.{same_rendition-equivalence};

    ghost eq = { same_rendition };

    ghost laws = { partial_equiv_from_equiv same_rendition-equivalence };

    fn eq(&self, other: &Rendition) -> bool {
        self.bits == other.bits
    }
}

impl Eq for Rendition {
    ghost use Rattle.cell.specs.EqualityLaws.{same_rendition-equivalence};

    ghost laws = { same_rendition-equivalence };
}

impl Rendition {
    /// No attributes, and the default colours.
    pub const NONE: Rendition = Rendition { bits: 0 };

    /// The six attributes of a set, in the colours of a pair.
    pub fn new(attrs: Attr, pair: ColourPair) -> Rendition
        ensures value { result ≡ rendition_with pair (valid_attributes (bits_of attrs)) }
        ensures sound { IsRendition result }
    {
        let colours = ColourBits::new(pair);
        Rendition {
            bits: colours.bits() + u32::from(attrs.valid_attributes().bits()) * 256,
        }
    }

    /// The rendition as one number.
    pub(crate) fn bits(self) -> u32
        ensures value { result ≡ rendition_bits self }
        ensures held { self ≡ rendition_of result }
    {
        self.bits
    }

    /// The attributes.
    pub fn attrs(self) -> Attr
        ensures value { bits_of result ≡ self.attributes }
        ensures of_the_six { bits_of result < 64 }
        ensures sound { IsRendition self }
    {
        Attr::from_bits_retain((self.bits / 256 % 256) as u8)
    }

    /// The foreground and the background.
    pub fn colours(self) -> ColourPair
        ensures { result ≡ record { foreground = self.foreground; background = self.background } }
    {
        ColourBits::of_bits(self.bits).pair()
    }
}

/// A character from 32 to 126 with its rendition. It is kept as one number: the character in bits 0 to 7, the
/// attributes in bits 8 to 15, and from bit 16 on the colours.
#[derive(Clone, Copy, Debug)]
pub struct Shown {
    bits: u32,
}

impl Model for Shown {
    ghost use Rattle.cell.specs.Packing.{shown_bits, shown_of};
    ghost use Rattle.cell.specs.PackingLaws.{shown_bits-of};
    ghost use Rattle.cell.specs.ShownCells.{Shown, IsShown};

    ghost Value = { Shown };

    ghost view = { λ s. shown_of s.bits };

    ghost invariant = { λ s. IsShown (shown_of s.bits) };

    ghost inverse = { λ shown. record { bits = shown_bits shown } };

    ghost inverse_ok = { λ s h i. record { bits = shown_bits-of s.bits i } };
}

impl PartialEq for Shown {
    ghost use Rattle.cell.specs.EqualityLaws.{same_shown-equivalence};

    ghost eq = { same_shown };

    ghost laws = { partial_equiv_from_equiv same_shown-equivalence };

    fn eq(&self, other: &Shown) -> bool {
        self.bits == other.bits
    }
}

impl Eq for Shown {
    ghost use Rattle.cell.specs.EqualityLaws.{same_shown-equivalence};

    ghost laws = { same_shown-equivalence };
}

impl Shown {
    /// The space with the empty rendition.
    pub const BLANK: Shown = Shown { bits: 32 };

    /// A character from 32 to 126 with a rendition, and none for another.
    pub fn new(ch: u8, rendition: Rendition) -> Option<Shown>
        ensures { result ≡ (if is_printable ch then Some (record { character = ch; rendition = rendition }) else None) }
    {
        if is_printable(ch) {
            Some(Shown {
                bits: rendition.bits + u32::from(ch),
            })
        } else {
            None
        }
    }

    /// The character and the attributes of a cell in other colours than its pair's.
    pub(crate) fn of_cell(cell: Cell, colours: ColourBits) -> Shown
        ensures { result ≡ shown_in colours cell }
    {
        Shown {
            bits: cell.bits() % 65_536 + colours.bits(),
        }
    }

    /// The cell as one number.
    pub(crate) fn bits(self) -> u32
        ensures value { result ≡ shown_bits self }
        ensures held { self ≡ shown_of result }
        ensures sound { IsShown self }
    {
        self.bits
    }

    /// The character.
    pub fn ch(self) -> u8
        ensures value { result ≡ self.character }
        ensures sound { IsShown self }
    {
        (self.bits % 256) as u8
    }

    /// The rendition.
    pub fn rendition(self) -> Rendition
        ensures value { result ≡ self.rendition }
        ensures sound { IsShown self }
    {
        Rendition {
            bits: self.bits - self.bits % 256,
        }
    }
}
