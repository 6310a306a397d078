//! The colours of a pair at their place in the number of a shown cell.

ghost use Rattle.std.specs.Prelude.{◌≡◌, ◌≤◌, ◌+◌, ◌%◌, ◌&&◌};
ghost use Rattle.cell.specs.{is_none, colour_code, colour_of, colours_of, IsColour, IsPair};
ghost use Rattle.cell.specs.declared.limits.TheConstants.{LAST_COLOUR};

use crate::colour::{Colour, ColourPair, is_colour};
use std::marker::Model;

/// A foreground in bits 16 to 19 and a background from bit 20 on: 0 for the default, and else one more than the
/// colour's number.
#[derive(Clone, Copy)]
pub(crate) struct ColourBits {
    bits: u32,
}

impl Model for ColourBits {
    ghost use Rattle.std.specs.Prelude.{◌≡◌, ◌%◌};
    ghost use Rattle.cell.specs.Packing.{colour_bits, colours_of};
    ghost use Rattle.cell.specs.PackingLaws.{colour_bits-of};
    ghost use Rattle.cell.specs.ShownCells.{IsPair};
    ghost use Rattle.cell.specs.declared.colour.ColourPair.{ColourPair};

    ghost Value = { ColourPair };

    ghost view = { λ c. colours_of c.bits };

    ghost invariant = { λ c. IsPair (colours_of c.bits) × (c.bits % 65536 ≡ 0) };

    ghost inverse = { λ pair. record { bits = colour_bits pair } };

    ghost inverse_ok = { λ c h i. record { bits = colour_bits-of c.bits h.1 i } };
}

impl ColourBits {
    /// The default colours.
    pub(crate) const DEFAULT: ColourBits = ColourBits { bits: 0 };

    /// The bits of two colours.
    pub(crate) fn new(pair: ColourPair) -> ColourBits
        ensures value { result ≡ pair }
        ensures sound { IsPair result }
    {
        ColourBits {
            bits: code(pair.foreground) * 65_536 + code(pair.background) * 1_048_576,
        }
    }

    /// The colours in the number of a shown cell, or of a rendition.
    pub(crate) fn of_bits(bits: u32) -> ColourBits
        requires { IsPair (colours_of bits) }
        ensures { result ≡ colours_of bits }
    {
        ColourBits {
            bits: bits - bits % 65_536,
        }
    }

    /// The colours.
    pub(crate) fn pair(self) -> ColourPair
        ensures { result ≡ self }
    {
        ColourPair {
            foreground: colour(self.bits / 65_536 % 16),
            background: colour(self.bits / 1_048_576),
        }
    }

    /// Their bits.
    pub(crate) fn bits(self) -> u32
        ensures value { colours_of result ≡ self }
        ensures low { result % 65536 ≡ 0 }
        ensures sound { IsPair self }
    {
        self.bits
    }
}

/// One more than the number of a colour, and 0 for the default.
fn code(colour: Option<Colour>) -> u32
    ensures value { result ≡ colour_code colour }
    ensures few { result ≤ LAST_COLOUR + 1 }
    ensures sound { IsColour colour }
{
    match colour {
        Some(colour) => u32::from(colour.number()) + 1,
        None => 0,
    }
}

/// The colour of a code.
fn colour(code: u32) -> Option<Colour>
    requires { IsColour (colour_of code) }
    ensures { result ≡ colour_of code }
{
    if code == 0 {
        None
    } else {
        Some(Colour::of_number((code - 1) as u8))
    }
}
