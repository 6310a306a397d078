//! Sets of attributes.

ghost use Rattle.std.specs.Prelude.{◌≡◌, ◌<◌, ◌∷◌};
ghost use Rattle.cell.specs.{⊤, [], codes, bits_of, hex_digit, hex_digits, valid_attributes};

use bitflags::{Flag, Flags, bitflag_items};

/// A set of the attributes of X/Open Curses that a terminal of ECMA-48 shows. Bits beyond the six can only come in
/// by `from_bits_retain`, and every call that gets an `Attr` drops them.
#[derive(Clone, Copy, PartialEq, Eq, Debug)]
pub struct Attr(u8);

bitflag_items! {
    impl Attr: u8 {
        const BOLD = 0x01;
        const DIM = 0x02;
        const UNDERLINE = 0x04;
        const BLINK = 0x08;
        const REVERSE = 0x10;
        const INVIS = 0x20;
    }
}

impl Flags for Attr {
    type Bits = u8;

    ghost exact = { ⊤ };

    ghost table = { (codes "BOLD", 0x01) ∷ (codes "DIM", 0x02) ∷ (codes "UNDERLINE", 0x04) ∷ (codes "BLINK", 0x08)
        ∷ (codes "REVERSE", 0x10) ∷ (codes "INVIS", 0x20) ∷ [] };

    ghost set_of = { λ a. a.0 };

    fn flags<'a>() -> &'a [Flag<Attr>] {
        Attr::FLAGS
    }

    fn bits(&self) -> u8 {
        self.0
    }

    fn from_bits_retain(bits: u8) -> Attr {
        Attr(bits)
    }
}

impl Attr {
    /// No attribute.
    pub const NONE: Attr = Attr(0);

    /// The six attributes of the set, with other bits dropped.
    pub fn valid_attributes(self) -> Attr
        ensures value { bits_of result ≡ valid_attributes (bits_of self) }
        ensures of_the_six { bits_of result < 64 }
    {
        Attr(self.0 & 0x3f)
    }

    /// The six attributes as two hexadecimal digits in lower case, with other bits dropped.
    pub fn hex_digits(self) -> [u8; 2]
        ensures digits { result ≡ hex_digits (valid_attributes (bits_of self)) }
        ensures all { bits_of self < 64 → result ≡ hex_digits (bits_of self) }
    {
        hex_digits(self.0 & 0x3f)
    }
}

/// A byte as two hexadecimal digits in lower case.
pub fn hex_digits(byte: u8) -> [u8; 2]
    ensures { result ≡ hex_digits byte }
{
    [hex_digit(byte / 16), hex_digit(byte % 16)]
}

/// The hexadecimal digit of a number below 16.
fn hex_digit(n: u8) -> u8
    requires { n < 16 }
    ensures { result ≡ hex_digit n }
{
    if n < 10 { b'0' + n } else { b'a' + (n - 10) }
}
