//! The parameters of a control sequence.

ghost use Rattle.std.specs.Prelude.{if◌then◌else◌, ◌==◌, ◌≡◌, ◌≤◌};
ghost use Rattle.keys.specs.{is_digit, nat_lt, true, with_digit};

use crate::grammar::is_digit;

/// The first number past all characters: all that are greater are read as this one.
pub const TOO_LARGE: u32 = 0x11_0000;

/// Up to three numbers, and how many of them a separator has ended.
#[derive(Clone, Copy)]
pub struct Parameters {
    pub first: u32,
    pub second: u32,
    pub third: u32,
    /// The number behind a colon in the second one.
    pub event: u32,
    pub ended: u8,
    /// A colon was in the one that isn't ended.
    pub is_behind: bool,
    /// A colon was in one of them.
    pub has_colon: bool,
    /// They are none that a key has.
    pub strange: bool,
}

impl Parameters {
    ghost use Rattle.keys.specs.{after_byte, after_digit, parameters};

    pub const NONE: Parameters = Parameters {
        first: 0,
        second: 0,
        third: 0,
        event: 0,
        ended: 0,
        is_behind: false,
        has_colon: false,
        strange: false,
    };

    /// What one more digit makes of them.
    fn after_digit(self, digit: u8) -> Parameters
        requires { is_digit digit ≡ true }
        ensures { result ≡ after_digit self digit }
    {
        let mut next = self;
        if self.is_behind {
            if self.ended != 0 {
                next.event = with_digit(self.event, digit);
            }
        } else if self.ended == 0 {
            next.first = with_digit(self.first, digit);
        } else if self.ended == 1 {
            next.second = with_digit(self.second, digit);
        } else {
            next.third = with_digit(self.third, digit);
        }
        next
    }

    /// What one more byte makes of them.
    fn after(self, byte: u8) -> Parameters
        ensures { result ≡ after_byte self byte }
    {
        if is_digit(byte) {
            return self.after_digit(byte);
        }
        let mut next = self;
        if byte == b';' && self.ended < 2 {
            next.ended += 1;
            next.is_behind = false;
        } else if byte == b':' && self.takes_colon() {
            next.is_behind = true;
            next.has_colon = true;
        } else {
            next.strange = true;
        }
        next
    }

    /// Whether a colon may follow: any in the first one, one in the second.
    fn takes_colon(self) -> bool
        ensures { result ≡ (if self.is_behind then self.ended == 0 else nat_lt self.ended 2) }
    {
        if self.is_behind {
            self.ended == 0
        } else {
            self.ended < 2
        }
    }

    /// The parameters that some bytes spell.
    pub fn of(bytes: &[u8]) -> Parameters
        ensures { result ≡ parameters bytes.now }
    {
        let mut so_far = Parameters::NONE;
        for byte in bytes {
            so_far = so_far.after(*byte);
        }
        so_far
    }
}

/// A number with one more digit.
fn with_digit(number: u32, digit: u8) -> u32
    requires { is_digit digit ≡ true }
    ensures { result ≡ with_digit number digit }
{
    number
        .saturating_mul(10)
        .saturating_add(u32::from(digit - b'0'))
        .min(TOO_LARGE)
}
