//! Gathering a text in a buffer of fixed size before it is sent.

ghost use Rattle.std.specs.Prelude.{◌≡◌, ◌≤◌, ◌+◌, ◌++◌};
ghost use Rattle.streams.specs.{decimal, length};

use arrayvec::ArrayVec;
use itoa::Buffer;

/// The most digits of a u64 in decimal.
pub const MOST_DECIMAL_DIGITS: usize = 20;

/// Appends bytes to a text that has room for them.
pub fn append<const N: usize>(text: &mut ArrayVec<u8, N>, piece: &[u8])
    requires { length text.old.items + length piece.now ≤ N }
    ensures { text.new.items ≡ text.old.items ++ piece.now }
{
    if text.try_extend_from_slice(piece).is_err() {
        unreachable!();
    }
}

/// Appends a number in decimal to a text that has room for the greatest one.
pub fn append_decimal<const N: usize>(text: &mut ArrayVec<u8, N>, n: u64)
    requires { length text.old.items + MOST_DECIMAL_DIGITS ≤ N }
    ensures text { text.new.items ≡ text.old.items ++ decimal n }
    ensures short { length text.new.items ≤ length text.old.items + MOST_DECIMAL_DIGITS }
{
    let mut buffer = Buffer::new();
    append(text, buffer.format(n).as_bytes());
}
