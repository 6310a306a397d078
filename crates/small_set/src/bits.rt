//! The bits of a word.

ghost use Rattle.std.specs.Prelude.{◌≡◌, ◌<◌, ◌≤◌, ◌&&◌, ℕ, if◌then◌else◌, nat_le};
ghost use Rattle.std.specs.Int.{bit_at};

/// How many bits a word has.
pub(crate) const WIDTH: u16 = 64;

/// The bits of a word from one on; those below it are clear.
pub(crate) fn bits_from(word: u64, from: u16) -> u64
    requires { from < WIDTH }
    ensures below { (i : ℕ) → i < from → bit_at result i ≡ 0 }
    ensures others { (i : ℕ) → from ≤ i → bit_at result i ≡ bit_at word i }
{
    word & (u64::MAX << from)
}

/// The bits from one to another, both inclusive.
pub(crate) fn bits_between(first: u16, last: u16) -> u64
    requires ordered { first ≤ last }
    requires inside { last < WIDTH }
    ensures some { 0 < result }
    ensures bits { (i : ℕ) → bit_at result i ≡ (if nat_le first i && nat_le i last then 1 else 0) }
{
    (u64::MAX << first) & (u64::MAX >> (63 - last))
}

/// The lowest bit that is set.
pub(crate) fn lowest_bit(word: u64) -> u16
    requires { 0 < word }
    ensures inside { result < WIDTH }
    ensures set { bit_at word result ≡ 1 }
    ensures below { (i : ℕ) → i < result → bit_at word i ≡ 0 }
{
    word.trailing_zeros() as u16
}

/// The highest bit that is set.
pub(crate) fn highest_bit(word: u64) -> u16
    requires { 0 < word }
    ensures inside { result < WIDTH }
    ensures set { bit_at word result ≡ 1 }
    ensures above { (i : ℕ) → result < i → bit_at word i ≡ 0 }
{
    63 - word.leading_zeros() as u16
}
