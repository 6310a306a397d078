//! Texts as a script has them.

ghost use Rattle.std.specs.Prelude.{◌≡◌, ◌≤◌, ◌<◌, ◌∷◌, if◌then◌else◌, ◌==◌};
ghost use Rattle.script.specs.{length, Some, None, IfSome, option_and_then, option_map, backslash, after_x, escaped_character, text_of};

use crate::limits::LONGEST_LINE;
use crate::numbers::hex_byte;
use arrayvec::ArrayVec;

/// The character that a letter after a backslash means.
fn escaped_character(letter: u8) -> Option<u8>
    ensures { result ≡ escaped_character letter }
{
    match letter {
        b'n' => Some(b'\n'),
        b'r' => Some(b'\r'),
        b'b' => Some(8),
        b'\\' => Some(b'\\'),
        _ => None,
    }
}

/// The character of two hexadecimal digits, and what follows them.
fn hex_character(digits: &[u8]) -> Option<(u8, &[u8])>
    ensures text { after_x digits.now ≡ option_and_then (λ p. option_map (λ text. p.0 ∷ text) (text_of p.1.now)) result }
    ensures shorter { IfSome result (λ p. length p.1.now < length digits.now) }
{
    let (high, rest) = digits.split_first()?;
    let (low, rest) = rest.split_first()?;
    let character = hex_byte(*high, *low)?;
    Some((character, rest))
}

/// The first character of a text that is not empty, and what follows it.
fn first_character(piece: &[u8]) -> Option<(u8, &[u8])>
    requires { 0 < length piece.now }
    ensures text { text_of piece.now ≡ option_and_then (λ p. option_map (λ text. p.0 ∷ text) (text_of p.1.now)) result }
    ensures shorter { IfSome result (λ p. length p.1.now < length piece.now) }
{
    let (first, rest) = piece.split_first()?;
    if *first != b'\\' {
        return Some((*first, rest));
    }
    let (letter, rest) = rest.split_first()?;
    if *letter == b'x' {
        return hex_character(rest);
    }
    let character = escaped_character(*letter)?;
    Some((character, rest))
}

/// Puts the characters of a text in place of what was there, and answers whether each backslash has after it what it
/// needs.
pub fn read_text(piece: &[u8], text: &mut ArrayVec<u8, LONGEST_LINE>) -> bool
    requires { length piece.now ≤ LONGEST_LINE }
    ensures { text_of piece.now ≡ (if result then Some text.new.items else None) }
{
    text.clear();
    if !piece.contains(&b'\\') {
        if text.try_extend_from_slice(piece).is_err() {
            unreachable!();
        }
        return true;
    }
    let mut rest = piece;
    while !rest.is_empty() {
        match first_character(rest) {
            Some((character, after)) => {
                text.push(character);
                rest = after;
            }
            None => return false,
        }
    }
    true
}
