//! Numbers, attributes and flags as a script has them.

ghost use Rattle.std.specs.Prelude.{◌≡◌, ◌≤◌, ◌<◌, ◌∷◌};
ghost use Rattle.script.specs.{length, take, slice_index, IfSome, None, true, false, is_ascii_digit, list_all, slice_split, is_space, pieces_of, DigitsSoFar, NextNumber, attributes_of, flag_of};
ghost use Rattle.script.specs.{hex_byte, hex_value, negative, number_or_none, number_up_to, signed_number};

use crate::limits::{ALL_ATTRIBUTES, GREATEST_NUMBER, GREATEST_SIGNED, MOST_DIGITS};

/// Whether all bytes of a piece are decimal digits.
pub fn has_digits_alone(piece: &[u8]) -> bool
    ensures { result ≡ list_all is_ascii_digit piece.now }
{
    piece.iter().all(|b| b.is_ascii_digit())
}

/// The number that the first digits of a text write, no more of them than a number may have, and how many they are.
fn first_digits(text: &[u8]) -> (u32, usize)
    ensures digits { DigitsSoFar text.now result.1 result.0 }
    ensures within { result.1 ≤ length text.now }
    ensures few { result.1 ≤ MOST_DIGITS }
    ensures stops { result.1 < length text.now → result.1 < MOST_DIGITS → is_ascii_digit (slice_index text.now result.1) ≡ false }
{
    let mut value = 0;
    for (count, b) in text.iter().enumerate() {
        if count == MOST_DIGITS || !b.is_ascii_digit() {
            return (value, count);
        }
        value = value * 10 + u32::from(*b - b'0');
    }
    (value, text.len())
}

/// The number of the first digits of a text, if there is a digit, no leading zero but `0` itself, and the number is not
/// past `most`.
fn plain_number(most: u16, text: &[u8], value: u32, count: usize) -> Option<u16>
    requires digits { DigitsSoFar text.now count value }
    requires within { count ≤ length text.now }
    requires few { count ≤ MOST_DIGITS }
    ensures { result ≡ number_up_to most (take count text.now) }
{
    if count == 0 || value > u32::from(most) {
        return None;
    }
    if count > 1 && text[0] == b'0' {
        return None;
    }
    Some(value as u16)
}

/// A number from 0 to `most`: digits, not too many, with no leading zero but `0` itself.
pub fn number_up_to(most: u16, piece: &[u8]) -> Option<u16>
    ensures { result ≡ number_up_to most piece.now }
{
    let (value, count) = first_digits(piece);
    if count < piece.len() {
        return None;
    }
    plain_number(most, piece, value, count)
}

/// What is after the digits at the beginning of a text: a space and more of it, or nothing.
#[tactic(auto, using(crate::proofs::NumberLemmas::digits_alone, crate::proofs::NumberLemmas::digits_before_space))]
fn after_digits(text: &[u8], count: usize) -> Option<Option<&[u8]>>
    requires digits { list_all is_ascii_digit (take count text.now) ≡ true }
    requires within { count ≤ length text.now }
    ensures split { IfSome result (λ after. slice_split is_space text.now ≡ take count text.now ∷ pieces_of after) }
    ensures short { IfSome result (λ after. IfSome after (λ rest. length rest.now ≤ length text.now)) }
    ensures other { result ≡ None → (count < length text.now) × (is_space (slice_index text.now count) ≡ false) }
{
    if count == text.len() {
        Some(None)
    } else if text[count] == b' ' {
        Some(Some(&text[count + 1..]))
    } else {
        None
    }
}

/// What the digit says that a text begins with, if a space or nothing follows it.
fn single_digit(text: &[u8]) -> Option<u32>
    ensures { IfSome result (λ value. DigitsSoFar text.now 1 value × (1 ≤ length text.now)
        × (1 < length text.now → is_ascii_digit (slice_index text.now 1) ≡ false)) }
{
    let first = *text.first()?;
    if !first.is_ascii_digit() || (text.len() > 1 && text[1] != b' ') {
        return None;
    }
    Some(u32::from(first - b'0'))
}

/// The number of the first digits of a text, if it is one and a space or nothing follows, and what is after the space.
#[inline(always)]
fn number_before(text: &[u8], value: u32, count: usize) -> Option<(u16, Option<&[u8]>)>
    requires digits { DigitsSoFar text.now count value }
    requires within { count ≤ length text.now }
    requires few { count ≤ MOST_DIGITS }
    requires stops { count < length text.now → count < MOST_DIGITS → is_ascii_digit (slice_index text.now count) ≡ false }
    ensures number { NextNumber text.now result }
    ensures short { IfSome result (λ r. IfSome r.1 (λ rest. length rest.now ≤ length text.now)) }
{
    let Some(after) = after_digits(text, count) else {
        return None;
    };
    let number = plain_number(GREATEST_NUMBER, text, value, count)?;
    Some((number, after))
}

/// The number before the first space of a text, and what is after the space if there is one. A single digit, as most
/// numbers are, is looked for first.
#[inline(always)]
pub fn next_number(text: &[u8]) -> Option<(u16, Option<&[u8]>)>
    ensures number { NextNumber text.now result }
    ensures short { IfSome result (λ r. IfSome r.1 (λ rest. length rest.now ≤ length text.now)) }
{
    if let Some(value) = single_digit(text) {
        return number_before(text, value, 1);
    }
    let (value, count) = first_digits(text);
    number_before(text, value, count)
}

/// A number, or `none` for none.
pub fn number_or_none(piece: &[u8]) -> Option<Option<u16>>
    ensures { result ≡ number_or_none piece.now }
{
    if piece == b"none".as_slice() {
        Some(None)
    } else {
        number_up_to(GREATEST_NUMBER, piece).map(Some)
    }
}

/// The number with a minus before it, which 0 has not.
fn negative(n: u16) -> Option<i16>
    requires { n ≤ GREATEST_SIGNED }
    ensures { result ≡ negative n }
{
    if n == 0 { None } else { Some(-(n as i16)) }
}

/// A number up to the greatest signed one, or `-` and such a number other than 0.
pub fn signed_number(piece: &[u8]) -> Option<i16>
    ensures { result ≡ signed_number piece.now }
{
    let (first, digits) = piece.split_first()?;
    if *first == b'-' {
        let n = number_up_to(GREATEST_SIGNED, digits)?;
        negative(n)
    } else {
        let n = number_up_to(GREATEST_SIGNED, piece)?;
        Some(n as i16)
    }
}

/// The value of a digit `0` to `9` or `a` to `f`.
fn hex_value(b: u8) -> Option<u8>
    ensures { result ≡ hex_value b }
{
    match b {
        b'0'..=b'9' => Some(b - b'0'),
        b'a'..=b'f' => Some(b - b'a' + 10),
        _ => None,
    }
}

/// The value of two such digits.
pub fn hex_byte(high: u8, low: u8) -> Option<u8>
    ensures { result ≡ hex_byte high low }
{
    match (hex_value(high), hex_value(low)) {
        (Some(high), Some(low)) => Some(16 * high + low),
        _ => None,
    }
}

/// A set of attributes.
pub fn attributes_of(piece: &[u8]) -> Option<u8>
    ensures { result ≡ attributes_of piece.now }
{
    match piece {
        [high, low] => match hex_byte(*high, *low) {
            Some(attributes) if attributes <= ALL_ATTRIBUTES => Some(attributes),
            _ => None,
        },
        _ => None,
    }
}

/// `on` or `off`.
pub fn flag_of(piece: &[u8]) -> Option<bool>
    ensures { result ≡ flag_of piece.now }
{
    if piece == b"on".as_slice() {
        Some(true)
    } else if piece == b"off".as_slice() {
        Some(false)
    } else {
        None
    }
}
