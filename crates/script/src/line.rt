//! What a line of a script says.

ghost use Rattle.std.specs.Prelude.{◌≡◌, ◌≤◌, ◌+◌, ◌<◌, ◌∷◌, ◌≢◌, ◌↔◌};
ghost use Rattle.script.specs.{ℕ, List, length, position, slice_index, IfSome, Some, None, false, true, list_all, list_any, slice_split, OnTrue, is_printable, no_arguments, parse_arguments};
ghost use Rattle.script.specs.{is_bad_byte, is_space, arguments, is_skipped, is_text, parse_line, pieces_of, room_of, Reads, TakesFirst};
ghost use Rattle.script.specs.declared.words.Form.{Form};

use crate::arguments::Arguments;
use crate::fault::TextFault;
use crate::limits::{LONGEST_LINE, MOST_ARGUMENTS};
use crate::numbers::next_number;
use crate::words::{Form, Word};
use cell::are_printable;
use std::simd::prelude::*;

/// How many bytes of a line are looked through at once for a bad one, and how many of a short line.
const PIECE: usize = 16;

const SHORT_PIECE: usize = 8;

/// Whether a cell can hold each character of a text. Pieces of one size are looked at, the last of which ends with the
/// text, so that where the size is known no byte is looked at alone.
#[inline(always)]
#[tactic(auto, using(crate::proofs::BadBytes::printable_so_far))]
fn are_printable_by(size: usize, text: &[u8]) -> bool
    requires some { 0 < size }
    requires room { size ≤ length text.now }
    ensures { result ≡ list_all is_printable text.now }
{
    let last = text.len() - size;
    let mut at = 0;
    while at < last {
        if !are_printable(&text[at..at + size]) {
            return false;
        }
        at += size;
    }
    are_printable(&text[last..])
}

/// Whether a piece has a byte that no line may have.
#[tactic(auto, using(crate::proofs::BadBytes::some_bad))]
fn has_bad(piece: &[u8]) -> bool
    ensures { result ≡ list_any is_bad_byte piece.now }
{
    if piece.len() > PIECE {
        !are_printable_by(PIECE, piece)
    } else if piece.len() >= SHORT_PIECE {
        !are_printable_by(SHORT_PIECE, piece)
    } else {
        !are_printable(piece)
    }
}

/// Whether a line has no byte or is a comment.
fn is_skipped(line: &[u8]) -> bool
    ensures { result ≡ is_skipped line.now }
{
    match line.split_first() {
        None => true,
        Some((first, rest)) => *first == b'#' && !has_bad(rest),
    }
}

/// Whether an argument takes all that is left of a line.
fn is_text(form: Form) -> bool
    ensures { result ≡ is_text form }
{
    matches!(form, Form::Character | Form::Text)
}

/// Whether an argument is a number.
fn is_number(form: Form) -> bool
    ensures { (result ≡ true) ↔ (form ≡ Form.Number) }
{
    matches!(form, Form::Number)
}

/// How many bytes are looked through at once for the space after a word. `move`, `addch` and `addstr` have theirs among
/// them; the rest of a longer word is looked through a byte at a time.
const WORD_LANES: usize = 8;

/// How many of the first bytes come before a space: all that are looked through, where none is one.
fn before_space(text: &[u8]) -> usize
    requires { WORD_LANES ≤ length text.now }
    ensures within { result ≤ WORD_LANES }
    ensures none { (k : ℕ) → k < result → is_space (slice_index text.now k) ≡ false }
    ensures found { result < WORD_LANES → is_space (slice_index text.now result) ≡ true }
{
    let spaces = u8x8::from_slice(text)
        .simd_eq(u8x8::splat(b' '))
        .to_bitmask();
    if spaces == 0 {
        WORD_LANES
    } else {
        spaces.trailing_zeros() as usize
    }
}

/// Where the first space is of any bytes.
fn space_of_any(text: &[u8]) -> Option<usize>
    ensures { result ≡ position is_space text.now }
{
    text.iter().position(|b| *b == b' ')
}

/// Where the first space is.
fn first_space(text: &[u8]) -> Option<usize>
    ensures { result ≡ position is_space text.now }
{
    if text.len() >= WORD_LANES {
        let before = before_space(text);
        if before < WORD_LANES {
            return Some(before);
        }
        return match space_of_any(&text[WORD_LANES..]) {
            Some(at) => Some(WORD_LANES + at),
            None => None,
        };
    }
    space_of_any(text)
}

/// What is before the first space, and what is after it if there is one.
#[tactic(auto, using(crate::proofs::LineLemmas::split_found, crate::proofs::LineLemmas::split_none))]
pub fn split_at_space(text: &[u8]) -> (&[u8], Option<&[u8]>)
    ensures pieces { slice_split is_space text.now ≡ result.0.now ∷ pieces_of result.1 }
    ensures short { length result.0.now ≤ length text.now }
    ensures rest { IfSome result.1 (λ rest. length result.0.now + 1 + length rest.now ≤ length text.now) }
    ensures room { length result.0.now + room_of result.1 ≤ length text.now }
{
    match first_space(text) {
        Some(at) => (&text[..at], Some(&text[at + 1..])),
        None => (text, None),
    }
}

/// An argument of a form at the beginning of a text, and what follows it.
#[tactic(auto, using(crate::proofs::ArgumentLemmas::text_argument))]
pub fn next_argument(form: Form, text: &[u8]) -> (&[u8], Option<&[u8]>)
    ensures argument { (forms : List Form) → arguments (form ∷ forms) (slice_split is_space text.now)
        ≡ result.0.now ∷ arguments forms (pieces_of result.1) }
    ensures short { length result.0.now ≤ length text.now }
    ensures rest { IfSome result.1 (λ rest. length result.0.now + 1 + length rest.now ≤ length text.now) }
    ensures room { length result.0.now + room_of result.1 ≤ length text.now }
{
    if is_text(form) {
        (text, None)
    } else {
        split_at_space(text)
    }
}

/// Whether as many arguments follow a call's word as it has forms.
#[tactic(auto, using(crate::proofs::ArgumentLemmas::too_few, crate::proofs::ArgumentLemmas::too_many, crate::proofs::ArgumentLemmas::as_many))]
fn has_count(forms: &[Form], text: Option<&[u8]>) -> bool
    ensures right { OnTrue result (length (arguments forms.now (pieces_of text.entry)) ≡ length forms.now) }
    ensures wrong { result ≡ false → length (arguments forms.now (pieces_of text.entry)) ≢ length forms.now }
{
    let mut rest = text;
    for form in forms {
        match rest {
            Some(text) => rest = next_argument(*form, text).1,
            None => return false,
        }
    }
    match rest {
        Some(_) => false,
        None => true,
    }
}

/// Takes what the first argument of a text says, and answers what follows it, if it has its form.
fn take_first<'a>(form: Form, text: &'a [u8], taken: &mut Arguments) -> Option<Option<&'a [u8]>>
    requires room { length taken.old.numbers < MOST_ARGUMENTS }
    requires short { length text.now ≤ LONGEST_LINE }
    ensures takes { TakesFirst form text.now taken.old taken.new result }
    ensures count { length taken.new.numbers ≤ length taken.old.numbers + 1 }
    ensures short { IfSome result (λ after. IfSome after (λ rest. length rest.now ≤ length text.now)) }
{
    let (piece, after) = next_argument(form, text);
    if taken.take(form, piece) {
        Some(after)
    } else {
        None
    }
}

/// Takes what the arguments of a text say, after others, and answers whether they are as many as the forms and each has
/// its own. It is not inlined, so that a loop over numbers keeps to registers.
#[inline(never)]
#[tactic(auto, using(crate::proofs::ArgumentLemmas::too_few, crate::proofs::ArgumentLemmas::too_many, crate::proofs::ArgumentLemmas::as_many))]
fn take_more(forms: &[Form], text: &[u8], taken: &mut Arguments) -> bool
    requires room { length forms.now + length taken.old.numbers ≤ MOST_ARGUMENTS }
    requires short { length text.now ≤ LONGEST_LINE }
    ensures count { OnTrue result (length (arguments forms.now (slice_split is_space text.now)) ≡ length forms.now) }
    ensures right { OnTrue result (parse_arguments forms.now (arguments forms.now (slice_split is_space text.now)) taken.old ≡ Some taken.new) }
    ensures wrong { result ≡ false → length (arguments forms.now (slice_split is_space text.now)) ≡ length forms.now
        → parse_arguments forms.now (arguments forms.now (slice_split is_space text.now)) taken.old ≡ None }
{
    let mut rest = Some(text);
    for form in forms {
        let Some(text) = rest else { return false };
        let Some(after) = take_first(*form, text, taken) else {
            return false;
        };
        rest = after;
    }
    match rest {
        Some(_) => false,
        None => true,
    }
}

/// Takes what the arguments say, and answers the same. A number is read and split off in one pass.
#[inline(always)]
fn take_all(forms: &[Form], text: Option<&[u8]>, taken: &mut Arguments) -> bool
    requires forms { length forms.now ≤ MOST_ARGUMENTS }
    requires short { IfSome text (λ t. length t.now ≤ LONGEST_LINE) }
    requires start { taken.old ≡ no_arguments }
    ensures count { OnTrue result (length (arguments forms.now (pieces_of text.entry)) ≡ length forms.now) }
    ensures right { OnTrue result (parse_arguments forms.now (arguments forms.now (pieces_of text.entry)) no_arguments ≡ Some taken.new) }
    ensures wrong { result ≡ false → length (arguments forms.now (pieces_of text.entry)) ≡ length forms.now
        → parse_arguments forms.now (arguments forms.now (pieces_of text.entry)) no_arguments ≡ None }
{
    let mut rest = text;
    for (at, form) in forms.iter().enumerate() {
        let Some(text) = rest else { return false };
        if !is_number(*form) {
            return take_more(&forms[at..], text, taken);
        }
        let Some((number, after)) = next_number(text) else {
            return false;
        };
        taken.push(number);
        rest = after;
    }
    match rest {
        Some(_) => false,
        None => true,
    }
}

/// What a line says: the word of a call, whose arguments are put in place of what was taken before, or nothing, or its
/// first fault.
#[inline(always)]
pub fn read_line(line: &[u8], taken: &mut Arguments) -> Result<Option<Word>, TextFault>
    requires { length line.now ≤ LONGEST_LINE }
    ensures { Reads result taken.new (parse_line line.now) }
{
    if is_skipped(line) {
        return Ok(None);
    }
    if has_bad(line) {
        return Err(TextFault::BadByte);
    }
    let (name, text) = split_at_space(line);
    let Some((word, forms)) = Word::with_forms(name) else {
        return Err(TextFault::UnknownCall);
    };
    taken.clear();
    if take_all(forms, text, taken) {
        Ok(Some(word))
    } else if has_count(forms, text) {
        Err(TextFault::BadArgument)
    } else {
        Err(TextFault::WrongNumberOfArguments)
    }
}
