//! Where a fault is.

ghost use Rattle.std.specs.Prelude.{◌≡◌, ◌≤◌, ◌+◌, ◌<◌, ◌∷◌};
ghost use Rattle.checks.specs.{IfSome, length, option_map, position, slice_index, is_bad_byte, pieces_of, room_of, arguments, bad_place, column_after, column_of, column_of_number};
ghost use Rattle.checks.specs.{find_ill_formed_in, misplaced};

use crate::arguments::{
    IllFormed, bytes_before, count, find_ill_formed, find_stray, forms_of, is_word,
};
use cell::is_printable;
use script::{Form, LONGEST_LINE, TextFault, next_argument, split_at_space};

/// Where the first byte is that no line may have, if there is one.
fn first_bad(line: &[u8]) -> Option<usize>
    ensures place { result ≡ position is_bad_byte line.now }
    ensures within { IfSome result (λ place. place < length line.now) }
{
    line.iter().position(|b| !is_printable(*b))
}

/// Where it is, and 0 where there is none.
fn bad_place(line: &[u8]) -> usize
    ensures place { result ≡ bad_place line.now }
    ensures within { result ≤ length line.now }
{
    first_bad(line).unwrap_or(0)
}

/// The first byte that no line may have.
pub fn bad_byte(line: &[u8]) -> u8
    ensures { result ≡ slice_index line.now (bad_place line.now) }
{
    match line.get(bad_place(line)) {
        Some(byte) => *byte,
        None => 0,
    }
}

/// The column after as many arguments as there are forms, of which the first begins in a column.
fn column_after(column: usize, forms: &[Form], text: Option<&[u8]>) -> usize
    requires short { IfSome text (λ t. column + length t.now ≤ LONGEST_LINE + 2) }
    ensures { result ≡ column_after column forms.now (arguments forms.now (pieces_of text.entry)) }
{
    match (forms.split_first(), text) {
        (Some((form, others)), Some(text)) => {
            let (argument, rest) = next_argument(*form, text);
            column_after(column + argument.len() + 1, others, rest)
        }
        _ => column,
    }
}

/// The first argument without its form, if there are too few arguments, or if it is a word between numbers.
#[tactic(auto, unfolding(crate::specs::Faults::misplaced))]
pub fn misplaced<'a>(line: &[u8], word: &[u8], text: Option<&'a [u8]>) -> Option<IllFormed<'a>>
    requires short { length word.now + room_of text ≤ LONGEST_LINE }
    ensures ill { option_map (λ ill. record { column = ill.column; form = ill.form; argument = ill.argument.now }) result
        ≡ misplaced line.now (word.now ∷ pieces_of text.entry) (find_ill_formed_in (word.now ∷ pieces_of text.entry)) }
{
    let forms = forms_of(word);
    match find_ill_formed(word.len() + 2, forms, text) {
        Some(ill) if count(forms, text) <= forms.len() || is_word(line, ill) => Some(ill),
        _ => None,
    }
}

/// The column of a wrong number of arguments.
#[tactic(auto, unfolding(crate::specs::Faults::column_of_number))]
fn column_of_number(line: &[u8], word: &[u8], text: Option<&[u8]>) -> usize
    requires short { length word.now + room_of text ≤ LONGEST_LINE }
    ensures { result ≡ column_of_number line.now (word.now ∷ pieces_of text.entry) }
{
    if let Some((column, _)) = find_stray(word.len() + 2, forms_of(word), text) {
        return column;
    }
    match misplaced(line, word, text) {
        Some(ill) => ill.column,
        None => column_after(word.len() + 2, forms_of(word), text),
    }
}

/// The column of a fault.
pub fn column_of(fault: TextFault, line: &[u8]) -> usize
    requires { length line.now ≤ LONGEST_LINE }
    ensures { result ≡ column_of fault line.now }
{
    let (word, text) = split_at_space(line);
    match fault {
        TextFault::LineTooLong => LONGEST_LINE + 1,
        TextFault::BadByte => bad_place(line) + 1,
        TextFault::UnknownCall => 1,
        TextFault::WrongNumberOfArguments => column_of_number(line, word, text),
        TextFault::BadArgument => match find_ill_formed(word.len() + 2, forms_of(word), text) {
            Some(ill) => ill.column + bytes_before(ill),
            None => 1,
        },
    }
}
