//! The arguments of a faulty line: how many there are, the first that lacks its form, and the first that is none.

ghost use Rattle.std.specs.Prelude.{◌≡◌, ◌≤◌, ◌+◌};
ghost use Rattle.checks.specs.{IfSome, length, option_map, is_ascii_digit, list_any, pieces_of, room_of, arguments, IllFormed as Ill, after_bad_escape, begins_escape, begins_with, bytes_before};
ghost use Rattle.checks.specs.{find_ill_formed, find_stray, forms_of, has_form, is_stray, is_word};

use script::{Arguments, Form, LONGEST_LINE, MOST_ARGUMENTS, Word, next_argument, split_at_space};

/// An argument without its form, and its column.
#[derive(Clone, Copy)]
pub struct IllFormed<'a> {
    pub column: usize,
    pub form: Form,
    pub argument: &'a [u8],
}

/// The forms of a call's arguments, if the word is a call's.
pub fn forms_of(word: &[u8]) -> &'static [Form]
    ensures forms { result.now ≡ forms_of word.now }
    ensures count { length result.now ≤ MOST_ARGUMENTS }
{
    match Word::of(word) {
        Some(word) => word.forms(),
        None => &[],
    }
}

/// How many arguments are in a text.
pub fn count(forms: &[Form], text: Option<&[u8]>) -> usize
    requires { room_of text ≤ LONGEST_LINE + 1 }
    ensures count { result ≡ length (arguments forms.now (pieces_of text.entry)) }
    ensures short { result ≤ room_of text.entry }
{
    let Some(text) = text else { return 0 };
    match forms.split_first() {
        Some((form, others)) => 1 + count(others, next_argument(*form, text).1),
        None => 1 + count(&[], split_at_space(text).1),
    }
}

/// Whether an argument has its form.
fn has_form(form: Form, argument: &[u8]) -> bool
    requires { length argument.now ≤ LONGEST_LINE }
    ensures { result ≡ has_form form argument.now }
{
    Arguments::new().take(form, argument)
}

/// The first argument that lacks its form.
pub fn find_ill_formed<'a>(
    column: usize,
    forms: &[Form],
    text: Option<&'a [u8]>,
) -> Option<IllFormed<'a>>
    requires short { IfSome text (λ t. column + length t.now ≤ LONGEST_LINE + 2) }
    requires text { IfSome text (λ t. length t.now ≤ LONGEST_LINE) }
    ensures ill { option_map (λ ill. record { column = ill.column; form = ill.form; argument = ill.argument.now }) result
        ≡ find_ill_formed column forms.now (arguments forms.now (pieces_of text.entry)) }
    ensures short { IfSome result (λ ill. length ill.argument.now ≤ LONGEST_LINE) }
    ensures inside { IfSome result (λ ill. ill.column + length ill.argument.now ≤ LONGEST_LINE + 2) }
{
    match (forms.split_first(), text) {
        (Some((form, others)), Some(text)) => {
            let (argument, rest) = next_argument(*form, text);
            if has_form(*form, argument) {
                find_ill_formed(column + argument.len() + 1, others, rest)
            } else {
                Some(IllFormed {
                    column,
                    form: *form,
                    argument,
                })
            }
        }
        _ => None,
    }
}

/// Whether a text has a digit.
fn has_digit(text: &[u8]) -> bool
    ensures { result ≡ list_any is_ascii_digit text.now }
{
    text.iter().any(u8::is_ascii_digit)
}

/// Whether an argument without its form is a word in place of digits, in a line that has some.
pub fn is_word(line: &[u8], ill: IllFormed<'_>) -> bool
    ensures { result ≡ is_word line.now ill.entry.form ill.entry.argument.now }
{
    !matches!(ill.form, Form::Flag | Form::Character | Form::Text)
        && has_digit(line)
        && !has_digit(ill.argument)
}

/// Whether a text begins with another.
fn begins_with(text: &[u8], prefix: &[u8]) -> bool
    ensures { result ≡ begins_with prefix.now text.now }
{
    text.strip_prefix(prefix).is_some()
}

/// Whether an argument is none: empty, as between two spaces, or the beginning of a comment, here or in other languages.
fn is_stray(argument: &[u8]) -> bool
    ensures { result ≡ is_stray argument.now }
{
    argument.is_empty()
        || begins_with(argument, b"#") && !has_digit(argument)
        || begins_with(argument, b"//")
        || begins_with(argument, b"/*")
        || begins_with(argument, b"<!--")
        || argument == b"--".as_slice()
}

/// The first stray argument, and its column before it.
pub fn find_stray<'a>(
    column: usize,
    forms: &[Form],
    text: Option<&'a [u8]>,
) -> Option<(usize, &'a [u8])>
    requires short { IfSome text (λ t. column + length t.now ≤ LONGEST_LINE + 2) }
    ensures { option_map (λ stray. (stray.0, stray.1.now)) result ≡ find_stray column (arguments forms.now (pieces_of text.entry)) }
{
    let Some(text) = text else { return None };
    match forms.split_first() {
        Some((form, others)) => {
            let (argument, rest) = next_argument(*form, text);
            if is_stray(argument) {
                Some((column, argument))
            } else {
                find_stray(column + argument.len() + 1, others, rest)
            }
        }
        None => {
            let (argument, rest) = split_at_space(text);
            if is_stray(argument) {
                Some((column, argument))
            } else {
                find_stray(column + argument.len() + 1, &[], rest)
            }
        }
    }
}

/// Whether a text begins with an escape: with two bytes that are a text, or with four.
fn begins_escape(text: &[u8]) -> bool
    ensures { result ≡ begins_escape text.now }
{
    has_form(Form::Text, &text[..text.len().min(2)])
        || has_form(Form::Text, &text[..text.len().min(4)])
}

/// What is after the first backslash of a text that begins no escape.
fn after_bad_escape(text: &[u8]) -> &[u8]
    ensures { result.now ≡ after_bad_escape text.now }
{
    let mut left = text;
    while let Some((first, rest)) = left.split_first() {
        if *first != b'\\' {
            left = rest;
        } else if begins_escape(left) && !rest.is_empty() {
            left = &rest[1..];
        } else {
            return rest;
        }
    }
    left
}

/// How many bytes of an argument without its form are before its fault: those of a text before its backslash.
pub fn bytes_before(ill: IllFormed<'_>) -> usize
    ensures bytes { result ≡ bytes_before ill.entry.form ill.entry.argument.now }
    ensures within { result ≤ length ill.entry.argument.now }
{
    match ill.form {
        Form::Text => {
            let rest = after_bad_escape(ill.argument);
            ill.argument
                .len()
                .saturating_sub(rest.len())
                .saturating_sub(1)
        }
        _ => 0,
    }
}
