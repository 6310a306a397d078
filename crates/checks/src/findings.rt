//! The line about a fault: where it is, what is there, and what is wanted; and the one about a call that every screen refuses.

ghost use Rattle.std.specs.Prelude.{◌≡◌, ◌≤◌, ◌+◌, ◌*◌, ◌++◌};
ghost use Rattle.checks.specs.{length, room_of, entry_of, column_of, Says, listed};

use crate::arguments::{IllFormed, count, find_ill_formed, find_stray, forms_of};
use crate::column::{bad_byte, column_of, misplaced};
use crate::said::{ROOM, Said};
use crate::suggest::{say_note, suggest};
use crate::written_curses::{ATTRIBUTES, COLOURS};
use crate::written_names::names_of_arguments;
use arrayvec::ArrayVec;
use cell::{
    LARGEST_PAD, LARGEST_SCREEN, LAST_COLOUR, LAST_PAIR, MOST_PANELS, MOST_WINDOWS, Refusal,
    hex_digits,
};
use script::{
    ALL_ATTRIBUTES, Form, GREATEST_NUMBER, GREATEST_SIGNED, LONGEST_LINE, MakingWord, TextFault,
    Word, WritingWord, has_digits_alone, split_at_space,
};
use streams::{append, append_decimal};

/// Room for a line: what is said, and where.
pub const FINDING_ROOM: usize = ROOM + 256;

const SPACES: &[u8] = b"; one space separates words, and none ends a line without a text";

/// What begins a comment in other languages.
const COMMENTS: [&[u8]; 5] = [b"//", b";", b"--", b"/*", b"<!--"];

/// The line about a fault.
pub type Finding = ArrayVec<u8, FINDING_ROOM>;

/// How a word is written.
fn spelled(word: Word) -> &'static [u8]
    ensures text { result.now ≡ (entry_of word).word }
    ensures short { length result.now ≤ 16 }
{
    word.name()
}

/// Appends some calls.
fn append_calls(text: &mut Finding, words: &[Word])
    requires { length text.old.items + 20 * length words.now ≤ FINDING_ROOM }
    ensures text { text.new.items ≡ text.old.items ++ listed words.now }
    ensures short { length text.new.items ≤ length text.old.items + 20 * length words.now }
{
    if let Some((word, others)) = words.split_first() {
        append(text, b" ");
        append(text, spelled(*word));
        if !others.is_empty() {
            append(text, b",");
        }
        append_calls(text, others);
    }
}

/// The line that says something of a place.
fn line_about(number: u64, column: usize, said: &Said) -> Finding
    ensures { Says number column result.items }
{
    let mut text = Finding::new();
    append(&mut text, b"line ");
    append_decimal(&mut text, number);
    append(&mut text, b", column ");
    append_decimal(&mut text, column as u64);
    append(&mut text, b": ");
    append(&mut text, said.bytes());
    append_calls(&mut text, said.calls());
    append(&mut text, b"\n");
    text
}

/// Says a text in quotation marks.
fn quote(said: &mut Said, text: &[u8]) {
    said.text(b"\"");
    said.text(text);
    said.text(b"\"");
}

/// Says a number between two texts.
fn say_limit(said: &mut Said, before: &[u8], limit: u16, after: &[u8]) {
    said.text(before);
    said.number(usize::from(limit));
    said.text(after);
}

// ---- a fault

/// Whether a word begins a comment in other languages.
fn begins_comment(word: &[u8]) -> bool {
    COMMENTS.iter().any(|it| word.strip_prefix(*it).is_some())
}

/// Says of a word that it is no call, and which to see in its place.
fn say_unknown(said: &mut Said, word: &[u8]) {
    if word.is_empty() {
        return said.text(b"the line begins with a space, and not with a call or #");
    }
    said.text(b"unknown call ");
    quote(said, word);
    if begins_comment(word) {
        said.text(b": a comment begins with #");
    } else {
        suggest(said, word);
    }
}

/// Says how many arguments a call takes, and which.
fn say_taken(said: &mut Said, word: &[u8], given: usize) {
    let taken = forms_of(word).len();
    said.text(word);
    said.text(b" takes ");
    said.number(taken);
    said.text(if taken == 1 {
        b" argument, ".as_slice()
    } else {
        b" arguments, "
    });
    said.number(given);
    said.text(b" given");
    if let Some(call) = Word::of(word)
        && taken != 0
    {
        said.text(b": ");
        said.text(names_of_arguments(call));
    }
}

/// Says what is wrong with the number of a line's arguments.
fn say_number(said: &mut Said, line: &[u8], word: &[u8], text: Option<&[u8]>)
    requires { length word.now + room_of text ≤ LONGEST_LINE }
{
    say_taken(said, word, count(forms_of(word), text));
    if let Some((_, stray)) = find_stray(word.len() + 2, forms_of(word), text) {
        let comment = b"; a comment has a line of its own, which begins with #".as_slice();
        said.text(if stray.is_empty() { SPACES } else { comment });
    } else if let Some(ill) = misplaced(line, word, text) {
        said.text(b"; here it wants ");
        say_wanted(said, word, ill);
    }
}

/// Says what an argument of a form has to be, for a call.
#[rattlefmt::skip]
fn say_form(said: &mut Said, word: &[u8], form: Form) {
    match form {
        Form::Number => say_limit(said, b"a number from 0 to ", GREATEST_NUMBER, b""),
        Form::NumberOrNone => say_limit(said, b"a number from 0 to ", GREATEST_NUMBER, b", or none"),
        Form::Signed => {
            say_limit(said, b"a number from -", GREATEST_SIGNED, b" to ");
            said.number(usize::from(GREATEST_SIGNED));
        }
        Form::Attributes => {
            said.text(b"two hexadecimal digits in lower case from 00 to ");
            said.text(&hex_digits(ALL_ATTRIBUTES));
        }
        Form::Flag => said.text(b"on or off"),
        Form::Character if word == b"addch".as_slice() => said.text(b"one character, or one of the escapes \\\\, \\n, \\r, \\b and \\xhh, where hh is 08, 0a, 0d or from 20 to 7e, in lower case"),
        Form::Character => said.text(b"one character, or one of the escapes \\\\ and \\xhh, where hh is from 20 to 7e, in lower case"),
        Form::Text => said.text(b"a text with no escapes but \\\\, \\n, \\r, \\b and \\xhh, where hh is 08, 0a, 0d or from 20 to 7e, in lower case"),
    }
}

/// Says what is wanted in place of an argument, what is there, which digits its name has, and why digits are no number.
fn say_wanted(said: &mut Said, word: &[u8], ill: IllFormed<'_>) {
    say_form(said, word, ill.form);
    said.text(b", not ");
    quote(said, ill.argument);
    match ill.form {
        Form::Number => say_note(said, &COLOURS, ill.argument),
        Form::Attributes => say_note(said, &ATTRIBUTES, ill.argument),
        _ => {}
    }
    let digits = match ill.form {
        Form::Number | Form::NumberOrNone => ill.argument,
        Form::Signed => ill.argument.strip_prefix(b"-").unwrap_or(ill.argument),
        _ => b"",
    };
    said.text(match digits {
        [b'0'] => b": 0 has no minus".as_slice(),
        [b'0', ..] if has_digits_alone(digits) => b": a number has no leading 0",
        [_, ..] if has_digits_alone(digits) => b": it is past that range",
        _ if ill.argument.is_empty() && !matches!(ill.form, Form::Character) => SPACES,
        _ => b"",
    });
}

/// Says of a byte that no line may have it.
fn say_bad_byte(said: &mut Said, byte: u8) {
    said.text(b"bad byte ");
    said.text(&hex_digits(byte));
    said.text(match byte {
        b'\r' => b": a line ends with a newline alone".as_slice(),
        b'\t' => b": one space separates words, and no line has tabs",
        8 => b": a text has a backspace as \\b",
        128.. => b": characters are those of ASCII, from the space to the tilde",
        _ => b": no line has control characters, and a text only \\n, \\r and \\b",
    });
}

/// Says what is wrong with a line.
#[rattlefmt::skip]
fn say_fault(said: &mut Said, fault: TextFault, line: &[u8])
    requires { length line.now ≤ LONGEST_LINE }
{
    let (word, text) = split_at_space(line);
    match fault {
        TextFault::LineTooLong => say_limit(said, b"the line is longer than ", LONGEST_LINE as u16, b" bytes"),
        TextFault::BadByte => say_bad_byte(said, bad_byte(line)),
        TextFault::UnknownCall => say_unknown(said, word),
        TextFault::WrongNumberOfArguments => say_number(said, line, word, text),
        TextFault::BadArgument => {
            if let Some(ill) = find_ill_formed(word.len() + 2, forms_of(word), text) {
                said.text(word);
                said.text(b" wants ");
                say_wanted(said, word, ill);
            }
        }
    }
}

/// The line about a fault in a script's line with its number.
pub fn finding(number: u64, fault: TextFault, line: &[u8]) -> Finding
    requires { length line.now ≤ LONGEST_LINE }
    ensures { Says number (column_of fault line.now) result.items }
{
    let mut said = Said::new();
    say_fault(&mut said, fault, line);
    line_about(number, column_of(fault, line), &said)
}

// ---- a call that every screen refuses

/// Says how many lines and columns windows and pads have.
fn say_sizes(said: &mut Said, before: &[u8]) {
    say_limit(said, before, LARGEST_SCREEN, b" lines and columns, a pad ");
    said.number(usize::from(LARGEST_PAD));
    said.text(b", counted from 0");
}

/// Says what a refusal of a call by its arguments alone means.
#[rattlefmt::skip]
fn say_meaning(said: &mut Said, word: Word, why: Refusal) {
    match (why, word) {
        (Refusal::NoSuchWindow, _) => say_limit(said, b": windows and pads have numbers from 0 to ", MOST_WINDOWS, b""),
        (Refusal::NoSuchPanel, _) => say_limit(said, b": panels have numbers from 1 to ", MOST_PANELS, b""),
        (Refusal::OffScreen, _) => say_limit(said, b": a screen has at most ", LARGEST_SCREEN, b" lines and columns, counted from 0"),
        (Refusal::OutsideParent, Word::Making(MakingWord::Subwin | MakingWord::Derwin)) =>
            say_limit(said, b": no window has this part; a window has at most ", LARGEST_SCREEN, b" lines and columns, counted from 0"),
        (Refusal::OutsideParent, _) => say_sizes(said, b": no parent has this part; a window has at most "),
        (Refusal::OutsideWindow, _) => say_sizes(said, b": no window has this place; a window has at most "),
        (Refusal::NotPad, _) => said.text(b": window 0 is the standard screen, and no pad"),
        (Refusal::NotDerived, _) => said.text(b": window 0 is the standard screen, and derives from no window"),
        (Refusal::BadSize, _) => say_limit(said, b": a pad has from 1 to ", LARGEST_PAD, b" lines and columns"),
        (Refusal::BadRegion, _) => said.text(b": the first line is after the last, or no window has the last"),
        (Refusal::BadCharacter, Word::Writing(WritingWord::Insch | WritingWord::Bkgdset)) => said.text(b": characters are those from the space to the tilde"),
        (Refusal::BadCharacter, _) => said.text(b": characters are those from the space to the tilde, \\n, \\r and \\b"),
        (Refusal::BadRectangle, _) => said.text(b": a last line or column is before the first"),
        (Refusal::StandardScreen, _) => said.text(b": window 0 is the standard screen, which stays, and is in no panel"),
        (Refusal::BadPair, Word::Refresh(_)) => {
            say_limit(said, b": pairs from 1 to ", u16::from(LAST_PAIR), b" are set, to colours from 0 to ");
            said.number(usize::from(LAST_COLOUR));
        }
        (Refusal::BadPair, _) => say_limit(said, b": pairs have numbers from 0 to ", u16::from(LAST_PAIR), b""),
        _ => {}
    }
}

/// The line about a call that every screen refuses, in a script's line with its number.
pub fn refused(number: u64, word: Word, why: Refusal) -> Finding
    ensures { Says number 1 result.items }
{
    let mut said = Said::new();
    said.text(b"every screen refuses this call: ");
    said.text(why.text().as_bytes());
    say_meaning(&mut said, word, why);
    line_about(number, 1, &said)
}
