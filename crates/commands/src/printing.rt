//! Prints pictures.

ghost use Rattle.std.specs.Prelude.{◌≡◌, ◌≤◌, ◌+◌, ◌*◌, ◌++◌, ◌∷◌, if◌then◌else◌};
ghost use Rattle.commands.specs.{[], All, length, flat_map, list_any, has_colour, attributes_text, characters_text, colours_text, cursor_text, has_attributes, line_text, printed_picture};
ghost use Rattle.commands.specs.{rendition_text, sign, signs, PuttingEnds, WritingEnds};

use crate::writing::{flush_after, put};
use arrayvec::ArrayVec;
use bitflags::Flags;
use cell::{Colour, Grid, LARGEST_SCREEN, Rendition, Shown};
use streams::{MOST_DECIMAL_DIGITS, Sink, append, append_decimal};

/// Room for a line of a picture, with its attributes and colours: 5 bytes for each cell, and 7 more.
const ROOM: usize = 5120;

/// The most bytes that say where the cursor is: two numbers, and 9 bytes more.
const LONGEST_CURSOR: usize = 2 * MOST_DECIMAL_DIGITS + 9;

/// The most bytes that say a rendition.
const LONGEST_RENDITION: usize = 16;

/// Room for what follows the lines.
const ENDING_ROOM: usize = 128;

/// The text of a line of a picture.
type LineText = ArrayVec<u8, ROOM>;

/// The text after the lines.
type EndingText = ArrayVec<u8, ENDING_ROOM>;

/// Whether some cell of a line has attributes.
fn has_attributes(row: &[Shown]) -> bool
    ensures { result ≡ list_any has_attributes row.now }
{
    row.iter().any(|cell| cell.rendition().attrs().bits() != 0)
}

/// Appends the characters of a line, between bars.
fn append_characters(text: &mut LineText, row: &[Shown])
    requires { length text.old.items + length row.now + 3 ≤ ROOM }
    ensures { text.new.items ≡ text.old.items ++ characters_text row.now }
{
    append(text, b"|");
    for cell in row {
        text.push(cell.ch());
    }
    append(text, b"|\n");
}

/// Appends the attributes of a line's cells, if some cell has one.
fn append_attributes(text: &mut LineText, row: &[Shown])
    requires { length text.old.items + 2 * length row.now + 2 ≤ ROOM }
    ensures text { text.new.items ≡ text.old.items ++ attributes_text row.now }
    ensures short { length text.new.items ≤ length text.old.items + 2 * length row.now + 2 }
{
    if !has_attributes(row) {
        return;
    }
    append(text, b":");
    for cell in row {
        append(text, &cell.rendition().attrs().hex_digits());
    }
    append(text, b"\n");
}

/// Whether some cell of a line has a colour.
fn has_colours(row: &[Shown]) -> bool
    ensures { result ≡ list_any (λ cell. has_colour cell.rendition) row.now }
{
    row.iter()
        .any(|cell| !cell.rendition().colours().is_default())
}

/// The digit of a colour, or a minus for the default.
fn sign(colour: Option<Colour>) -> u8
    ensures { result ≡ sign colour }
{
    match colour {
        Some(colour) => b'0' + colour.number(),
        None => b'-',
    }
}

/// The signs of the foreground and of the background.
fn signs(rendition: Rendition) -> [u8; 2]
    ensures { result ≡ signs rendition }
{
    let pair = rendition.colours();
    [sign(pair.foreground), sign(pair.background)]
}

/// Appends the colours of a line's cells, if some cell has one.
fn append_colours(text: &mut LineText, row: &[Shown])
    requires { length text.old.items + 2 * length row.now + 2 ≤ ROOM }
    ensures { text.new.items ≡ text.old.items ++ colours_text row.now }
{
    if !has_colours(row) {
        return;
    }
    append(text, b"%");
    for cell in row {
        append(text, &signs(cell.rendition()));
    }
    append(text, b"\n");
}

/// The text of a line.
fn line_text(row: &[Shown]) -> LineText
    requires { length row.now ≤ LARGEST_SCREEN }
    ensures { result.items ≡ line_text row.now }
{
    let mut text = LineText::new();
    append_characters(&mut text, row);
    append_attributes(&mut text, row);
    append_colours(&mut text, row);
    text
}

/// Appends where the cursor is.
fn append_cursor(text: &mut EndingText, cursor: Option<(u16, u16)>)
    requires { length text.old.items + LONGEST_CURSOR ≤ ENDING_ROOM }
    ensures text { text.new.items ≡ text.old.items ++ cursor_text cursor }
    ensures short { length text.new.items ≤ length text.old.items + LONGEST_CURSOR }
{
    let Some((y, x)) = cursor else {
        append(text, b"cursor unknown\n");
        return;
    };
    append(text, b"cursor ");
    append_decimal(text, u64::from(y));
    append(text, b" ");
    append_decimal(text, u64::from(x));
    append(text, b"\n");
}

/// Appends the signs of a rendition's colours, after a space, if it has one.
fn append_signs(text: &mut EndingText, rendition: Rendition)
    requires { length text.old.items + 3 ≤ ENDING_ROOM }
    ensures text { text.new.items ≡ text.old.items ++ (if has_colour rendition then 32 ∷ signs rendition else []) }
    ensures short { length text.new.items ≤ length text.old.items + 3 }
{
    if rendition.colours().is_default() {
        return;
    }
    append(text, b" ");
    append(text, &signs(rendition));
}

/// Appends a rendition.
fn append_rendition(text: &mut EndingText, rendition: Rendition)
    requires { length text.old.items + LONGEST_RENDITION ≤ ENDING_ROOM }
    ensures { text.new.items ≡ text.old.items ++ rendition_text rendition }
{
    append(text, b"rendition ");
    append(text, &rendition.attrs().hex_digits());
    append_signs(text, rendition);
    append(text, b"\n");
}

/// The text after the lines.
fn ending(cursor: Option<(u16, u16)>, rendition: Rendition) -> EndingText
    ensures { result.items ≡ cursor_text cursor ++ rendition_text rendition }
{
    let mut text = EndingText::new();
    append_cursor(&mut text, cursor);
    append_rendition(&mut text, rendition);
    text
}

/// Prints the lines of a picture, of which there are so many, and answers whether all went out.
fn put_lines<O: Sink>(out: &mut O, picture: &Grid<Shown>, lines: u16) -> bool
    requires lines { length picture.now ≡ lines }
    requires columns { All (λ line. length line ≤ LARGEST_SCREEN) picture.now }
    ensures { PuttingEnds result (O.seen out.old) (O.seen out.new) (flat_map line_text picture.now) }
{
    for y in 0..lines {
        if !put(out, line_text(picture.row(usize::from(y))).as_slice()) {
            return false;
        }
    }
    true
}

/// Prints a picture of so many lines, the cursor and the rendition, and flushes; it answers whether all of it went out.
pub fn print<O: Sink>(
    out: &mut O,
    picture: &Grid<Shown>,
    lines: u16,
    cursor: Option<(u16, u16)>,
    rendition: Rendition,
) -> bool
    requires lines { length picture.now ≡ lines }
    requires columns { All (λ line. length line ≤ LARGEST_SCREEN) picture.now }
    ensures { WritingEnds result (O.seen out.old) (O.seen out.new) (printed_picture picture.now cursor rendition) }
{
    if !put_lines(out, picture, lines) {
        return false;
    }
    let is_put = put(out, ending(cursor, rendition).as_slice());
    flush_after(out, is_put)
}
