//! The spelling of tokens.

ghost use Rattle.std.specs.Prelude.{◌≡◌, ◌+◌, ◌*◌, ◌%◌, ◌<◌, ◌≤◌, ◌∷◌, ◌++◌};
ghost use Rattle.ecma.specs.{[], decimal, length, take, bits_of, IsRendition, LARGEST_SCREEN, introducer, spelling, selection, codes_of_attributes, code_of_colour, erasure_spelling, longest};
ghost use Rattle.ecma.specs.{IsToken, IsItemOf};

use crate::token::{Erase, Token};
use bitflags::Flags;
use cell::{Attr, Colour, LAST_COLOUR, Rendition};
use itoa::Buffer;

/// The most bytes that the spelling of a token has.
pub const LONGEST_SPELLING: usize = 22;

pub(crate) const INTRODUCER: &[u8] = b"\x1b[";

/// The codes that select black as foreground and as background.
const FIRST_FOREGROUND: u8 = 30;

const FIRST_BACKGROUND: u8 = 40;

/// The digit that selects each attribute, in ascending order.
const CODES: [(Attr, u8); 6] = [
    (Attr::BOLD, b'1'),
    (Attr::DIM, b'2'),
    (Attr::UNDERLINE, b'4'),
    (Attr::BLINK, b'5'),
    (Attr::REVERSE, b'7'),
    (Attr::INVIS, b'8'),
];

/// Writes the piece at a place, and says where it ends. It is inlined, as most pieces are constants of a few bytes.
#[inline(always)]
pub(crate) fn append(out: &mut [u8; LONGEST_SPELLING], at: usize, piece: &[u8]) -> usize
    requires { at + length piece.now ≤ LONGEST_SPELLING }
    ensures end { result ≡ at + length piece.now }
    ensures text { take result out.new ≡ take at out.old ++ piece.now }
{
    let end = at + piece.len();
    out[at..end].copy_from_slice(piece);
    end
}

/// Writes a number below 1,000 at a place, and says where it ends.
fn append_number(out: &mut [u8; LONGEST_SPELLING], at: usize, number: u16) -> usize
    requires few { number < 1000 }
    requires room { at + length (decimal number) ≤ LONGEST_SPELLING }
    ensures end { result ≡ at + length (decimal number) }
    ensures text { take result out.new ≡ take at out.old ++ decimal number }
{
    let mut buffer = Buffer::new();
    append(out, at, buffer.format(number).as_bytes())
}

/// How many digits a number below 1,000 has.
#[tactic(auto, using(crate::proofs::Lengths::lengths))]
pub(crate) fn digits(number: u16) -> usize
    requires { number < 1000 }
    ensures value { result ≡ length (decimal number) }
    ensures short { result ≤ 3 }
{
    if number < 10 {
        1
    } else if number < 100 {
        2
    } else {
        3
    }
}

/// How many bytes the spelling of a position has.
#[tactic(auto, using(crate::proofs::Lengths::lengths))]
pub fn position_length(line: u16, column: u16) -> usize
    requires line { line < LARGEST_SCREEN }
    requires column { column < LARGEST_SCREEN }
    ensures exact { result ≡ length (spelling (Token.Cup line column)) }
    ensures short { result ≤ 10 }
{
    4 + digits(line + 1) + digits(column + 1)
}

/// How many bytes the spelling of a selection has.
#[tactic(auto, using(crate::proofs::Lengths::lengths))]
pub fn selection_length(rendition: Rendition) -> usize
    ensures exact { result ≡ length (spelling (Token.Sgr rendition)) }
    ensures short { result ≤ 22 }
{
    let pair = rendition.colours();
    let colours = colour_length(pair.foreground) + colour_length(pair.background);
    4 + 2 * rendition.attrs().bits().count_ones() as usize + colours
}

/// How many bytes the code of a colour has, with the separator before it.
#[tactic(auto, using(crate::proofs::Lengths::lengths))]
fn colour_length(colour: Option<Colour>) -> usize
    ensures foreground { result ≡ length (selection (code_of_colour 30 colour)) }
    ensures background { result ≡ length (selection (code_of_colour 40 colour)) }
    ensures short { result ≤ 3 }
{
    match colour {
        Some(colour) => {
            prove!(colour.number() <= LAST_COLOUR);
            3
        }
        None => 0,
    }
}

/// Writes the spelling of a token to the start of the buffer, and says how many bytes it has.
#[tactic(auto, using(crate::proofs::Tokens::is_item_of_bytes), unfolding(crate::specs::Spelling::spelling))]
pub fn spell(token: &Token, out: &mut [u8; LONGEST_SPELLING]) -> usize
    requires { IsToken token.now }
    ensures length { result ≡ length (spelling token.now) }
    ensures text { take result out.new ≡ spelling token.now }
    ensures item { IsItemOf (take result out.new) token.now }
    ensures short { result ≤ longest token.now }
{
    match *token {
        Token::Print(byte) => append(out, 0, &[byte]),
        Token::Cup(line, column) => spell_place(line, column, out),
        Token::Sgr(rendition) => spell_rendition(rendition, out),
        Token::El(erasure) => spell_erasure(erasure, b'K', out),
        Token::Ed(erasure) => spell_erasure(erasure, b'J', out),
    }
}

#[tactic(auto, using(crate::proofs::Lengths::three_digits), unfolding(crate::specs::Spelling::spelling))]
fn spell_place(line: u16, column: u16, out: &mut [u8; LONGEST_SPELLING]) -> usize
    requires line { line < LARGEST_SCREEN }
    requires column { column < LARGEST_SCREEN }
    ensures length { result ≡ length (spelling (Token.Cup line column)) }
    ensures text { take result out.new ≡ spelling (Token.Cup line column) }
    ensures short { result ≤ 10 }
{
    let at = append(out, 0, INTRODUCER);
    let at = append_number(out, at, line + 1);
    let at = append(out, at, b";");
    let at = append_number(out, at, column + 1);
    append(out, at, b"H")
}

#[tactic(auto, unfolding(crate::specs::Spelling::spelling))]
fn spell_rendition(rendition: Rendition, out: &mut [u8; LONGEST_SPELLING]) -> usize
    requires { IsRendition rendition }
    ensures length { result ≡ length (spelling (Token.Sgr rendition)) }
    ensures text { take result out.new ≡ spelling (Token.Sgr rendition) }
    ensures short { result ≤ 22 }
{
    let pair = rendition.colours();
    let at = append(out, 0, b"\x1b[0");
    let at = append_codes(out, at, rendition.attrs());
    let at = append_colour(out, at, FIRST_FOREGROUND, pair.foreground);
    let at = append_colour(out, at, FIRST_BACKGROUND, pair.background);
    append(out, at, b"m")
}

/// Writes what erases in the line or in the page, by the byte that ends it.
fn spell_erasure(erasure: Erase, last: u8, out: &mut [u8; LONGEST_SPELLING]) -> usize
    ensures length { result ≡ length (introducer ++ erasure_spelling erasure ++ last ∷ []) }
    ensures text { take result out.new ≡ introducer ++ erasure_spelling erasure ++ last ∷ [] }
    ensures short { result ≤ 4 }
{
    let at = append(out, 0, INTRODUCER);
    let at = append(out, at, erasure_text(erasure));
    append(out, at, &[last])
}

fn append_codes(out: &mut [u8; LONGEST_SPELLING], at: usize, attr: Attr) -> usize
    requires { at + 12 ≤ LONGEST_SPELLING }
    ensures end { result ≡ at + length (selection (codes_of_attributes (bits_of attr))) }
    ensures room { result ≤ at + 12 }
    ensures text { take result out.new ≡ take at out.old ++ selection (codes_of_attributes (bits_of attr)) }
{
    if attr.bits() == 0 {
        return at;
    }
    let mut end = at;
    for (flag, code) in CODES {
        if attr.contains(flag) {
            end = append(out, end, &[b';', code]);
        }
    }
    end
}

/// Appends the code of a colour, where black has the first one, after a separator. The default has none. The first one
/// ends in 0, so that the number of the colour is the last digit.
fn append_colour(
    out: &mut [u8; LONGEST_SPELLING],
    at: usize,
    first: u8,
    colour: Option<Colour>,
) -> usize
    requires room { at + 3 ≤ LONGEST_SPELLING }
    requires digits { 10 ≤ first }
    requires few { first ≤ 90 }
    requires last { first % 10 ≡ 0 }
    ensures end { result ≡ at + length (selection (code_of_colour first colour)) }
    ensures room { result ≤ at + 3 }
    ensures text { take result out.new ≡ take at out.old ++ selection (code_of_colour first colour) }
{
    match colour {
        Some(colour) => append(out, at, &[b';', b'0' + first / 10, b'0' + colour.number()]),
        None => at,
    }
}

fn erasure_text(erasure: Erase) -> &'static [u8]
    ensures text { result.now ≡ erasure_spelling erasure }
    ensures short { length result.now ≤ 1 }
{
    match erasure {
        Erase::ToEnd => b"",
        Erase::FromStart => b"1",
        Erase::All => b"2",
    }
}
