//! The bytes of each kind of token, written by hand from the table of control functions, and streams that were worked
//! by hand, on a terminal of 4 lines and 10 columns.

ghost use Rattle.ecma.specs.Spelling.{IsToken};

use bitflags::Flags;
use cell::{Attr, Colour, ColourPair, LARGEST_SCREEN, Refusal, Rendition, Shown, is_printable};
use ecma::{Erase, LONGEST_SPELLING, NotInProfile, Terminal, Token, spell};
use std::alloc::Global;

fn has_spelling(token: Token, bytes: &[u8]) -> bool
    requires { IsToken token }
{
    let mut out = [0; LONGEST_SPELLING];
    let length = spell(&token, &mut out);
    &out[..length] == bytes
}

/// Whether bytes spell a token, where it is one.
fn is_spelled(token: Token, bytes: &[u8]) -> bool {
    match token {
        Token::Print(byte) => is_printable(byte) && has_spelling(Token::Print(byte), bytes),
        Token::Cup(line, column) => {
            line < LARGEST_SCREEN
                && column < LARGEST_SCREEN
                && has_spelling(Token::Cup(line, column), bytes)
        }
        Token::Sgr(rendition) => {
            rendition.attrs().bits() < 64 && has_spelling(Token::Sgr(rendition), bytes)
        }
        Token::El(how) => has_spelling(Token::El(how), bytes),
        Token::Ed(how) => has_spelling(Token::Ed(how), bytes),
    }
}

/// Tokens with their bytes. A place is counted from one.
const SPELLINGS: [(Token, &[u8]); 13] = [
    (Token::Print(b'A'), b"A"),
    (Token::Print(b' '), b" "),
    (Token::Print(b'~'), b"~"),
    (Token::Cup(2, 4), b"\x1b[3;5H"),
    (Token::Cup(0, 0), b"\x1b[1;1H"),
    (Token::Cup(998, 998), b"\x1b[999;999H"),
    (Token::El(Erase::ToEnd), b"\x1b[K"),
    (Token::El(Erase::FromStart), b"\x1b[1K"),
    (Token::El(Erase::All), b"\x1b[2K"),
    (Token::Ed(Erase::ToEnd), b"\x1b[J"),
    (Token::Ed(Erase::FromStart), b"\x1b[1J"),
    (Token::Ed(Erase::All), b"\x1b[2J"),
    (Token::Sgr(Rendition::NONE), b"\x1b[0m"),
];

/// Attributes and two colours, with the bytes that select them: colours after attributes, and no bit beyond the six.
const SELECTIONS: [(u8, Option<Colour>, Option<Colour>, &[u8]); 9] = [
    (0x05, None, None, b"\x1b[0;1;4m"),
    (0x10, None, None, b"\x1b[0;7m"),
    (0x3f, None, None, b"\x1b[0;1;2;4;5;7;8m"),
    (0xc0, None, None, b"\x1b[0m"),
    (0x48, None, None, b"\x1b[0;5m"),
    (
        0x00,
        Some(Colour::RED),
        Some(Colour::BLUE),
        b"\x1b[0;31;44m",
    ),
    (0x01, Some(Colour::WHITE), None, b"\x1b[0;1;37m"),
    (0x00, None, Some(Colour::BLACK), b"\x1b[0;40m"),
    (
        0x3f,
        Some(Colour::WHITE),
        Some(Colour::WHITE),
        b"\x1b[0;1;2;4;5;7;8;37;47m",
    ),
];

/// Whether bytes select attributes and colours.
fn is_selected(
    bits: u8,
    foreground: Option<Colour>,
    background: Option<Colour>,
    bytes: &[u8],
) -> bool {
    let pair = ColourPair {
        foreground,
        background,
    };
    let rendition = Rendition::new(Attr::from_bits_retain(bits), pair);
    is_spelled(Token::Sgr(rendition), bytes)
}

#[test]
fn tokens_have_their_bytes(rt: HostRuntime) {
    for (token, bytes) in &SPELLINGS {
        assert!(rt; is_spelled(*token, bytes), "at {bytes:?}");
    }
    assert_eq!(rt; LONGEST_SPELLING, 22);
}

#[test]
fn renditions_have_their_bytes(rt: HostRuntime) {
    for (bits, foreground, background, bytes) in &SELECTIONS {
        assert!(rt;
            is_selected(*bits, *foreground, *background, bytes),
            "at {bytes:?}"
        );
    }
}

/// A terminal that has read a stream.
fn read(alloc: Global, stream: &[u8]) -> Result<Terminal, Refusal> {
    let mut terminal = Terminal::new(alloc, 4, 10)?;
    let _ = terminal.feed(stream);
    Ok(terminal)
}

/// Whether a terminal has a character in no rendition at a place, or no cell there.
fn has_character(terminal: &Terminal, (y, x): (u16, u16), character: Option<u8>) -> bool {
    let cell = match character {
        Some(ch) => Shown::new(ch, Rendition::NONE),
        None => None,
    };
    terminal.cell(y, x) == cell
}

/// The fault and the cursor of a terminal, a character, and whether no rendition is selected.
type Seen = (Option<NotInProfile>, Option<(u16, u16)>, Option<u8>, bool);

/// Whether that is seen of a terminal, with the character at a place, and its 4 lines are there.
fn is_seen(terminal: &Terminal, place: (u16, u16), seen: &Seen) -> bool {
    let (fault, cursor, character, is_plain) = *seen;
    terminal.fault() == fault
        && terminal.cursor() == cursor
        && has_character(terminal, place, character)
        && (terminal.rendition() == Rendition::NONE) == is_plain
        && terminal.lines() == 4
}

/// Whether that is seen after two pieces of a stream.
fn is_seen_after(
    alloc: Global,
    pieces: &[&[u8]; 2],
    place: (u16, u16),
    seen: &Seen,
) -> Result<bool, Refusal> {
    let mut terminal = read(alloc, pieces[0])?;
    let _ = terminal.feed(pieces[1]);
    Ok(is_seen(&terminal, place, seen))
}

const HOME: Option<(u16, u16)> = Some((0, 0));

/// Two pieces of a stream, a place, and what is seen after them.
#[rattlefmt::skip]
static PIECES: [([&[u8]; 2], (u16, u16), Seen); 6] = [
    ([b"", b""], (3, 9), (None, HOME, Some(b' '), true)),
    ([b"", b""], (3, 10), (None, HOME, None, true)),
    ([b"", b""], (4, 0), (None, HOME, None, true)),
    ([b"\x1b[5\x1b[2;3Hx", b""], (1, 2), (None, Some((1, 3)), Some(b'x'), true)),
    ([b"ab\x1b[9;9H", b"\x1b[1;1Hx"], (0, 0), (Some(NotInProfile { at: 2 }), Some((0, 2)), Some(b'a'), true)),
    ([b"a", b"\x1b[0;7m"], (0, 0), (None, Some((0, 1)), Some(b'a'), false)),
];

#[test]
fn a_stream_is_shown_up_to_its_fault(rt: HostRuntime) {
    for (pieces, place, seen) in &PIECES {
        let is_seen = is_seen_after(rt.alloc(), pieces, *place, seen);
        assert!(rt; is_seen == Ok(true), "after {pieces:?}, at {place:?}");
    }
}

/// Streams that erase, print and erase again: a place, and the character that is there then.
#[rattlefmt::skip]
static ERASED: [(&[u8], (u16, u16), u8); 14] = [
    (b"ab\x1b[2Jcd", (0, 1), b' '),
    (b"ab\x1b[2Jcd", (0, 2), b'c'),
    (b"ab\x1b[2Jcd\x1b[2J", (0, 2), b' '),
    (b"abcdef\x1b[1;4H\x1b[K\x1b[K", (0, 2), b'c'),
    (b"abcdef\x1b[1;4H\x1b[K\x1b[K", (0, 3), b' '),
    (b"abcdef\x1b[1;4H\x1b[K\x1b[1;2H\x1b[K", (0, 1), b' '),
    (b"abc\x1b[1;2H\x1b[K\x1b[1;6Hx\x1b[1;5H\x1b[K", (0, 5), b' '),
    (b"abc\x1b[1;2H\x1b[K\x1b[1;6Hx\x1b[1;5H\x1b[1K", (0, 5), b'x'),
    (b"abc\x1b[1;2H\x1b[1K\x1b[1K", (0, 1), b' '),
    (b"abc\x1b[1;2H\x1b[1K\x1b[1K", (0, 2), b'c'),
    (b"\x1b[3;1Hab\x1b[2;1H\x1b[J\x1b[J", (2, 1), b' '),
    (b"\x1b[3;1Hab\x1b[2;1H\x1b[J\x1b[3;2Hx\x1b[1;1H\x1b[J", (2, 1), b' '),
    (b"\x1b[3;1Hab\x1b[2;1H\x1b[J\x1b[3;2Hx\x1b[4;1H\x1b[J", (2, 1), b'x'),
    (b"\x1b[4;10Hx\x1b[4;10H\x1b[1J", (3, 9), b' '),
];

/// Whether a stream has no fault, and leaves a character at a place.
fn leaves(alloc: Global, stream: &[u8], place: (u16, u16), character: u8) -> Result<bool, Refusal> {
    let terminal = read(alloc, stream)?;
    Ok(terminal.fault().is_none() && has_character(&terminal, place, Some(character)))
}

#[test]
fn what_is_printed_after_an_erasure_is_erased_too(rt: HostRuntime) {
    for (stream, place, character) in &ERASED {
        let leaves = leaves(rt.alloc(), stream, *place, *character);
        assert!(rt; leaves == Ok(true), "after {stream:?}, at {place:?}");
    }
}

/// Whether a new terminal has its lines, if its size is not refused.
fn has_lines(alloc: Global, lines: u16, columns: u16) -> Result<bool, Refusal> {
    Ok(Terminal::new(alloc, lines, columns)?.lines() == lines)
}

#[test]
fn a_terminal_has_1_to_999_lines_and_columns(rt: HostRuntime) {
    for (lines, columns) in [(0, 10), (4, 0), (1000, 10), (4, 1000)] {
        let refusal = has_lines(rt.alloc(), lines, columns);
        assert!(rt; refusal == Err(Refusal::BadSize), "of {lines}, {columns}");
    }
    assert_eq!(rt; has_lines(rt.alloc(), 999, 999), Ok(true));
}

/// Whether two terminals show the same.
fn is_same(one: &Terminal, other: &Terminal) -> bool {
    if one.lines() != other.lines() || one.fault() != other.fault() {
        return false;
    }
    for y in 0..one.lines() {
        if one.row(y) != other.row(y) {
            return false;
        }
    }
    one.cursor() == other.cursor() && one.rendition() == other.rendition()
}

/// Whether a stream is read in two pieces as it is as a whole.
fn is_cut_at(alloc: Global, stream: &[u8], cut: usize, whole: &Terminal) -> Result<bool, Refusal> {
    let Some((first, second)) = stream.split_at_checked(cut) else {
        return Ok(false);
    };
    let mut terminal = read(alloc, first)?;
    let fed = terminal.feed(second);
    Ok(fed.err() == whole.fault() && is_same(&terminal, whole))
}

/// Whether a stream is read so wherever it is cut.
fn is_cut_anywhere(alloc: Global, stream: &[u8], whole: &Terminal) -> Result<bool, Refusal> {
    for cut in 0..stream.len() {
        if !is_cut_at(alloc, stream, cut, whole)? {
            return Ok(false);
        }
    }
    Ok(true)
}

/// Feeds a stream byte by byte, and says whether each fault on the way is the last one, and what is answered.
fn feed_bytes(terminal: &mut Terminal, stream: &[u8], last: Option<NotInProfile>) -> bool {
    let mut is_last = true;
    for byte in stream {
        let fed = terminal.feed(&[*byte]);
        let fault = terminal.fault();
        is_last = is_last && fed.err() == fault && (fault.is_none() || fault == last);
    }
    is_last
}

/// Whether a stream is read byte by byte as it is as a whole.
fn is_read_in_bytes(alloc: Global, stream: &[u8], whole: &Terminal) -> Result<bool, Refusal> {
    let mut terminal = Terminal::new(alloc, 4, 10)?;
    Ok(feed_bytes(&mut terminal, stream, whole.fault()) && is_same(&terminal, whole))
}

static STREAMS: [&[u8]; 11] = [
    b"a\x1b[5\x1b[2;3Hx\x1b[0;7mend\x1b[m\x1b[1K",
    b"\x1b[31mc\x1b[1;10Hxy\x1b[H",
    b"\x1b[2;2\x1b[12;;J",
    b"ab\x1b[38mc",
    b"\x1b\x1b[mA",
    b"\x1b[;H\x1b[K",
    b"\x1b[;;H",
    b"a\x1b[2;2Jb",
    b"\x1b[7m\x1b[2J",
    b"\x1b[1234H",
    b"a\x1b[5;1Hb",
];

/// Whether a stream is read in bytes and in two pieces as it is as a whole.
fn is_read_in_pieces(alloc: Global, stream: &[u8]) -> Result<bool, Refusal> {
    let whole = read(alloc, stream)?;
    Ok(is_read_in_bytes(alloc, stream, &whole)? && is_cut_anywhere(alloc, stream, &whole)?)
}

#[test]
fn a_stream_is_cut_anywhere(rt: HostRuntime) {
    for stream in &STREAMS {
        assert_eq!(rt;
            is_read_in_pieces(rt.alloc(), stream),
            Ok(true),
            "at {stream:?}"
        );
    }
}
