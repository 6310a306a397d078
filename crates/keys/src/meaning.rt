//! Which key a sequence of bytes is.

ghost use Rattle.std.specs.Prelude.{◌<◌, ◌≡◌, ◌≤◌};
ghost use Rattle.keys.specs.{action_of, ascii_key, button_of, character_key, coded_with, console_key, control_key};
ghost use Rattle.keys.specs.{controlled_key, ended_key, escaped_key, held_by_ending, is_ending, is_odd, is_place};
ghost use Rattle.keys.specs.{key_of, key_of_code, length, lettered_key, modifiers_of, mouse_key, name_of_code};
ghost use Rattle.keys.specs.{name_of_final, name_of_keypad, name_of_letter, name_of_number, numbered_key, plain_key};
ghost use Rattle.keys.specs.{pointed, pressed, pressed_below, pressed_with, shifted_key, three_bytes_key};

use crate::grammar::{
    BRACKET, ESCAPE, SHIFT_THREE, THREE_BYTES, is_digit, is_numbered, opens_string,
};
use crate::key::{Action, Key, Modifiers, Mouse, Name};
use crate::parameters::{Parameters, TOO_LARGE};
use crate::utf8::{code_of, size_by};

/// The key of a byte below 128.
fn ascii_key(byte: u8) -> Key
    requires { byte < 128 }
    ensures { result ≡ ascii_key byte }
{
    if byte == 13 || byte == 10 {
        return Key::named(Name::Enter);
    }
    if byte == 9 {
        return Key::named(Name::Tab);
    }
    if byte == 8 || byte == 127 {
        return Key::named(Name::Backspace);
    }
    if byte == ESCAPE {
        return Key::named(Name::Escape);
    }
    if byte == 0 {
        return Key::Pressed(Name::Character(' '), Modifiers::CTRL);
    }
    if byte < 27 {
        return Key::Pressed(Name::Character(char::from(byte + 96)), Modifiers::CTRL);
    }
    if byte < 32 {
        return Key::Pressed(Name::Character(char::from(byte + 64)), Modifiers::CTRL);
    }
    Key::named(Name::Character(char::from(byte)))
}

/// The character of a number, and no key where it is none's.
fn key_of_code(code: u32) -> Key
    ensures { result ≡ key_of_code code }
{
    match char::from_u32(code) {
        Some(character) => Key::named(Name::Character(character)),
        None => Key::Unknown,
    }
}

/// The key of a character's bytes.
#[tactic(auto, unfolding(crate::specs::Meanings::character_key))]
fn character_key(bytes: &[u8]) -> Key
    requires { 1 ≤ length bytes.now }
    ensures { result ≡ character_key bytes.now }
{
    if bytes.len() != size_by(bytes[0]) {
        return Key::Unknown;
    }
    if bytes[0] < 128 {
        return ascii_key(bytes[0]);
    }
    if bytes.len() == 1 {
        return Key::Unknown;
    }
    key_of_code(code_of(bytes))
}

/// The name by the last letter of a control sequence, or the one after a single shift.
fn name_of_letter(letter: u8) -> Option<Name>
    ensures { result ≡ name_of_letter letter }
{
    match letter {
        b'A' => Some(Name::Up),
        b'B' => Some(Name::Down),
        b'C' => Some(Name::Right),
        b'D' => Some(Name::Left),
        b'E' => Some(Name::Begin),
        b'F' => Some(Name::End),
        b'H' => Some(Name::Home),
        b'P'..=b'S' => Some(Name::Function(letter - 79)),
        _ => None,
    }
}

/// The same after a single shift, with the keypad.
fn name_of_keypad(letter: u8) -> Option<Name>
    ensures { result ≡ name_of_keypad letter }
{
    match letter {
        b'M' => Some(Name::Enter),
        b'w' => Some(Name::A1),
        b'y' => Some(Name::A3),
        b'u' => Some(Name::B2),
        b'q' => Some(Name::C1),
        b's' => Some(Name::C3),
        _ => name_of_letter(letter),
    }
}

/// The name by the number of a control sequence that ends in ~.
fn name_of_number(number: u32) -> Option<Name>
    ensures { result ≡ name_of_number number }
{
    match number {
        1 => Some(Name::Home),
        7 => Some(Name::Home),
        2 => Some(Name::Insert),
        3 => Some(Name::Delete),
        4 => Some(Name::End),
        8 => Some(Name::End),
        5 => Some(Name::PageUp),
        6 => Some(Name::PageDown),
        11..=15 => Some(Name::Function(number as u8 - 10)),
        17..=21 => Some(Name::Function(number as u8 - 11)),
        23..=26 => Some(Name::Function(number as u8 - 12)),
        28..=29 => Some(Name::Function(number as u8 - 13)),
        31..=34 => Some(Name::Function(number as u8 - 14)),
        _ => None,
    }
}

/// The name by the number of a character.
fn name_of_code(code: u32) -> Option<Name>
    ensures { result ≡ name_of_code code }
{
    match code {
        13 => return Some(Name::Enter),
        9 => return Some(Name::Tab),
        27 => return Some(Name::Escape),
        8 => return Some(Name::Backspace),
        127 => return Some(Name::Backspace),
        _ => {}
    }
    if code < 32 || (0xe000 <= code && code < 0xf900) {
        return None;
    }
    match char::from_u32(code) {
        Some(character) => Some(Name::Character(character)),
        None => None,
    }
}

/// The name by the last letter of a control sequence.
fn name_of_final(letter: u8) -> Option<Name>
    ensures { result ≡ name_of_final letter }
{
    if letter == b'G' {
        return Some(Name::B2);
    }
    name_of_letter(letter)
}

/// Whether a number is odd.
fn is_odd(number: u32) -> bool
    ensures { result ≡ is_odd number }
{
    number % 2 == 1
}

/// The modifiers of some bits.
fn modifiers_of(bits: u32) -> Modifiers
    ensures { result ≡ modifiers_of bits }
{
    Modifiers {
        shift: is_odd(bits),
        alt: is_odd(bits / 2),
        ctrl: is_odd(bits / 4),
    }
}

/// The key of a name, if there is one.
fn pressed(name: Option<Name>, held: Modifiers) -> Key
    ensures { result ≡ pressed name held }
{
    match name {
        Some(name) => Key::Pressed(name, held),
        None => Key::Unknown,
    }
}

/// The same with a parameter that says the modifiers, whose bits but those of locks are below a limit.
fn pressed_below(limit: u32, name: Option<Name>, number: u32) -> Key
    ensures { result ≡ pressed_below limit name number }
{
    let bits = number.saturating_sub(1);
    if number > 256 || bits % 64 >= limit {
        return Key::Unknown;
    }
    pressed(name, modifiers_of(bits))
}

/// The same where the bit for meta is passed over.
fn pressed_with(name: Option<Name>, number: u32) -> Key
    ensures { result ≡ pressed_with name number }
{
    pressed_below(16, name, number)
}

/// The key by the number of a character and the parameter of the modifiers.
fn coded_with(code: u32, number: u32) -> Key
    ensures { result ≡ coded_with code number }
{
    pressed_below(8, name_of_code(code), number)
}

/// The key of the Linux console that ends in a letter.
#[tactic(auto, unfolding(crate::specs::Meanings::console_key))]
fn console_key(letter: u8) -> Key
    ensures { result ≡ console_key letter }
{
    if b'A' <= letter && letter <= b'E' {
        Key::named(Name::Function(letter - 64))
    } else {
        Key::Unknown
    }
}

/// The key of a control sequence that ends in ~.
fn numbered_key(p: Parameters) -> Key
    ensures { result ≡ numbered_key p }
{
    if p.ended == 2 {
        return if p.first == 27 {
            coded_with(p.third, p.second)
        } else {
            Key::Unknown
        };
    }
    if p.ended == 0 && p.first == 200 && !p.has_colon {
        return Key::PasteBegins;
    }
    pressed_with(name_of_number(p.first), p.second)
}

/// The key of a control sequence that ends in a letter behind the modifiers.
fn lettered_key(p: Parameters, letter: u8) -> Key
    ensures { result ≡ lettered_key p letter }
{
    if p.first > 1 || p.ended != 1 {
        return Key::Unknown;
    }
    if letter == b'Z' {
        return pressed_with(Some(Name::Tab), p.second).with(Modifiers::SHIFT);
    }
    pressed_with(name_of_final(letter), p.second)
}

/// The key of a control sequence that is a letter without parameters.
fn plain_key(letter: u8) -> Key
    ensures { result ≡ plain_key letter }
{
    if letter == b'I' {
        return Key::FocusIn;
    }
    if letter == b'O' {
        return Key::FocusOut;
    }
    if letter == b'Z' {
        return Key::Pressed(Name::Tab, Modifiers::SHIFT);
    }
    if b'a' <= letter && letter <= b'd' {
        return pressed(name_of_letter(letter - 32), Modifiers::SHIFT);
    }
    pressed(name_of_final(letter), Modifiers::NONE)
}

/// The key of a control sequence by its parameters and its final byte.
#[tactic(auto, unfolding(crate::specs::Meanings::controlled_key))]
fn controlled_key(p: Parameters, last: u8) -> Key
    ensures { result ≡ controlled_key p last }
{
    if p.strange || p.event > 2 {
        return Key::Unknown;
    }
    if last == b'~' {
        return numbered_key(p);
    }
    if last == b'u' {
        return if p.ended == 2 {
            Key::Unknown
        } else {
            coded_with(p.first, p.second)
        };
    }
    lettered_key(p, last)
}

/// Whether this byte ends a sequence of rxvt with modifiers.
fn is_ending(last: u8) -> bool
    ensures { result ≡ is_ending last }
{
    last == b'$' || last == b'^' || last == b'@'
}

/// The modifiers by which rxvt ends its sequences.
fn held_by_ending(last: u8) -> Modifiers
    ensures { result ≡ held_by_ending last }
{
    if last == b'$' {
        Modifiers::SHIFT
    } else if last == b'^' {
        Modifiers::CTRL
    } else {
        Modifiers::CTRL_AND_SHIFT
    }
}

/// The key of a number whose modifiers are said by the last byte.
#[tactic(auto, unfolding(crate::specs::Meanings::ended_key))]
fn ended_key(bytes: &[u8]) -> Key
    ensures { result ≡ ended_key bytes.now }
{
    if !is_numbered(bytes) {
        return Key::Unknown;
    }
    let end = bytes.len() - 1;
    let number = Parameters::of(&bytes[2..end]).first;
    pressed(name_of_number(number), held_by_ending(bytes[end]))
}

/// The number of a button.
fn button_of(bits: u32) -> u8
    ensures { result ≡ button_of bits }
{
    if bits < 64 {
        ((bits + 1) % 4) as u8
    } else if bits < 128 {
        4 + (bits % 4) as u8
    } else {
        8 + (bits % 4) as u8
    }
}

/// What was done with the mouse.
fn action_of(bits: u32, released: bool) -> Action
    ensures { result ≡ action_of bits released }
{
    if is_odd(bits / 32) {
        Action::Motion
    } else if released {
        Action::Release
    } else {
        Action::Press
    }
}

/// Whether a number is a column or a line, from 1 on.
fn is_place(number: u32) -> bool
    ensures { result ≡ is_place number }
{
    0 < number && number < TOO_LARGE
}

/// What the mouse did, by the bits of its button, and the column and the line from 1.
fn pointed(bits: u32, released: bool, column: u32, line: u32) -> Key
    ensures { result ≡ pointed bits released column line }
{
    if bits > 191 || !is_place(column) || !is_place(line) {
        return Key::Unknown;
    }
    Key::Pointed(Mouse {
        button: button_of(bits),
        held: modifiers_of(bits / 4),
        action: action_of(bits, released),
        column: column - 1,
        line: line - 1,
    })
}

/// What the mouse did, by three numbers and the final byte.
#[tactic(auto, unfolding(crate::specs::Meanings::mouse_key))]
fn mouse_key(p: Parameters, last: u8) -> Key
    ensures { result ≡ mouse_key p last }
{
    if p.strange || p.has_colon || p.ended != 2 {
        return Key::Unknown;
    }
    if last == b'M' || last == b'm' {
        return pointed(p.first, last == b'm', p.second, p.third);
    }
    Key::Unknown
}

/// What the mouse did, by three bytes.
#[tactic(auto, unfolding(crate::specs::Meanings::three_bytes_key))]
fn three_bytes_key(bytes: &[u8]) -> Key
    ensures { result ≡ three_bytes_key bytes.now }
{
    if bytes.len() != 6 || bytes[3] < 32 {
        return Key::Unknown;
    }
    let bits = u32::from(bytes[3] - 32);
    let column = u32::from(bytes[4].saturating_sub(32));
    let line = u32::from(bytes[5].saturating_sub(32));
    pointed(bits, button_of(bits) == 0, column, line)
}

/// The key of a control sequence.
#[tactic(auto, unfolding(crate::specs::Meanings::control_key))]
fn control_key(bytes: &[u8]) -> Key
    requires { 3 ≤ length bytes.now }
    ensures { result ≡ control_key bytes.now }
{
    let end = bytes.len() - 1;
    let last = bytes[end];
    if bytes[2] == BRACKET {
        return if bytes.len() == 4 {
            console_key(bytes[3])
        } else {
            Key::Unknown
        };
    }
    if bytes[2] == THREE_BYTES {
        return three_bytes_key(bytes);
    }
    if is_ending(last) {
        return ended_key(bytes);
    }
    if last < 0x40 {
        return Key::Unknown;
    }
    if bytes[2] == b'<' {
        return mouse_key(Parameters::of(&bytes[3..end]), last);
    }
    if bytes.len() == 3 {
        return plain_key(last);
    }
    controlled_key(Parameters::of(&bytes[2..end]), last)
}

/// The key after a single shift.
#[tactic(auto, unfolding(crate::specs::Meanings::shifted_key))]
fn shifted_key(bytes: &[u8]) -> Key
    requires { 3 ≤ length bytes.now }
    ensures { result ≡ shifted_key bytes.now }
{
    let third = bytes[2];
    if is_digit(third) {
        return if bytes.len() == 4 {
            pressed_with(name_of_keypad(bytes[3]), u32::from(third - b'0'))
        } else {
            Key::Unknown
        };
    }
    if b'a' <= third && third <= b'd' {
        return pressed(name_of_letter(third - 32), Modifiers::CTRL);
    }
    pressed(name_of_keypad(third), Modifiers::NONE)
}

/// The key of what an escape begins.
fn escaped_key(bytes: &[u8]) -> Key
    requires { 1 ≤ length bytes.now }
    ensures { result ≡ escaped_key bytes.now }
{
    if bytes.len() == 1 {
        return Key::named(Name::Escape);
    }
    if bytes.len() == 2 {
        return character_key(&bytes[1..]).with(Modifiers::ALT);
    }
    if bytes[1] == BRACKET {
        return control_key(bytes);
    }
    if bytes[1] == SHIFT_THREE {
        return shifted_key(bytes);
    }
    if opens_string(bytes[1]) {
        return Key::Unknown;
    }
    character_key(&bytes[1..]).with(Modifiers::ALT)
}

/// The key of a sequence.
#[tactic(auto, unfolding(crate::specs::Meanings::key_of))]
pub fn key_of(pasting: bool, bytes: &[u8]) -> Key
    requires { 1 ≤ length bytes.now }
    ensures { result ≡ key_of pasting bytes.now }
{
    if pasting {
        return if bytes.len() == 6 {
            Key::PasteEnds
        } else {
            Key::Pasted
        };
    }
    if bytes[0] == ESCAPE {
        return escaped_key(bytes);
    }
    character_key(bytes)
}
