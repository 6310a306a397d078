//! Which bytes go on a sequence of bytes that was begun, and where a sequence is whole.

ghost use Rattle.std.specs.Prelude.{◌&&◌, ◌≡◌, ◌≢◌, ◌≤◌};
ghost use Rattle.keys.specs.{are_digits, begins_string, continues, false, goes_on_control, goes_on_escape};
ghost use Rattle.keys.specs.{goes_on_shift, goes_on_string, is_digit, is_numbered, is_whole, is_whole_control};
ghost use Rattle.keys.specs.{is_whole_escape, is_whole_shift, is_whole_string, leaves_escape, length, opens_string};
ghost use Rattle.keys.specs.{true};

use crate::utf8::{is_in_character, size_by};

/// The most bytes that a sequence has.
pub const LONGEST: usize = 4096;

/// The control character that begins sequences.
pub const ESCAPE: u8 = 27;

/// What follows the escape of a control sequence.
pub const BRACKET: u8 = b'[';

/// What follows the escape of a single shift.
pub const SHIFT_THREE: u8 = b'O';

/// What follows ESC [ where the mouse has three bytes.
pub const THREE_BYTES: u8 = b'M';

/// What after an escape ends a string.
const TERMINATOR: u8 = b'\\';

/// The control character that ends a string.
const BELL: u8 = 7;

/// How a pasted text ends.
const PASTE_END: [u8; 6] = [ESCAPE, BRACKET, b'2', b'0', b'1', b'~'];

/// Whether a byte is a digit.
pub fn is_digit(byte: u8) -> bool
    ensures { result ≡ is_digit byte }
{
    b'0' <= byte && byte <= b'9'
}

/// Whether this byte after an escape begins a string.
pub fn opens_string(byte: u8) -> bool
    ensures { result ≡ opens_string byte }
{
    byte == b'P' || byte == b']' || byte == b'_'
}

/// Whether a byte behind a letter that opens a string begins it.
fn begins_string(letter: u8, byte: u8) -> bool
    ensures { result ≡ begins_string letter byte }
{
    if letter == b']' {
        return is_digit(byte) || byte == b'l' || byte == b'L';
    }
    if letter == b'P' {
        return 0x20 <= byte && byte <= 0x3f;
    }
    byte == b'G'
}

/// Whether a byte goes on a string.
fn goes_on_string(pending: &[u8], byte: u8) -> bool
    requires { 2 ≤ length pending.now }
    ensures { result ≡ goes_on_string pending.now byte }
{
    let count = pending.len();
    if count == 2 {
        return begins_string(pending[1], byte);
    }
    pending[count - 1] != ESCAPE || byte == TERMINATOR
}

/// Whether a byte goes on a control sequence.
fn goes_on_control(pending: &[u8], byte: u8) -> bool
    requires { 2 ≤ length pending.now }
    ensures { result ≡ goes_on_control pending.now byte }
{
    if pending.len() > 2 && pending[2] == THREE_BYTES {
        return byte != ESCAPE;
    }
    0x20 <= byte && byte <= 0x7e
}

/// Whether a byte goes on a single shift.
fn goes_on_shift(pending: &[u8], byte: u8) -> bool
    ensures { result ≡ goes_on_shift pending.now byte }
{
    let least = if pending.len() == 2 { 0x21 } else { 0x40 };
    least <= byte && byte <= 0x7e
}

/// Whether a byte goes on what an escape began.
fn goes_on_escape(pending: &[u8], byte: u8) -> bool
    requires { 1 ≤ length pending.now }
    ensures { result ≡ goes_on_escape pending.now byte }
{
    let count = pending.len();
    if count == 1 {
        return byte != ESCAPE;
    }
    let second = pending[1];
    if second == BRACKET {
        return goes_on_control(pending, byte);
    }
    if second == SHIFT_THREE {
        return goes_on_shift(pending, byte);
    }
    if opens_string(second) {
        return goes_on_string(pending, byte);
    }
    is_in_character(second, count - 1, byte)
}

/// Whether a byte belongs to the sequence whose first bytes are pending.
#[tactic(auto, unfolding(crate::specs::Grammar::continues))]
#[inline(always)]
pub fn continues(pasting: bool, pending: &[u8], byte: u8) -> bool
    ensures continues { result ≡ continues pasting pending.now byte }
    ensures begun { result ≡ false → 1 ≤ length pending.now }
{
    let count = pending.len();
    if count == 0 {
        return true;
    }
    if pasting {
        return count < 6 && byte == PASTE_END[count];
    }
    if pending[0] == ESCAPE {
        return goes_on_escape(pending, byte);
    }
    is_in_character(pending[0], count, byte)
}

/// Whether one more byte is a digit too.
fn and_digit(so_far: bool, byte: u8) -> bool
    ensures { result ≡ (so_far && is_digit byte) }
{
    so_far && is_digit(byte)
}

/// Whether all bytes are digits.
fn are_digits(bytes: &[u8]) -> bool
    ensures { result ≡ are_digits bytes.now }
{
    let mut so_far = true;
    for byte in bytes {
        so_far = and_digit(so_far, *byte);
    }
    so_far
}

/// Whether one number alone stands between ESC [ and the last byte.
pub fn is_numbered(bytes: &[u8]) -> bool
    ensures numbered { result ≡ is_numbered bytes.now }
    ensures some { result ≡ true → 4 ≤ length bytes.now }
{
    bytes.len() > 3 && are_digits(&bytes[2..bytes.len() - 1])
}

/// Whether a control sequence is whole.
fn is_whole_control(bytes: &[u8]) -> bool
    ensures { result ≡ is_whole_control bytes.now }
{
    let count = bytes.len();
    if count < 3 {
        return false;
    }
    if bytes[2] == BRACKET {
        return count == 4;
    }
    if bytes[2] == THREE_BYTES {
        return count == 6;
    }
    if bytes[count - 1] == b'$' {
        return is_numbered(bytes);
    }
    bytes[count - 1] >= 0x40
}

/// Whether a string is whole.
fn is_whole_string(bytes: &[u8]) -> bool
    ensures { result ≡ is_whole_string bytes.now }
{
    let count = bytes.len();
    if count < 3 {
        return false;
    }
    if bytes[count - 1] == BELL {
        return true;
    }
    bytes[count - 1] == TERMINATOR && bytes[count - 2] == ESCAPE
}

/// Whether a single shift is whole.
fn is_whole_shift(bytes: &[u8]) -> bool
    ensures { result ≡ is_whole_shift bytes.now }
{
    let count = bytes.len();
    if count == 3 {
        return !is_digit(bytes[2]);
    }
    count == 4
}

/// Whether what an escape began is whole.
fn is_whole_escape(bytes: &[u8]) -> bool
    requires { 1 ≤ length bytes.now }
    ensures { result ≡ is_whole_escape bytes.now }
{
    let count = bytes.len();
    if count == 1 {
        return false;
    }
    let second = bytes[1];
    if second == BRACKET {
        return is_whole_control(bytes);
    }
    if second == SHIFT_THREE {
        return is_whole_shift(bytes);
    }
    if opens_string(second) {
        return is_whole_string(bytes);
    }
    count == size_by(second) + 1
}

/// Whether a sequence is whole: no byte goes on after it.
#[tactic(auto, unfolding(crate::specs::Grammar::is_whole))]
pub fn is_whole(pasting: bool, bytes: &[u8]) -> bool
    requires { 1 ≤ length bytes.now }
    ensures whole { result ≡ is_whole pasting bytes.now }
    ensures not_longest { result ≡ false → length bytes.now ≢ LONGEST }
{
    let count = bytes.len();
    if count == LONGEST {
        return true;
    }
    if pasting {
        return bytes[0] != ESCAPE || count == 6;
    }
    if bytes[0] == ESCAPE {
        return is_whole_escape(bytes);
    }
    count == size_by(bytes[0])
}

/// Whether the last of the bytes that are pending begins what comes next, where the sequence is cut short.
#[tactic(auto, unfolding(crate::specs::Grammar::leaves_escape))]
pub fn leaves_escape(pasting: bool, pending: &[u8]) -> bool
    ensures leaves { result ≡ leaves_escape pasting pending.now }
    ensures long { result ≡ true → 3 ≤ length pending.now }
{
    let count = pending.len();
    if pasting || count < 3 {
        return false;
    }
    pending[0] == ESCAPE && opens_string(pending[1]) && pending[count - 1] == ESCAPE
}
