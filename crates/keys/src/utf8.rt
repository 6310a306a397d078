//! Characters as bytes: UTF-8.

ghost use Rattle.std.specs.Prelude.{◌<◌, ◌≡◌, ◌≤◌};
ghost use Rattle.keys.specs.{code_of, is_in_character, length, size_by};

/// How many bytes a character has that begins with this one, and 1 for a byte that begins none.
pub fn size_by(first: u8) -> usize
    ensures { result ≡ size_by first }
{
    if first < 0xc2 {
        1
    } else if first < 0xe0 {
        2
    } else if first < 0xf0 {
        3
    } else if first < 0xf5 {
        4
    } else {
        1
    }
}

/// Whether a byte goes on in a character that has so many bytes already.
pub fn is_in_character(first: u8, count: usize, byte: u8) -> bool
    ensures { result ≡ is_in_character first count byte }
{
    if count != 1 {
        return 0x80 <= byte && byte <= 0xbf;
    }
    let least = if first == 0xe0 {
        0xa0
    } else if first == 0xf0 {
        0x90
    } else {
        0x80
    };
    let greatest = if first == 0xed {
        0x9f
    } else if first == 0xf4 {
        0x8f
    } else {
        0xbf
    };
    least <= byte && byte <= greatest
}

/// The number of a character of two, three or four bytes.
pub fn code_of(bytes: &[u8]) -> u32
    requires few { length bytes.now ≤ 4 }
    requires some { 2 ≤ length bytes.now }
    ensures { result ≡ code_of bytes.now }
{
    let first = u32::from(bytes[0]);
    let second = u32::from(bytes[1]) % 64;
    if bytes.len() == 2 {
        return first % 32 * 64 + second;
    }
    let third = u32::from(bytes[2]) % 64;
    if bytes.len() == 3 {
        return first % 16 * 4096 + second * 64 + third;
    }
    first % 8 * 262_144 + second * 4096 + third * 64 + u32::from(bytes[3]) % 64
}
