//! Pieces, the delay, and what is pending.

use crate::reading::{Keys, character, name, reads, taken, unknown};
use keys::{Answer, Asked, Decoder, Key, LONGEST, Name};

/// The keys of an arrow and a letter in two pieces, and how much was used.
fn of_pieces() -> (Keys, [usize; 3]) {
    let mut decoder = Decoder::new(Asked::NONE);
    let mut keys = Keys::NONE;
    let first = decoder.bytes(b"\x1b[");
    keys.push_answer(first.answer);
    let second = decoder.bytes(b"Aq");
    keys.push_answer(second.answer);
    let third = decoder.bytes(b"q");
    keys.push_answer(third.answer);
    (keys, [first.used, second.used, third.used])
}

#[test]
fn a_piece_is_used_up_to_a_key(rt: HostRuntime) {
    let (keys, used) = of_pieces();
    assert!(rt; keys.are(&[name(Name::Up, 3), character('q', 1)]));
    assert!(rt; used == [2, 1, 1]);
}

/// What is pending of a decoder, whether it waits, and the same once the delay is over, or it has begun again.
fn of_delay() -> ([bool; 4], Keys) {
    let mut decoder = Decoder::new(Asked::ALL);
    let mut keys = Keys::NONE;
    let before = decoder.waits();
    keys.push_answer(decoder.byte(27));
    let pending = decoder.pending() == b"\x1b".as_slice() && decoder.waits();
    keys.push(decoder.delay());
    let after = decoder.waits();
    keys.push_answer(decoder.bytes(b"\x1b[200~").answer);
    keys.push_answer(decoder.byte(27));
    keys.push(decoder.delay());
    let pasting = decoder.waits();
    decoder.restart();
    keys.push_answer(decoder.byte(b'a'));
    ([before, pending, after, pasting], keys)
}

#[test]
fn the_delay_ends_what_is_pending_but_no_pasted_text(rt: HostRuntime) {
    let (waited, keys) = of_delay();
    assert!(rt; waited == [false, true, false, false]);
    let wanted = [
        name(Name::Escape, 1),
        taken(Key::PasteBegins, 6),
        character('a', 1),
    ];
    assert!(rt; keys.are(&wanted));
}

/// The keys of a string without an end, of 4,096 digits and two more bytes.
fn of_longest() -> Keys {
    let mut decoder = Decoder::new(Asked::NONE);
    let mut keys = Keys::NONE;
    keys.push_answer(decoder.bytes(b"\x1b]").answer);
    for _ in 0..LONGEST - 1 {
        keys.push_answer(decoder.byte(b'1'));
    }
    keys
}

#[test]
fn a_string_has_at_most_4096_bytes(rt: HostRuntime) {
    assert!(rt; of_longest().are(&[unknown(4096), character('1', 1)]));
}

#[test]
fn the_keys_of_a_byte_are_in_their_order(rt: HostRuntime) {
    let mut decoder = Decoder::new(Asked::NONE);
    decoder.byte(0xe2);
    let wanted = Answer {
        first: Some(unknown(1)),
        second: Some(character('x', 1)),
    };
    let answer = decoder.byte(b'x');
    assert!(rt; answer == wanted);
    assert!(rt; reads(b"\x1b[200", &[unknown(5)]));
}
