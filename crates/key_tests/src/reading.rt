//! What a decoder answers of some bytes.

use keys::{Answer, Asked, Decoder, Key, Modifiers, Name, Taken};

/// The keys of some bytes.
#[derive(Clone, Copy, PartialEq, Eq)]
pub struct Keys {
    taken: [Option<Taken>; 16],
    count: usize,
}

impl Keys {
    pub const NONE: Keys = Keys {
        taken: [None; 16],
        count: 0,
    };

    pub fn push(&mut self, taken: Option<Taken>) {
        if taken.is_some() {
            if let Some(place) = self.taken.get_mut(self.count) {
                *place = taken;
                self.count += 1;
            }
        }
    }

    pub fn push_answer(&mut self, answer: Answer) {
        self.push(answer.first);
        self.push(answer.second);
    }

    /// They are these.
    pub fn are(self, wanted: &[Taken]) -> bool {
        let mut keys = Keys::NONE;
        for taken in wanted {
            keys.push(Some(*taken));
        }
        self == keys
    }
}

/// Byte by byte, and then the delay twice: the first one may leave an escape.
pub fn read(asked: Asked, bytes: &[u8]) -> Keys {
    let mut decoder = Decoder::new(asked);
    let mut keys = Keys::NONE;
    for byte in bytes {
        keys.push_answer(decoder.byte(*byte));
    }
    keys.push(decoder.delay());
    keys.push(decoder.delay());
    keys
}

/// The same where all was asked for.
pub fn reads(bytes: &[u8], wanted: &[Taken]) -> bool {
    read(Asked::ALL, bytes).are(wanted)
}

pub fn taken(key: Key, count: usize) -> Taken {
    Taken { key, count }
}

pub fn unknown(count: usize) -> Taken {
    taken(Key::Unknown, count)
}

/// A key without modifiers.
pub fn name(name: Name, count: usize) -> Taken {
    taken(Key::Pressed(name, Modifiers::NONE), count)
}

/// A character without modifiers.
pub fn character(character: char, count: usize) -> Taken {
    name(Name::Character(character), count)
}

pub const ALT: Modifiers = Modifiers {
    shift: false,
    alt: true,
    ctrl: false,
};

/// A character with modifiers.
pub fn held(character: char, held: Modifiers, count: usize) -> Taken {
    taken(Key::Pressed(Name::Character(character), held), count)
}
