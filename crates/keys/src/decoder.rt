//! A decoder: it takes the bytes of a terminal, and answers keys.

ghost use Rattle.std.specs.Prelude.{if◌then◌else◌, ◌++◌, ◌+◌, ◌<◌, ◌∷◌, ◌≡◌, ◌≤◌};
ghost use Rattle.keys.specs.{Byte, Delay, Event, HasRead, List, [], after_bytes, after_cut, answered, cut_by};
ghost use Rattle.keys.specs.{cut_by_delay, cut_short, ended_by, false, is_some, is_whole, item, items_of, keys_of};
ghost use Rattle.keys.specs.{leaves_escape, left_by, length, map, option_list, option_map, pasting_after, start};
ghost use Rattle.keys.specs.{state_after, take, taken_by, taken_of, whole_of};

use crate::asked::Asked;
use crate::grammar::{ESCAPE, LONGEST, continues, is_whole, leaves_escape};
use crate::key::Key;
use crate::meaning::key_of;
use std::marker::Model;

/// A key, and how many bytes it took.
#[derive(Clone, Copy, PartialEq, Eq)]
pub struct Taken {
    pub key: Key,
    pub count: usize,
}

/// The keys that a byte ends, in their order: at most two. Where there are two, the first took none of this byte.
#[derive(Clone, Copy, PartialEq, Eq)]
pub struct Answer {
    pub first: Option<Taken>,
    /// None where the first is.
    pub second: Option<Taken>,
}

/// How many bytes of a piece were taken, and what the last of them answered.
#[derive(Clone, Copy, PartialEq, Eq)]
pub struct Progress {
    pub used: usize,
    pub answer: Answer,
}

/// Takes the bytes of a terminal one by one, and answers keys. It takes no memory once it is made.
#[derive(Drop)]
pub struct Decoder {
    bytes: [u8; LONGEST],
    count: usize,
    pasting: bool,
    asked: Asked,
}

impl Model for Decoder {
    ghost use Rattle.std.specs.Prelude.{◌<◌, take};
    ghost use Rattle.keys.specs.Readings.{State};
    ghost use Rattle.keys.specs.declared.grammar.TheConstants.{LONGEST};

    ghost Value = { State };

    ghost view = { λ d. record { asked = d.asked; pasting = d.pasting; pending = take d.count d.bytes } };

    ghost invariant = { λ d. d.count < LONGEST };
}

impl Answer {
    /// No byte ends a key.
    const NONE: Answer = Answer {
        first: None,
        second: None,
    };

    /// These keys, in their order.
    fn of(one: Option<Taken>, other: Option<Taken>) -> Answer
        ensures keys { answered result ≡ option_list one ++ option_list other }
        ensures in_order { result.first ≡ None → result.second ≡ None }
    {
        match one {
            None => Answer {
                first: other,
                second: None,
            },
            first => Answer {
                first,
                second: other,
            },
        }
    }
}

impl Decoder {
    /// A decoder of which nothing is pending.
    pub fn new(asked: Asked) -> Decoder
        ensures start { result ≡ start asked }
        ensures read { HasRead [] [] result }
    {
        Decoder {
            bytes: [0; LONGEST],
            count: 0,
            pasting: false,
            asked,
        }
    }

    /// Forgets what is pending, and that a text is pasted.
    pub fn restart(&mut self)
        ensures start { self.new ≡ start self.old.asked }
        ensures read { HasRead [] [] self.new }
    {
        self.count = 0;
        self.pasting = false;
    }

    /// The bytes of the sequence that was begun.
    pub fn pending(&self) -> &[u8]
        ensures { result.now ≡ self.now.pending }
    {
        &self.bytes[..self.count]
    }

    /// Whether the delay's end would answer a key: then it is to be measured.
    pub fn waits(&self) -> bool
        ensures { result ≡ is_some (cut_by_delay self.now) }
    {
        !self.pasting && self.count > 0
    }

    /// Takes a byte.
    #[tactic(auto, using(crate::proofs::Readings::steps))]
    pub fn byte(&mut self, byte: u8) -> Answer
        ensures keys { answered result ≡ keys_of (items_of self.old (Byte byte)) }
        ensures in_order { result.first ≡ None → result.second ≡ None }
        ensures after { self.new ≡ state_after self.old (Byte byte) }
        ensures asked { self.new.asked ≡ self.old.asked }
        ensures read { (events : List Event) (taken : List Taken) → HasRead events taken self.old
            → HasRead (events ++ Byte byte ∷ []) (taken ++ answered result) self.new }
    {
        let cut = self.cut(byte);
        let ended = self.take(byte);
        Answer::of(cut, ended)
    }

    /// The first bytes that are pending as a key.
    fn key_of_first(&self, count: usize) -> Taken
        requires few { count ≤ length self.now.pending }
        requires some { 1 ≤ count }
        ensures { result ≡ taken_of (item self.now (take count self.now.pending)) }
    {
        let key = key_of(self.pasting, &self.bytes[..count]);
        Taken {
            key: self.asked.key(key),
            count,
        }
    }

    /// Cuts what is pending short. The last escape of a string is left.
    fn cut_short(&mut self) -> Taken
        requires some { 1 ≤ length self.now.pending }
        ensures cut { result ≡ taken_of (cut_short self.old) }
        ensures left { self.new ≡ after_cut self.old }
        ensures asked { self.new.asked ≡ self.old.asked }
    {
        let count = self.count;
        if leaves_escape(self.pasting, &self.bytes[..count]) {
            let taken = self.key_of_first(count - 1);
            self.bytes[0] = ESCAPE;
            self.count = 1;
            return taken;
        }
        let taken = self.key_of_first(count);
        self.count = 0;
        taken
    }

    /// Cuts what is pending short, if the byte doesn't go on there.
    fn cut(&mut self, byte: u8) -> Option<Taken>
        ensures cut { result ≡ option_map taken_of (cut_by self.old byte) }
        ensures left { self.new ≡ left_by self.old byte }
        ensures asked { self.new.asked ≡ self.old.asked }
    {
        if continues(self.pasting, &self.bytes[..self.count], byte) {
            return None;
        }
        Some(self.cut_short())
    }

    /// Takes a byte of the sequence that is pending, or another escape after an escape.
    fn take(&mut self, byte: u8) -> Option<Taken>
        ensures ended { result ≡ option_map taken_of (ended_by self.old byte) }
        ensures after { self.new ≡ taken_by self.old byte }
        ensures asked { self.new.asked ≡ self.old.asked }
    {
        if !continues(self.pasting, &self.bytes[..self.count], byte) {
            let alone = self.key_of_first(self.count);
            self.bytes[0] = byte;
            self.count = 1;
            return Some(alone);
        }
        self.bytes[self.count] = byte;
        self.count += 1;
        let count = self.count;
        if !is_whole(self.pasting, &self.bytes[..count]) {
            return None;
        }
        let key = key_of(self.pasting, &self.bytes[..count]);
        let key = self.asked.key(key);
        self.count = 0;
        self.pasting = pasting_after(self.pasting, key);
        Some(Taken { key, count })
    }

    /// Takes bytes of a piece up to one that answers a key, or all of them.
    pub fn bytes(&mut self, piece: &[u8]) -> Progress
        ensures used { result.used ≤ length piece.now }
        ensures all { result.answer.first ≡ None → result.used ≡ length piece.now }
        ensures in_order { result.answer.first ≡ None → result.answer.second ≡ None }
        ensures asked { self.new.asked ≡ self.old.asked }
        ensures read { (events : List Event) (taken : List Taken) → HasRead events taken self.old
            → HasRead (events ++ map Byte (take result.used piece.now)) (taken ++ answered result.answer) self.new }
    {
        for (at, byte) in piece.iter().enumerate() {
            let answer = self.byte(*byte);
            if answer.first.is_some() {
                return Progress {
                    used: at + 1,
                    answer,
                };
            }
        }
        Progress {
            used: piece.len(),
            answer: Answer::NONE,
        }
    }

    /// Says that nothing came until the delay was over. Where the decoder still waits then, an escape is left, and the
    /// next delay answers it.
    #[tactic(auto, using(crate::proofs::Readings::steps))]
    pub fn delay(&mut self) -> Option<Taken>
        ensures keys { option_list result ≡ keys_of (items_of self.old Delay) }
        ensures after { self.new ≡ state_after self.old Delay }
        ensures asked { self.new.asked ≡ self.old.asked }
        ensures read { (events : List Event) (taken : List Taken) → HasRead events taken self.old
            → HasRead (events ++ Delay ∷ []) (taken ++ option_list result) self.new }
    {
        if self.pasting || self.count == 0 {
            return None;
        }
        Some(self.cut_short())
    }
}

/// Whether a text is being pasted after a key.
fn pasting_after(pasting: bool, key: Key) -> bool
    ensures { result ≡ pasting_after pasting key }
{
    match key {
        Key::PasteBegins => true,
        Key::PasteEnds => false,
        _ => pasting,
    }
}
