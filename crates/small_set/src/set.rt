//! A set of numbers below 1,024.

ghost use Rattle.std.specs.Prelude.{◌≡◌, ◌<◌, ◌≤◌, ◌==◌, ◌&&◌, ◌||◌, ◌/◌, ◌%◌, ℕ, true, false, if◌then◌else◌, nat_le};
ghost use Rattle.std.specs.Int.{bit_at};
ghost use Rattle.small_set.specs.Sets.{IsLast, IsNext, contains};

use crate::bits::{WIDTH, bits_between, bits_from, highest_bit, lowest_bit};
use std::marker::Model;

const WORDS: u16 = 16;

/// Each number of a set is below it.
pub const CAPACITY: u16 = WORDS * WIDTH;

/// A set of numbers below 1,024.
#[derive(Drop)]
pub struct SmallSet {
    words: [u64; 16],
    // Which words have a number, a bit for each.
    some: u64,
}

impl Model for SmallSet {
    ghost use Rattle.std.specs.Prelude.{List, ℕ, ◌≡◌, length};
    ghost use Rattle.small_set.specs.Sets.{HaveNumbers};

    ghost Value = { List ℕ };

    ghost view = { λ set. set.words };

    ghost invariant = { λ set. (length set.words ≡ 16) × HaveNumbers set.words set.some };
}

impl SmallSet {
    /// The empty set.
    pub fn new() -> SmallSet
        ensures { (n : ℕ) → contains result n ≡ false }
    {
        SmallSet {
            words: [0; 16],
            some: 0,
        }
    }

    /// Adds a number.
    pub fn insert(&mut self, number: u16)
        requires { number < CAPACITY }
        ensures { (n : ℕ) → contains self.new n ≡ (n == number || contains self.old n) }
    {
        self.insert_bits(number / WIDTH, 1 << (number % WIDTH));
    }

    /// Adds the numbers from one to another, both inclusive.
    pub fn insert_range(&mut self, first: u16, last: u16)
        requires ordered { first ≤ last }
        requires inside { last < CAPACITY }
        ensures { (n : ℕ) → contains self.new n ≡ (nat_le first n && nat_le n last || contains self.old n) }
    {
        for at in first / WIDTH..last / WIDTH + 1 {
            let low = first.max(at * WIDTH) - at * WIDTH;
            let high = (last - at * WIDTH).min(WIDTH - 1);
            self.insert_bits(at, bits_between(low, high));
        }
    }

    /// Adds the numbers that some bits of a word stand for.
    fn insert_bits(&mut self, at: u16, bits: u64)
        requires inside { at < WORDS }
        requires some { 0 < bits }
        ensures { (n : ℕ) → contains self.new n ≡ (n / 64 == at && bit_at bits (n % 64) == 1 || contains self.old n) }
    {
        self.words[usize::from(at)] |= bits;
        self.some |= 1 << at;
    }

    /// Removes a number.
    pub fn remove(&mut self, number: u16)
        requires { number < CAPACITY }
        ensures { (n : ℕ) → contains self.new n ≡ (if n == number then false else contains self.old n) }
    {
        let at = number / WIDTH;
        let word = self.words[usize::from(at)] & !(1 << (number % WIDTH));
        if word == 0 {
            self.some &= !(1 << at);
        }
        self.words[usize::from(at)] = word;
    }

    /// The least number that isn't in it.
    pub fn least_absent(&self) -> u16
        ensures absent { contains self.now result ≡ false }
        ensures below { (n : ℕ) → n < result → contains self.now n ≡ true }
    {
        for at in 0..WORDS {
            let word = self.words[usize::from(at)];
            if word != u64::MAX {
                return at * WIDTH + word.trailing_ones() as u16;
            }
        }
        CAPACITY
    }

    /// The least number from one on.
    pub fn next(&self, from: u16) -> Option<u16>
        ensures { IsNext self.now from result }
    {
        let at = from / WIDTH;
        let Some(word) = self.words.as_slice().get(usize::from(at)) else {
            return None;
        };
        let word = bits_from(*word, from % WIDTH);
        if word != 0 {
            return Some(at * WIDTH + lowest_bit(word));
        }
        let later = bits_from(self.some, at + 1);
        if later == 0 {
            return None;
        }
        let at = lowest_bit(later);
        Some(at * WIDTH + lowest_bit(self.words[usize::from(at)]))
    }

    /// The greatest number.
    pub fn last(&self) -> Option<u16>
        ensures { IsLast self.now result }
    {
        if self.some == 0 {
            return None;
        }
        let at = highest_bit(self.some);
        Some(at * WIDTH + highest_bit(self.words[usize::from(at)]))
    }

    /// Removes all numbers.
    pub fn clear(&mut self)
        ensures { (n : ℕ) → contains self.new n ≡ false }
    {
        self.words = [0; 16];
        self.some = 0;
    }
}
