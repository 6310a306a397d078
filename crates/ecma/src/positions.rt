//! Positions of a screen, whose numbers are spelled once.

ghost use Rattle.std.specs.Prelude.{◌≡◌, ◌+◌, ◌<◌, ◌≤◌, ◌++◌};
ghost use Rattle.ecma.specs.{IfOk, decimal, length, take, LARGEST_SCREEN, spelling, IsNumber};

use crate::spelling::{INTRODUCER, LONGEST_SPELLING, append, digits};
use crate::token::Token;
use cell::LARGEST_SCREEN;
use itoa::Buffer;
use std::alloc::{AllocError, Global};
use std::marker::Model;

/// How many bytes a number has at most, with the separator after it.
const LONGEST_NUMBER: usize = 4;

/// The spellings of the numbers from 1 on, so many.
#[derive(Drop)]
pub struct Positions {
    // Each with the separator after it.
    numbers: Vec<[u8; LONGEST_NUMBER]>,
}

impl Model for Positions {
    ghost use Rattle.std.specs.Prelude.{◌<◌, ◌≤◌, ◌+◌, ℕ, length, slice_index_or, []};
    ghost use Rattle.cell.specs.declared.limits.TheConstants.{LARGEST_SCREEN};
    ghost use Rattle.ecma.specs.steps.Numbers.{IsNumber};

    ghost Value = { ℕ };

    ghost view = { λ positions. length positions.numbers.items };

    ghost invariant = { λ positions. (length positions.numbers.items ≤ LARGEST_SCREEN)
        × ((k : ℕ) → k < length positions.numbers.items → IsNumber (k + 1) (slice_index_or positions.numbers.items k [])) };
}

impl Positions {
    /// Those whose lines and columns are below a count.
    pub fn new(alloc: Global, count: u16) -> Result<Positions, AllocError>
        requires { count ≤ LARGEST_SCREEN }
        ensures { IfOk result (λ positions. positions ≡ count) }
    {
        let mut numbers = Vec::with_capacity(alloc, usize::from(count))?;
        for number in 0..count {
            numbers.push(spelled(number + 1))?;
        }
        Ok(Positions { numbers })
    }

    /// Writes the spelling of CUP to a place to the start of the buffer, and says how many bytes it has.
    #[tactic(auto, unfolding(crate::specs::Spelling::spelling))]
    pub fn spell(&self, line: u16, column: u16, out: &mut [u8; LONGEST_SPELLING]) -> usize
        requires line { line < self.now }
        requires column { column < self.now }
        ensures length { result ≡ length (spelling (Token.Cup line column)) }
        ensures text { take result out.new ≡ spelling (Token.Cup line column) }
    {
        let line_text = &self.numbers[usize::from(line)];
        let column_text = &self.numbers[usize::from(column)];
        let at = append(out, 0, INTRODUCER);
        let at = append_first(out, at, line_text, digits(line + 1) + 1);
        let at = append_first(out, at, column_text, digits(column + 1));
        append(out, at, b"H")
    }
}

/// A number below 1,000, with the separator after it.
fn spelled(number: u16) -> [u8; LONGEST_NUMBER]
    requires { number < 1000 }
    ensures { IsNumber number result }
{
    let mut text = [b';'; LONGEST_NUMBER];
    let count = digits(number);
    let mut buffer = Buffer::new();
    text[..count].copy_from_slice(buffer.format(number).as_bytes());
    text
}

/// Writes a piece at a place, whole, and says where its first bytes end, so many.
#[inline(always)]
fn append_first(
    out: &mut [u8; LONGEST_SPELLING],
    at: usize,
    piece: &[u8; LONGEST_NUMBER],
    count: usize,
) -> usize
    requires room { at + LONGEST_NUMBER ≤ LONGEST_SPELLING }
    requires few { count ≤ LONGEST_NUMBER }
    ensures end { result ≡ at + count }
    ensures text { take result out.new ≡ take at out.old ++ take count piece.now }
{
    let end = at + LONGEST_NUMBER;
    out[at..end].copy_from_slice(piece);
    at + count
}
