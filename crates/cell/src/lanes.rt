//! Cells that are looked at together: as numbers in the lanes of a vector, or by loops that the compiler vectorizes.

ghost use Rattle.std.specs.Prelude.{◌≡◌, ◌≤◌, ◌<◌, ◌==◌, ◌↔◌};
ghost use Rattle.cell.specs.{ℕ, length, map, slice_index_or, take, true, list_all, DiffersAt, same_rendition, IsCell, blank, glyph_bits, shown_bits, shown_of};
ghost use Rattle.cell.specs.declared.lanes.TheConstants.{LANES};

use crate::cell::Cell;
use crate::colour::PairId;
use crate::shown::{Rendition, Shown};
use std::simd::prelude::*;

/// How many cells are looked at together.
pub const LANES: usize = 16;

/// How many cells of a long line are shown together.
pub(crate) const BLOCK: usize = 4 * LANES;

/// Whether so many cells are the same.
pub(crate) fn same_lanes(old: &[Shown], new: &[Shown]) -> bool
    requires old { length old.now ≡ LANES }
    requires new { length new.now ≡ LANES }
    ensures { (result ≡ true) ↔ (old.now ≡ new.now) }
{
    lanes(old).simd_ne(lanes(new)).to_bitmask() == 0
}

/// How many of so many cells come before the first in which they differ: all, where none does.
pub(crate) fn same_before(old: &[Shown], new: &[Shown]) -> usize
    requires old { length old.now ≡ LANES }
    requires new { length new.now ≡ LANES }
    ensures within { result ≤ LANES }
    ensures same { take result old.now ≡ take result new.now }
    ensures differs { result < LANES → DiffersAt old.now new.now result }
{
    let differing = lanes(old).simd_ne(lanes(new)).to_bitmask();
    if differing == 0 {
        LANES
    } else {
        differing.trailing_zeros() as usize
    }
}

/// Whether some cells all have a rendition. It looks at each of them, by a loop that the compiler vectorizes.
pub fn have_rendition(cells: &[Shown], rendition: Rendition) -> bool
    ensures { result ≡ list_all (λ cell. same_rendition cell.rendition rendition) cells.now }
{
    let wanted = rendition.bits();
    let mut different = 0;
    for cell in cells {
        different |= cell.bits() ^ wanted;
    }
    different < 256
}

/// Whether some cells of windows all have a pair, by a loop of the same form.
pub(crate) fn have_pair(cells: &[Cell], pair: PairId) -> bool
    ensures { result ≡ list_all (λ cell. cell.pair == pair) cells.now }
{
    let wanted = u32::from(pair.number()) * 65_536;
    let mut different = 0;
    for cell in cells {
        different |= cell.bits() ^ wanted;
    }
    different < 65_536
}

/// So many cells as numbers, one in each lane.
fn lanes(cells: &[Shown]) -> u32x16
    requires { length cells.now ≡ LANES }
    ensures bits { result ≡ map shown_bits cells.now }
    ensures held { cells.now ≡ map shown_of result }
{
    let mut numbers = [0; LANES];
    for x in 0..LANES {
        numbers[x] = cells[x].bits();
    }
    u32x16::from_array(numbers)
}

/// Whether so many cells of windows all have a pair.
pub(crate) fn lanes_have_pair(cells: &[Cell], pair: PairId) -> bool
    requires { length cells.now ≡ LANES }
    ensures { result ≡ list_all (λ cell. cell.pair == pair) cells.now }
{
    let wanted = u32::from(pair.number()) * 65_536;
    (cell_lanes(cells) ^ u32x16::splat(wanted)).reduce_or() < 65_536
}

/// So many cells of windows as numbers, one in each lane.
fn cell_lanes(cells: &[Cell]) -> u32x16
    requires { length cells.now ≡ LANES }
    ensures bits { result ≡ map glyph_bits cells.now }
    ensures sound { (k : ℕ) → k < length cells.now → IsCell (slice_index_or cells.now k blank) }
{
    let mut bits = [0; LANES];
    for x in 0..LANES {
        bits[x] = cells[x].bits();
    }
    u32x16::from_array(bits)
}
