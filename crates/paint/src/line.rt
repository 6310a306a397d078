//! The changed cells of a line, and runs of them that have one rendition.

ghost use Rattle.std.specs.Prelude.{◌≡◌, ◌-◌, ◌<◌, ◌≤◌};
ghost use Rattle.paint.specs.{ℕ, false, true, length, slice_index_or, same_shown, shown_blank, LANES, AreEnds, AreOfRun, IsRun, IsStretch, is_over};
ghost use Rattle.paint.specs.declared.line.TheConstants.{FEW};

use cell::{LANES, Rendition, Shown, first_diff};
use std::simd::prelude::*;

/// How many cells are printed again at most: the bytes of the shortest move.
const FEW: usize = 6;

/// How many cells of a gap are looked at one after another.
const NEAR: usize = 4;

/// The first changed cell of a line from a column on, before an end, and that end where there is none. After a few
/// cells that are shown already many are looked at together.
pub fn next_changed(shown: &[Shown], wanted: &[Shown], from: usize, end: usize) -> usize
    requires same { length shown.now ≡ length wanted.now }
    requires ordered { from ≤ end }
    requires inside { end ≤ length wanted.now }
    ensures ordered { from ≤ result }
    ensures within { result ≤ end }
    ensures alike { (v : ℕ) → from ≤ v → v < result → slice_index_or shown.now v shown_blank ≡ slice_index_or wanted.now v shown_blank }
    ensures changed { result < end → slice_index_or shown.now result shown_blank ≡ slice_index_or wanted.now result shown_blank → ⊥ }
{
    let near = end.min(from + NEAR);
    for x in from..near {
        if shown[x] != wanted[x] {
            return x;
        }
    }
    far_changed(shown, wanted, near, end)
}

/// The same, by many cells that are looked at together.
fn far_changed(shown: &[Shown], wanted: &[Shown], from: usize, end: usize) -> usize
    requires same { length shown.now ≡ length wanted.now }
    requires ordered { from ≤ end }
    requires inside { end ≤ length wanted.now }
    ensures ordered { from ≤ result }
    ensures within { result ≤ end }
    ensures alike { (v : ℕ) → from ≤ v → v < result → slice_index_or shown.now v shown_blank ≡ slice_index_or wanted.now v shown_blank }
    ensures changed { result < end → slice_index_or shown.now result shown_blank ≡ slice_index_or wanted.now result shown_blank → ⊥ }
{
    match first_diff(&shown[from..end], &wanted[from..end]) {
        Some(skipped) => from + skipped,
        None => end,
    }
}

/// Where the cells end, before an end, that are printed together from a changed one on, and the next changed cell after
/// them: runs of one rendition, with a few cells of it between two, which are shown already.
pub fn stretch(shown: &[Shown], wanted: &[Shown], start: usize, end: usize) -> (usize, usize)
    requires same { length shown.now ≡ length wanted.now }
    requires begun { start < end }
    requires inside { end ≤ length wanted.now }
    requires differs { same_shown (slice_index_or shown.now start shown_blank) (slice_index_or wanted.now start shown_blank) ≡ false }
    ensures cells { IsStretch shown.now wanted.now start end result.0 }
    ensures ordered { result.0 ≤ result.1 }
    ensures within { result.1 ≤ end }
    ensures alike { (v : ℕ) → result.0 ≤ v → v < result.1 → slice_index_or shown.now v shown_blank ≡ slice_index_or wanted.now v shown_blank }
    ensures changed { result.1 < end → slice_index_or shown.now result.1 shown_blank ≡ slice_index_or wanted.now result.1 shown_blank → ⊥ }
{
    let rendition = wanted[start].rendition();
    let mut stop = run_end(shown, wanted, start, end);
    let mut x = stop;
    while goes_on(wanted, stop, x, end, rendition) {
        if shown[x] != wanted[x] {
            stop = run_end(shown, wanted, x, end);
            x = stop;
        } else {
            x += 1;
        }
    }
    (stop, next_changed(shown, wanted, x, end))
}

/// Whether, before an end, a cell has a rendition, and no more than a few are between it and those of it. To print these
/// again takes no more bytes than to move over them.
#[inline(always)]
fn goes_on(wanted: &[Shown], stop: usize, x: usize, end: usize, rendition: Rendition) -> bool
    requires ordered { stop ≤ x }
    requires inside { end ≤ length wanted.now }
    ensures before { result ≡ true → x < end }
    ensures few { result ≡ true → x - stop ≤ FEW }
    ensures rendition { result ≡ true → (slice_index_or wanted.now x shown_blank).rendition ≡ rendition }
{
    x < end && x - stop <= FEW && wanted[x].rendition() == rendition
}

/// Where the run of changed cells of one rendition ends that begins at a column, before an end.
#[inline(always)]
pub fn run_end(shown: &[Shown], wanted: &[Shown], start: usize, end: usize) -> usize
    requires same { length shown.now ≡ length wanted.now }
    requires begun { start < end }
    requires inside { end ≤ length wanted.now }
    requires differs { same_shown (slice_index_or shown.now start shown_blank) (slice_index_or wanted.now start shown_blank) ≡ false }
    ensures run { IsRun shown.now wanted.now start end result }
{
    let from = start + 1;
    if from < end && is_over(shown[from], wanted[from], wanted[start].rendition()) {
        return from;
    }
    run_end_after(shown, wanted, start, from, end)
}

/// Where a run ends, before an end, whose cells up to a column are known. Many cells are looked at together.
#[inline(never)]
fn run_end_after(shown: &[Shown], wanted: &[Shown], start: usize, from: usize, end: usize) -> usize
    requires same { length shown.now ≡ length wanted.now }
    requires inside { end ≤ length wanted.now }
    requires run { IsRun shown.now wanted.now start end from }
    ensures run { IsRun shown.now wanted.now start end result }
{
    let rendition = wanted[start].rendition();
    let mut x = from;
    while end - x >= LANES {
        let more = run_before(&shown[x..x + LANES], &wanted[x..x + LANES], rendition);
        x += more;
        if more < LANES {
            return x;
        }
    }
    run_end_from(shown, wanted, start, x, end)
}

/// The same, cell by cell.
fn run_end_from(shown: &[Shown], wanted: &[Shown], start: usize, from: usize, end: usize) -> usize
    requires same { length shown.now ≡ length wanted.now }
    requires inside { end ≤ length wanted.now }
    requires run { IsRun shown.now wanted.now start end from }
    ensures run { IsRun shown.now wanted.now start end result }
{
    let rendition = wanted[start].rendition();
    for x in from..end {
        if shown[x] == wanted[x] {
            return x;
        }
        if wanted[x].rendition() != rendition {
            return x;
        }
    }
    end
}

/// How many of so many cells come before the first that isn't of a run: all, where each is.
#[inline(always)]
fn run_before(shown: &[Shown], wanted: &[Shown], rendition: Rendition) -> usize
    requires shown { length shown.now ≡ LANES }
    requires wanted { length wanted.now ≡ LANES }
    ensures within { result ≤ LANES }
    ensures run { AreOfRun shown.now wanted.now rendition result }
{
    let ends = ends_of(shown, wanted, rendition)
        .simd_ne(u32x16::splat(0))
        .to_bitmask();
    if ends == 0 {
        LANES
    } else {
        ends.trailing_zeros() as usize
    }
}

/// Of so many cells the number 1 for each that isn't of a run, and else 0, by a loop that the compiler vectorizes.
#[inline(always)]
fn ends_of(shown: &[Shown], wanted: &[Shown], rendition: Rendition) -> u32x16
    requires shown { length shown.now ≡ LANES }
    requires wanted { length wanted.now ≡ LANES }
    ensures long { length result ≡ LANES }
    ensures ends { AreEnds shown.now wanted.now rendition result LANES }
{
    let mut ends = [0; LANES];
    for x in 0..LANES {
        ends[x] = u32::from(is_over(shown[x], wanted[x], rendition));
    }
    u32x16::from_array(ends)
}

/// Whether a cell isn't of a run: it is shown already, or has another rendition.
#[inline(always)]
fn is_over(shown: Shown, wanted: Shown, rendition: Rendition) -> bool
    ensures { result ≡ is_over shown wanted rendition }
{
    (shown == wanted) | (wanted.rendition() != rendition)
}

/// How many of the first cells have a rendition.
pub fn leading(cells: &[Shown], rendition: Rendition) -> usize
    ensures within { result ≤ length cells.now }
    ensures each { (k : ℕ) → k < result → (slice_index_or cells.now k shown_blank).rendition ≡ rendition }
{
    for k in 0..cells.len() {
        if cells[k].rendition() != rendition {
            return k;
        }
    }
    cells.len()
}
