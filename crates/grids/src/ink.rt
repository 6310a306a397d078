//! Characters printed with a pen.

ghost use Rattle.std.specs.Prelude.{◌≡◌, ◌+◌, ◌-◌, ◌<◌, ◌≤◌, ◌==◌, ◌&&◌, if◌then◌else◌};
ghost use Rattle.grids.specs.{ℕ, nat_le, nat_lt, length, map, slice_index, slice_index_or, EachIndex, true, IsCell, blank, is_printable, LARGEST_PAD, EachCell, HasSize, cell_or, line_of};
ghost use Rattle.grids.specs.{printed_cell};

use cell::{Cell, Grid};

/// How many characters of a text are printed together, at most.
const PIECE: usize = 16;

/// Prints characters in line `y` of a grid, from column `x` on. All lines of the grid are of one width.
pub(crate) fn print_in(grid: &mut Grid<Cell>, y: usize, x: usize, text: &[u8], pen: Cell)
    requires line { y < length grid.old }
    requires even { HasSize (length grid.old) (length (line_of grid.old y)) grid.old }
    requires columns { x + length text.now ≤ length (line_of grid.old y) }
    requires short { x + length text.now ≤ LARGEST_PAD }
    requires printable { EachIndex text.now (λ k. is_printable (slice_index text.now k) ≡ true) }
    ensures shown { (v u : ℕ) → cell_or blank grid.new (v, u) ≡ (if (v == y) &&
        (nat_le x u && nat_lt u (x + length text.now)) then slice_index_or (map (printed_cell pen) text.now) (u - x) blank else cell_or blank grid.old (v, u)) }
    ensures height { length grid.new ≡ length grid.old }
    ensures size { (lines columns : ℕ) → HasSize lines columns grid.old → HasSize lines columns grid.new }
    ensures cells { EachCell IsCell grid.old → EachCell IsCell grid.new }
{
    let mut done = 0;
    while done < text.len() {
        let end = (done + PIECE).min(text.len());
        print_together(grid, y, x + done, &text[done..end], pen);
        done = end;
    }
}

/// Prints a few characters in line `y` of a grid, from column `x` on, at once.
#[inline(always)]
fn print_together(grid: &mut Grid<Cell>, y: usize, x: usize, text: &[u8], pen: Cell)
    requires line { y < length grid.old }
    requires few { length text.now ≤ PIECE }
    requires columns { x + length text.now ≤ length (line_of grid.old y) }
    requires printable { EachIndex text.now (λ k. is_printable (slice_index text.now k) ≡ true) }
    ensures shown { (v u : ℕ) → cell_or blank grid.new (v, u) ≡ (if (v == y) &&
        (nat_le x u && nat_lt u (x + length text.now)) then slice_index_or (map (printed_cell pen) text.now) (u - x) blank else cell_or blank grid.old (v, u)) }
    ensures height { length grid.new ≡ length grid.old }
    ensures size { (lines columns : ℕ) → HasSize lines columns grid.old → HasSize lines columns grid.new }
    ensures cells { EachCell IsCell grid.old → EachCell IsCell grid.new }
{
    let mut held = [Cell::BLANK; PIECE];
    for k in 0..text.len() {
        held[k] = printed_cell(pen, text[k]);
    }
    grid.put_cells(y, x, &held[..text.len()]);
}

/// The cell of a printed character.
fn printed_cell(pen: Cell, ch: u8) -> Cell
    requires { is_printable ch ≡ true }
    ensures value { result ≡ printed_cell pen ch }
    ensures sound { IsCell result }
{
    prove!(pen.ch() >= b' ');
    if ch == b' ' {
        return pen;
    }
    pen.with_character(ch)
}
