//! A part of a window's line, put into a picture.

ghost use Rattle.std.specs.Prelude.{◌≡◌, ◌<◌, ◌≤◌, ◌+◌, ◌-◌, ◌==◌, ◌&&◌, if◌then◌else◌};
ghost use Rattle.picture.specs.{ℕ, nat_le, nat_lt, HasSize, shown_at, shown, HasPlace, cell_at, windows as windows_of, IsPiece};

use cell::{Cell, Grid, Pairs, Shown, WinId, show_cells};
use grids::{Grids, Place};

/// So many cells of line `y` of a window from column `left` on. There must be as many, and at least one.
pub fn piece(table: &Grids, win: WinId, y: u16, left: u16, n: usize) -> &[Cell]
    requires some { 0 < n }
    requires place { HasPlace (windows_of table.now).window win.0 y (left + n - 1) }
    ensures { IsPiece (windows_of table.now).window win.0 y left n result.now }
{
    let row = table.row(win, y);
    let from = usize::from(left);
    prove!(from + n <= row.len());
    &row[from..from + n]
}

/// Puts so many cells of a line of a window, from a place of it on, into line `y` of a picture from column `x` on.
pub fn show_piece(
    table: &Grids,
    pairs: &Pairs,
    source: Place,
    n: u16,
    y: u16,
    x: u16,
    picture: &mut Grid<Shown>,
)
    requires some { 0 < n }
    requires from { HasPlace (windows_of table.now).window source.win.0 source.line (source.column + n - 1) }
    requires line { y < table.now.lines }
    requires columns { x + n ≤ table.now.columns }
    requires size { HasSize table.now.lines table.now.columns picture.old }
    ensures shown { (v u : ℕ) → shown_at picture.new (v, u) ≡ (if (v == y) && (nat_le x u && nat_lt u (x + n)) then shown pairs.now
        (cell_at (windows_of table.now).window source.win.0 source.line (source.column + (u - x))) else shown_at picture.old (v, u)) }
    ensures size { HasSize table.now.lines table.now.columns picture.new }
{
    let cells = piece(
        table,
        source.win,
        source.line,
        source.column,
        usize::from(n),
    );
    show_cells(cells, pairs, y, x, true, picture);
}
