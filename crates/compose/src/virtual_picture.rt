//! The picture of a virtual screen, which keeps what changed on it.

ghost use Rattle.std.specs.Prelude.{◌≡◌, ◌<◌, ◌≤◌, ◌+◌, ◌-◌, ◌==◌, ◌&&◌, if◌then◌else◌};
ghost use Rattle.compose.specs.{ℕ, IfOk, None, length, nat_le, nat_lt, replicate, HasSize, blank_picture, shown_at, shown, LARGEST_SCREEN, HasPlace, cell_at, AddsChanges, windows as windows_of};
ghost use Rattle.compose.specs.{Damages, frame_holds};

use cell::{Grid, Pairs, Shown, WinId};
use extents::Extents;
use grids::{Grids, Place};
use picture::show_piece;
use std::alloc::{AllocError, Global};

/// What a virtual screen shows, and of each line the columns in which it may show something else than when it was last
/// taken.
#[derive(Drop)]
pub(crate) struct VirtualPicture {
    pub(crate) cells: Grid<Shown>,
    pub(crate) changes: Extents,
}

impl VirtualPicture {
    /// A blank one, of which nothing changed.
    pub(crate) fn new(alloc: Global, lines: u16, columns: u16) -> Result<VirtualPicture, AllocError>
        requires lines { lines ≤ LARGEST_SCREEN }
        requires columns { columns ≤ LARGEST_SCREEN }
        ensures cells { IfOk result (λ made. made.cells ≡ blank_picture lines columns) }
        ensures changes { IfOk result (λ made. made.changes ≡ replicate lines None) }
    {
        Ok(VirtualPicture {
            cells: Grid::new(alloc, lines, columns)?,
            changes: Extents::none(alloc, lines)?,
        })
    }

    /// Puts so many cells of a line of a window, from a place of it on, into line `y` from column `x` on, and adds
    /// these columns to the changes.
    pub(crate) fn show_piece(
        &mut self,
        table: &Grids,
        pairs: &Pairs,
        source: Place,
        n: u16,
        y: u16,
        x: u16,
    )
        requires some { 0 < n }
        requires from { HasPlace (windows_of table.now).window source.win.0 source.line (source.column + n - 1) }
        requires line { y < table.now.lines }
        requires columns { x + n ≤ table.now.columns }
        requires size { HasSize table.now.lines table.now.columns self.old.cells }
        requires height { length self.old.changes ≡ table.now.lines }
        ensures shown { (v u : ℕ) → shown_at self.new.cells (v, u) ≡ (if (v == y) && (nat_le x u && nat_lt u (x + n)) then shown pairs.now
            (cell_at (windows_of table.now).window source.win.0 source.line (source.column + (u - x))) else shown_at self.old.cells (v, u)) }
        ensures size { HasSize table.now.lines table.now.columns self.new.cells }
        ensures changes { AddsChanges self.old.changes self.old.cells self.new.changes self.new.cells }
        ensures few { Damages table.now.columns (frame_holds (record { top = y; left = x; bottom = y; right = x + (n - 1) })) self.old.changes self.new.changes }
    {
        prove!(table.has_window(WinId::STANDARD));
        show_piece(table, pairs, source, n, y, x, &mut self.cells);
        self.changes.widen(y, x, x + (n - 1));
    }
}
