//! Where the lines of windows come from that a picture is composed of, and how many of their cells were read.

ghost use Rattle.std.specs.Prelude.{◌≡◌, ◌<◌, ◌≤◌, ◌+◌, ◌-◌};
ghost use Rattle.picture.specs.{ℕ, true, LARGEST_SCREEN, cursor_on_screen, holds, place_of, HasPlace, Windows, is_no_pad, windows as windows_of, GrewBy, IsPiece, frame_holds};

use crate::parts::window_part;
use crate::piece::piece;
use crate::search::cursor_on_screen;
use cell::{Cell, Rect, WinId};
use grids::Grids;

/// Gives pieces of the lines of windows to read, and counts their cells. The pieces don't borrow the counter: they may
/// still be read while it gives more.
pub trait Rows<'a> {
    // The windows that are read, and how many of their cells were given to read.
    ghost windows: { Self → Windows };

    ghost cells_read: { Self → ℕ };

    /// The rectangle of a window on the screen. The window must exist, and be no pad.
    fn rect(&self, win: WinId) -> Rect
        requires { is_no_pad (windows self.now).window win.0 ≡ true }
        ensures place { (result.top, result.left) ≡ place_of (windows self.now).window win.0 }
        ensures ordered { result.left ≤ result.right }
        ensures within { result.right < LARGEST_SCREEN }
        ensures holds { (y x : ℕ) → frame_holds result y x ≡ holds (windows self.now).window win.0 y x };

    /// Where a window's cursor is on the screen.
    fn cursor(&self, win: WinId) -> (u16, u16)
        ensures { result ≡ cursor_on_screen (windows self.now).window win.0 };

    /// A piece of line `y` of a window, from its column `left` to its column `right`, both inclusive, which must exist.
    /// The count goes up by the number of its cells, modulo 2^64.
    fn read(&mut self, win: WinId, y: u16, left: u16, right: u16) -> &'a [Cell]
        requires ordered { left ≤ right }
        requires place { HasPlace (windows self.old).window win.0 y right }
        ensures piece { IsPiece (windows self.old).window win.0 y left (right - left + 1) result.now }
        ensures count { GrewBy (right - left + 1) (cells_read self.old) (cells_read self.new) }
        ensures same { windows self.new ≡ windows self.old };
}

/// The lines of a table of windows. No cell of it can be read but through `read`, which counts it.
#[derive(Drop)]
pub struct TableRows<'a> {
    table: &'a Grids,
    cells: u64,
}

impl<'a> TableRows<'a> {
    /// The lines of a table, of which so many cells were read before.
    pub fn of(table: &'a Grids, cells: u64) -> TableRows<'a>
        ensures windows { ⟦<TableRows<'a> as Rows<'a>>⟧.windows result ≡ windows_of table.now }
        ensures count { ⟦<TableRows<'a> as Rows<'a>>⟧.cells_read result ≡ cells }
    {
        TableRows { table, cells }
    }

    /// How many cells were read, modulo 2^64.
    pub fn cells_read(&self) -> u64
        ensures { result ≡ ⟦<TableRows<'a> as Rows<'a>>⟧.cells_read self.now }
    {
        self.cells
    }
}

impl<'a> Rows<'a> for TableRows<'a> {
    ghost windows = { λ rows. windows_of rows.table.now };

    ghost cells_read = { λ rows. rows.cells };

    fn rect(&self, win: WinId) -> Rect {
        prove!(self.table.has_window(WinId::STANDARD));
        match window_part(self.table, win) {
            Some(frame) => frame,
            None => unreachable!(),
        }
    }

    fn cursor(&self, win: WinId) -> (u16, u16) {
        cursor_on_screen(self.table, win)
    }

    fn read(&mut self, win: WinId, y: u16, left: u16, right: u16) -> &'a [Cell] {
        self.cells = self.cells.wrapping_add(u64::from(right - left) + 1);
        piece(self.table, win, y, left, usize::from(right - left) + 1)
    }
}
