//! The search from the top visible panel down to the standard screen, and the topmost's cursor.

ghost use Rattle.std.specs.Prelude.{◌≡◌, ◌<◌};
ghost use Rattle.picture.specs.{cursor_of_topmost, cursor_on_screen, found_from_top, place_of, topmost, window_or_standard, AreSoundPanels, AreSoundWindows, panel_number, windows as windows_of};
ghost use Rattle.picture.specs.{panels};

use crate::rows::{Rows, TableRows};
use crate::span::owner_span;
use cell::{Cell, WinId};
use grids::Grids;
use stack::Stack;
use world::PanelId;

/// The cell that a search from the top visible panel down to the standard screen finds at line `y` and column `x` of
/// the screen, which has so many columns.
pub fn cell_found(table: &Grids, stack: &Stack, y: u16, x: u16, columns: u16) -> Cell
    requires windows { AreSoundWindows (windows_of table.now) }
    requires panels { AreSoundPanels (windows_of table.now).window (panels stack.now) }
    requires line { y < table.now.lines }
    requires column { x < columns }
    requires columns { columns ≡ table.now.columns }
    ensures { result ≡ found_from_top (windows_of table.now).window (panels stack.now) y x }
{
    let span = owner_span(&TableRows::of(table, 0), stack, y, x, columns - 1);
    let win = window_of(stack, span.panel);
    let (top, left) = place(table, win);
    table.cell(win, y - top, x - left)
}

/// Where the cursor of the top visible panel's window is on the screen, or of the standard screen if there is none.
pub fn wanted_cursor<'a, R: Rows<'a>>(rows: &R, stack: &Stack) -> (u16, u16)
    ensures { result ≡ cursor_of_topmost (R.windows rows.now).window (panels stack.now) }
{
    rows.cursor(window_on_top(stack))
}

/// Where a window's cursor is on the screen.
pub fn cursor_on_screen(table: &Grids, win: WinId) -> (u16, u16)
    ensures { result ≡ cursor_on_screen (windows_of table.now).window win.0 }
{
    let (top, left) = place(table, win);
    match table.getyx(win) {
        Ok((y, x)) => (top + y, left + x),
        Err(_) => (0, 0),
    }
}

/// The window of the top visible panel, or the standard screen.
fn window_on_top(stack: &Stack) -> WinId
    ensures { result.0 ≡ window_or_standard (panels stack.now) (topmost (panels stack.now)) }
{
    match stack.below(None) {
        Ok(panel) => window_of(stack, panel),
        Err(_) => WinId::STANDARD,
    }
}

/// The window of a panel, or the standard screen.
pub(crate) fn window_of(stack: &Stack, panel: Option<PanelId>) -> WinId
    ensures { result.0 ≡ window_or_standard (panels stack.now) (panel_number panel) }
{
    match panel {
        Some(panel) => stack.window(panel).unwrap_or(WinId::STANDARD),
        None => WinId::STANDARD,
    }
}

/// Where a window begins on the screen. A pad, or none, begins at the first place.
fn place(table: &Grids, win: WinId) -> (u16, u16)
    ensures { result ≡ place_of (windows_of table.now).window win.0 }
{
    match table.getbegyx(win) {
        Ok(place) => place,
        Err(_) => (0, 0),
    }
}
