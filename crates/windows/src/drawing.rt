//! The drawings of the writing calls, made of one or two writes each. The window must exist and have the given state.

ghost use Rattle.std.specs.Prelude.{◌+◌, ◌-◌, ◌≤◌};
ghost use Rattle.windows.specs.{false, at_place, character_deleted, character_inserted, everywhere, lines_down, lines_filled, lines_up, to_bottom, to_end_of_line, windows};
ghost use Rattle.windows.specs.{IsStateOf, DrewInState, HasStateAndLines, HasStateAndPlace};

use crate::frame::lines_from;
use crate::state::WindowState;
use cell::{Cell, WinId};
use grids::Grids;

/// Sets one cell.
pub fn set_cell(table: &mut Grids, win: WinId, state: &WindowState, y: u16, x: u16, cell: Cell)
    requires { HasStateAndPlace (windows table.old) win.0 state.now y x }
    ensures { DrewInState (windows table.old) win.0 state.now (at_place (y, x) cell) (windows table.new) }
{
    table.fill(win, y, x, x, cell);
}

/// Inserts a cell: those from its column on go one column right, and the last is lost.
pub fn insert_cell(table: &mut Grids, win: WinId, state: &WindowState, y: u16, x: u16, cell: Cell)
    requires { HasStateAndPlace (windows table.old) win.0 state.now y x }
    ensures { DrewInState (windows table.old) win.0 state.now (character_inserted (windows table.old).window win.0 (y, x) cell) (windows table.new) }
{
    table.copy_row(win, y, x, win, y, x + 1, state.columns - 1 - x, false);
    table.fill(win, y, x, x, cell);
}

/// Deletes a cell: those after its column go one column left, and the last is set to the background.
pub fn delete_cell(table: &mut Grids, win: WinId, state: &WindowState, y: u16, x: u16)
    requires { HasStateAndPlace (windows table.old) win.0 state.now y x }
    ensures { DrewInState (windows table.old) win.0 state.now
        (character_deleted (windows table.old).window win.0 (y, x) (state.now.columns - 1) state.now.settings.background) (windows table.new) }
{
    let last = state.columns - 1;
    table.copy_row(win, y, x + 1, win, y, x, last - x, false);
    table.fill(win, y, last, last, state.settings.background);
}

/// Sets the cells from a column to the end of a line to the background.
pub fn clear_rest(table: &mut Grids, win: WinId, state: &WindowState, y: u16, left: u16)
    requires { HasStateAndPlace (windows table.old) win.0 state.now y left }
    ensures { DrewInState (windows table.old) win.0 state.now (to_end_of_line (y, left) state.now.settings.background) (windows table.new) }
{
    table.fill(win, y, left, state.columns - 1, state.settings.background);
}

/// Sets the cells of all lines from `top` on to the background, up to `end`, which it leaves out.
fn clear_lines(table: &mut Grids, win: WinId, state: &WindowState, top: u16, end: u16)
    requires state { IsStateOf (windows table.old) win.0 state.now }
    requires end { end ≤ state.now.lines }
    ensures { DrewInState (windows table.old) win.0 state.now (lines_filled top end state.now.settings.background) (windows table.new) }
{
    if top >= end {
        return;
    }
    table.fill_rectangle(
        win,
        lines_from(state, top, end - 1, 0),
        state.settings.background,
    );
}

/// Sets the cells from a column to the end of a line, and all lines below, to the background.
pub fn clear_below(table: &mut Grids, win: WinId, state: &WindowState, y: u16, left: u16)
    requires { HasStateAndPlace (windows table.old) win.0 state.now y left }
    ensures { DrewInState (windows table.old) win.0 state.now (to_bottom (y, left) state.now.settings.background) (windows table.new) }
{
    clear_rest(table, win, state, y, left);
    clear_lines(table, win, state, y + 1, state.lines);
}

/// Sets all cells to the background.
pub fn clear_all(table: &mut Grids, win: WinId, state: &WindowState)
    requires state { IsStateOf (windows table.old) win.0 state.now }
    ensures { DrewInState (windows table.old) win.0 state.now (everywhere state.now.settings.background) (windows table.new) }
{
    clear_lines(table, win, state, 0, state.lines);
}

/// Moves the lines from `top` to `bottom`, both inclusive, up by `n` lines; those that come from below `bottom` are set
/// to the background.
pub fn move_up(table: &mut Grids, win: WinId, state: &WindowState, top: u16, bottom: u16, n: u16)
    requires { HasStateAndLines (windows table.old) win.0 state.now top bottom }
    ensures { DrewInState (windows table.old) win.0 state.now
        (lines_up (windows table.old).window win.0 top bottom n state.now.settings.background) (windows table.new) }
{
    let lines = bottom + 1 - top;
    let cleared = n.min(lines);
    let kept = lines - cleared;
    table.copy_rectangle(
        win,
        top + cleared,
        0,
        win,
        top,
        0,
        kept,
        state.columns,
        false,
    );
    clear_lines(table, win, state, top + kept, bottom + 1);
}

/// Moves the lines from `top` to `bottom`, both inclusive, down by `n` lines; those that come from above `top` are set
/// to the background.
pub fn move_down(table: &mut Grids, win: WinId, state: &WindowState, top: u16, bottom: u16, n: u16)
    requires { HasStateAndLines (windows table.old) win.0 state.now top bottom }
    ensures { DrewInState (windows table.old) win.0 state.now
        (lines_down (windows table.old).window win.0 top bottom n state.now.settings.background) (windows table.new) }
{
    let lines = bottom + 1 - top;
    let cleared = n.min(lines);
    table.copy_rectangle(
        win,
        top,
        0,
        win,
        top + cleared,
        0,
        lines - cleared,
        state.columns,
        false,
    );
    clear_lines(table, win, state, top, top + cleared);
}
