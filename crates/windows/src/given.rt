//! Cells that a program gives as numbers, written as they are.

ghost use Rattle.std.specs.Prelude.{◌≡◌, ◌+◌, ◌&&◌, ◌∷◌};
ghost use Rattle.windows.specs.{[], Some, false, length, list_all, list_any, gives_cell, nat_le, nat_lt, first_of, edits, fill_edit, fill_tests, put_edit, put_tests, gives_no_character, gives_no_pair};
ghost use Rattle.windows.specs.{windows, Drew, its_frame};

use crate::state::{WindowState, state_of};
use crate::table::Windows;
use cell::{Cell, Rect, Refusal, WinId, all_give_cells, gives_cell, is_printable};

impl Windows {
    /// Sets the cells of a rectangle of a window to one cell.
    ///
    /// # Errors
    /// `NoSuchWindow`; `BadRectangle` if a last line or column comes before its first; `OutsideWindow` if the rectangle
    /// isn't in the window; `BadCharacter` for a character outside 32 to 126; `BadPair` for a pair past `LAST_PAIR`.
    pub fn fill(&mut self, win: WinId, rect: Rect, number: u32) -> Result<Option<Rect>, Refusal>
        ensures { Drew its_frame self.old.table (first_of (fill_tests (windows self.old.table) win.0 rect number))
            (edits (fill_edit win.0 rect number)) result self.new.table }
    {
        let state = state_of(&self.table, win)?;
        if rect.bottom < rect.top || rect.right < rect.left {
            return Err(Refusal::BadRectangle);
        }
        if rect.bottom >= state.lines || rect.right >= state.columns {
            return Err(Refusal::OutsideWindow);
        }
        if !gives_cell(number) {
            return Err(refusal_of(&[number]));
        }
        self.table
            .fill_rectangle(win, rect, Cell::of_number(number));
        Ok(Some(rect))
    }

    /// Puts cells into line `y` of a window, from column `x` on.
    ///
    /// # Errors
    /// `NoSuchWindow`; `OutsideWindow` if the window hasn't line `y`, or not so many columns from `x` on;
    /// `BadCharacter` for a character outside 32 to 126; `BadPair` for a pair past `LAST_PAIR`.
    pub fn put(
        &mut self,
        win: WinId,
        y: u16,
        x: u16,
        numbers: &[u32],
    ) -> Result<Option<Rect>, Refusal>
        ensures { Drew its_frame self.old.table (first_of (put_tests (windows self.old.table) win.0 y x numbers.now))
            (edits (put_edit win.0 y x numbers.now)) result self.new.table }
    {
        let state = state_of(&self.table, win)?;
        if !has_row(&state, y, x, numbers.len()) {
            return Err(Refusal::OutsideWindow);
        }
        if !all_give_cells(numbers) {
            return Err(refusal_of(numbers));
        }
        if numbers.is_empty() {
            return Ok(None);
        }
        self.table.put(win, y, x, numbers);
        Ok(Some(Rect {
            top: y,
            left: x,
            bottom: y,
            right: x + numbers.len() as u16 - 1,
        }))
    }
}

/// Whether a window has a line, and so many columns from a first one on.
fn has_row(state: &WindowState, y: u16, x: u16, n: usize) -> bool
    ensures { result ≡ (nat_lt y state.now.lines && nat_le (x + n) state.now.columns) }
{
    y < state.lines && x <= state.columns && n <= usize::from(state.columns - x)
}

/// Why numbers are refused of which some give no cells.
#[cold]
fn refusal_of(numbers: &[u32]) -> Refusal
    requires { list_all gives_cell numbers.now ≡ false }
    ensures { Some result ≡ first_of ((list_any gives_no_character numbers.now, Refusal.BadCharacter)
        ∷ (list_any gives_no_pair numbers.now, Refusal.BadPair) ∷ []) }
{
    if some_give_no_character(numbers) {
        Refusal::BadCharacter
    } else {
        Refusal::BadPair
    }
}

/// Whether some number has a character that no cell has.
fn some_give_no_character(numbers: &[u32]) -> bool
    ensures { result ≡ list_any gives_no_character numbers.now }
{
    numbers
        .iter()
        .any(|number| !is_printable((*number % 256) as u8))
}
