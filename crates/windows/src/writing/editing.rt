//! The calls that clear a window or a part of it, and that insert and delete lines.

ghost use Rattle.windows.specs.{Writing, Wrote, its_frame};

use crate::drawing::{clear_all, clear_below, clear_rest, move_down, move_up};
use crate::frame::lines_from;
use crate::state::{set_settings, state_of};
use crate::table::Windows;
use cell::{Rect, Refusal, WinId};
use world::Settings;

impl Windows {
    /// Sets all cells of a window to its background, and its cursor to line 0 and column 0.
    ///
    /// # Errors
    /// `NoSuchWindow`.
    pub fn werase(&mut self, win: WinId) -> Result<Option<Rect>, Refusal>
        ensures { Wrote its_frame self.old.table (Writing.Erase win) result self.new.table }
    {
        let state = state_of(&self.table, win)?;
        clear_all(&mut self.table, win, &state);
        self.table.set_cursor(win, 0, 0);
        Ok(Some(lines_from(&state, 0, state.lines - 1, 0)))
    }

    /// Sets all cells of a window to its background, and its cursor to line 0 and column 0, and asks for a clear screen
    /// where the window is next taken into the virtual screen.
    ///
    /// # Errors
    /// `NoSuchWindow`.
    pub fn wclear(&mut self, win: WinId) -> Result<Option<Rect>, Refusal>
        ensures { Wrote its_frame self.old.table (Writing.Clear win) result self.new.table }
    {
        let state = state_of(&self.table, win)?;
        let frame = lines_from(&state, 0, state.lines - 1, 0);
        clear_all(&mut self.table, win, &state);
        let settings = Settings {
            cursor: (0, 0),
            clear: true,
            ..state.settings
        };
        set_settings(&mut self.table, win, settings);
        Ok(Some(frame))
    }

    /// Sets the cells from the cursor to the end of its line to the background.
    ///
    /// # Errors
    /// `NoSuchWindow`.
    pub fn wclrtoeol(&mut self, win: WinId) -> Result<Option<Rect>, Refusal>
        ensures { Wrote its_frame self.old.table (Writing.Clrtoeol win) result self.new.table }
    {
        let state = state_of(&self.table, win)?;
        let (y, x) = state.settings.cursor;
        clear_rest(&mut self.table, win, &state, y, x);
        Ok(Some(lines_from(&state, y, y, x)))
    }

    /// Sets the cells from the cursor to the end of its line, and all lines below, to the background.
    ///
    /// # Errors
    /// `NoSuchWindow`.
    pub fn wclrtobot(&mut self, win: WinId) -> Result<Option<Rect>, Refusal>
        ensures { Wrote its_frame self.old.table (Writing.Clrtobot win) result self.new.table }
    {
        let state = state_of(&self.table, win)?;
        let (y, x) = state.settings.cursor;
        clear_below(&mut self.table, win, &state, y, x);
        if y + 1 == state.lines {
            Ok(Some(lines_from(&state, y, y, x)))
        } else {
            Ok(Some(lines_from(&state, y, state.lines - 1, 0)))
        }
    }

    /// Moves the cursor's line and those below down by one, to the bottom of the window, and sets the cursor's line to
    /// the background.
    ///
    /// # Errors
    /// `NoSuchWindow`.
    pub fn winsertln(&mut self, win: WinId) -> Result<Option<Rect>, Refusal>
        ensures { Wrote its_frame self.old.table (Writing.Insertln win) result self.new.table }
    {
        let state = state_of(&self.table, win)?;
        let top = state.settings.cursor.0;
        let bottom = state.lines - 1;
        move_down(&mut self.table, win, &state, top, bottom, 1);
        Ok(Some(lines_from(&state, top, bottom, 0)))
    }

    /// Moves the lines below the cursor's up by one, and sets the window's last line to the background.
    ///
    /// # Errors
    /// `NoSuchWindow`.
    pub fn wdeleteln(&mut self, win: WinId) -> Result<Option<Rect>, Refusal>
        ensures { Wrote its_frame self.old.table (Writing.Deleteln win) result self.new.table }
    {
        let state = state_of(&self.table, win)?;
        let top = state.settings.cursor.0;
        let bottom = state.lines - 1;
        move_up(&mut self.table, win, &state, top, bottom, 1);
        Ok(Some(lines_from(&state, top, bottom, 0)))
    }
}
