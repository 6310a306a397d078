//! What is touched of a window, and whether it asks for a clear screen.

ghost use Rattle.std.specs.Prelude.{◌≡◌, ◌≤◌, ◌+◌};
ghost use Rattle.grids.specs.{IsSomeAnd, AreSoundWindows, HasPlace, with_change, is_among, lines_marked, touched_columns, asks_for_clear, unmarked_lines, without_marks, its_flag, no_answer, Copying, Marked, windows};

use crate::table::Grids;
use cell::{Refusal, WinId};
use world::Columns;

impl Grids {
    /// The touched columns of line `y` of a window. The line must exist.
    pub fn touched_columns(&self, win: WinId, y: u16) -> Option<Columns>
        requires { HasPlace (windows self.now).window win.0 y 0 }
        ensures columns { result ≡ touched_columns (windows self.now).window win.0 y }
        ensures sound { AreSoundWindows (windows self.now) }
    {
        match self.slot(win) {
            Ok(slot) => slot.touched_columns(y),
            Err(_) => None,
        }
    }

    /// Untouches all of a window, if there is one, and clears its clear flag. It answers whether the window asked for a
    /// clear screen.
    pub fn unmark(&mut self, win: WinId) -> bool
        ensures asked { result ≡ asks_for_clear (windows self.old).window win.0 }
        ensures unmarked { windows self.new ≡ record (windows self.old) { window = with_change (windows self.old).window win.0 without_marks } }
        ensures sound { AreSoundWindows (windows self.new) }
    {
        self.has_window(win) && self.change(win, |slot| slot.unmark())
    }

    /// Untouches some lines of a window, which must exist, and clears its clear flag. It answers whether the window asked
    /// for a clear screen.
    pub fn unmark_lines(&mut self, win: WinId, first: u16, n: u16) -> bool
        requires { IsSomeAnd ((windows self.old).window win.0) (λ a. first + n ≤ a.lines) }
        ensures asked { result ≡ asks_for_clear (windows self.old).window win.0 }
        ensures unmarked { windows self.new ≡ record (windows self.old)
            { window = with_change (windows self.old).window win.0 (unmarked_lines (is_among first n)) } }
        ensures sound { AreSoundWindows (windows self.new) }
    {
        self.change(win, |slot| slot.unmark_lines(first, n))
    }

    /// Touches all of a window.
    ///
    /// # Errors
    /// `NoSuchWindow`.
    pub fn touchwin(&mut self, win: WinId) -> Result<(), Refusal>
        ensures { Marked no_answer self.old (Copying.Touchwin win) result self.new }
    {
        let lines = self.slot(win)?.lines();
        self.mark(win, 0, lines, true);
        Ok(())
    }

    /// Untouches all of a window.
    ///
    /// # Errors
    /// `NoSuchWindow`.
    pub fn untouchwin(&mut self, win: WinId) -> Result<(), Refusal>
        ensures { Marked no_answer self.old (Copying.Untouchwin win) result self.new }
    {
        let lines = self.slot(win)?.lines();
        self.mark(win, 0, lines, false);
        Ok(())
    }

    /// Touches all of `n` lines from line `y` on.
    ///
    /// # Errors
    /// `NoSuchWindow`; `OutsideWindow` if the window hasn't line `y`, or not `n` lines from it on.
    pub fn touchline(&mut self, win: WinId, y: u16, n: u16) -> Result<(), Refusal>
        ensures { Marked no_answer self.old (Copying.Touchline win y n) result self.new }
    {
        self.wtouchln(win, y, n, true)
    }

    /// Touches all of `n` lines from line `y` on, or untouches them.
    ///
    /// # Errors
    /// `NoSuchWindow`; `OutsideWindow` if the window hasn't line `y`, or not `n` lines from it on.
    pub fn wtouchln(&mut self, win: WinId, y: u16, n: u16, flag: bool) -> Result<(), Refusal>
        ensures { Marked no_answer self.old (Copying.Touchln win y n flag) result self.new }
    {
        let lines = self.slot(win)?.lines();
        if y >= lines || n > lines - y {
            return Err(Refusal::OutsideWindow);
        }
        self.mark(win, y, n, flag);
        Ok(())
    }

    /// Touches lines, or untouches them. They must exist.
    fn mark(&mut self, win: WinId, first: u16, n: u16, flag: bool)
        requires { IsSomeAnd ((windows self.old).window win.0) (λ a. first + n ≤ a.lines) }
        ensures touched { windows self.new ≡ record (windows self.old) { window = with_change (windows self.old).window win.0 (lines_marked first n flag) } }
        ensures sound { AreSoundWindows (windows self.new) }
    {
        self.change(win, |slot| slot.mark(first, n, flag));
    }

    /// Whether line `y` of a window is touched.
    ///
    /// # Errors
    /// `NoSuchWindow`; `OutsideWindow` if the window hasn't line `y`.
    pub fn is_linetouched(&self, win: WinId, y: u16) -> Result<bool, Refusal>
        ensures { Marked its_flag self.now (Copying.IsLinetouched win y) result self.now }
    {
        let slot = self.slot(win)?;
        if y >= slot.lines() {
            return Err(Refusal::OutsideWindow);
        }
        Ok(slot.touched_columns(y).is_some())
    }

    /// Whether some line of a window is touched.
    ///
    /// # Errors
    /// `NoSuchWindow`.
    pub fn is_wintouched(&self, win: WinId) -> Result<bool, Refusal>
        ensures { Marked its_flag self.now (Copying.IsWintouched win) result self.now }
    {
        let slot = self.slot(win)?;
        Ok(slot.is_touched())
    }
}
