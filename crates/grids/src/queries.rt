//! Queries about a window or pad.

ghost use Rattle.std.specs.Prelude.{◌≡◌};
ghost use Rattle.grids.specs.{is_some, AreSoundWindows, cursor_of, place_on_screen, window_size, offset_in_parent, Query, Asked, parent_answer, windows};

use crate::table::Grids;
use cell::{Refusal, WinId};

impl Grids {
    /// How many lines and columns the screen has.
    pub fn screen_size(&self) -> (u16, u16)
        ensures { result ≡ (self.now.lines, self.now.columns) }
    {
        (self.lines, self.columns)
    }

    /// Whether there is a window or pad of that number.
    pub fn has_window(&self, win: WinId) -> bool
        ensures value { result ≡ is_some ((windows self.now).window win.0) }
        ensures sound { AreSoundWindows (windows self.now) }
    {
        self.slot(win).is_ok()
    }

    /// The line and the column of the cursor.
    ///
    /// # Errors
    /// `NoSuchWindow`.
    pub fn getyx(&self, win: WinId) -> Result<(u16, u16), Refusal>
        ensures { Asked self.now (Query.Getyx win) (cursor_of (windows self.now).window win.0) result }
    {
        let slot = self.slot(win)?;
        Ok(slot.settings().cursor)
    }

    /// The line and the column of the screen where the window begins.
    ///
    /// # Errors
    /// `NoSuchWindow`, `IsPad`.
    pub fn getbegyx(&self, win: WinId) -> Result<(u16, u16), Refusal>
        ensures { Asked self.now (Query.Getbegyx win) (place_on_screen (windows self.now).window win.0) result }
    {
        let slot = self.slot(win)?;
        slot.place().ok_or(Refusal::IsPad)
    }

    /// The number of lines, and the number of columns.
    ///
    /// # Errors
    /// `NoSuchWindow`.
    pub fn getmaxyx(&self, win: WinId) -> Result<(u16, u16), Refusal>
        ensures { Asked self.now (Query.Getmaxyx win) (window_size (windows self.now).window win.0) result }
    {
        let slot = self.slot(win)?;
        Ok((slot.lines(), slot.columns()))
    }

    /// The line and the column of the parent where a derived window begins.
    ///
    /// # Errors
    /// `NoSuchWindow`, `NotDerived`.
    pub fn getparyx(&self, win: WinId) -> Result<(u16, u16), Refusal>
        ensures { Asked self.now (Query.Getparyx win) (offset_in_parent (windows self.now).window win.0) result }
    {
        let slot = self.slot(win)?;
        let part = slot.part().ok_or(Refusal::NotDerived)?;
        Ok((part.line, part.column))
    }

    /// The window or pad from which a window or pad derives.
    ///
    /// # Errors
    /// `NoSuchWindow`, `NotDerived`.
    pub fn parent(&self, win: WinId) -> Result<WinId, Refusal>
        ensures { result ≡ parent_answer (windows self.now).window win.0 }
    {
        let slot = self.slot(win)?;
        let part = slot.part().ok_or(Refusal::NotDerived)?;
        Ok(WinId(part.parent))
    }
}
