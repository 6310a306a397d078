//! The query about a window that reads a cell.

ghost use Rattle.windows.specs.{cell_at_cursor, Query, Asked, windows};

use crate::state::state_of;
use crate::table::Windows;
use cell::{Cell, Refusal, WinId};

impl Windows {
    /// The cell at the cursor.
    ///
    /// # Errors
    /// `NoSuchWindow`.
    pub fn winch(&self, win: WinId) -> Result<Cell, Refusal>
        ensures { Asked self.now.table (Query.Inch win) (cell_at_cursor (windows self.now.table).window win.0) result }
    {
        let state = state_of(&self.table, win)?;
        let (y, x) = state.settings.cursor;
        Ok(self.table.cell(win, y, x))
    }
}
