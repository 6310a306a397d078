//! Copies within one grid.

ghost use Rattle.std.specs.Prelude.{◌≡◌, ◌<◌, ◌+◌, ◌-◌};
ghost use Rattle.grids.specs.{false, option_map, own, windows, AreRectanglesThere, RectangleCopied};

use crate::list::origin_of;
use crate::place::Place;
use crate::slot::Origin;
use crate::table::Grids;
use cell::{Rect, WinId};

impl Grids {
    /// Copies so many lines and columns to a window with the same grid, as if all were read before any is written.
    pub(crate) fn copy_block(
        &mut self,
        from: Place,
        to: Place,
        lines: u16,
        columns: u16,
    ) -> Option<Rect>
        requires some_line { 0 < lines }
        requires some_column { 0 < columns }
        requires there { AreRectanglesThere (windows self.old).window from to lines columns }
        requires one_grid { option_map (λ p. p.grid) (own (windows self.old).window from.win.0 0 0) ≡ option_map (λ p. p.grid) (own (windows self.old).window to.win.0 0 0) }
        ensures { RectangleCopied (windows self.old) from to lines columns false result (windows self.new) }
    {
        let source = origin_of(&self.slots, from.win.0).onward(from.line, from.column);
        let rect = Rect {
            top: to.line,
            left: to.column,
            bottom: to.line + lines - 1,
            right: to.column + columns - 1,
        };
        let target = self
            .touch_rectangle(to.win, rect)
            .onward(to.line, to.column);
        self.change(WinId(target.grid), |slot| {
            slot.copy_block(
                source.line,
                source.column,
                target.line,
                target.column,
                lines,
                columns,
            )
        });
        Some(rect)
    }
}
