//! Copies of a rectangle.

ghost use Rattle.std.specs.Prelude.{◌<◌};
ghost use Rattle.grids.specs.{AreSoundWindows, AreRectanglesThere, RectangleCopied, windows};

use crate::frame::frame_of_two;
use crate::list::origin_of;
use crate::place::Place;
use crate::rows::start_of;
use crate::table::Grids;
use cell::{Rect, WinId};

impl Grids {
    /// Sets the cells of `lines` lines and `columns` columns of `dst`, from line `dy` and column `dx` on, to those that
    /// `src` has from line `sy` and column `sx` on, as if all were read before any is written; with `overlay`, all but
    /// the spaces. It answers the smallest rectangle of `dst` that holds what it wrote. The places must exist.
    pub fn copy_rectangle(
        &mut self,
        src: WinId,
        sy: u16,
        sx: u16,
        dst: WinId,
        dy: u16,
        dx: u16,
        lines: u16,
        columns: u16,
        overlay: bool,
    ) -> Option<Rect>
        requires { 0 < lines → 0 < columns → AreRectanglesThere (windows self.old).window
            (record { win = src; line = sy; column = sx }) (record { win = dst; line = dy; column = dx }) lines columns }
        ensures copied { RectangleCopied (windows self.old) (record { win = src; line = sy; column = sx })
            (record { win = dst; line = dy; column = dx }) lines columns overlay result (windows self.new) }
        ensures sound { AreSoundWindows (windows self.new) }
    {
        let from = Place::new(src, sy, sx);
        let to = Place::new(dst, dy, dx);
        let frame = if lines > 0 && columns > 0 {
            self.copy_lines(from, to, lines, columns, overlay)
        } else {
            None
        };
        prove!(self.has_window(WinId::STANDARD));
        frame
    }

    /// Copies all lines at once within one grid, else line by line, from the end at which no line is written before it is
    /// read.
    fn copy_lines(
        &mut self,
        from: Place,
        to: Place,
        lines: u16,
        columns: u16,
        overlay: bool,
    ) -> Option<Rect>
        requires some_line { 0 < lines }
        requires some_column { 0 < columns }
        requires there { AreRectanglesThere (windows self.old).window from to lines columns }
        ensures { RectangleCopied (windows self.old) from to lines columns overlay result (windows self.new) }
    {
        let source = origin_of(&self.slots, from.win.0).onward(from.line, from.column);
        let target = origin_of(&self.slots, to.win.0).onward(to.line, to.column);
        if source.grid == target.grid && !overlay {
            return self.copy_block(from, to, lines, columns);
        }
        let upward = source.line < target.line;
        let mut frame = None;
        for k in 0..lines {
            let line = start_of(upward, lines, k, 1);
            let copied = self.copy_line(from.down_by(line), to.down_by(line), columns, overlay);
            frame = frame_of_two(frame, copied);
        }
        frame
    }
}
