//! The calls that copy what is touched of a window, or a rectangle of a pad, to the virtual screen.

ghost use Rattle.std.specs.Prelude.{◌≡◌, ◌<◌, ◌+◌, ◌-◌, ◌==◌, ◌&&◌, ◌^◌, if◌then◌else◌};
ghost use Rattle.compose.specs.{ℕ, None, Some, false, is_some, length, nat_le, nat_lt, result_err, HasSize, picture_of, shown_at, shown, AreSoundWindows, copywin_drawing, place_on_screen};
ghost use Rattle.compose.specs.{first_of, touched_cells, pnoutrefresh_tests, shown_over, AddsChanges, windows as windows_of, Damages, Call, Refresh};
ghost use Rattle.compose.specs.{Called};

use crate::damaging::damage_part;
use crate::desk::Desk;
use crate::virtual_picture::VirtualPicture;
use cell::{Pairs, Rect, Refusal, WinId};
use extents::Extents;
use grids::{Grids, Place};
use picture::cursor_on_screen;
use world::Reply;

impl Desk {
    /// Takes what is touched of a window into the virtual screen, at the window's place, with its cursor. Then no place
    /// of it is touched; and if it asked for a clear screen, the virtual screen asks for it instead.
    ///
    /// # Errors
    /// `NoSuchWindow`, `IsPad`.
    pub(crate) fn refresh_window(&mut self, win: WinId) -> Result<Reply, Refusal>
        ensures { Called self.old (Call.Refresh (Refresh.Noutrefresh win)) result self.new }
    {
        let (top, left) = self.windows.table.getbegyx(win)?;
        show_touched(
            &self.windows.table,
            &self.pairs,
            win,
            top,
            left,
            &mut self.damage,
            &mut self.picture,
        );
        self.cursor = cursor_on_screen(&self.windows.table, win);
        self.clear |= self.windows.table.unmark(win);
        Ok(Reply::Nothing)
    }

    /// Takes the cells of a pad from line `pminrow` and column `pmincol` on into the lines from `sminrow` to `smaxrow`
    /// and the columns from `smincol` to `smaxcol` of the virtual screen, all inclusive, whether they are touched or
    /// not. The wanted cursor stays. Then the lines of the pad that were copied from are untouched; and if it asked for
    /// a clear screen, the virtual screen asks for it instead.
    ///
    /// # Errors
    /// `NoSuchWindow`, `NotPad`; `BadRectangle` if a last line or column comes before its first; `OutsideWindow` if the
    /// rectangle isn't in the pad; `OffScreen` if it isn't on the screen.
    pub(crate) fn refresh_pad(
        &mut self,
        pad: WinId,
        pminrow: u16,
        pmincol: u16,
        sminrow: u16,
        smincol: u16,
        smaxrow: u16,
        smaxcol: u16,
    ) -> Result<Reply, Refusal>
        ensures { Called self.old (Call.Refresh (Refresh.Pnoutrefresh pad pminrow pmincol sminrow smincol smaxrow smaxcol)) result self.new }
    {
        let source = Place {
            win: pad,
            line: pminrow,
            column: pmincol,
        };
        let target = Rect {
            top: sminrow,
            left: smincol,
            bottom: smaxrow,
            right: smaxcol,
        };
        require_rectangle(&self.windows.table, source, target)?;
        show_rectangle(
            &self.windows.table,
            &self.pairs,
            source,
            target,
            &mut self.picture,
        );
        damage_part(&mut self.damage, Some(target));
        let lines = smaxrow - sminrow + 1;
        self.clear |= self.windows.table.unmark_lines(pad, pminrow, lines);
        Ok(Reply::Nothing)
    }
}

/// Copies the touched cells of a window, which begins at this place of the screen, to a picture of the screen's size,
/// and damages where they are.
fn show_touched(
    table: &Grids,
    pairs: &Pairs,
    win: WinId,
    top: u16,
    left: u16,
    damage: &mut Extents,
    picture: &mut VirtualPicture,
)
    requires windows { AreSoundWindows (windows_of table.now) }
    requires place { place_on_screen (windows_of table.now).window win.0 ≡ Some (top, left) }
    requires size { HasSize table.now.lines table.now.columns picture.old.cells }
    requires height { length picture.old.changes ≡ table.now.lines }
    requires damage { length damage.old ≡ table.now.lines }
    ensures shown { picture.new.cells ≡ picture_of table.now.lines table.now.columns (shown_over pairs.now picture.old.cells
        (touched_cells (windows_of table.now).window win.0)) }
    ensures changes { AddsChanges picture.old.changes picture.old.cells picture.new.changes picture.new.cells }
    ensures few { Damages table.now.columns (λ y x. is_some (touched_cells (windows_of table.now).window win.0 y x)) picture.old.changes picture.new.changes }
    ensures damaged { Damages table.now.columns (λ y x. is_some (touched_cells (windows_of table.now).window win.0 y x)) damage.old damage.new }
{
    let Ok((lines, _)) = table.getmaxyx(win) else {
        unreachable!();
    };
    for y in 0..lines {
        if let Some(columns) = table.touched_columns(win, y) {
            let source = Place {
                win,
                line: y,
                column: columns.first,
            };
            let target = Rect {
                top: top + y,
                left: left + columns.first,
                bottom: top + y,
                right: left + columns.last,
            };
            picture.show_piece(
                table,
                pairs,
                source,
                columns.last - columns.first + 1,
                target.top,
                target.left,
            );
            damage.rectangle(target);
        }
    }
}

/// Copies a rectangle of a pad to lines and columns of a picture of the screen's size.
fn show_rectangle(
    table: &Grids,
    pairs: &Pairs,
    source: Place,
    target: Rect,
    picture: &mut VirtualPicture,
)
    requires windows { AreSoundWindows (windows_of table.now) }
    requires accepted { first_of (pnoutrefresh_tests (windows_of table.now) source.win.0 source.line source.column target.top target.left target.bottom
        target.right) ≡ None }
    requires size { HasSize table.now.lines table.now.columns picture.old.cells }
    requires height { length picture.old.changes ≡ table.now.lines }
    ensures shown { picture.new.cells ≡ picture_of table.now.lines table.now.columns (shown_over pairs.now picture.old.cells
        (copywin_drawing (windows_of table.now).window source.win.0 source.line source.column target.top target.left target.bottom target.right false)) }
    ensures changes { AddsChanges picture.old.changes picture.old.cells picture.new.changes picture.new.cells }
    ensures few { Damages table.now.columns (λ y x. is_some (copywin_drawing (windows_of table.now).window source.win.0 source.line source.column
        target.top target.left target.bottom target.right false y x)) picture.old.changes picture.new.changes }
{
    let columns = target.right - target.left + 1;
    for y in 0..target.bottom - target.top + 1 {
        let line = Place {
            line: source.line + y,
            ..source
        };
        picture.show_piece(table, pairs, line, columns, target.top + y, target.left);
    }
}

/// Tests that a rectangle of a pad may be copied to these lines and columns of the screen.
fn require_rectangle(table: &Grids, source: Place, target: Rect) -> Result<(), Refusal>
    requires { AreSoundWindows (windows_of table.now) }
    ensures { result_err result ≡ first_of (pnoutrefresh_tests (windows_of table.now) source.win.0 source.line source.column target.top target.left
        target.bottom target.right) }
{
    let (lines, columns) = table.getmaxyx(source.win)?;
    if table.getbegyx(source.win).is_ok() {
        return Err(Refusal::NotPad);
    }
    if target.bottom < target.top || target.right < target.left {
        return Err(Refusal::BadRectangle);
    }
    let bottom = u32::from(source.line) + u32::from(target.bottom - target.top);
    let right = u32::from(source.column) + u32::from(target.right - target.left);
    if bottom >= u32::from(lines) || right >= u32::from(columns) {
        return Err(Refusal::OutsideWindow);
    }
    let (lines, columns) = table.screen_size();
    if target.bottom >= lines || target.right >= columns {
        return Err(Refusal::OffScreen);
    }
    Ok(())
}
