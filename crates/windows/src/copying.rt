//! The calls that copy cells from window to window.

ghost use Rattle.std.specs.Prelude.{◌≡◌, ◌+◌, ◌-◌, ◌<◌, ◌^◌};
ghost use Rattle.windows.specs.{None, max, min, nat_lt, first_of, common_cells, overlay_tests, draws, edits, Copying, windows, Copied, Drew, its_frame};

use crate::state::state_of;
use crate::table::Windows;
use cell::{Rect, Refusal, WinId};
use grids::Grids;

impl Windows {
    /// Copies the cells of `src` that aren't spaces to `dst`, at the places of the screen that both cover.
    ///
    /// # Errors
    /// `NoSuchWindow`, `IsPad`, each for either window.
    pub fn overlay(&mut self, src: WinId, dst: WinId) -> Result<Option<Rect>, Refusal>
        ensures { Copied its_frame self.old.table (Copying.Overlay src dst) result self.new.table }
    {
        copy_common(&mut self.table, src, dst, true)
    }

    /// Copies all cells of `src` to `dst`, at the places of the screen that both cover.
    ///
    /// # Errors
    /// `NoSuchWindow`, `IsPad`, each for either window.
    pub fn overwrite(&mut self, src: WinId, dst: WinId) -> Result<Option<Rect>, Refusal>
        ensures { Copied its_frame self.old.table (Copying.Overwrite src dst) result self.new.table }
    {
        copy_common(&mut self.table, src, dst, false)
    }

    /// Copies the cells of `src` from line `sminrow` and column `smincol` on to the lines from `dminrow` to `dmaxrow`
    /// and the columns from `dmincol` to `dmaxcol` of `dst`, all inclusive; with `overlay`, all but the spaces.
    ///
    /// # Errors
    /// `NoSuchWindow` for either window; `BadRectangle` if a last line or column comes before its first;
    /// `OutsideWindow` if the rectangle isn't in `dst`, or that of the same size not in `src`.
    pub fn copywin(
        &mut self,
        src: WinId,
        dst: WinId,
        sminrow: u16,
        smincol: u16,
        dminrow: u16,
        dmincol: u16,
        dmaxrow: u16,
        dmaxcol: u16,
        overlay: bool,
    ) -> Result<Option<Rect>, Refusal>
        ensures { Copied its_frame self.old.table (Copying.Copywin src dst sminrow smincol dminrow dmincol dmaxrow dmaxcol overlay)
            result self.new.table }
    {
        let source = state_of(&self.table, src)?;
        let target = state_of(&self.table, dst)?;
        if dmaxrow < dminrow || dmaxcol < dmincol {
            return Err(Refusal::BadRectangle);
        }
        let more_lines = dmaxrow - dminrow;
        let more_columns = dmaxcol - dmincol;
        if dmaxrow >= target.lines
            || dmaxcol >= target.columns
            || !has_after(source.lines, sminrow, more_lines)
            || !has_after(source.columns, smincol, more_columns)
        {
            return Err(Refusal::OutsideWindow);
        }
        Ok(
            self.table.copy_rectangle(
                src,
                sminrow,
                smincol,
                dst,
                dminrow,
                dmincol,
                more_lines + 1,
                more_columns + 1,
                overlay,
            ),
        )
    }
}

/// Whether of so many lines or columns there are some more after one.
fn has_after(all: u16, first: u16, more: u16) -> bool
    ensures { result ≡ nat_lt (first + more) all }
{
    more < all && first < all - more
}

/// Copies at the places of the screen that both windows cover.
fn copy_common(
    table: &mut Grids,
    src: WinId,
    dst: WinId,
    overlay: bool,
) -> Result<Option<Rect>, Refusal>
    ensures { Drew its_frame table.old (first_of (overlay_tests (windows table.old) src.0 dst.0))
        (edits (draws dst.0 (λ a. common_cells (windows table.old).window src.0 dst.0 overlay) None)) result table.new }
{
    let source = state_of(table, src)?;
    let target = state_of(table, dst)?;
    let from = table.getbegyx(src)?;
    let to = table.getbegyx(dst)?;
    let lines = overlap(from.0, source.lines, to.0, target.lines);
    let columns = overlap(from.1, source.columns, to.1, target.columns);
    Ok(table.copy_rectangle(
        src,
        lines.source,
        columns.source,
        dst,
        lines.target,
        columns.target,
        lines.len,
        columns.len,
        overlay,
    ))
}

/// The lines or columns of the screen that two windows share: how many, and the first as each window counts.
#[derive(Clone, Copy)]
struct Common {
    source: u16,
    target: u16,
    len: u16,
}

/// What two windows share that begin at these lines or columns of the screen and have so many.
fn overlap(source: u16, source_len: u16, target: u16, target_len: u16) -> Common
    requires source { source + source_len < 2 ^ 16 }
    requires target { target + target_len < 2 ^ 16 }
    ensures source { result.source ≡ max source target - source }
    ensures target { result.target ≡ max source target - target }
    ensures len { result.len ≡ min (source + source_len) (target + target_len) - max source target }
{
    let first = source.max(target);
    let end = (source + source_len).min(target + target_len);
    Common {
        source: first - source,
        target: first - target,
        len: end.saturating_sub(first),
    }
}
