//! What is touched of a window, passed on to its ancestors or taken from them.

ghost use Rattle.std.specs.Prelude.{◌≡◌, ◌≢◌, ◌<◌, ◌≤◌, ◌+◌, ◌-◌, ◌&&◌};
ghost use Rattle.grids.specs.{ℕ, nat_le, ⊤, IsSome, IsSomeAnd, MatchOption, LARGEST_PAD, no_answer, AreColumnsWithin, HasPlace, with_change, with_touches, after_copying, among, Copying, Marked};
ghost use Rattle.grids.specs.{windows, depth_at, EndsWithin, syncing, touched_shown};

use crate::place::Place;
use crate::table::Grids;
use cell::{Refusal, WinId};
use world::Columns;

impl Grids {
    /// Touches each ancestor of a window where it shows what is touched of the window.
    ///
    /// # Errors
    /// `NoSuchWindow`.
    pub fn wsyncup(&mut self, win: WinId) -> Result<(), Refusal>
        ensures { Marked no_answer self.old (Copying.Syncup win) result self.new }
    {
        self.slot(win)?;
        self.sync(win.0, false);
        prove!(self.has_window(WinId::STANDARD));
        Ok(())
    }

    /// Touches a window where it shows what is touched of an ancestor.
    ///
    /// # Errors
    /// `NoSuchWindow`.
    pub fn wsyncdown(&mut self, win: WinId) -> Result<(), Refusal>
        ensures { Marked no_answer self.old (Copying.Syncdown win) result self.new }
    {
        self.slot(win)?;
        self.sync(win.0, true);
        prove!(self.has_window(WinId::STANDARD));
        Ok(())
    }

    /// Passes what is touched of a window on to its ancestors, from parent to parent, or with `down` takes what is
    /// touched of them.
    fn sync(&mut self, win: u16, down: bool)
        requires { IsSome ((windows self.old).window win) }
        ensures { windows self.new ≡ after_copying (windows self.old) (syncing down (record { 0 = win })) }
    {
        prove!(self.has_window(WinId::STANDARD));
        let mut at = Place::first_of(win);
        while let Some(next) = self.place_above(at) {
            at = next;
            if down {
                self.touch_shown(at.win.0, (at.line, at.column), win, (0, 0));
            } else {
                self.touch_shown(win, (0, 0), at.win.0, (at.line, at.column));
            }
        }
    }

    /// Touches a window where it shows a touched place of another one, `source`. One derives from the other: the place
    /// `from` of `source` is the place `to` of the window.
    fn touch_shown(&mut self, source: u16, from: (u16, u16), win: u16, to: (u16, u16))
        requires other { win ≢ source }
        requires source { EndsWithin (windows self.old).window source to }
        requires window { EndsWithin (windows self.old).window win from }
        ensures touched { windows self.new ≡ record (windows self.old) {
          window = with_change (windows self.old).window win (with_touches (touched_shown (windows self.old).window source from to));
        } }
        ensures depths { (u : ℕ) → depth_at self.new.slots u ≡ depth_at self.old.slots u }
    {
        prove!(self.has_window(WinId::STANDARD));
        let lines = self.size(win).0;
        for y in 0..lines {
            if let Some(columns) = self.shown_columns(source, from, win, to, y) {
                self.touch(WinId(win), y, columns.first, columns.last);
            }
        }
    }

    /// The columns of a line of a window in which it shows touched places of another one, `source`, whose place `from`
    /// is its place `to`.
    fn shown_columns(
        &self,
        source: u16,
        from: (u16, u16),
        win: u16,
        to: (u16, u16),
        y: u16,
    ) -> Option<Columns>
        requires line { HasPlace (windows self.now).window win y 0 }
        requires source { EndsWithin (windows self.now).window source to }
        requires window { EndsWithin (windows self.now).window win from }
        ensures shown { IsSomeAnd ((windows self.now).window win) (λ a. (x : ℕ) → x < a.columns
            → touched_shown (windows self.now).window source from to y x ≡ among result x) }
        ensures within { IsSomeAnd ((windows self.now).window win) (λ a. AreColumnsWithin a.columns result) }
    {
        let (lines, _) = self.size(source);
        let (_, columns) = self.size(win);
        let line = from.0 + y;
        if line < to.0 || line - to.0 >= lines {
            return None;
        }
        let touched = self.touched_columns_of(source, line - to.0);
        clip(touched, to.1, from.1, columns)
    }

    /// The touched columns of a line of a window. The line must exist.
    fn touched_columns_of(&self, win: u16, y: u16) -> Option<Columns>
        requires { IsSomeAnd ((windows self.now).window win) (λ a. y < a.lines) }
        ensures columns { IsSomeAnd ((windows self.now).window win) (λ a. result ≡ a.touched y) }
        ensures within { IsSomeAnd ((windows self.now).window win) (λ a. AreColumnsWithin a.columns result) }
    {
        match &self.slots[usize::from(win)] {
            Some(slot) => slot.touched_columns(y),
            None => None,
        }
    }

    /// The number of lines and of columns of a window, which must exist.
    pub(crate) fn size(&self, win: u16) -> (u16, u16)
        requires { IsSome ((windows self.now).window win) }
        ensures { IsSomeAnd ((windows self.now).window win) (λ a. (result.0 ≡ a.lines) × (result.1 ≡ a.columns)) }
    {
        match &self.slots[usize::from(win)] {
            Some(slot) => (slot.lines(), slot.columns()),
            None => unreachable!(),
        }
    }
}

/// The columns of a line that show touched columns of another. Both lie on one line of a grid: the touched one from
/// column `source_at` on, the other, of `columns` columns, from column `at` on.
pub fn clip(touched: Option<Columns>, source_at: u16, at: u16, columns: u16) -> Option<Columns>
    requires some { 0 < columns }
    requires source { MatchOption touched ⊤ (λ r. (r.first ≤ r.last) × (source_at + r.last < LARGEST_PAD)) }
    requires target { at + columns ≤ LARGEST_PAD }
    ensures shown { (x : ℕ) → x < columns → (nat_le source_at (at + x) && among touched (at + x - source_at)) ≡ among result x }
    ensures within { AreColumnsWithin columns result }
{
    let touched = touched?;
    let first = (source_at + touched.first).max(at);
    let last = (source_at + touched.last).min(at + columns - 1);
    if last < first {
        return None;
    }
    Some(Columns {
        first: first - at,
        last: last - at,
    })
}
