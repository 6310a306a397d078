//! Making, moving and deleting windows and pads. The table knows no panels: it moves and deletes as if no window were
//! in one.

ghost use Rattle.std.specs.Prelude.{◌≡◌, ◌<◌, ◌≤◌, ◌+◌, ◌^◌, ◌∷◌};
ghost use Rattle.grids.specs.{IsSome, Some, IfOk, IfErr, MatchOption, Option, List, [], ⊤, true, false, nat_le, first_of, is_inside, extent, place_from, part_tests, derived_from, next_window};
ghost use Rattle.grids.specs.{is_full, new_window, makes, its_number, no_answer, Making, Changed, Made, windows, own, window_map, grid_place, window_of, Kept, IsKept, HasParentIn, IsChained};
ghost use Rattle.grids.specs.{IsFree, SetAt, FitsTable, backing_by};

use crate::list::{change_slot, fill_slot_at, free_number, free_slot, has_derived, origin_of};
use crate::parents::settle;
use crate::slot::{Part, Slot};
use crate::table::Grids;
use cell::{LARGEST_PAD, Refusal, WinId, is_no_size};

impl Grids {
    /// Makes a window at a place of the screen, with a blank grid of its own. A size of 0 reaches to the edge of the
    /// screen.
    ///
    /// # Errors
    /// `OffScreen`, `TooMany`, `NoMemory`.
    pub fn newwin(
        &mut self,
        nlines: u16,
        ncols: u16,
        begin_y: u16,
        begin_x: u16,
    ) -> Result<WinId, Refusal>
        ensures { Made its_number self.old (Making.Newwin nlines ncols begin_y begin_x) result self.new }
    {
        prove!(self.has_window(WinId::STANDARD));
        let lines = extent_inside(nlines, self.lines, begin_y, Refusal::OffScreen)?;
        let columns = extent_inside(ncols, self.columns, begin_x, Refusal::OffScreen)?;
        self.add(lines, columns, Some((begin_y, begin_x)), None)
    }

    /// Makes a pad of 1 to 1000 lines and columns, with a blank grid of its own.
    ///
    /// # Errors
    /// `BadSize`, `TooMany`, `NoMemory`.
    pub fn newpad(&mut self, nlines: u16, ncols: u16) -> Result<WinId, Refusal>
        ensures { Made its_number self.old (Making.Newpad nlines ncols) result self.new }
    {
        prove!(self.has_window(WinId::STANDARD));
        if is_no_size(LARGEST_PAD, nlines) || is_no_size(LARGEST_PAD, ncols) {
            return Err(Refusal::BadSize);
        }
        self.add(nlines, ncols, None, None)
    }

    /// Makes a window that shows the part of a window from a line and a column of it on. A size of 0 reaches to its
    /// edge.
    ///
    /// # Errors
    /// `NoSuchWindow`, `IsPad`, `OutsideParent`, `TooMany`, `NoMemory`.
    pub fn derwin(
        &mut self,
        win: WinId,
        nlines: u16,
        ncols: u16,
        begin_y: u16,
        begin_x: u16,
    ) -> Result<WinId, Refusal>
        ensures { Made its_number self.old (Making.Derwin win nlines ncols begin_y begin_x) result self.new }
    {
        if self.slot(win)?.place().is_none() {
            return Err(Refusal::IsPad);
        }
        self.derive(win, nlines, ncols, begin_y, begin_x)
    }

    /// Makes a window that shows the part of a window from a place of the screen on. A size of 0 reaches to the
    /// window's edge.
    ///
    /// # Errors
    /// `NoSuchWindow`, `IsPad`, `OutsideParent`, `TooMany`, `NoMemory`.
    pub fn subwin(
        &mut self,
        win: WinId,
        nlines: u16,
        ncols: u16,
        begin_y: u16,
        begin_x: u16,
    ) -> Result<WinId, Refusal>
        ensures { Made its_number self.old (Making.Subwin win nlines ncols begin_y begin_x) result self.new }
    {
        let (top, left) = self.slot(win)?.place().ok_or(Refusal::IsPad)?;
        if begin_y < top || begin_x < left {
            return Err(Refusal::OutsideParent);
        }
        self.derive(win, nlines, ncols, begin_y - top, begin_x - left)
    }

    /// Makes a pad that shows the part of a pad from a line and a column of it on. A size of 0 reaches to its edge.
    ///
    /// # Errors
    /// `NoSuchWindow`, `NotPad`, `OutsideParent`, `TooMany`, `NoMemory`.
    pub fn subpad(
        &mut self,
        pad: WinId,
        nlines: u16,
        ncols: u16,
        begin_y: u16,
        begin_x: u16,
    ) -> Result<WinId, Refusal>
        ensures { Made its_number self.old (Making.Subpad pad nlines ncols begin_y begin_x) result self.new }
    {
        if self.slot(pad)?.place().is_some() {
            return Err(Refusal::NotPad);
        }
        self.derive(pad, nlines, ncols, begin_y, begin_x)
    }

    /// Makes a window or pad that shows the part of another from a line and a column of it on. The other must exist.
    fn derive(
        &mut self,
        win: WinId,
        nlines: u16,
        ncols: u16,
        y: u16,
        x: u16,
    ) -> Result<WinId, Refusal>
        requires { IsSome ((windows self.old).window win.0) }
        ensures { Changed its_number self.old (first_of (part_tests (windows self.old) win.0 nlines ncols y x))
            (makes (next_window (windows self.old)) (derived_from (windows self.old) win.0 nlines ncols y x)) result self.new }
    {
        let parent = self.slot(win)?;
        let lines = extent_inside(nlines, parent.lines(), y, Refusal::OutsideParent)?;
        let columns = extent_inside(ncols, parent.columns(), x, Refusal::OutsideParent)?;
        let place = place_from(parent.place(), y, x);
        let part = Part {
            parent: win.0,
            line: y,
            column: x,
        };
        self.add(lines, columns, place, Some(part))
    }

    /// Puts a window or pad under a free number: a part of its parent, or one with a blank grid of its own.
    fn add(
        &mut self,
        lines: u16,
        columns: u16,
        place: Option<(u16, u16)>,
        part: Option<Part>,
    ) -> Result<WinId, Refusal>
        requires { FitsTable self.old lines columns place part }
        ensures { Changed its_number self.old (first_of ((is_full (windows self.old).window, Refusal.TooMany) ∷ []))
            (makes (next_window (windows self.old)) (Some (new_window lines columns place (backing_by part)))) result self.new }
    {
        prove!(self.has_window(WinId::STANDARD));
        let number = free_number(&self.slots).ok_or(Refusal::TooMany)?;
        let slot = self.new_slot(number, lines, columns, place, part)?;
        fill_slot_at(&mut self.slots, number, slot)?;
        Ok(WinId(number))
    }

    /// A window or pad that isn't in the table yet.
    fn new_slot(
        &self,
        number: u16,
        lines: u16,
        columns: u16,
        place: Option<(u16, u16)>,
        part: Option<Part>,
    ) -> Result<Slot, Refusal>
        requires fits { FitsTable self.now lines columns place part }
        requires free { IsFree self.now.slots number }
        ensures refused { IfErr result (λ refusal. refusal ≡ Refusal.NoMemory) }
        ensures window { IfOk result (λ s. window_of s ≡ new_window lines columns place (backing_by part)) }
        ensures kept { IfOk result (λ s. IsKept s × HasParentIn self.now.slots s s.cells) }
        ensures origin { IfOk result (λ s. (new : List (Option Kept)) → SetAt self.now.slots new number (Some s) → IsChained new
            → own (window_map new) number 0 0 ≡ Some (grid_place s.origin)) }
    {
        match part {
            None => Ok(Slot::with_grid(self.alloc, number, lines, columns, place)?),
            Some(part) => {
                let depth = self.slot(WinId(part.parent))?.depth() + 1;
                let origin = origin_of(&self.slots, part.parent).onward(part.line, part.column);
                Ok(Slot::with_parent(self.alloc, lines, columns, place, part, depth, origin)?)
            }
        }
    }

    /// Moves a window to a place of the screen. No other window moves, and each shows the cells that it showed.
    ///
    /// # Errors
    /// `NoSuchWindow`, `StandardScreen`, `IsPad`, `OffScreen`.
    pub fn mvwin(&mut self, win: WinId, y: u16, x: u16) -> Result<(), Refusal>
        ensures { Made no_answer self.old (Making.Mvwin win y x) result self.new }
    {
        let slot = self.slot(win)?;
        if win == WinId::STANDARD {
            return Err(Refusal::StandardScreen);
        }
        if slot.place().is_none() {
            return Err(Refusal::IsPad);
        }
        if !(fits(slot.lines(), y, self.lines) && fits(slot.columns(), x, self.columns)) {
            return Err(Refusal::OffScreen);
        }
        change_slot(&mut self.slots, win.0, |slot| slot.set_place(y, x));
        Ok(())
    }

    /// Lets a derived window or pad show the part of its parent from another line and column on. It stays where it is
    /// on the screen, and what derives from it follows.
    ///
    /// # Errors
    /// `NoSuchWindow`, `NotDerived`, `OutsideParent`.
    pub fn mvderwin(&mut self, win: WinId, par_y: u16, par_x: u16) -> Result<(), Refusal>
        ensures { Made no_answer self.old (Making.Mvderwin win par_y par_x) result self.new }
    {
        let slot = self.slot(win)?;
        let part = slot.part().ok_or(Refusal::NotDerived)?;
        let parent = self.slot(WinId(part.parent))?;
        if !(fits(slot.lines(), par_y, parent.lines())
            && fits(slot.columns(), par_x, parent.columns()))
        {
            return Err(Refusal::OutsideParent);
        }
        change_slot(&mut self.slots, win.0, |slot| slot.shift(par_y, par_x));
        settle(&mut self.slots);
        Ok(())
    }

    /// Deletes a window or pad from which none derives. Its number and its memory are free then.
    ///
    /// # Errors
    /// `NoSuchWindow`, `StandardScreen`, `HasDerived`.
    pub fn delwin(&mut self, win: WinId) -> Result<(), Refusal>
        ensures { Made no_answer self.old (Making.Delwin win) result self.new }
    {
        self.slot(win)?;
        if win == WinId::STANDARD {
            return Err(Refusal::StandardScreen);
        }
        if has_derived(&self.slots, win.0) {
            return Err(Refusal::HasDerived);
        }
        free_slot(&mut self.slots, win.0);
        prove!(self.has_window(WinId::STANDARD));
        Ok(())
    }
}

/// How many lines or columns from a place on are meant, where 0 reaches to the edge, if they end before the edge.
fn extent_inside(n: u16, all: u16, at: u16, outside: Refusal) -> Result<u16, Refusal>
    ensures ok { IfOk result (λ size. (is_inside n all at ≡ true) × (size ≡ extent n all at)) }
    ensures inside { IfOk result (λ size. (0 < size) × (at + size ≤ all)) }
    ensures err { IfErr result (λ refusal. (is_inside n all at ≡ false) × (refusal ≡ outside)) }
{
    if at >= all {
        return Err(outside);
    }
    let size = if n == 0 { all - at } else { n };
    if size <= all - at {
        Ok(size)
    } else {
        Err(outside)
    }
}

/// Whether n lines or columns from a line or column on end before the edge.
fn fits(n: u16, at: u16, all: u16) -> bool
    ensures { result ≡ nat_le (at + n) all }
{
    n <= all && at <= all - n
}

/// A place some lines and columns on.
fn place_from(place: Option<(u16, u16)>, y: u16, x: u16) -> Option<(u16, u16)>
    requires { MatchOption place ⊤ (λ p. (p.0 + y < 2 ^ 16) × (p.1 + x < 2 ^ 16)) }
    ensures { result ≡ place_from place y x }
{
    match place {
        Some((top, left)) => Some((top + y, left + x)),
        None => None,
    }
}
