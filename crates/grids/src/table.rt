//! The windows and pads of a screen.

ghost use Rattle.std.specs.Prelude.{◌≡◌, ◌<◌, ◌≤◌, ◌-◌, ◌&&◌};
ghost use Rattle.grids.specs.{ℕ, None, IsSomeAnd, MatchResult, IfOk, Some, RefusedBy, after_set_settings, set, set_in, with_cursor, AreSoundWindows, HasPlace, first_world};
ghost use Rattle.grids.specs.{new_refusal, windows, WindowTable, IsWindowTable, slot_at, depth_at, grid_place, HasLine, Kept, window_of, ChangedBy, StaysInPlace, with_touched, with_touched_lines};
ghost use Rattle.grids.specs.{nat_le, FnOnceReturnsAtMut};
ghost use Rattle.grids.specs.{FnOnceTakesAtMut, Window, with_change};

use crate::list::change_slot;
use crate::slot::{Origin, Slot};
use cell::{LARGEST_SCREEN, Rect, Refusal, WinId, is_no_size};
use std::alloc::Global;
use std::marker::Model;
use world::Settings;

/// A screen's windows and pads by number. Window 0 is the standard screen: it covers the screen, and is always there.
/// Lines and columns count from 0.
#[derive(Drop)]
pub struct Grids {
    pub(crate) alloc: Global,
    pub(crate) lines: u16,
    pub(crate) columns: u16,
    pub(crate) slots: Vec<Option<Slot>>,
}

impl Model for Grids {
    ghost Value = { WindowTable };

    ghost view = { λ a. record { lines = a.lines; columns = a.columns; slots = a.slots.items } };

    ghost invariant = { λ a. IsWindowTable (record { lines = a.lines; columns = a.columns; slots = a.slots.items }) };
}

impl Grids {
    /// A screen of 1 to `LARGEST_SCREEN` lines and columns, with the blank standard screen alone.
    ///
    /// # Errors
    /// `BadSize` for a size out of these limits, `NoMemory`.
    pub fn new(alloc: Global, lines: u16, cols: u16) -> Result<Grids, Refusal>
        ensures refused { RefusedBy (new_refusal lines cols) result }
        ensures made { IfOk result (λ g. windows g ≡ (first_world lines cols).windows) }
        ensures sound { IfOk result (λ g. AreSoundWindows (windows g)) }
    {
        if is_no_size(LARGEST_SCREEN, lines) || is_no_size(LARGEST_SCREEN, cols) {
            return Err(Refusal::BadSize);
        }
        let standard = Slot::with_grid(alloc, 0, lines, cols, Some((0, 0)))?;
        let mut slots = Vec::new(alloc);
        if slots.push(Some(standard)).is_err() {
            return Err(Refusal::NoMemory);
        }
        let grids = Grids {
            alloc,
            lines,
            columns: cols,
            slots,
        };
        prove!(grids.has_window(WinId::STANDARD));
        Ok(grids)
    }

    /// The slot of a window.
    #[tactic(auto, using(crate::proofs::Sounds::each_sound))]
    pub(crate) fn slot(&self, win: WinId) -> Result<&Slot, Refusal>
        ensures found { MatchResult result (λ s. slot_at self.now.slots win.0 ≡ Some s.now)
            (λ e. (slot_at self.now.slots win.0 ≡ None) × (e ≡ Refusal.NoSuchWindow)) }
        ensures sound { AreSoundWindows (windows self.now) }
    {
        match self.slots.get(usize::from(win.0)) {
            Some(Some(slot)) => Ok(slot),
            _ => Err(Refusal::NoSuchWindow),
        }
    }

    /// Changes a window where it is. It stays in its place.
    #[inline(always)]
    pub(crate) fn change<R, F: FnOnce(&mut Slot) -> R>(&mut self, win: WinId, change: F) -> R
        requires taken { IsSomeAnd (slot_at self.old.slots win.0) (FnOnceTakesAtMut F.FnOnce change) }
        requires stays { (k : Kept) (r : R) (made : Kept) → FnOnceReturnsAtMut F.FnOnce change k r made → StaysInPlace k made × (made.place ≡ k.place) }
        ensures changed { ChangedBy (FnOnceReturnsAtMut F.FnOnce change) self.old.slots self.new.slots win.0 result }
        ensures windows { (f : Window → Window)
            → ((k : Kept) (r : R) (made : Kept) → FnOnceReturnsAtMut F.FnOnce change k r made → window_of made ≡ f (window_of k))
            → windows self.new ≡ record (windows self.old) { window = with_change (windows self.old).window win.0 f } }
        ensures line { (y right : ℕ) → HasPlace (windows self.old).window win.0 y right
            → IsSomeAnd (slot_at self.old.slots win.0) (λ k. HasLine self.old.slots self.new.slots win.0 y right (grid_place k.origin)) }
        ensures depths { (u : ℕ) → depth_at self.new.slots u ≡ depth_at self.old.slots u }
        ensures sound { AreSoundWindows (windows self.new) }
    {
        change_slot(&mut self.slots, win.0, change)
    }

    /// Touches columns of a line of a window, and answers where its first place is in a grid.
    #[inline(always)]
    pub(crate) fn touch(&mut self, win: WinId, y: u16, left: u16, right: u16) -> Origin
        requires ordered { left ≤ right }
        requires there { HasPlace (windows self.old).window win.0 y right }
        ensures touched { windows self.new ≡ record (windows self.old) { window = with_change (windows self.old).window win.0 (with_touched y left right) } }
        ensures line { HasLine self.old.slots self.new.slots win.0 y right (grid_place result) }
        ensures depths { (u : ℕ) → depth_at self.new.slots u ≡ depth_at self.old.slots u }
        ensures sound { AreSoundWindows (windows self.new) }
    {
        self.change(win, |slot| slot.touch(y, left, right))
    }

    /// Touches the columns of a rectangle of a window in each of its lines, and answers where its first place is in a
    /// grid.
    #[inline(always)]
    pub(crate) fn touch_rectangle(&mut self, win: WinId, rect: Rect) -> Origin
        requires lines { rect.top ≤ rect.bottom }
        requires columns { rect.left ≤ rect.right }
        requires there { HasPlace (windows self.old).window win.0 rect.bottom rect.right }
        ensures touched { windows self.new ≡ record (windows self.old) {
          window = with_change (windows self.old).window win.0
              (with_touched_lines (λ y. nat_le rect.top y && nat_le y rect.bottom) rect.left rect.right);
        } }
        ensures line { HasLine self.old.slots self.new.slots win.0 rect.bottom rect.right (grid_place result) }
        ensures sound { AreSoundWindows (windows self.new) }
    {
        self.change(win, |slot| slot.touch_rectangle(rect))
    }

    /// Touches the columns of a line of a window from `left` up to `end`, where its cursor goes, and answers where its
    /// first place is in a grid.
    #[inline(always)]
    pub(crate) fn touch_to(&mut self, win: WinId, y: u16, left: u16, end: u16) -> Origin
        requires some { left < end }
        requires there { HasPlace (windows self.old).window win.0 y end }
        ensures touched { windows self.new ≡ record (windows self.old) {
          window = with_change (windows self.old).window win.0 (λ a. set_in (with_cursor (y, end)) (with_touched y left (end - 1) a));
        } }
        ensures line { HasLine self.old.slots self.new.slots win.0 y (end - 1) (grid_place result) }
        ensures sound { AreSoundWindows (windows self.new) }
    {
        self.change(win, |slot| {
            slot.set_cursor(y, end);
            slot.touch(y, left, end - 1)
        })
    }

    /// The lines, the columns and the settings of a window.
    ///
    /// # Errors
    /// `NoSuchWindow`.
    pub fn state(&self, win: WinId) -> Result<(u16, u16, Settings), Refusal>
        ensures state { MatchResult result
            (λ s. IsSomeAnd ((windows self.now).window win.0) (λ a. (a.lines ≡ s.0) × (a.columns ≡ s.1) × (a.settings ≡ s.2)))
            (λ e. ((windows self.now).window win.0 ≡ None) × (e ≡ Refusal.NoSuchWindow)) }
        ensures sound { AreSoundWindows (windows self.now) }
    {
        let slot = self.slot(win)?;
        Ok((slot.lines(), slot.columns(), slot.settings()))
    }

    /// Gives a window other settings. The window must exist and hold the cursor and the region, whose first line isn't
    /// after its last. Bits beyond the six attributes are dropped.
    pub fn set_settings(&mut self, win: WinId, settings: Settings)
        requires cursor { HasPlace (windows self.old).window win.0 settings.cursor.0 settings.cursor.1 }
        requires region_order { settings.region.0 ≤ settings.region.1 }
        requires region_end { IsSomeAnd ((windows self.old).window win.0) (λ a. settings.region.1 < a.lines) }
        ensures set { windows self.new ≡ after_set_settings (windows self.old) win.0 settings }
        ensures sound { AreSoundWindows (windows self.new) }
    {
        self.change(win, |slot| slot.set_settings(settings));
    }

    /// Moves the cursor of a window, which must hold the place.
    pub fn set_cursor(&mut self, win: WinId, y: u16, x: u16)
        requires { HasPlace (windows self.old).window win.0 y x }
        ensures set { windows self.new ≡ set (windows self.old) win.0 (with_cursor (y, x)) }
        ensures sound { AreSoundWindows (windows self.new) }
    {
        self.change(win, |slot| slot.set_cursor(y, x));
    }
}
