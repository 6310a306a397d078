//! The slots of the windows, by number, and changes of one of them.

ghost use Rattle.std.specs.Prelude.{◌≡◌, ◌<◌, ◌≤◌, ◌+◌, ◌-◌};
ghost use Rattle.grids.specs.{Some, None, IsSome, IsSomeAnd, MatchOption, ⊤, length, OnOk, OnErr, map, AllByRecursion, list_any, range_with_len, IsCell, own, cell_of, has_derived, new_number};
ghost use Rattle.grids.specs.{window_of, slot_at, window_map, grid_place, AreOrigins, IsChained, IsRoot, part_in, lines_at, columns_at, names_parent, FnOnceReturnsAtMut, FnOnceTakesAtMut, ChangedBy};
ghost use Rattle.grids.specs.{SetAt, IsFree};
ghost use Rattle.std.specs.Option.{is_none};

use crate::slot::{Origin, Slot};
use cell::{Cell, LARGEST_PAD, MOST_WINDOWS};
use std::alloc::AllocError;
use world::Settings;

/// Where the first place of a window is.
pub fn origin_of(slots: &[Option<Slot>], win: u16) -> Origin
    requires chained { IsChained slots.now }
    requires origins { AreOrigins slots.now }
    requires few { length slots.now ≤ MOST_WINDOWS + 1 }
    requires taken { IsSome (slot_at slots.now win) }
    ensures { IsRoot slots.now win (grid_place result) }
{
    match &slots[usize::from(win)] {
        Some(slot) => slot.origin(),
        None => unreachable!(),
    }
}

/// The number of columns of a slot's window.
pub fn columns_of(slots: &[Option<Slot>], win: u16) -> u16
    requires { IsSome (slot_at slots.now win) }
    ensures { result ≡ columns_at slots.now win }
{
    match &slots[usize::from(win)] {
        Some(slot) => slot.columns(),
        None => 0,
    }
}

/// The cells of a line of a slot's own grid, `len` of them from a column on.
pub fn row_in(slots: &[Option<Slot>], at: u16, line: u16, left: u16, len: u16) -> &[Cell]
    requires grid { IsSomeAnd (slot_at slots.now at) (λ k. part_in k.cells ≡ None) }
    requires line_in { line < lines_at slots.now at }
    requires columns_in { left + len ≤ columns_at slots.now at }
    ensures row { IsSomeAnd (slot_at slots.now at) (λ k. result.now ≡ map (λ x. cell_of (window_of k).backing line (left + x)) (range_with_len 0 len)) }
    ensures len { length result.now ≡ len }
    ensures cells { AllByRecursion IsCell result.now }
{
    match &slots[usize::from(at)] {
        Some(slot) => slot.row(line, left, len),
        None => unreachable!(),
    }
}

/// Whether a window derives from this one.
pub fn has_derived(slots: &[Option<Slot>], win: u16) -> bool
    requires { length slots.now ≤ MOST_WINDOWS + 1 }
    ensures { result ≡ has_derived (window_map slots.now) win }
{
    is_named(slots, win)
}

/// Whether some window has this one as its parent.
fn is_named(slots: &[Option<Slot>], win: u16) -> bool
    ensures { result ≡ list_any (names_parent win) slots.now }
{
    slots.iter().any(|slot| names_parent(slot, win))
}

/// Whether a slot's window has this one as its parent.
fn names_parent(slot: &Option<Slot>, win: u16) -> bool
    ensures { result ≡ names_parent win slot.now }
{
    match slot {
        Some(slot) => slot.is_part_of(win),
        None => false,
    }
}

/// The least free number from 1 on: that of an empty slot, or the one after the last slot.
pub fn free_number(slots: &[Option<Slot>]) -> Option<u16>
    requires some { 0 < length slots.now }
    requires few { length slots.now ≤ MOST_WINDOWS + 1 }
    ensures number { result ≡ new_number (window_map slots.now) }
    ensures free { MatchOption result ⊤ (IsFree slots.now) }
{
    for n in 1..slots.len() {
        if slots[n].is_none() {
            return Some(n as u16);
        }
    }
    if slots.len() <= usize::from(MOST_WINDOWS) {
        Some(slots.len() as u16)
    } else {
        None
    }
}

/// Puts a window into an empty slot, or into a new one after the last.
pub fn fill_slot_at(slots: &mut Vec<Option<Slot>>, at: u16, slot: Slot) -> Result<(), AllocError>
    requires free { IsFree slots.old.items at }
    requires few { length slots.old.items ≤ MOST_WINDOWS + 1 }
    ensures set { OnOk result (SetAt slots.old.items slots.new.items at (Some slot)) }
    ensures unchanged { OnErr result (slots.new.items ≡ slots.old.items) }
{
    let at = usize::from(at);
    if at < slots.len() {
        slots[at] = Some(slot);
    } else {
        slots.push(Some(slot))?;
    }
    Ok(())
}

/// Empties a slot.
pub fn free_slot(slots: &mut Vec<Option<Slot>>, at: u16)
    requires few { length slots.old.items ≤ MOST_WINDOWS + 1 }
    requires below { at < length slots.old.items }
    ensures { SetAt slots.old.items slots.new.items at None }
{
    slots[usize::from(at)] = None;
}

/// Changes a slot's window where it is.
#[inline(always)]
pub fn change_slot<R, F: FnOnce(&mut Slot) -> R>(
    slots: &mut Vec<Option<Slot>>,
    at: u16,
    change: F,
) -> R
    requires { IsSomeAnd (slot_at slots.old.items at) (FnOnceTakesAtMut F.FnOnce change) }
    ensures { ChangedBy (FnOnceReturnsAtMut F.FnOnce change) slots.old.items slots.new.items at result }
{
    match &mut slots[usize::from(at)] {
        Some(slot) => change(slot),
        None => unreachable!(),
    }
}
