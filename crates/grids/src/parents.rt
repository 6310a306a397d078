//! The chain from a window through its parents to the grid in which its cells are.

ghost use Rattle.std.specs.Prelude.{◌≡◌, ◌<◌, ◌≤◌, ◌+◌};
ghost use Rattle.grids.specs.{Some, IsSome, IsSomeAnd, MatchOption, ⊤, length, option_map, HasPlace, own, slot_at, window_map, grid_place, IsChained, part_in, depth_at, in_parent, Settled};

use crate::list::change_slot;
use crate::place::Place;
use crate::slot::{Origin, Slot};
use cell::{MOST_WINDOWS, WinId};

/// The place of the parent that a derived window shows at a place of it. The place must exist.
pub fn place_in_parent(slots: &[Option<Slot>], at: Place) -> Option<Place>
    requires chained { IsChained slots.now }
    requires there { HasPlace (window_map slots.now) at.win.0 at.line at.column }
    ensures next { IsSomeAnd (slot_at slots.now at.win.0) (λ k. result ≡ option_map (in_parent at) (part_in k.cells)) }
    ensures inside { MatchOption result ⊤ (λ next. HasPlace (window_map slots.now) next.win.0 next.line next.column) }
    ensures depth { MatchOption result ⊤ (λ next. depth_at slots.now next.win.0 < depth_at slots.now at.win.0) }
{
    let Some(slot) = &slots[usize::from(at.win.0)] else {
        return None;
    };
    let part = slot.part()?;
    Some(Place {
        win: WinId(part.parent),
        line: at.line + part.line,
        column: at.column + part.column,
    })
}

/// Where the first place of a window is, found from parent to parent.
fn first_place(slots: &[Option<Slot>], win: u16) -> Origin
    requires chained { IsChained slots.now }
    requires few { length slots.now ≤ MOST_WINDOWS + 1 }
    requires taken { IsSome (slot_at slots.now win) }
    ensures leads { own (window_map slots.now) win 0 0 ≡ Some (grid_place result) }
{
    let mut at = Place::first_of(win);
    while let Some(next) = place_in_parent(slots, at) {
        at = next;
    }
    Origin {
        grid: at.win.0,
        line: at.line,
        column: at.column,
    }
}

/// Sets the origin of each slot again.
pub fn settle(slots: &mut Vec<Option<Slot>>)
    requires chained { IsChained slots.old.items }
    requires few { length slots.old.items ≤ MOST_WINDOWS + 1 }
    ensures { Settled slots.old.items slots.new.items }
{
    for at in 0..slots.len() {
        if slots[at].is_some() {
            let origin = first_place(slots, at as u16);
            change_slot(slots, at as u16, |slot| slot.set_origin(origin));
        }
    }
}
