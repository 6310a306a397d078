//! Which windows show cells of one another.

ghost use Rattle.std.specs.Prelude.{◌≡◌, ◌<◌, ◌≤◌};
ghost use Rattle.grids.specs.{IsSome, IsSomeAnd, MatchOption, ⊤, option_map, AreRectangle, SharesPart, AreSoundWindows, HasPlace, derives, grid_of, windows, depth_at, in_parent, part_in_parent};

use crate::list::origin_of;
use crate::parents::place_in_parent;
use crate::place::Place;
use crate::sync::clip;
use crate::table::Grids;
use cell::{Rect, WinId};
use world::Columns;

impl Grids {
    /// The rectangle of window `to` at whose places it shows a cell that `from` shows in a rectangle of it, ends
    /// inclusive; none if there is no such place. Both windows must exist, and `from` must hold the rectangle.
    pub fn seen_in(&self, from: WinId, rect: Rect, to: WinId) -> Option<Rect>
        requires ordered_lines { rect.top ≤ rect.bottom }
        requires ordered_columns { rect.left ≤ rect.right }
        requires inside { HasPlace (windows self.now).window from.0 rect.bottom rect.right }
        requires there { IsSome ((windows self.now).window to.0) }
        ensures seen { AreRectangle (SharesPart (windows self.now).window from.0 rect to.0) result }
        ensures sound { AreSoundWindows (windows self.now) }
    {
        let source = origin_of(&self.slots, from.0);
        if from == to {
            return Some(rect);
        }
        let target = origin_of(&self.slots, to.0);
        if source.grid != target.grid {
            return None;
        }
        let (lines, columns) = self.size(to.0);
        let top_to_bottom = Columns {
            first: rect.top,
            last: rect.bottom,
        };
        let left_to_right = Columns {
            first: rect.left,
            last: rect.right,
        };
        let down = clip(Some(top_to_bottom), source.line, target.line, lines)?;
        let along = clip(Some(left_to_right), source.column, target.column, columns)?;
        Some(Rect {
            top: down.first,
            left: along.first,
            bottom: down.last,
            right: along.last,
        })
    }

    /// The number of the window that has the cells of a window, if there is such a window: its own number, or that of an
    /// ancestor. Windows of two such numbers show no cell of one another.
    #[inline(always)]
    pub fn grid(&self, win: WinId) -> Option<u16>
        ensures { result ≡ grid_of (windows self.now).window win.0 }
    {
        let _ = &self.slots;
        Some(self.slot(win).ok()?.origin().grid)
    }

    /// Whether window `u` derives from window `w` at any depth. Window `u` must exist.
    pub fn derives(&self, w: WinId, u: WinId) -> bool
        requires { IsSome ((windows self.now).window u.0) }
        ensures value { result ≡ derives (windows self.now).window w.0 u.0 }
        ensures sound { AreSoundWindows (windows self.now) }
    {
        prove!(self.has_window(WinId::STANDARD));
        let mut at = Place::first_of(u.0);
        while let Some(next) = self.place_above(at) {
            if next.win == w {
                return true;
            }
            at = next;
        }
        false
    }

    /// The place of the parent that a derived window shows at a place of it. The place must exist.
    pub(crate) fn place_above(&self, at: Place) -> Option<Place>
        requires { HasPlace (windows self.now).window at.win.0 at.line at.column }
        ensures next { IsSomeAnd ((windows self.now).window at.win.0) (λ a. result ≡ option_map (in_parent at) (part_in_parent a.backing)) }
        ensures inside { MatchOption result ⊤ (λ next. HasPlace (windows self.now).window next.win.0 next.line next.column) }
        ensures depth { MatchOption result ⊤ (λ next. depth_at self.now.slots next.win.0 < depth_at self.now.slots at.win.0) }
    {
        place_in_parent(&self.slots, at)
    }
}
