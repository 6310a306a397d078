//! The search from the top, along the lines of the screen. What it finds in one line holds in those below it up to
//! where a panel begins or ends, and is kept for them.

ghost use Rattle.std.specs.Prelude.{◌≡◌, ◌≢◌, ◌⊎◌, ◌<◌, ◌≤◌, if◌then◌else◌};
ghost use Rattle.picture.specs.{ℕ, None, Some, Option, true, option_or, LARGEST_SCREEN, Panels, WindowMap, panels, frame_holds, HasPanelWindows, IsSpan, AreInside, AreSpans, KnowsOwners};

use crate::rows::Rows;
use crate::span::Span;
use crate::spans::Spans;
use cell::Rect;
use stack::Stack;
use world::PanelId;

/// The spans of the lines from `top` to `bottom`, in which they are the same, as far as they are known: from column
/// `left` to `right`. They are known of no line, if `bottom` is above `top`.
#[derive(Drop)]
pub struct Owners {
    top: u16,
    bottom: u16,
    left: u16,
    right: u16,
    spans: Spans,
}

impl Owners {
    /// Those of no line.
    pub fn none() -> Owners
        ensures { (window : WindowMap) (panels : Panels) → KnowsOwners window panels result }
    {
        Owners {
            top: 1,
            bottom: 0,
            left: 0,
            right: 0,
            spans: Spans::none(),
        }
    }

    /// Makes them those of no line again.
    pub fn start_over(&mut self)
        ensures { (window : WindowMap) (panels : Panels) → KnowsOwners window panels self.new }
    {
        self.begin(1, 0);
    }

    /// The span of line `y` from column `x` on, up to `edge` at most. The panels are searched only where the line isn't
    /// one of those whose spans are known.
    pub fn span<'a, R: Rows<'a>>(
        &mut self,
        rows: &R,
        stack: &Stack,
        y: u16,
        x: u16,
        edge: u16,
    ) -> Span
        requires panels { HasPanelWindows (R.windows rows.now).window (panels stack.now) }
        requires column { x ≤ edge }
        requires known { KnowsOwners (R.windows rows.now).window (panels stack.now) self.old }
        ensures span { IsSpan (R.windows rows.now).window (panels stack.now) y x edge result }
        ensures known { KnowsOwners (R.windows rows.now).window (panels stack.now) self.new }
    {
        self.know(rows, stack, y, x, edge);
        self.spans.at(x, edge)
    }

    /// Finds the spans of line `y` from column `x` to `edge`, unless they are known.
    #[inline(always)]
    fn know<'a, R: Rows<'a>>(&mut self, rows: &R, stack: &Stack, y: u16, x: u16, edge: u16)
        requires panels { HasPanelWindows (R.windows rows.now).window (panels stack.now) }
        requires known { KnowsOwners (R.windows rows.now).window (panels stack.now) self.old }
        ensures top { self.new.top ≤ y }
        ensures bottom { y ≤ self.new.bottom }
        ensures left { self.new.left ≤ x }
        ensures right { edge ≤ self.new.right }
        ensures known { KnowsOwners (R.windows rows.now).window (panels stack.now) self.new }
    {
        if self.top <= y && y <= self.bottom && self.left <= x && edge <= self.right {
            return;
        }
        self.find(rows, stack, y, x, edge);
    }

    /// Finds the spans of line `y`, at least from column `x` to `edge`, and up to which line they are the same. It looks
    /// at each visible panel, from the top to the bottom, until all these columns are owned.
    fn find<'a, R: Rows<'a>>(&mut self, rows: &R, stack: &Stack, y: u16, x: u16, edge: u16)
        requires panels { HasPanelWindows (R.windows rows.now).window (panels stack.now) }
        ensures top { self.new.top ≤ y }
        ensures bottom { y ≤ self.new.bottom }
        ensures left { self.new.left ≤ x }
        ensures right { edge ≤ self.new.right }
        ensures known { KnowsOwners (R.windows rows.now).window (panels stack.now) self.new }
    {
        self.begin(y, u16::MAX);
        for (panel, win) in stack.visible_from_top() {
            if edge <= self.right && self.left <= x {
                return;
            }
            self.lay(y, x, edge, panel, rows.rect(win));
        }
        self.left = 0;
        self.right = u16::MAX;
    }

    /// No panel is laid in the lines from `y` to `bottom` yet, so none owns a column.
    fn begin(&mut self, y: u16, bottom: u16)
        ensures inside { AreInside self.new.spans }
        ensures none { AreSpans (λ x. None) self.new.spans }
        ensures top { self.new.top ≡ y }
        ensures bottom { self.new.bottom ≡ bottom }
        ensures left { self.new.left ≡ 1 }
        ensures right { self.new.right ≡ 0 }
    {
        self.top = y;
        self.bottom = bottom;
        self.left = 1;
        self.right = 0;
        self.spans.clear();
    }

    /// Lays a panel under those of line `y`, and keeps of the lines from there on those in which it is the same. So more
    /// of the columns from `x` to `edge` may be known.
    #[inline(always)]
    fn lay(&mut self, y: u16, x: u16, edge: u16, panel: PanelId, rect: Rect)
        requires inside { AreInside self.old.spans }
        requires bottom { y ≤ self.old.bottom }
        requires ordered { rect.left ≤ rect.right }
        requires within { rect.right < LARGEST_SCREEN }
        requires number { 0 < panel.0 }
        ensures inside { AreInside self.new.spans }
        ensures top { self.new.top ≡ self.old.top }
        ensures bottom { y ≤ self.new.bottom }
        ensures fewer { self.new.bottom ≤ self.old.bottom }
        ensures same { (v u : ℕ) → y ≤ v → v ≤ self.new.bottom → frame_holds rect v u ≡ frame_holds rect y u }
        ensures owned { (u : ℕ) → self.new.left ≤ u → u ≤ self.new.right → ((self.old.left ≤ u) × (u ≤ self.old.right)) ⊎ (frame_holds rect y u ≡ true) }
        ensures laid { (o : ℕ → Option ℕ) → AreSpans o self.old.spans → ((u : ℕ) → o u ≢ Some panel.0)
            → AreSpans (λ u. option_or (o u) (if frame_holds rect y u then Some panel.0 else None)) self.new.spans }
    {
        if y < rect.top {
            self.bottom = self.bottom.min(rect.top - 1);
        } else if y <= rect.bottom {
            self.bottom = self.bottom.min(rect.bottom);
            self.spans.lay(panel, rect.left, rect.right);
            self.widen(x, edge, rect.left, rect.right);
        }
    }

    /// Adds the columns from `first` to `last` to those that are known, where they are beside these, or where none is
    /// known yet and some are from column `x` to `edge`.
    #[inline(always)]
    fn widen(&mut self, x: u16, edge: u16, first: u16, last: u16)
        ensures top { self.new.top ≡ self.old.top }
        ensures bottom { self.new.bottom ≡ self.old.bottom }
        ensures spans { self.new.spans ≡ self.old.spans }
        ensures owned { (u : ℕ) → self.new.left ≤ u → u ≤ self.new.right → ((self.old.left ≤ u) × (u ≤ self.old.right)) ⊎ ((first ≤ u) × (u ≤ last)) }
    {
        if self.right < self.left {
            if first <= edge && x <= last {
                self.left = first;
                self.right = last;
            }
        } else if first.saturating_sub(1) <= self.right && self.left.saturating_sub(1) <= last {
            self.left = self.left.min(first);
            self.right = self.right.max(last);
        }
    }
}
