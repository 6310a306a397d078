//! The spans of a line, and panels that are laid over it one after another.

ghost use Rattle.std.specs.Prelude.{◌≡◌, ◌≢◌, ◌+◌, ◌<◌, ◌≤◌, ◌==◌, ◌&&◌, ◌||◌, if◌then◌else◌};
ghost use Rattle.picture.specs.{ℕ, Some, None, Option, true, false, nat_le, option_or, slice_index, IsNext, contains, panel_number, AreInside, AreSpans, IsRun, numbered};

use crate::span::Span;
use small_set::SmallSet;
use world::PanelId;

/// How many columns a line of the screen has at most.
const COLUMNS: usize = 999;

/// The spans of a line, each by its last column, with the number of the panel that owns it, 0 for none. No panel owns a
/// column after the last of them.
#[derive(Drop)]
pub struct Spans {
    ends: SmallSet,
    // Only those at the ends count.
    panels: [u16; COLUMNS],
    // The ends are before this column.
    beyond: u16,
}

impl Spans {
    /// Of a line of which no panel owns a column.
    pub fn none() -> Spans
        ensures inside { AreInside result }
        ensures none { AreSpans (λ x. None) result }
    {
        Spans {
            ends: SmallSet::new(),
            panels: [0; COLUMNS],
            beyond: 0,
        }
    }

    /// No panel owns a column any more.
    pub fn clear(&mut self)
        ensures inside { AreInside self.new }
        ensures none { AreSpans (λ x. None) self.new }
    {
        self.ends.clear();
        self.beyond = 0;
    }

    /// The span from column `x` on, up to `edge` at most.
    pub fn at(&self, x: u16, edge: u16) -> Span
        requires inside { AreInside self.now }
        requires ordered { x ≤ edge }
        ensures from { x ≤ result.end }
        ensures within { result.end ≤ edge }
        ensures run { (o : ℕ → Option ℕ) → AreSpans o self.now → IsRun o x edge result }
        ensures bare { (e : ℕ) → x ≤ e → e < result.end → contains self.now.ends e ≡ false }
    {
        match self.end_from(x) {
            Some(end) => Span {
                panel: panel_of(self.panels[usize::from(end)]),
                end: end.min(edge),
            },
            None => Span {
                panel: None,
                end: edge,
            },
        }
    }

    /// A panel that owned no column owns those from `left` to `right` now, both inclusive, that no other one owns.
    #[inline(never)]
    pub fn lay(&mut self, panel: PanelId, left: u16, right: u16)
        requires inside { AreInside self.old }
        requires ordered { left ≤ right }
        requires column { right < COLUMNS }
        requires number { 0 < panel.0 }
        ensures inside { AreInside self.new }
        ensures laid { (o : ℕ → Option ℕ) → AreSpans o self.old → ((x : ℕ) → o x ≢ Some panel.0)
            → AreSpans (λ x. option_or (o x) (if nat_le left x && nat_le x right then Some panel.0 else None)) self.new }
    {
        let mut x = left;
        while x <= right {
            let span = self.at(x, right);
            if span.panel.is_none() {
                self.fill(panel, x, span.end);
            }
            x = span.end + 1;
        }
    }

    /// A panel owns the columns from `left` to `right` now, both inclusive, between which no span ends. It owns neither
    /// the column before them nor the one after.
    fn fill(&mut self, panel: PanelId, left: u16, right: u16)
        requires inside { AreInside self.old }
        requires ordered { left ≤ right }
        requires column { right < COLUMNS }
        requires number { 0 < panel.0 }
        requires bare { (e : ℕ) → left ≤ e → e < right → contains self.old.ends e ≡ false }
        ensures inside { AreInside self.new }
        ensures filled { (o : ℕ → Option ℕ) → AreSpans o self.old → ((e : ℕ) → e + 1 ≡ left → o e ≢ Some panel.0) → o (right + 1) ≢ Some panel.0
            → AreSpans (λ x. if nat_le left x && nat_le x right then Some panel.0 else o x) self.new }
    {
        self.end_before(left);
        self.put(right, panel.0);
    }

    /// The first end from a column on.
    fn end_from(&self, x: u16) -> Option<u16>
        requires { AreInside self.now }
        ensures { IsNext self.now.ends x result }
    {
        if self.beyond <= x {
            return None;
        }
        self.ends.next(x)
    }

    /// Ends a span right before a column, unless it is the first. Its panel is the one that owns the column there.
    fn end_before(&mut self, x: u16)
        requires inside { AreInside self.old }
        requires column { x < COLUMNS }
        ensures inside { AreInside self.new }
        ensures end { (e : ℕ) → e + 1 ≡ x → contains self.new.ends e ≡ true }
        ensures ends { (e : ℕ) → e + 1 ≢ x → contains self.new.ends e ≡ contains self.old.ends e }
        ensures owner { (o : ℕ → Option ℕ) → AreSpans o self.old → (e u : ℕ) → e + 1 ≡ x → u ≤ e
            → ((n : ℕ) → u ≤ n → n < e → contains self.old.ends n ≡ false) → o u ≡ numbered (slice_index self.new.panels e) }
        ensures panels { (e : ℕ) → e + 1 ≢ x → slice_index self.new.panels e ≡ slice_index self.old.panels e }
    {
        if x > 0 {
            let panel = self.owner_at(x - 1);
            self.put(x - 1, panel);
        }
    }

    /// The number of the panel that owns a column, and those before it at which no span ends.
    fn owner_at(&self, x: u16) -> u16
        requires { AreInside self.now }
        ensures { (o : ℕ → Option ℕ) → AreSpans o self.now → (u : ℕ) → u ≤ x → ((n : ℕ) → u ≤ n → n < x → contains self.now.ends n ≡ false)
            → o u ≡ numbered result }
    {
        match self.end_from(x) {
            Some(end) => self.panels[usize::from(end)],
            None => 0,
        }
    }

    /// A span ends at a column now, of the panel of this number.
    fn put(&mut self, end: u16, panel: u16)
        requires inside { AreInside self.old }
        requires column { end < COLUMNS }
        ensures inside { AreInside self.new }
        ensures ends { (e : ℕ) → contains self.new.ends e ≡ (e == end || contains self.old.ends e) }
        ensures panel { slice_index self.new.panels end ≡ panel }
        ensures others { (e : ℕ) → e ≢ end → slice_index self.new.panels e ≡ slice_index self.old.panels e }
    {
        self.ends.insert(end);
        self.panels[usize::from(end)] = panel;
        self.beyond = self.beyond.max(end + 1);
    }
}

/// The panel of a number; 0 is that of none.
fn panel_of(number: u16) -> Option<PanelId>
    ensures { panel_number result ≡ numbered number }
{
    if number == 0 {
        None
    } else {
        Some(PanelId(number))
    }
}
