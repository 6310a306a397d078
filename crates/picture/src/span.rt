//! The spans of a line: columns side by side at which the search from the top finds the same panel.

ghost use Rattle.std.specs.Prelude.{◌≤◌};
ghost use Rattle.picture.specs.{panels, HasPanelWindows, IsSpan};

use crate::owners::Owners;
use crate::rows::Rows;
use stack::Stack;
use world::PanelId;

/// The panel that the search from the top finds from a column on, none for the standard screen, and the last column up
/// to which it finds the same at every column.
#[derive(Clone, Copy)]
pub struct Span {
    pub panel: Option<PanelId>,
    pub end: u16,
}

/// The span of line `y` from column `x` on, up to `edge` at most.
pub fn owner_span<'a, R: Rows<'a>>(rows: &R, stack: &Stack, y: u16, x: u16, edge: u16) -> Span
    requires panels { HasPanelWindows (R.windows rows.now).window (panels stack.now) }
    requires column { x ≤ edge }
    ensures { IsSpan (R.windows rows.now).window (panels stack.now) y x edge result }
{
    Owners::none().span(rows, stack, y, x, edge)
}
