//! A picture that is wanted over the one that is shown, and where they may differ.

ghost use Rattle.std.specs.Prelude.{◌≤◌};
ghost use Rattle.paint.specs.{props, LARGEST_SCREEN, IsUpdate};

use cell::{Grid, Shown};
use ecma::Positions;
use extents::Extents;

/// A wanted picture over the one that is shown, with the columns in which alone it may differ from that, and the
/// positions of its lines and columns.
#[derive(Drop)]
pub struct Update<'a> {
    pub lines: u16,
    pub columns: u16,
    pub shown: &'a Grid<Shown>,
    pub wanted: &'a Grid<Shown>,
    pub changes: &'a Extents,
    pub positions: &'a Positions,
    pub ghost sound: { IsUpdate lines columns changes.now shown.now wanted.now } by { Prim.hlevel props },
    pub ghost lines_spelled: { lines ≤ positions.now },
    pub ghost columns_spelled: { columns ≤ positions.now },
    pub ghost few_spelled: { positions.now ≤ LARGEST_SCREEN },
}

impl Update<'_> {
    ghost use Rattle.std.specs.Prelude.{◌≡◌, ◌<◌};
    ghost use Rattle.paint.specs.{length, line_of};

    /// A line as it is shown, and as it is wanted.
    pub fn line(&self, y: u16) -> (&[Shown], &[Shown])
        requires { y < self.now.lines }
        ensures shown { result.0.now ≡ line_of self.now.shown.now y }
        ensures wanted { result.1.now ≡ line_of self.now.wanted.now y }
        ensures same { length self.now.shown.now ≡ length self.now.wanted.now }
    {
        let at = usize::from(y);
        (self.shown.row(at), self.wanted.row(at))
    }
}
