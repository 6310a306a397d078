//! The touched columns of a line.

ghost use Rattle.std.specs.Prelude.{◌≡◌, ◌≤◌};
ghost use Rattle.grids.specs.{None, joined_columns};

use std::marker::Model;
use world::Columns;

/// The touched columns of a line, in a form in which a loop that touches many lines takes the greater of each two
/// numbers. Where the first is past the last there are none.
#[derive(Clone, Copy, Debug)]
pub(crate) struct Touched {
    // how far the first is before the last number
    before: u16,
    last: u16,
}

impl Model for Touched {
    ghost use Rattle.std.specs.Prelude.{Option, ◌-◌};
    ghost use Rattle.world.specs.declared.settings.Columns.{Columns};
    ghost use Rattle.grids.specs.Touches.{AreEnds, before_in, columns_in, last_in};
    ghost use Rattle.grids.specs.steps.Ends.{before-back, last-back};

    ghost Value = { Option Columns };

    ghost view = { λ t. columns_in t.before t.last };

    ghost invariant = { λ t. AreEnds t.before t.last };

    ghost inverse = { λ columns. record { before = before_in columns; last = last_in columns } };

    ghost inverse_ok = { λ t h i. record { before = before-back t.before t.last h i; last = last-back t.before t.last h i } };
}

impl Touched {
    /// None.
    pub(crate) fn none() -> Touched
        ensures { result ≡ None }
    {
        Touched { before: 0, last: 0 }
    }

    /// The columns, if there are any.
    pub(crate) fn columns(self) -> Option<Columns>
        ensures { result ≡ self }
    {
        let first = u16::MAX - self.before;
        if self.last < first {
            None
        } else {
            Some(Columns {
                first,
                last: self.last,
            })
        }
    }

    /// These columns, those from `first` to `last`, and all between them.
    pub(crate) fn join(self, first: u16, last: u16) -> Touched
        requires { first ≤ last }
        ensures { result ≡ joined_columns self first last }
    {
        Touched {
            before: self.before.max(u16::MAX - first),
            last: self.last.max(last),
        }
    }
}
