//! The settings of a window, and the columns of a line.

ghost use Rattle.std.specs.Prelude.{◌≡◌};
ghost use Rattle.world.specs.{Some, joined_columns};

use cell::{Attr, Cell, PairId};

/// The columns of a line from a first to a last, both inclusive.
#[derive(Clone, Copy, PartialEq, Eq, Debug)]
pub struct Columns {
    pub first: u16,
    pub last: u16,
}

impl Columns {
    /// The least columns that hold these, if there are any, and those from `first` to `last`.
    pub fn join(columns: Option<Columns>, first: u16, last: u16) -> Columns
        ensures { joined_columns columns first last ≡ Some result }
    {
        match columns {
            None => Columns { first, last },
            Some(columns) => Columns {
                first: columns.first.min(first),
                last: columns.last.max(last),
            },
        }
    }
}

/// The settings of a window. The cursor is a line and a column, the region its first and its last line.
#[derive(Clone, Copy, PartialEq, Eq, Debug)]
pub struct Settings {
    pub cursor: (u16, u16),
    pub region: (u16, u16),
    pub attrs: Attr,
    pub background: Cell,
    pub pair: PairId,
    pub scrolling: bool,
    pub clear: bool,
}
