//! What a call answers, as the type that all its answers have.

ghost use Rattle.std.specs.Prelude.{◌≡◌};
ghost use Rattle.calls.specs.{IsSomeAnd, its_panel, no_answer, two_numbers, Reply, IsOfKind, Kind, cell, composed, flag, neighbour, new_panel, nothing, number, numbers};

use cell::{Cell, WinId};
use world::{Composed, PanelId, Reply};

/// The type of all answers of one kind.
pub trait Answer {
    ghost kind: { Kind };

    ghost reply_of: { Self → Reply };

    /// What a reply of that kind says.
    fn of(reply: Reply) -> Option<Self>
        requires { IsOfKind kind reply }
        ensures { IsSomeAnd result (λ answer. reply ≡ reply_of answer) };
}

impl Answer for () {
    ghost kind = { nothing };

    ghost reply_of = { no_answer };

    fn of(reply: Reply) -> Option<()> {
        match reply {
            Reply::Nothing => Some(()),
            _ => None,
        }
    }
}

/// The number of a window.
impl Answer for WinId {
    ghost kind = { number };

    ghost reply_of = { Reply.Number };

    fn of(reply: Reply) -> Option<WinId> {
        match reply {
            Reply::Number(win) => Some(win),
            _ => None,
        }
    }
}

impl Answer for (u16, u16) {
    ghost kind = { numbers };

    ghost reply_of = { two_numbers };

    fn of(reply: Reply) -> Option<(u16, u16)> {
        match reply {
            Reply::TwoNumbers(first, second) => Some((first, second)),
            _ => None,
        }
    }
}

impl Answer for Cell {
    ghost kind = { cell };

    ghost reply_of = { Reply.Cell };

    fn of(reply: Reply) -> Option<Cell> {
        match reply {
            Reply::Cell(cell) => Some(cell),
            _ => None,
        }
    }
}

/// Yes or no.
impl Answer for bool {
    ghost kind = { flag };

    ghost reply_of = { Reply.Flag };

    fn of(reply: Reply) -> Option<bool> {
        match reply {
            Reply::Flag(flag) => Some(flag),
            _ => None,
        }
    }
}

/// A new panel.
impl Answer for PanelId {
    ghost kind = { new_panel };

    ghost reply_of = { its_panel };

    fn of(reply: Reply) -> Option<PanelId> {
        match reply {
            Reply::Panel(panel) => panel,
            _ => None,
        }
    }
}

/// A panel's neighbour, if it has one.
impl Answer for Option<PanelId> {
    ghost kind = { neighbour };

    ghost reply_of = { Reply.Panel };

    fn of(reply: Reply) -> Option<Option<PanelId>> {
        match reply {
            Reply::Panel(panel) => Some(panel),
            _ => None,
        }
    }
}

impl Answer for Composed {
    ghost kind = { composed };

    ghost reply_of = { Reply.Composed };

    fn of(reply: Reply) -> Option<Composed> {
        match reply {
            Reply::Composed(composed) => Some(composed),
            _ => None,
        }
    }
}
