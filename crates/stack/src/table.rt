//! The panels of a screen.

ghost use Rattle.std.specs.Prelude.{◌≡◌};
ghost use Rattle.stack.specs.{first_panels, panels};

use crate::nodes::Nodes;
use std::alloc::Global;
use std::marker::Model;

/// Panels by number, each with its window. The visible ones are in one order of depth, the hidden ones outside it.
#[derive(Drop)]
pub struct Stack {
    pub(crate) nodes: Nodes,
}

impl Model for Stack {
    ghost use Rattle.stack.specs.Tables.{PanelTable, table_of, IsPanelTable};

    ghost Value = { PanelTable };

    ghost view = { λ a. table_of a.nodes };

    ghost invariant = { λ a. IsPanelTable a.nodes };
}

impl Stack {
    /// A stack of no panels. It takes no memory.
    pub fn new(alloc: Global) -> Stack
        ensures { panels result ≡ first_panels }
    {
        Stack {
            nodes: Nodes::new(alloc),
        }
    }
}
