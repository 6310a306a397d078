//! Walks through the order.

ghost use Rattle.std.specs.Prelude.{◌≡◌};
ghost use Rattle.stack.specs.{YieldsFirstBy, item_count, above_at, below_at, from_bottom, shown_from, IsThreaded};

use crate::nodes::Nodes;
use cell::WinId;
use std::marker::Model;
use world::PanelId;

/// The visible panels, one after another, each with its window. Contracts see those that are left.
#[derive(Drop)]
pub struct Visible<'a> {
    nodes: &'a Nodes,
    upwards: bool,
    at: u16,
}

impl<'a> Model for Visible<'a> {
    ghost use Rattle.std.specs.Prelude.{List, ℕ};
    ghost use Rattle.stack.specs.Nodes.{IsWay, neighbour_at, shown_from};

    ghost Value = { List (ℕ × ℕ) };

    ghost view = { λ a. shown_from a.nodes.now (neighbour_at a.upwards a.nodes.now) a.at };

    ghost invariant = { λ a. IsWay a.nodes.now (neighbour_at a.upwards a.nodes.now) a.at };
}

impl<'a> Visible<'a> {
    pub(crate) fn from_bottom(nodes: &'a Nodes) -> Visible<'a>
        requires { IsThreaded nodes.now (from_bottom nodes.now) }
        ensures { result ≡ shown_from nodes.now (above_at nodes.now) (above_at nodes.now 0) }
    {
        Visible {
            nodes,
            upwards: true,
            at: nodes.get(0).above,
        }
    }

    pub(crate) fn from_top(nodes: &'a Nodes) -> Visible<'a>
        requires { IsThreaded nodes.now (from_bottom nodes.now) }
        ensures { result ≡ shown_from nodes.now (below_at nodes.now) (below_at nodes.now 0) }
    {
        Visible {
            nodes,
            upwards: false,
            at: nodes.get(0).below,
        }
    }
}

impl<'a> Iterator for Visible<'a> {
    type Item = (PanelId, WinId);

    ghost next_gives = { YieldsFirstBy (λ shown. (shown.0.0, shown.1.0)) (λ s. s) };

    ghost remaining = { item_count (λ s. s) };

    #[inline(always)]
    fn next(&mut self) -> Option<(PanelId, WinId)> {
        if self.at == 0 {
            return None;
        }
        let node = self.nodes.of_panel(self.at);
        let shown = (PanelId(self.at), node.window.unwrap());
        self.at = if self.upwards { node.above } else { node.below };
        Some(shown)
    }
}
