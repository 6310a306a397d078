//! Changes of the order: two nodes become neighbours, a panel leaves the order, a panel enters it.

ghost use Rattle.std.specs.Prelude.{◌<◌, ◌++◌, ◌∷◌};
ghost use Rattle.stack.specs.{[], length, without, from_bottom, IsThreaded, IsPanel, IsOut, Linked, Reordered};

use crate::nodes::Nodes;

/// Makes two nodes neighbours.
fn link(nodes: &mut Nodes, lower: u16, upper: u16)
    requires lower { lower < length nodes.old }
    requires upper { upper < length nodes.old }
    ensures { Linked nodes.old nodes.new lower upper }
{
    let mut node = nodes.get(lower);
    node.above = upper;
    nodes.set(lower, node);
    let mut node = nodes.get(upper);
    node.below = lower;
    nodes.set(upper, node);
}

/// Takes a panel out of the order, if it is in it.
pub fn take_out(nodes: &mut Nodes, panel: u16)
    requires threaded { IsThreaded nodes.old (from_bottom nodes.old) }
    requires panel { IsPanel nodes.old panel }
    ensures order { Reordered nodes.old nodes.new (without panel (from_bottom nodes.old)) }
    ensures out { IsOut panel (from_bottom nodes.new) }
{
    let node = nodes.get(panel);
    link(nodes, node.below, node.above);
    link(nodes, panel, panel);
}

/// Puts a panel that isn't in the order on top.
pub fn put_on_top(nodes: &mut Nodes, panel: u16)
    requires threaded { IsThreaded nodes.old (from_bottom nodes.old) }
    requires panel { IsPanel nodes.old panel }
    requires out { IsOut panel (from_bottom nodes.old) }
    ensures { Reordered nodes.old nodes.new (from_bottom nodes.old ++ panel ∷ []) }
{
    let top = nodes.get(0).below;
    link(nodes, top, panel);
    link(nodes, panel, 0);
}

/// Puts a panel that isn't in the order at the bottom.
fn put_at_bottom(nodes: &mut Nodes, panel: u16)
    requires threaded { IsThreaded nodes.old (from_bottom nodes.old) }
    requires panel { IsPanel nodes.old panel }
    requires out { IsOut panel (from_bottom nodes.old) }
    ensures { Reordered nodes.old nodes.new (panel ∷ from_bottom nodes.old) }
{
    let bottom = nodes.get(0).above;
    link(nodes, 0, panel);
    link(nodes, panel, bottom);
}

/// Moves a panel to the top, or puts it there if it isn't in the order.
pub fn move_to_top(nodes: &mut Nodes, panel: u16)
    requires threaded { IsThreaded nodes.old (from_bottom nodes.old) }
    requires panel { IsPanel nodes.old panel }
    ensures { Reordered nodes.old nodes.new (without panel (from_bottom nodes.old) ++ panel ∷ []) }
{
    take_out(nodes, panel);
    put_on_top(nodes, panel);
}

/// Moves a panel to the bottom, or puts it there if it isn't in the order.
pub fn move_to_bottom(nodes: &mut Nodes, panel: u16)
    requires threaded { IsThreaded nodes.old (from_bottom nodes.old) }
    requires panel { IsPanel nodes.old panel }
    ensures { Reordered nodes.old nodes.new (panel ∷ without panel (from_bottom nodes.old)) }
{
    take_out(nodes, panel);
    put_at_bottom(nodes, panel);
}
