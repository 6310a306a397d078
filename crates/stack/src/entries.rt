//! Which numbers belong to panels, and the window of each.

ghost use Rattle.std.specs.Prelude.{◌≡◌, ◌==◌, if◌then◌else◌};
ghost use Rattle.stack.specs.{ℕ, None, Some, IfSome, MatchOption, OnOk, OnErr, is_some, false, ⊤, result_err, first_of, is_in_panel, is_hidden, new_panel_number, panel_number, panel_tests};
ghost use Rattle.stack.specs.{visible_tests, window_at, IsPanel, panels, table_of, IsPanelTable, Entered, IsFree, NodeMade};

use crate::nodes::{Node, Nodes};
use cell::{MOST_PANELS, Refusal, WinId};
use std::alloc::AllocError;
use world::PanelId;

/// Tests that there is such a panel.
pub fn require_panel(nodes: &Nodes, panel: PanelId) -> Result<(), Refusal>
    requires { IsPanelTable nodes.now }
    ensures refused { result_err result ≡ first_of (panel_tests (panels (table_of nodes.now)) panel.0) }
    ensures panel { OnOk result (IsPanel nodes.now panel.0) }
{
    if nodes.get(panel.0).window.is_none() {
        return Err(Refusal::NoSuchPanel);
    }
    Ok(())
}

/// Tests that there is such a panel, and that it is visible.
pub fn require_visible(nodes: &Nodes, panel: PanelId) -> Result<(), Refusal>
    requires { IsPanelTable nodes.now }
    ensures refused { result_err result ≡ first_of (visible_tests (panels (table_of nodes.now)) panel.0) }
    ensures panel { OnOk result (IsPanel nodes.now panel.0) }
    ensures shown { OnOk result (is_hidden (panels (table_of nodes.now)) panel.0 ≡ false) }
{
    let node = nodes.get(panel.0);
    if node.window.is_none() {
        return Err(Refusal::NoSuchPanel);
    }
    if node.above == panel.0 {
        return Err(Refusal::Hidden);
    }
    Ok(())
}

/// The panel that a window is in.
pub fn holder(nodes: &Nodes, win: WinId) -> Option<PanelId>
    requires { IsPanelTable nodes.now }
    ensures some { is_some result ≡ is_in_panel (panels (table_of nodes.now)) win.0 }
    ensures panel { IfSome result (λ p. window_at nodes.now p.0 ≡ Some win.0) }
{
    panel_at(nodes.holder(win))
}

/// The panel of a node, but for the end of the order.
pub fn panel_at(node: u16) -> Option<PanelId>
    ensures { panel_number result ≡ (if node == 0 then None else Some node) }
{
    if node == 0 { None } else { Some(PanelId(node)) }
}

/// The least free number from 1 on.
pub fn free_number(nodes: &Nodes) -> Option<u16>
    requires { IsPanelTable nodes.now }
    ensures number { result ≡ new_panel_number (panels (table_of nodes.now)) }
    ensures free { MatchOption result ⊤ (IsFree nodes.now) }
{
    let number = nodes.least_free();
    if number <= MOST_PANELS {
        Some(number)
    } else {
        None
    }
}

/// Gives a number to a panel, which has this window and is in no order yet.
pub fn enter(nodes: &mut Nodes, number: u16, win: WinId) -> Result<(), AllocError>
    requires table { IsPanelTable nodes.old }
    requires free { IsFree nodes.old number }
    requires window { (p : ℕ) → window_at nodes.old p ≡ Some win.0 → ⊥ }
    ensures entered { OnOk result (Entered nodes.old nodes.new number win.0) }
    ensures unchanged { OnErr result (nodes.new ≡ nodes.old) }
{
    make_node(nodes, number)?;
    nodes.set_window(number, Some(win));
    Ok(())
}

/// Makes a node for a free number, if there is none yet.
fn make_node(nodes: &mut Nodes, number: u16) -> Result<(), AllocError>
    requires table { IsPanelTable nodes.old }
    requires free { IsFree nodes.old number }
    ensures made { OnOk result (NodeMade nodes.old nodes.new number) }
    ensures unchanged { OnErr result (nodes.new ≡ nodes.old) }
{
    if usize::from(number) == nodes.len() {
        nodes.push(Node {
            window: None,
            above: number,
            below: number,
        })?;
    }
    Ok(())
}
