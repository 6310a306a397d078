//! The nodes of the doubly linked list of the visible panels.

ghost use Rattle.std.specs.Prelude.{◌≡◌, ◌<◌, ◌≤◌, ◌-◌, ◌++◌, ◌∷◌, ◌==◌, if◌then◌else◌};
ghost use Rattle.stack.specs.{[], ℕ, false, true, None, Some, MatchOption, length, slice_set, is_ok, ⊤, option_map, MOST_PANELS, contains, is_taken, no_node, node_at, window_at, window_in};
ghost use Rattle.stack.specs.{IsPanel, Windowed};

use crate::holders::Holders;
use cell::{MOST_PANELS, MOST_WINDOWS, WinId};
use small_set::SmallSet;
use std::alloc::{AllocError, Global};
use std::marker::Model;

/// The window of a panel, and the numbers of the panels right above and below it. A number that is no panel's has no
/// window. The node of a hidden panel names itself as both neighbours.
#[derive(Clone, Copy)]
pub struct Node {
    pub window: Option<WinId>,
    pub above: u16,
    pub below: u16,
}

impl Node {
    pub const NONE: Node = Node {
        window: None,
        above: 0,
        below: 0,
    };
}

/// The nodes by number. Node 0 is the end of the list: above it is the bottom panel, and below it the top one. After it
/// comes a node for each number that a panel has had. No memory is taken until a panel is made.
#[derive(Drop)]
pub struct Nodes {
    end: Node,
    panels: Vec<Node>,
    // Two indexes of the nodes: the numbers of panels, with 0 among them, and the panel of each window.
    numbers: SmallSet,
    holders: Holders,
}

impl Model for Nodes {
    ghost use Rattle.std.specs.Prelude.{List, ◌∷◌};
    ghost use Rattle.stack.specs.Indexes.{IsIndexed};
    ghost use Rattle.stack.specs.declared.nodes.Node.{Node};

    ghost Value = { List Node };

    ghost view = { λ a. a.end ∷ a.panels.items };

    ghost invariant = { λ a. IsIndexed (a.end ∷ a.panels.items) a.numbers a.holders };
}

impl Nodes {
    pub fn new(alloc: Global) -> Nodes
        ensures { result ≡ no_node ∷ [] }
    {
        Nodes {
            end: Node::NONE,
            panels: Vec::new(alloc),
            numbers: no_panel(),
            holders: Holders::new(alloc),
        }
    }

    pub fn len(&self) -> usize
        ensures { result ≡ length self.now }
    {
        self.panels.len() + 1
    }

    /// The node of a number, if there is one.
    pub fn get(&self, at: u16) -> Node
        ensures { result ≡ node_at self.now at }
    {
        if at == 0 {
            return self.end;
        }
        match self.panels.get(usize::from(at) - 1) {
            Some(node) => *node,
            None => Node::NONE,
        }
    }

    /// The node of a panel.
    #[inline(always)]
    pub fn of_panel(&self, at: u16) -> Node
        requires { IsPanel self.now at }
        ensures { result ≡ node_at self.now at }
    {
        self.panels[usize::from(at) - 1]
    }

    /// The panel that a window is in, or 0.
    pub fn holder(&self, win: WinId) -> u16
        ensures panel { 0 < result → window_at self.now result ≡ Some win.0 }
        ensures none { (p : ℕ) → window_at self.now p ≡ Some win.0 → result ≡ p }
    {
        if win.0 <= MOST_WINDOWS {
            self.holders.get(win)
        } else {
            search(&self.panels, win)
        }
    }

    /// The least number from 1 on that no panel has.
    pub fn least_free(&self) -> u16
        ensures free { is_taken result (window_at self.now result) ≡ false }
        ensures taken { (p : ℕ) → p < result → is_taken p (window_at self.now p) ≡ true }
    {
        self.numbers.least_absent()
    }

    /// Gives a node other neighbours.
    pub fn set(&mut self, at: u16, node: Node)
        requires within { at < length self.old }
        requires window { window_in node ≡ window_at self.old at }
        ensures { self.new ≡ slice_set self.old at node }
    {
        if at == 0 {
            self.end = node;
        } else {
            self.panels[usize::from(at) - 1] = node;
        }
    }

    /// Gives a node another window, which is in no panel, or none.
    pub fn set_window(&mut self, at: u16, win: Option<WinId>)
        requires panel { 0 < at }
        requires within { at < length self.old }
        requires free { MatchOption win ⊤ (λ w. (p : ℕ) → window_at self.old p ≡ Some w.0 → ⊥) }
        ensures { Windowed self.old self.new at (option_map (λ w. w.0) win) }
    {
        let mut node = self.get(at);
        self.holders.set(node.window, 0);
        self.holders.set(win, at);
        set_taken(&mut self.numbers, at, win.is_some());
        node.window = win;
        self.panels[usize::from(at) - 1] = node;
    }

    /// Adds a node that no panel has.
    pub fn push(&mut self, node: Node) -> Result<(), AllocError>
        requires few { length self.old ≤ MOST_PANELS }
        requires free { window_in node ≡ None }
        ensures { self.new ≡ (if is_ok result then self.old ++ node ∷ [] else self.old) }
    {
        self.holders.grow()?;
        self.panels.push(node)?;
        Ok(())
    }
}

/// The panel that a window is in, or 0, by a look at each node from 1 on. Only a window with a number that no screen
/// gives is looked for like this.
fn search(panels: &[Node], win: WinId) -> u16
    requires { length panels.now ≤ MOST_PANELS }
    ensures panel { 0 < result → window_at panels.now (result - 1) ≡ Some win.0 }
    ensures none { result ≡ 0 → (k : ℕ) → window_at panels.now k ≡ Some win.0 → ⊥ }
{
    for at in 0..panels.len() {
        if panels[at].window == Some(win) {
            return at as u16 + 1;
        }
    }
    0
}

/// The numbers where there is no panel: 0 alone, which no panel has.
fn no_panel() -> SmallSet
    ensures { (p : ℕ) → contains result p ≡ (p == 0) }
{
    let mut numbers = SmallSet::new();
    numbers.insert(0);
    numbers
}

/// Says whether a panel has a number.
fn set_taken(numbers: &mut SmallSet, number: u16, taken: bool)
    requires { number ≤ MOST_PANELS }
    ensures { (p : ℕ) → contains numbers.new p ≡ (if p == number then taken else contains numbers.old p) }
{
    if taken {
        numbers.insert(number);
    } else {
        numbers.remove(number);
    }
}
