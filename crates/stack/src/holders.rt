//! Which panel each window is in.

ghost use Rattle.std.specs.Prelude.{◌≡◌, ◌<◌, ◌≤◌};
ghost use Rattle.stack.specs.{ℕ, length, OnOk, option_map, holder_at, held_by, window_limit};

use cell::{MOST_WINDOWS, WinId};
use std::alloc::{AllocError, Global};
use std::marker::Model;

/// The panel of each number that a window of a screen can have, 0 where it is in none. It takes no memory as long as no
/// panel was made, and with the first the memory for all, since a panel can be given another window later, which takes
/// none.
#[derive(Drop)]
pub struct Holders {
    panels: Vec<u16>,
}

impl Model for Holders {
    ghost use Rattle.std.specs.Prelude.{List, ℕ};

    ghost Value = { List ℕ };

    ghost view = { λ a. a.panels.items };
}

impl Holders {
    pub fn new(alloc: Global) -> Holders
        ensures { (w : ℕ) → holder_at result w ≡ 0 }
    {
        Holders {
            panels: Vec::new(alloc),
        }
    }

    pub fn get(&self, win: WinId) -> u16
        ensures { result ≡ holder_at self.now win.0 }
    {
        match self.panels.get(usize::from(win.0)) {
            Some(panel) => *panel,
            None => 0,
        }
    }

    /// Puts a window, if there is one, into a panel. A number that no window of a screen has isn't kept.
    pub fn set(&mut self, win: Option<WinId>, panel: u16)
        requires { window_limit ≤ length self.old }
        ensures len { length self.new ≡ length self.old }
        ensures panel { (w : ℕ) → w < window_limit → holder_at self.new w ≡ held_by (option_map (λ u. u.0) win) panel (holder_at self.old) w }
    {
        if let Some(win) = win {
            let at = usize::from(win.0);
            if at < self.panels.len() {
                self.panels[at] = panel;
            }
        }
    }

    /// Makes room for all windows of a screen.
    pub fn grow(&mut self) -> Result<(), AllocError>
        ensures room { OnOk result (window_limit ≤ length self.new) }
        ensures kept { length self.old ≤ length self.new }
        ensures same { (w : ℕ) → holder_at self.new w ≡ holder_at self.old w }
    {
        let windows = usize::from(MOST_WINDOWS) + 1;
        if self.panels.len() < windows {
            self.panels.resize(windows, 0)?;
        }
        Ok(())
    }
}
