//! The calls that make panels, delete them and change their order.

ghost use Rattle.stack.specs.{its_panel, no_answer, new_panel_tests, panel_tests, replace_panel_tests, visible_tests, Stacking, Arranged, panels};

use crate::entries::{enter, free_number, holder, require_panel, require_visible};
use crate::links::{move_to_bottom, move_to_top, put_on_top, take_out};
use crate::table::Stack;
use cell::{Refusal, WinId};
use world::PanelId;

#[tactic(auto, using(crate::proofs::Tables::sound_shown))]
impl Stack {
    /// Puts a window into a new panel, visible on top. The number is the least free one from 1 on.
    ///
    /// # Errors
    /// `InPanel`, `TooMany`, `NoMemory`.
    pub fn new_panel(&mut self, win: WinId) -> Result<PanelId, Refusal>
        ensures { Arranged its_panel (new_panel_tests (panels self.old) win.0) self.old (Stacking.NewPanel win) result self.new }
    {
        if holder(&self.nodes, win).is_some() {
            return Err(Refusal::InPanel);
        }
        let number = free_number(&self.nodes).ok_or(Refusal::TooMany)?;
        enter(&mut self.nodes, number, win)?;
        put_on_top(&mut self.nodes, number);
        Ok(PanelId(number))
    }

    /// Deletes a panel. Its number is free, and its window in no panel any more.
    ///
    /// # Errors
    /// `NoSuchPanel`.
    pub fn del(&mut self, panel: PanelId) -> Result<(), Refusal>
        ensures { Arranged no_answer (panel_tests (panels self.old) panel.0) self.old (Stacking.DelPanel panel) result self.new }
    {
        require_panel(&self.nodes, panel)?;
        take_out(&mut self.nodes, panel.0);
        self.nodes.set_window(panel.0, None);
        Ok(())
    }

    /// Puts a panel on top, whether it was hidden or visible.
    ///
    /// # Errors
    /// `NoSuchPanel`.
    pub fn show(&mut self, panel: PanelId) -> Result<(), Refusal>
        ensures { Arranged no_answer (panel_tests (panels self.old) panel.0) self.old (Stacking.ShowPanel panel) result self.new }
    {
        require_panel(&self.nodes, panel)?;
        move_to_top(&mut self.nodes, panel.0);
        Ok(())
    }

    /// Takes a visible panel out of the order.
    ///
    /// # Errors
    /// `NoSuchPanel`, `Hidden`.
    pub fn hide(&mut self, panel: PanelId) -> Result<(), Refusal>
        ensures { Arranged no_answer (visible_tests (panels self.old) panel.0) self.old (Stacking.HidePanel panel) result self.new }
    {
        require_visible(&self.nodes, panel)?;
        take_out(&mut self.nodes, panel.0);
        Ok(())
    }

    /// Moves a visible panel to the top.
    ///
    /// # Errors
    /// `NoSuchPanel`, `Hidden`.
    pub fn top(&mut self, panel: PanelId) -> Result<(), Refusal>
        ensures { Arranged no_answer (visible_tests (panels self.old) panel.0) self.old (Stacking.TopPanel panel) result self.new }
    {
        require_visible(&self.nodes, panel)?;
        self.show(panel)
    }

    /// Moves a visible panel to the bottom.
    ///
    /// # Errors
    /// `NoSuchPanel`, `Hidden`.
    pub fn bottom(&mut self, panel: PanelId) -> Result<(), Refusal>
        ensures { Arranged no_answer (visible_tests (panels self.old) panel.0) self.old (Stacking.BottomPanel panel) result self.new }
    {
        require_visible(&self.nodes, panel)?;
        move_to_bottom(&mut self.nodes, panel.0);
        Ok(())
    }

    /// Gives a panel another window, which is in no panel. The panel keeps its depth, or stays hidden.
    ///
    /// # Errors
    /// `NoSuchPanel`, `InPanel`.
    pub fn replace(&mut self, panel: PanelId, win: WinId) -> Result<(), Refusal>
        ensures { Arranged no_answer (replace_panel_tests (panels self.old) panel.0 win.0) self.old (Stacking.ReplacePanel panel win) result self.new }
    {
        require_panel(&self.nodes, panel)?;
        if holder(&self.nodes, win).is_some() {
            return Err(Refusal::InPanel);
        }
        self.nodes.set_window(panel.0, Some(win));
        Ok(())
    }
}
