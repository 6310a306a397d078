//! Queries about panels. None changes the stack.

ghost use Rattle.std.specs.Prelude.{◌≡◌, ◌≤◌};
ghost use Rattle.stack.specs.{Some, IfSome, is_some, reverse, length, MOST_PANELS, is_in_panel, is_hidden, panel_above, panel_below, panel_number, IsSoundOrder, Stacking, Asked, AreWithWindows, as_is};
ghost use Rattle.stack.specs.{window_number, panels};

use crate::entries::{holder, panel_at, require_panel, require_visible};
use crate::table::Stack;
use crate::visible::Visible;
use cell::{Refusal, WinId};
use world::PanelId;

#[tactic(auto, using(crate::proofs::Tables::sound_shown))]
impl Stack {
    /// The panel right above a visible one, or without a panel the bottom one.
    ///
    /// # Errors
    /// `NoSuchPanel`, `Hidden`.
    pub fn above(&self, panel: Option<PanelId>) -> Result<Option<PanelId>, Refusal>
        ensures { Asked self.now (Stacking.PanelAbove panel) (panel_above (panels self.now) (panel_number panel)) panel_number result }
    {
        match panel {
            Some(panel) => {
                require_visible(&self.nodes, panel)?;
                Ok(panel_at(self.nodes.get(panel.0).above))
            }
            None => Ok(panel_at(self.nodes.get(0).above)),
        }
    }

    /// The panel right below a visible one, or without a panel the top one.
    ///
    /// # Errors
    /// `NoSuchPanel`, `Hidden`.
    pub fn below(&self, panel: Option<PanelId>) -> Result<Option<PanelId>, Refusal>
        ensures { Asked self.now (Stacking.PanelBelow panel) (panel_below (panels self.now) (panel_number panel)) panel_number result }
    {
        match panel {
            Some(panel) => {
                require_visible(&self.nodes, panel)?;
                Ok(panel_at(self.nodes.get(panel.0).below))
            }
            None => Ok(panel_at(self.nodes.get(0).below)),
        }
    }

    /// The window of a panel.
    ///
    /// # Errors
    /// `NoSuchPanel`.
    pub fn window(&self, panel: PanelId) -> Result<WinId, Refusal>
        ensures { Asked self.now (Stacking.PanelWindow panel) ((panels self.now).window panel.0) window_number result }
    {
        self.nodes.get(panel.0).window.ok_or(Refusal::NoSuchPanel)
    }

    /// Whether a panel is hidden.
    ///
    /// # Errors
    /// `NoSuchPanel`.
    pub fn is_hidden(&self, panel: PanelId) -> Result<bool, Refusal>
        ensures { Asked self.now (Stacking.PanelHidden panel) (is_hidden (panels self.now) panel.0) as_is result }
    {
        require_panel(&self.nodes, panel)?;
        Ok(self.nodes.get(panel.0).above == panel.0)
    }

    /// The panel that a window is in, if it is in one.
    pub fn panel_of(&self, win: WinId) -> Option<PanelId>
        ensures some { is_some result ≡ is_in_panel (panels self.now) win.0 }
        ensures panel { IfSome result (λ p. (panels self.now).window p.0 ≡ Some win.0) }
    {
        holder(&self.nodes, win)
    }

    /// The visible panels from bottom to top, each with its window.
    pub fn visible(&self) -> Visible<'_>
        ensures all { AreWithWindows (panels self.now) (panels self.now).visible result }
        ensures few { length result ≤ MOST_PANELS }
        ensures sound { IsSoundOrder (panels self.now) }
    {
        Visible::from_bottom(&self.nodes)
    }

    /// The visible panels from top to bottom, each with its window.
    #[inline(always)]
    pub fn visible_from_top(&self) -> Visible<'_>
        ensures all { AreWithWindows (panels self.now) (reverse (panels self.now).visible) result }
        ensures few { length result ≤ MOST_PANELS }
        ensures sound { IsSoundOrder (panels self.now) }
    {
        Visible::from_top(&self.nodes)
    }
}
