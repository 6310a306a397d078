//! The calls for which windows and panels have to be looked at together.

ghost use Rattle.std.specs.Prelude.{◌≡◌};
ghost use Rattle.compose.specs.{result_err, first_of, is_in_panel, its_panel, no_answer, AreSoundPanels, window_tests, making_change, making_refusal, Making, Stacking, Changed, windows as windows_of};
ghost use Rattle.compose.specs.{panels, Ordered};

use cell::{Refusal, WinId};
use grids::Grids;
use stack::Stack;
use world::PanelId;

/// Puts a window into a new panel, visible on top. The number is the least free one from 1 on.
///
/// # Errors
/// `NoSuchWindow`, `StandardScreen`, `IsPad`, `InPanel`, `TooMany`, `NoMemory`.
pub(crate) fn new_panel(table: &Grids, stack: &mut Stack, win: WinId) -> Result<PanelId, Refusal>
    ensures { Ordered its_panel table.now stack.old (Stacking.NewPanel win) result table.now stack.new }
{
    require_window(table, win)?;
    stack.new_panel(win)
}

/// Gives a panel another window. The panel keeps its depth, or stays hidden.
///
/// # Errors
/// `NoSuchPanel`, `NoSuchWindow`, `StandardScreen`, `IsPad`, `InPanel`.
pub(crate) fn replace_panel(
    table: &Grids,
    stack: &mut Stack,
    panel: PanelId,
    win: WinId,
) -> Result<(), Refusal>
    ensures { Ordered no_answer table.now stack.old (Stacking.ReplacePanel panel win) result table.now stack.new }
{
    stack.window(panel)?;
    require_window(table, win)?;
    stack.replace(panel, win)
}

/// Moves the window of a panel, visible or hidden, to a place of the screen.
///
/// # Errors
/// `NoSuchPanel`, `OffScreen`.
pub(crate) fn move_panel(
    table: &mut Grids,
    stack: &Stack,
    panel: PanelId,
    y: u16,
    x: u16,
) -> Result<(), Refusal>
    requires { AreSoundPanels (windows_of table.old).window (panels stack.now) }
    ensures { Ordered no_answer table.old stack.now (Stacking.MovePanel panel y x) result table.new stack.now }
{
    prove!(table.has_window(WinId::STANDARD));
    let win = stack.window(panel)?;
    table.mvwin(win, y, x)
}

/// Moves a window that is in no panel to a place of the screen.
///
/// # Errors
/// `NoSuchWindow`, `StandardScreen`, `IsPad`, `InPanel`, `OffScreen`.
pub(crate) fn move_window(
    table: &mut Grids,
    stack: &Stack,
    win: WinId,
    y: u16,
    x: u16,
) -> Result<(), Refusal>
    requires { AreSoundPanels (windows_of table.old).window (panels stack.now) }
    ensures { Changed no_answer table.old (making_refusal (windows_of table.old) (is_in_panel (panels stack.now)) (Making.Mvwin win y x))
        (making_change (windows_of table.old) (Making.Mvwin win y x)) result table.new }
{
    prove!(table.has_window(WinId::STANDARD));
    if !table.has_window(win) {
        return Err(Refusal::NoSuchWindow);
    }
    // No panel has the standard screen or a pad, so what refuses these may come later.
    if stack.panel_of(win).is_some() {
        return Err(Refusal::InPanel);
    }
    table.mvwin(win, y, x)
}

/// Deletes a window or pad that is in no panel.
///
/// # Errors
/// `NoSuchWindow`, `StandardScreen`, `InPanel`, `HasDerived`.
pub(crate) fn delete_window(table: &mut Grids, stack: &Stack, win: WinId) -> Result<(), Refusal>
    requires { AreSoundPanels (windows_of table.old).window (panels stack.now) }
    ensures { Changed no_answer table.old (making_refusal (windows_of table.old) (is_in_panel (panels stack.now)) (Making.Delwin win))
        (making_change (windows_of table.old) (Making.Delwin win)) result table.new }
{
    prove!(table.has_window(WinId::STANDARD));
    if !table.has_window(win) {
        return Err(Refusal::NoSuchWindow);
    }
    // No panel has the standard screen, so what refuses it may come later.
    if stack.panel_of(win).is_some() {
        return Err(Refusal::InPanel);
    }
    table.delwin(win)
}

/// Tests that there is such a window, and that it may be in a panel.
fn require_window(table: &Grids, win: WinId) -> Result<(), Refusal>
    ensures { result_err result ≡ first_of (window_tests (windows_of table.now).window win.0) }
{
    if !table.has_window(win) {
        return Err(Refusal::NoSuchWindow);
    }
    if win == WinId::STANDARD {
        return Err(Refusal::StandardScreen);
    }
    table.getbegyx(win)?;
    Ok(())
}
