//! The calls that make panels, delete them, order them and move them, and those that ask about them. Written by
//! tools/calls from calls.table.

ghost use Rattle.world.specs.declared.call.Call.{Call};
ghost use Rattle.world.specs.declared.call.Stacking.{Stacking};
ghost use Rattle.capi.specs.Called.{Asked, Called};
ghost use Rattle.capi.specs.Numbers.{panel_of, panel_or_none_of, saturated, window_of};

use crate::answer::Answer;
use crate::c_screen::Outlet;
use crate::handle::Handle;
use crate::number::{panel_of, panel_or_none_of, saturated, window_of};
use desk::Sink;
use std::alloc::Global;
use world::{Call, Stacking};

/// Puts a window into a new panel, visible on top. The number is the least free one from 1 on.
#[rattlefmt::skip]
#[unsafe(no_mangle)]
pub extern "C" fn curspan_new_panel(alloc: Global, screen: &mut Handle, win: u32) -> Answer
    ensures { Called ⟦<Outlet as Sink>⟧ screen.old.value (Call.Stacking (Stacking.NewPanel (window_of win))) result
        screen.new.value }
{
    screen.call(alloc, &Call::Stacking(Stacking::NewPanel { win: window_of(win) }))
}

/// Deletes a panel. Its window stays, and is in no panel any more.
#[rattlefmt::skip]
#[unsafe(no_mangle)]
pub extern "C" fn curspan_del_panel(alloc: Global, screen: &mut Handle, panel: u32) -> Answer
    ensures { Called ⟦<Outlet as Sink>⟧ screen.old.value (Call.Stacking (Stacking.DelPanel (panel_of panel))) result
        screen.new.value }
{
    screen.call(alloc, &Call::Stacking(Stacking::DelPanel { panel: panel_of(panel) }))
}

/// Puts a panel on top, whether it was hidden or visible.
#[rattlefmt::skip]
#[unsafe(no_mangle)]
pub extern "C" fn curspan_show_panel(alloc: Global, screen: &mut Handle, panel: u32) -> Answer
    ensures { Called ⟦<Outlet as Sink>⟧ screen.old.value (Call.Stacking (Stacking.ShowPanel (panel_of panel))) result
        screen.new.value }
{
    screen.call(alloc, &Call::Stacking(Stacking::ShowPanel { panel: panel_of(panel) }))
}

/// Takes a visible panel out of the order.
#[rattlefmt::skip]
#[unsafe(no_mangle)]
pub extern "C" fn curspan_hide_panel(alloc: Global, screen: &mut Handle, panel: u32) -> Answer
    ensures { Called ⟦<Outlet as Sink>⟧ screen.old.value (Call.Stacking (Stacking.HidePanel (panel_of panel))) result
        screen.new.value }
{
    screen.call(alloc, &Call::Stacking(Stacking::HidePanel { panel: panel_of(panel) }))
}

/// Moves a visible panel to the top.
#[rattlefmt::skip]
#[unsafe(no_mangle)]
pub extern "C" fn curspan_top_panel(alloc: Global, screen: &mut Handle, panel: u32) -> Answer
    ensures { Called ⟦<Outlet as Sink>⟧ screen.old.value (Call.Stacking (Stacking.TopPanel (panel_of panel))) result
        screen.new.value }
{
    screen.call(alloc, &Call::Stacking(Stacking::TopPanel { panel: panel_of(panel) }))
}

/// Moves a visible panel to the bottom.
#[rattlefmt::skip]
#[unsafe(no_mangle)]
pub extern "C" fn curspan_bottom_panel(alloc: Global, screen: &mut Handle, panel: u32) -> Answer
    ensures { Called ⟦<Outlet as Sink>⟧ screen.old.value (Call.Stacking (Stacking.BottomPanel (panel_of panel))) result
        screen.new.value }
{
    screen.call(alloc, &Call::Stacking(Stacking::BottomPanel { panel: panel_of(panel) }))
}

/// Moves the window of a panel, visible or hidden, to a place of the screen.
#[rattlefmt::skip]
#[unsafe(no_mangle)]
pub extern "C" fn curspan_move_panel(alloc: Global, screen: &mut Handle, panel: u32, y: u32, x: u32) -> Answer
    ensures { Called ⟦<Outlet as Sink>⟧ screen.old.value (Call.Stacking (Stacking.MovePanel (panel_of panel) (saturated
        y) (saturated x))) result screen.new.value }
{
    screen.call(alloc, &Call::Stacking(Stacking::MovePanel { panel: panel_of(panel), y: saturated(y),
        x: saturated(x) }))
}

/// Gives a panel another window. The panel keeps its depth, or stays hidden.
#[rattlefmt::skip]
#[unsafe(no_mangle)]
pub extern "C" fn curspan_replace_panel(alloc: Global, screen: &mut Handle, panel: u32, win: u32) -> Answer
    ensures { Called ⟦<Outlet as Sink>⟧ screen.old.value (Call.Stacking (Stacking.ReplacePanel (panel_of panel)
        (window_of win))) result screen.new.value }
{
    screen.call(alloc, &Call::Stacking(Stacking::ReplacePanel { panel: panel_of(panel), win: window_of(win) }))
}

/// The panel right above a visible one; of none, the bottom one.
#[rattlefmt::skip]
#[unsafe(no_mangle)]
pub extern "C" fn curspan_panel_above(alloc: Global, screen: &mut Handle, panel: u32) -> Answer
    ensures { Asked ⟦<Outlet as Sink>⟧ screen.old.value (Call.Stacking (Stacking.PanelAbove (panel_or_none_of panel)))
        result screen.new.value }
{
    screen.ask(alloc, &Call::Stacking(Stacking::PanelAbove { panel: panel_or_none_of(panel) }))
}

/// The panel right below a visible one; of none, the top one.
#[rattlefmt::skip]
#[unsafe(no_mangle)]
pub extern "C" fn curspan_panel_below(alloc: Global, screen: &mut Handle, panel: u32) -> Answer
    ensures { Asked ⟦<Outlet as Sink>⟧ screen.old.value (Call.Stacking (Stacking.PanelBelow (panel_or_none_of panel)))
        result screen.new.value }
{
    screen.ask(alloc, &Call::Stacking(Stacking::PanelBelow { panel: panel_or_none_of(panel) }))
}

/// The window of a panel.
#[rattlefmt::skip]
#[unsafe(no_mangle)]
pub extern "C" fn curspan_panel_window(alloc: Global, screen: &mut Handle, panel: u32) -> Answer
    ensures { Asked ⟦<Outlet as Sink>⟧ screen.old.value (Call.Stacking (Stacking.PanelWindow (panel_of panel))) result
        screen.new.value }
{
    screen.ask(alloc, &Call::Stacking(Stacking::PanelWindow { panel: panel_of(panel) }))
}

/// Whether a panel is hidden.
#[rattlefmt::skip]
#[unsafe(no_mangle)]
pub extern "C" fn curspan_panel_hidden(alloc: Global, screen: &mut Handle, panel: u32) -> Answer
    ensures { Asked ⟦<Outlet as Sink>⟧ screen.old.value (Call.Stacking (Stacking.PanelHidden (panel_of panel))) result
        screen.new.value }
{
    screen.ask(alloc, &Call::Stacking(Stacking::PanelHidden { panel: panel_of(panel) }))
}
