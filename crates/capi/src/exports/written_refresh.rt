//! The calls that refresh, and the one that sets the colours of a pair. Written by tools/calls from calls.table.

ghost use Rattle.world.specs.declared.call.Call.{Call};
ghost use Rattle.world.specs.declared.call.Refresh.{Refresh};
ghost use Rattle.capi.specs.Called.{Called};
ghost use Rattle.capi.specs.Numbers.{saturated, window_of};

use crate::answer::Answer;
use crate::c_screen::Outlet;
use crate::handle::Handle;
use crate::number::{saturated, window_of};
use desk::Sink;
use std::alloc::Global;
use world::{Call, Refresh};

/// Takes what is touched of a window into the virtual screen, at the window's place, with its cursor. Then no place of
/// it is touched; and if it asked for a clear screen, the virtual screen asks for it instead.
#[rattlefmt::skip]
#[unsafe(no_mangle)]
pub extern "C" fn curspan_wnoutrefresh(alloc: Global, screen: &mut Handle, win: u32) -> Answer
    ensures { Called ⟦<Outlet as Sink>⟧ screen.old.value (Call.Refresh (Refresh.Noutrefresh (window_of win))) result
        screen.new.value }
{
    screen.call(alloc, &Call::Refresh(Refresh::Noutrefresh { win: window_of(win) }))
}

/// Takes the cells of a pad from line `pminrow` and column `pmincol` on into the lines from `sminrow` to `smaxrow` and
/// the columns from `smincol` to `smaxcol` of the virtual screen, all inclusive, whether they are touched or not. The
/// cursor stays where it is. Then those lines of the pad are untouched, also beside the rectangle; and if the pad asked
/// for a clear screen, the virtual screen asks for it instead.
#[rattlefmt::skip]
#[unsafe(no_mangle)]
pub extern "C" fn curspan_pnoutrefresh(alloc: Global, screen: &mut Handle, pad: u32, pminrow: u32, pmincol: u32,
    sminrow: u32, smincol: u32, smaxrow: u32, smaxcol: u32) -> Answer
    ensures { Called ⟦<Outlet as Sink>⟧ screen.old.value (Call.Refresh (Refresh.Pnoutrefresh (window_of pad) (saturated
        pminrow) (saturated pmincol) (saturated sminrow) (saturated smincol) (saturated smaxrow) (saturated smaxcol)))
        result screen.new.value }
{
    screen.call(alloc, &Call::Refresh(Refresh::Pnoutrefresh { pad: window_of(pad), pminrow: saturated(pminrow),
        pmincol: saturated(pmincol), sminrow: saturated(sminrow), smincol: saturated(smincol),
        smaxrow: saturated(smaxrow), smaxcol: saturated(smaxcol) }))
}

/// Takes the picture of windows and panels into the virtual screen, with the cursor of the top visible panel's window,
/// or else of the standard screen. It answers how many cells it read.
#[unsafe(no_mangle)]
pub extern "C" fn curspan_update_panels(alloc: Global, screen: &mut Handle) -> Answer
    ensures { Called ⟦<Outlet as Sink>⟧ screen.old.value (Call.Refresh Refresh.UpdatePanels) result screen.new.value }
{
    screen.call(alloc, &Call::Refresh(Refresh::UpdatePanels))
}

/// Sends the bytes that show the virtual screen on the terminal: little more than what changed, or all of it after a
/// clear. It answers how many they are.
#[unsafe(no_mangle)]
pub extern "C" fn curspan_doupdate(alloc: Global, screen: &mut Handle) -> Answer
    ensures { Called ⟦<Outlet as Sink>⟧ screen.old.value (Call.Refresh Refresh.Doupdate) result screen.new.value }
{
    screen.call(alloc, &Call::Refresh(Refresh::Doupdate))
}

/// Gives a colour pair a foreground and a background: 0 black, 1 red, 2 green, 3 yellow, 4 blue, 5 magenta, 6 cyan, 7
/// white. What was written in the pair changes in the next picture.
#[rattlefmt::skip]
#[unsafe(no_mangle)]
pub extern "C" fn curspan_init_pair(alloc: Global, screen: &mut Handle, pair: u32, foreground: u32, background: u32) ->
    Answer
    ensures { Called ⟦<Outlet as Sink>⟧ screen.old.value (Call.Refresh (Refresh.InitPair (saturated pair) (saturated
        foreground) (saturated background))) result screen.new.value }
{
    screen.call(alloc, &Call::Refresh(Refresh::InitPair { pair: saturated(pair), foreground: saturated(foreground),
        background: saturated(background) }))
}
