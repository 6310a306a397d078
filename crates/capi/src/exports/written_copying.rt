//! The calls that copy cells from window to window, and those on what is touched of a window. Written by tools/calls
//! from calls.table.

ghost use Rattle.world.specs.declared.call.Call.{Call};
ghost use Rattle.world.specs.declared.call.Copying.{Copying};
ghost use Rattle.capi.specs.Called.{Asked, Called};
ghost use Rattle.capi.specs.Numbers.{saturated, window_of};

use crate::answer::Answer;
use crate::c_screen::Outlet;
use crate::handle::Handle;
use crate::number::{saturated, window_of};
use desk::Sink;
use std::alloc::Global;
use world::{Call, Copying};

/// Copies the cells of `src` that aren't spaces to `dst`, at the places of the screen that both cover.
#[rattlefmt::skip]
#[unsafe(no_mangle)]
pub extern "C" fn curspan_overlay(alloc: Global, screen: &mut Handle, src: u32, dst: u32) -> Answer
    ensures { Called ⟦<Outlet as Sink>⟧ screen.old.value (Call.Copying (Copying.Overlay (window_of src) (window_of
        dst))) result screen.new.value }
{
    screen.call(alloc, &Call::Copying(Copying::Overlay { src: window_of(src), dst: window_of(dst) }))
}

/// Copies all cells of `src` to `dst`, at the places of the screen that both cover.
#[rattlefmt::skip]
#[unsafe(no_mangle)]
pub extern "C" fn curspan_overwrite(alloc: Global, screen: &mut Handle, src: u32, dst: u32) -> Answer
    ensures { Called ⟦<Outlet as Sink>⟧ screen.old.value (Call.Copying (Copying.Overwrite (window_of src) (window_of
        dst))) result screen.new.value }
{
    screen.call(alloc, &Call::Copying(Copying::Overwrite { src: window_of(src), dst: window_of(dst) }))
}

/// Copies the cells of `src` from line `sminrow` and column `smincol` on to the lines from `dminrow` to `dmaxrow` and
/// the columns from `dmincol` to `dmaxcol` of `dst`, all inclusive; if `overlay` is set, spaces are left out. Windows
/// and pads may be mixed.
#[rattlefmt::skip]
#[unsafe(no_mangle)]
pub extern "C" fn curspan_copywin(alloc: Global, screen: &mut Handle, src: u32, dst: u32, sminrow: u32, smincol: u32,
    dminrow: u32, dmincol: u32, dmaxrow: u32, dmaxcol: u32, overlay: bool) -> Answer
    ensures { Called ⟦<Outlet as Sink>⟧ screen.old.value (Call.Copying (Copying.Copywin (window_of src) (window_of dst)
        (saturated sminrow) (saturated smincol) (saturated dminrow) (saturated dmincol) (saturated dmaxrow) (saturated
        dmaxcol) overlay)) result screen.new.value }
{
    screen.call(alloc, &Call::Copying(Copying::Copywin { src: window_of(src), dst: window_of(dst),
        sminrow: saturated(sminrow), smincol: saturated(smincol), dminrow: saturated(dminrow),
        dmincol: saturated(dmincol), dmaxrow: saturated(dmaxrow), dmaxcol: saturated(dmaxcol), overlay }))
}

/// Touches all of a window, as if it had been written.
#[rattlefmt::skip]
#[unsafe(no_mangle)]
pub extern "C" fn curspan_touchwin(alloc: Global, screen: &mut Handle, win: u32) -> Answer
    ensures { Called ⟦<Outlet as Sink>⟧ screen.old.value (Call.Copying (Copying.Touchwin (window_of win))) result
        screen.new.value }
{
    screen.call(alloc, &Call::Copying(Copying::Touchwin { win: window_of(win) }))
}

/// Untouches all of a window.
#[rattlefmt::skip]
#[unsafe(no_mangle)]
pub extern "C" fn curspan_untouchwin(alloc: Global, screen: &mut Handle, win: u32) -> Answer
    ensures { Called ⟦<Outlet as Sink>⟧ screen.old.value (Call.Copying (Copying.Untouchwin (window_of win))) result
        screen.new.value }
{
    screen.call(alloc, &Call::Copying(Copying::Untouchwin { win: window_of(win) }))
}

/// Touches all of `n` lines from line `y` on.
#[rattlefmt::skip]
#[unsafe(no_mangle)]
pub extern "C" fn curspan_touchline(alloc: Global, screen: &mut Handle, win: u32, y: u32, n: u32) -> Answer
    ensures { Called ⟦<Outlet as Sink>⟧ screen.old.value (Call.Copying (Copying.Touchline (window_of win) (saturated y)
        (saturated n))) result screen.new.value }
{
    screen.call(alloc, &Call::Copying(Copying::Touchline { win: window_of(win), y: saturated(y), n: saturated(n) }))
}

/// Touches all of `n` lines from line `y` on, or untouches them if `flag` is not set.
#[rattlefmt::skip]
#[unsafe(no_mangle)]
pub extern "C" fn curspan_wtouchln(alloc: Global, screen: &mut Handle, win: u32, y: u32, n: u32, flag: bool) -> Answer
    ensures { Called ⟦<Outlet as Sink>⟧ screen.old.value (Call.Copying (Copying.Touchln (window_of win) (saturated y)
        (saturated n) flag)) result screen.new.value }
{
    screen.call(alloc, &Call::Copying(Copying::Touchln { win: window_of(win), y: saturated(y), n: saturated(n), flag }))
}

/// Touches, in each ancestor of a window, the places that show a touched cell of the window.
#[rattlefmt::skip]
#[unsafe(no_mangle)]
pub extern "C" fn curspan_wsyncup(alloc: Global, screen: &mut Handle, win: u32) -> Answer
    ensures { Called ⟦<Outlet as Sink>⟧ screen.old.value (Call.Copying (Copying.Syncup (window_of win))) result
        screen.new.value }
{
    screen.call(alloc, &Call::Copying(Copying::Syncup { win: window_of(win) }))
}

/// Touches, in a window, the places that show a touched cell of an ancestor.
#[rattlefmt::skip]
#[unsafe(no_mangle)]
pub extern "C" fn curspan_wsyncdown(alloc: Global, screen: &mut Handle, win: u32) -> Answer
    ensures { Called ⟦<Outlet as Sink>⟧ screen.old.value (Call.Copying (Copying.Syncdown (window_of win))) result
        screen.new.value }
{
    screen.call(alloc, &Call::Copying(Copying::Syncdown { win: window_of(win) }))
}

/// Whether line `y` of a window is touched.
#[rattlefmt::skip]
#[unsafe(no_mangle)]
pub extern "C" fn curspan_is_linetouched(alloc: Global, screen: &mut Handle, win: u32, y: u32) -> Answer
    ensures { Asked ⟦<Outlet as Sink>⟧ screen.old.value (Call.Copying (Copying.IsLinetouched (window_of win) (saturated
        y))) result screen.new.value }
{
    screen.ask(alloc, &Call::Copying(Copying::IsLinetouched { win: window_of(win), y: saturated(y) }))
}

/// Whether some line of a window is touched.
#[rattlefmt::skip]
#[unsafe(no_mangle)]
pub extern "C" fn curspan_is_wintouched(alloc: Global, screen: &mut Handle, win: u32) -> Answer
    ensures { Asked ⟦<Outlet as Sink>⟧ screen.old.value (Call.Copying (Copying.IsWintouched (window_of win))) result
        screen.new.value }
{
    screen.ask(alloc, &Call::Copying(Copying::IsWintouched { win: window_of(win) }))
}
