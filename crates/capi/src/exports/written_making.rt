//! The calls that make windows and pads, delete them, and place them. Written by tools/calls from calls.table.

ghost use Rattle.world.specs.declared.call.Call.{Call};
ghost use Rattle.world.specs.declared.call.Making.{Making};
ghost use Rattle.capi.specs.Called.{Called};
ghost use Rattle.capi.specs.Numbers.{saturated, window_of};

use crate::answer::Answer;
use crate::c_screen::Outlet;
use crate::handle::Handle;
use crate::number::{saturated, window_of};
use desk::Sink;
use std::alloc::Global;
use world::{Call, Making};

/// Makes a window at a place of the screen, with a blank grid of its own. A size of 0 reaches to the edge of the
/// screen.
#[rattlefmt::skip]
#[unsafe(no_mangle)]
pub extern "C" fn curspan_newwin(alloc: Global, screen: &mut Handle, lines: u32, columns: u32, y: u32, x: u32) -> Answer
    ensures { Called ⟦<Outlet as Sink>⟧ screen.old.value (Call.Making (Making.Newwin (saturated lines) (saturated
        columns) (saturated y) (saturated x))) result screen.new.value }
{
    screen.call(alloc, &Call::Making(Making::Newwin { lines: saturated(lines), columns: saturated(columns),
        y: saturated(y), x: saturated(x) }))
}

/// Makes a window that shows the part of a window from a place of the screen on. A size of 0 reaches to the window's
/// edge.
#[rattlefmt::skip]
#[unsafe(no_mangle)]
pub extern "C" fn curspan_subwin(alloc: Global, screen: &mut Handle, win: u32, lines: u32, columns: u32, y: u32, x: u32)
    -> Answer
    ensures { Called ⟦<Outlet as Sink>⟧ screen.old.value (Call.Making (Making.Subwin (window_of win) (saturated lines)
        (saturated columns) (saturated y) (saturated x))) result screen.new.value }
{
    screen.call(alloc, &Call::Making(Making::Subwin { win: window_of(win), lines: saturated(lines),
        columns: saturated(columns), y: saturated(y), x: saturated(x) }))
}

/// Makes a window over the part of a window from a line and a column of it on. They share their cells. A size of 0
/// reaches to its edge.
#[rattlefmt::skip]
#[unsafe(no_mangle)]
pub extern "C" fn curspan_derwin(alloc: Global, screen: &mut Handle, win: u32, lines: u32, columns: u32, y: u32, x: u32)
    -> Answer
    ensures { Called ⟦<Outlet as Sink>⟧ screen.old.value (Call.Making (Making.Derwin (window_of win) (saturated lines)
        (saturated columns) (saturated y) (saturated x))) result screen.new.value }
{
    screen.call(alloc, &Call::Making(Making::Derwin { win: window_of(win), lines: saturated(lines),
        columns: saturated(columns), y: saturated(y), x: saturated(x) }))
}

/// Makes a pad of 1 to 1000 lines and columns, which has no place on the screen, with a blank grid of its own.
#[rattlefmt::skip]
#[unsafe(no_mangle)]
pub extern "C" fn curspan_newpad(alloc: Global, screen: &mut Handle, lines: u32, columns: u32) -> Answer
    ensures { Called ⟦<Outlet as Sink>⟧ screen.old.value (Call.Making (Making.Newpad (saturated lines) (saturated
        columns))) result screen.new.value }
{
    screen.call(alloc, &Call::Making(Making::Newpad { lines: saturated(lines), columns: saturated(columns) }))
}

/// Makes a pad that shows the part of a pad from a line and a column of it on. A size of 0 reaches to its edge.
#[rattlefmt::skip]
#[unsafe(no_mangle)]
pub extern "C" fn curspan_subpad(alloc: Global, screen: &mut Handle, pad: u32, lines: u32, columns: u32, y: u32, x: u32)
    -> Answer
    ensures { Called ⟦<Outlet as Sink>⟧ screen.old.value (Call.Making (Making.Subpad (window_of pad) (saturated lines)
        (saturated columns) (saturated y) (saturated x))) result screen.new.value }
{
    screen.call(alloc, &Call::Making(Making::Subpad { pad: window_of(pad), lines: saturated(lines),
        columns: saturated(columns), y: saturated(y), x: saturated(x) }))
}

/// Deletes a window or pad that is in no panel, and from which none derives. Its number is free then.
#[rattlefmt::skip]
#[unsafe(no_mangle)]
pub extern "C" fn curspan_delwin(alloc: Global, screen: &mut Handle, win: u32) -> Answer
    ensures { Called ⟦<Outlet as Sink>⟧ screen.old.value (Call.Making (Making.Delwin (window_of win))) result
        screen.new.value }
{
    screen.call(alloc, &Call::Making(Making::Delwin { win: window_of(win) }))
}

/// Moves a window that is in no panel to a place of the screen. No other window moves.
#[rattlefmt::skip]
#[unsafe(no_mangle)]
pub extern "C" fn curspan_mvwin(alloc: Global, screen: &mut Handle, win: u32, y: u32, x: u32) -> Answer
    ensures { Called ⟦<Outlet as Sink>⟧ screen.old.value (Call.Making (Making.Mvwin (window_of win) (saturated y)
        (saturated x))) result screen.new.value }
{
    screen.call(alloc, &Call::Making(Making::Mvwin { win: window_of(win), y: saturated(y), x: saturated(x) }))
}

/// Lets a derived window or pad show the part of its parent from another line and column on. It stays where it is on
/// the screen.
#[rattlefmt::skip]
#[unsafe(no_mangle)]
pub extern "C" fn curspan_mvderwin(alloc: Global, screen: &mut Handle, win: u32, y: u32, x: u32) -> Answer
    ensures { Called ⟦<Outlet as Sink>⟧ screen.old.value (Call.Making (Making.Mvderwin (window_of win) (saturated y)
        (saturated x))) result screen.new.value }
{
    screen.call(alloc, &Call::Making(Making::Mvderwin { win: window_of(win), y: saturated(y), x: saturated(x) }))
}
