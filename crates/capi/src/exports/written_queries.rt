//! The calls that ask about a window or pad. Written by tools/calls from calls.table.

ghost use Rattle.world.specs.declared.call.Call.{Call};
ghost use Rattle.world.specs.declared.call.Query.{Query};
ghost use Rattle.capi.specs.Called.{Asked};
ghost use Rattle.capi.specs.Numbers.{window_of};

use crate::answer::Answer;
use crate::c_screen::Outlet;
use crate::handle::Handle;
use crate::number::window_of;
use desk::Sink;
use std::alloc::Global;
use world::{Call, Query};

/// The line and the column of the cursor.
#[rattlefmt::skip]
#[unsafe(no_mangle)]
pub extern "C" fn curspan_getyx(alloc: Global, screen: &mut Handle, win: u32) -> Answer
    ensures { Asked ⟦<Outlet as Sink>⟧ screen.old.value (Call.Query (Query.Getyx (window_of win))) result
        screen.new.value }
{
    screen.ask(alloc, &Call::Query(Query::Getyx { win: window_of(win) }))
}

/// The line and the column of the screen where the window begins.
#[rattlefmt::skip]
#[unsafe(no_mangle)]
pub extern "C" fn curspan_getbegyx(alloc: Global, screen: &mut Handle, win: u32) -> Answer
    ensures { Asked ⟦<Outlet as Sink>⟧ screen.old.value (Call.Query (Query.Getbegyx (window_of win))) result
        screen.new.value }
{
    screen.ask(alloc, &Call::Query(Query::Getbegyx { win: window_of(win) }))
}

/// The number of lines, and the number of columns.
#[rattlefmt::skip]
#[unsafe(no_mangle)]
pub extern "C" fn curspan_getmaxyx(alloc: Global, screen: &mut Handle, win: u32) -> Answer
    ensures { Asked ⟦<Outlet as Sink>⟧ screen.old.value (Call.Query (Query.Getmaxyx (window_of win))) result
        screen.new.value }
{
    screen.ask(alloc, &Call::Query(Query::Getmaxyx { win: window_of(win) }))
}

/// The line and the column of the parent where a derived window begins.
#[rattlefmt::skip]
#[unsafe(no_mangle)]
pub extern "C" fn curspan_getparyx(alloc: Global, screen: &mut Handle, win: u32) -> Answer
    ensures { Asked ⟦<Outlet as Sink>⟧ screen.old.value (Call.Query (Query.Getparyx (window_of win))) result
        screen.new.value }
{
    screen.ask(alloc, &Call::Query(Query::Getparyx { win: window_of(win) }))
}

/// The cell at the cursor.
#[rattlefmt::skip]
#[unsafe(no_mangle)]
pub extern "C" fn curspan_winch(alloc: Global, screen: &mut Handle, win: u32) -> Answer
    ensures { Asked ⟦<Outlet as Sink>⟧ screen.old.value (Call.Query (Query.Inch (window_of win))) result
        screen.new.value }
{
    screen.ask(alloc, &Call::Query(Query::Inch { win: window_of(win) }))
}
