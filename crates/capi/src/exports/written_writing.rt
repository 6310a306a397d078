//! The calls that write in a window or pad, or set how it is written in. Written by tools/calls from calls.table.

ghost use Rattle.world.specs.declared.call.Call.{Call};
ghost use Rattle.world.specs.declared.call.Writing.{Writing};
ghost use Rattle.capi.specs.Called.{Called};
ghost use Rattle.capi.specs.Numbers.{saturated, saturated_character, saturated_signed, window_of};
ghost use Rattle.capi.specs.Answers.{attrs_of};

use crate::answer::{Answer, attrs_of};
use crate::c_screen::Outlet;
use crate::handle::Handle;
use crate::number::{saturated, saturated_character, saturated_signed, window_of};
use desk::Sink;
use std::alloc::Global;
use world::{Call, Writing};

/// Moves the cursor to line `y` and column `x`.
#[rattlefmt::skip]
#[unsafe(no_mangle)]
pub extern "C" fn curspan_wmove(alloc: Global, screen: &mut Handle, win: u32, y: u32, x: u32) -> Answer
    ensures { Called ⟦<Outlet as Sink>⟧ screen.old.value (Call.Writing (Writing.Move (window_of win) (saturated y)
        (saturated x))) result screen.new.value }
{
    screen.call(alloc, &Call::Writing(Writing::Move { win: window_of(win), y: saturated(y), x: saturated(x) }))
}

/// Writes a character at the cursor, which advances, from the last column to the next line. Past the last column of the
/// scroll region's last line the region scrolls, if the window may scroll, and else the cursor stays there. A newline
/// (code 10), carriage return (13) or backspace (8) moves the cursor.
#[rattlefmt::skip]
#[unsafe(no_mangle)]
pub extern "C" fn curspan_waddch(alloc: Global, screen: &mut Handle, win: u32, ch: u32) -> Answer
    ensures { Called ⟦<Outlet as Sink>⟧ screen.old.value (Call.Writing (Writing.Addch (window_of win)
        (saturated_character ch))) result screen.new.value }
{
    screen.call(alloc, &Call::Writing(Writing::Addch { win: window_of(win), ch: saturated_character(ch) }))
}

/// Writes the characters of a text in order, each as `waddch` does. No character of a refused text is written.
#[rattlefmt::skip]
#[unsafe(no_mangle)]
pub extern "C" fn curspan_waddstr(alloc: Global, screen: &mut Handle, win: u32, text: &[u8]) -> Answer
    ensures { Called ⟦<Outlet as Sink>⟧ screen.old.value (Call.Writing (Writing.Addstr (window_of win) text.entry))
        result screen.new.value }
{
    screen.call(alloc, &Call::Writing(Writing::Addstr { win: window_of(win), text }))
}

/// Inserts a character at the cursor, which stays: the cells from there on go one column right, and the last is lost.
#[rattlefmt::skip]
#[unsafe(no_mangle)]
pub extern "C" fn curspan_winsch(alloc: Global, screen: &mut Handle, win: u32, ch: u32) -> Answer
    ensures { Called ⟦<Outlet as Sink>⟧ screen.old.value (Call.Writing (Writing.Insch (window_of win)
        (saturated_character ch))) result screen.new.value }
{
    screen.call(alloc, &Call::Writing(Writing::Insch { win: window_of(win), ch: saturated_character(ch) }))
}

/// Deletes the character at the cursor, which stays: the cells after it go one column left, and the last is set to the
/// background.
#[rattlefmt::skip]
#[unsafe(no_mangle)]
pub extern "C" fn curspan_wdelch(alloc: Global, screen: &mut Handle, win: u32) -> Answer
    ensures { Called ⟦<Outlet as Sink>⟧ screen.old.value (Call.Writing (Writing.Delch (window_of win))) result
        screen.new.value }
{
    screen.call(alloc, &Call::Writing(Writing::Delch { win: window_of(win) }))
}

/// Moves the cursor's line and those below down by one, loses the last, and sets the cursor's line to the background.
#[rattlefmt::skip]
#[unsafe(no_mangle)]
pub extern "C" fn curspan_winsertln(alloc: Global, screen: &mut Handle, win: u32) -> Answer
    ensures { Called ⟦<Outlet as Sink>⟧ screen.old.value (Call.Writing (Writing.Insertln (window_of win))) result
        screen.new.value }
{
    screen.call(alloc, &Call::Writing(Writing::Insertln { win: window_of(win) }))
}

/// Moves the lines below the cursor's up by one, and sets the last line to the background.
#[rattlefmt::skip]
#[unsafe(no_mangle)]
pub extern "C" fn curspan_wdeleteln(alloc: Global, screen: &mut Handle, win: u32) -> Answer
    ensures { Called ⟦<Outlet as Sink>⟧ screen.old.value (Call.Writing (Writing.Deleteln (window_of win))) result
        screen.new.value }
{
    screen.call(alloc, &Call::Writing(Writing::Deleteln { win: window_of(win) }))
}

/// Sets all cells to the background, and the cursor to line 0 and column 0.
#[rattlefmt::skip]
#[unsafe(no_mangle)]
pub extern "C" fn curspan_werase(alloc: Global, screen: &mut Handle, win: u32) -> Answer
    ensures { Called ⟦<Outlet as Sink>⟧ screen.old.value (Call.Writing (Writing.Erase (window_of win))) result
        screen.new.value }
{
    screen.call(alloc, &Call::Writing(Writing::Erase { win: window_of(win) }))
}

/// Does as `werase`, and asks for a clear screen where the window is next taken into the virtual screen.
#[rattlefmt::skip]
#[unsafe(no_mangle)]
pub extern "C" fn curspan_wclear(alloc: Global, screen: &mut Handle, win: u32) -> Answer
    ensures { Called ⟦<Outlet as Sink>⟧ screen.old.value (Call.Writing (Writing.Clear (window_of win))) result
        screen.new.value }
{
    screen.call(alloc, &Call::Writing(Writing::Clear { win: window_of(win) }))
}

/// Sets the cells from the cursor to the end of its line to the background.
#[rattlefmt::skip]
#[unsafe(no_mangle)]
pub extern "C" fn curspan_wclrtoeol(alloc: Global, screen: &mut Handle, win: u32) -> Answer
    ensures { Called ⟦<Outlet as Sink>⟧ screen.old.value (Call.Writing (Writing.Clrtoeol (window_of win))) result
        screen.new.value }
{
    screen.call(alloc, &Call::Writing(Writing::Clrtoeol { win: window_of(win) }))
}

/// Sets the cells from the cursor to the end of its line, and all lines below, to the background.
#[rattlefmt::skip]
#[unsafe(no_mangle)]
pub extern "C" fn curspan_wclrtobot(alloc: Global, screen: &mut Handle, win: u32) -> Answer
    ensures { Called ⟦<Outlet as Sink>⟧ screen.old.value (Call.Writing (Writing.Clrtobot (window_of win))) result
        screen.new.value }
{
    screen.call(alloc, &Call::Writing(Writing::Clrtobot { win: window_of(win) }))
}

/// Moves the lines of the scroll region up by `n`, or down by `-n` for a negative one. Those that leave it are lost,
/// and those that come in are set to the background. The cursor stays.
#[rattlefmt::skip]
#[unsafe(no_mangle)]
pub extern "C" fn curspan_wscrl(alloc: Global, screen: &mut Handle, win: u32, n: i32) -> Answer
    ensures { Called ⟦<Outlet as Sink>⟧ screen.old.value (Call.Writing (Writing.Scrl (window_of win) (saturated_signed
        n))) result screen.new.value }
{
    screen.call(alloc, &Call::Writing(Writing::Scrl { win: window_of(win), n: saturated_signed(n) }))
}

/// Sets the scroll region to the lines from `top` to `bottom`, both inclusive.
#[rattlefmt::skip]
#[unsafe(no_mangle)]
pub extern "C" fn curspan_wsetscrreg(alloc: Global, screen: &mut Handle, win: u32, top: u32, bottom: u32) -> Answer
    ensures { Called ⟦<Outlet as Sink>⟧ screen.old.value (Call.Writing (Writing.Setscrreg (window_of win) (saturated
        top) (saturated bottom))) result screen.new.value }
{
    screen.call(alloc, &Call::Writing(Writing::Setscrreg { win: window_of(win), top: saturated(top),
        bottom: saturated(bottom) }))
}

/// Sets whether the window scrolls where the cursor leaves the last line of its region. At first it doesn't.
#[rattlefmt::skip]
#[unsafe(no_mangle)]
pub extern "C" fn curspan_scrollok(alloc: Global, screen: &mut Handle, win: u32, flag: bool) -> Answer
    ensures { Called ⟦<Outlet as Sink>⟧ screen.old.value (Call.Writing (Writing.Scrollok (window_of win) flag)) result
        screen.new.value }
{
    screen.call(alloc, &Call::Writing(Writing::Scrollok { win: window_of(win), flag }))
}

/// Sets whether the window asks for a clear screen where it is next taken into the virtual screen.
#[rattlefmt::skip]
#[unsafe(no_mangle)]
pub extern "C" fn curspan_clearok(alloc: Global, screen: &mut Handle, win: u32, flag: bool) -> Answer
    ensures { Called ⟦<Outlet as Sink>⟧ screen.old.value (Call.Writing (Writing.Clearok (window_of win) flag)) result
        screen.new.value }
{
    screen.call(alloc, &Call::Writing(Writing::Clearok { win: window_of(win), flag }))
}

/// Sets the attributes that written characters get.
#[rattlefmt::skip]
#[unsafe(no_mangle)]
pub extern "C" fn curspan_wattrset(alloc: Global, screen: &mut Handle, win: u32, attrs: u8) -> Answer
    ensures { Called ⟦<Outlet as Sink>⟧ screen.old.value (Call.Writing (Writing.Attrset (window_of win) (attrs_of
        attrs))) result screen.new.value }
{
    screen.call(alloc, &Call::Writing(Writing::Attrset { win: window_of(win), attrs: attrs_of(attrs) }))
}

/// Adds attributes to those that written characters get.
#[rattlefmt::skip]
#[unsafe(no_mangle)]
pub extern "C" fn curspan_wattron(alloc: Global, screen: &mut Handle, win: u32, attrs: u8) -> Answer
    ensures { Called ⟦<Outlet as Sink>⟧ screen.old.value (Call.Writing (Writing.Attron (window_of win) (attrs_of
        attrs))) result screen.new.value }
{
    screen.call(alloc, &Call::Writing(Writing::Attron { win: window_of(win), attrs: attrs_of(attrs) }))
}

/// Takes attributes from those that written characters get.
#[rattlefmt::skip]
#[unsafe(no_mangle)]
pub extern "C" fn curspan_wattroff(alloc: Global, screen: &mut Handle, win: u32, attrs: u8) -> Answer
    ensures { Called ⟦<Outlet as Sink>⟧ screen.old.value (Call.Writing (Writing.Attroff (window_of win) (attrs_of
        attrs))) result screen.new.value }
{
    screen.call(alloc, &Call::Writing(Writing::Attroff { win: window_of(win), attrs: attrs_of(attrs) }))
}

/// Sets the background to a character with attributes, of pair 0. No cell is written.
#[rattlefmt::skip]
#[unsafe(no_mangle)]
pub extern "C" fn curspan_wbkgdset(alloc: Global, screen: &mut Handle, win: u32, attrs: u8, ch: u32) -> Answer
    ensures { Called ⟦<Outlet as Sink>⟧ screen.old.value (Call.Writing (Writing.Bkgdset (window_of win) (attrs_of attrs)
        (saturated_character ch))) result screen.new.value }
{
    screen.call(alloc, &Call::Writing(Writing::Bkgdset { win: window_of(win), attrs: attrs_of(attrs),
        ch: saturated_character(ch) }))
}

/// Sets the colour pair that written characters get.
#[rattlefmt::skip]
#[unsafe(no_mangle)]
pub extern "C" fn curspan_wcolor_set(alloc: Global, screen: &mut Handle, win: u32, pair: u32) -> Answer
    ensures { Called ⟦<Outlet as Sink>⟧ screen.old.value (Call.Writing (Writing.ColorSet (window_of win) (saturated
        pair))) result screen.new.value }
{
    screen.call(alloc, &Call::Writing(Writing::ColorSet { win: window_of(win), pair: saturated(pair) }))
}

/// Sets the colour pair of the background. No cell is written.
#[rattlefmt::skip]
#[unsafe(no_mangle)]
pub extern "C" fn curspan_wbkgdpair(alloc: Global, screen: &mut Handle, win: u32, pair: u32) -> Answer
    ensures { Called ⟦<Outlet as Sink>⟧ screen.old.value (Call.Writing (Writing.Bkgdpair (window_of win) (saturated
        pair))) result screen.new.value }
{
    screen.call(alloc, &Call::Writing(Writing::Bkgdpair { win: window_of(win), pair: saturated(pair) }))
}
