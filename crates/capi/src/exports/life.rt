//! Opening a screen, taking its bytes, and closing it.

ghost use Rattle.std.specs.Prelude.{◌≡◌, None};
ghost use Rattle.capi.specs.Lives.{Forgotten, Opened, Taken};
ghost use Rattle.capi.specs.Numbers.{saturated};

use crate::answer::Answer;
use crate::handle::Handle;
use crate::number::saturated;
use raw_box::HoldsBox;
use std::alloc::Global;

/// Puts a blank screen of 1 to 999 lines and columns into a handle, in place of one that was there.
#[unsafe(no_mangle)]
pub extern "C" fn curspan_open(
    alloc: Global,
    screen: &mut Handle,
    lines: u32,
    columns: u32,
) -> Answer
    ensures { Opened (saturated lines) (saturated columns) screen.old.value result screen.new.value }
{
    screen.open(alloc, saturated(lines), saturated(columns))
}

/// Frees the screen of a handle and closes it. A closed one stays closed.
#[unsafe(no_mangle)]
pub extern "C" fn curspan_close(alloc: Global, screen: &mut Handle)
    ensures { screen.new.value ≡ None }
{
    screen.close(alloc);
}

/// Moves the bytes that were sent into a buffer, and answers how many they are. If it is too short, they stay.
#[unsafe(no_mangle)]
pub extern "C" fn curspan_take(alloc: Global, screen: &mut Handle, out: &mut [u8]) -> usize
    ensures { Taken screen.old.value out.old result out.new screen.new.value }
{
    screen.take(alloc, out)
}

/// Forgets what the terminal shows, as after bytes that didn't reach it.
#[unsafe(no_mangle)]
pub extern "C" fn curspan_invalidate(alloc: Global, screen: &mut Handle)
    ensures { Forgotten screen.old.value screen.new.value }
{
    screen.invalidate(alloc);
}
