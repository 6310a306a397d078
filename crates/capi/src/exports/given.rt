//! Cells that C gives.

ghost use Rattle.capi.specs.Giving.{GivenTo, IsFill, IsRow, rect_of};
ghost use Rattle.capi.specs.Numbers.{saturated};

use crate::answer::Answer;
use crate::handle::Handle;
use crate::number::{saturated, window_of};
use desk::Rect;
use std::alloc::Global;

/// Sets the cells of a rectangle of a window or pad to one cell.
#[unsafe(no_mangle)]
pub extern "C" fn curspan_fill(
    alloc: Global,
    screen: &mut Handle,
    win: u32,
    top: u32,
    left: u32,
    bottom: u32,
    right: u32,
    cell: u32,
) -> Answer
    ensures { GivenTo (IsFill (saturated win) (rect_of top left bottom right) cell) screen.old.value result screen.new.value }
{
    let rect = Rect {
        top: saturated(top),
        left: saturated(left),
        bottom: saturated(bottom),
        right: saturated(right),
    };
    screen.fill(alloc, window_of(win), rect, cell)
}

/// Puts cells into line `y` of a window or pad, from column `x` on.
#[unsafe(no_mangle)]
pub extern "C" fn curspan_put(
    alloc: Global,
    screen: &mut Handle,
    win: u32,
    y: u32,
    x: u32,
    cells: &[u32],
) -> Answer
    ensures { GivenTo (IsRow (saturated win) (saturated y) (saturated x) cells.now) screen.old.value result screen.new.value }
{
    screen.give_row(alloc, window_of(win), saturated(y), saturated(x), cells)
}
