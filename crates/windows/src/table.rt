//! The windows and pads of a screen.

ghost use Rattle.std.specs.Prelude.{◌≡◌};
ghost use Rattle.windows.specs.{IfOk, RefusedBy, AreSoundWindows, first_world, new_refusal, windows};

use cell::Refusal;
use grids::Grids;
use std::alloc::Global;

/// A screen's windows and pads, with the calls that write in them.
#[derive(Drop)]
pub struct Windows {
    /// Which windows there are. Calls that make, place and delete them, and most that ask about them, are the table's.
    pub table: Grids,
}

impl Windows {
    /// A screen of 1 to `LARGEST_SCREEN` lines and columns, with the blank standard screen alone.
    ///
    /// # Errors
    /// `BadSize` for a size out of these limits, `NoMemory`.
    pub fn new(alloc: Global, lines: u16, cols: u16) -> Result<Windows, Refusal>
        ensures refused { RefusedBy (new_refusal lines cols) result }
        ensures made { IfOk result (λ w. windows w.table ≡ (first_world lines cols).windows) }
        ensures sound { IfOk result (λ w. AreSoundWindows (windows w.table)) }
    {
        Ok(Windows {
            table: Grids::new(alloc, lines, cols)?,
        })
    }
}
