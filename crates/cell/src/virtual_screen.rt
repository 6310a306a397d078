//! Virtual screens.

ghost use Rattle.std.specs.Prelude.{◌≡◌};
ghost use Rattle.cell.specs.{VirtualScreen as Virtual};

use crate::grid::Grid;
use crate::shown::Shown;

/// What the next `doupdate` shows: a picture, where the cursor is wanted, and whether the terminal is to be cleared
/// first.
pub trait VirtualScreen {
    // The three as one.
    ghost shown: { Self → Virtual };

    /// The picture.
    fn virtual_screen(&self) -> &Grid<Shown>
        ensures { result.now ≡ (shown self.now).picture };

    /// Where the cursor is wanted: its line and its column.
    fn wanted_cursor(&self) -> (u16, u16)
        ensures { result ≡ (shown self.now).cursor };

    /// Whether the terminal is to be cleared first.
    fn clear_wanted(&self) -> bool
        ensures { result ≡ (shown self.now).clear };
}
