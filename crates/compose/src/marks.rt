//! The touched columns and clear flags of the windows that make up the picture.

ghost use Rattle.std.specs.Prelude.{◌≡◌, ◌∷◌};
ghost use Rattle.compose.specs.{list_any, standard_screen, windows_from_top, asks_for_clear, with_unmarked, without_marks, Windows, with_change, windows as windows_of, panels};

use cell::WinId;
use grids::Grids;
use stack::Stack;

/// The marks of windows. It gives no cell of them.
pub(crate) trait Marks {
    // The windows that are marked.
    ghost windows: { Self → Windows };

    /// Untouches all of a window, if there is one, and clears its clear flag. It answers whether the window asked for a
    /// clear screen.
    fn unmark(&mut self, win: WinId) -> bool
        ensures asked { result ≡ asks_for_clear (windows self.old).window win.0 }
        ensures unmarked { windows self.new ≡ record (windows self.old) { window = with_change (windows self.old).window win.0 without_marks } };
}

impl Marks for Grids {
    ghost windows = { windows_of };

    fn unmark(&mut self, win: WinId) -> bool {
        Grids::unmark(self, win)
    }
}

/// Clears the touched columns and clear flags of the standard screen and of the windows of visible panels. It answers
/// whether one of them asked for a clear screen.
pub(crate) fn unmark_composed<M: Marks>(marks: &mut M, stack: &Stack) -> bool
    ensures asked { result ≡ list_any (asks_for_clear (M.windows marks.old).window) (standard_screen ∷ windows_from_top (panels stack.now)) }
    ensures unmarked { M.windows marks.new ≡ record (M.windows marks.old) {
      window = with_unmarked (M.windows marks.old).window
          (standard_screen ∷ windows_from_top (panels stack.now));
    } }
{
    let mut asked = marks.unmark(WinId::STANDARD);
    for (_, win) in stack.visible_from_top() {
        asked |= marks.unmark(win);
    }
    asked
}
