//! Rectangles of a window.

ghost use Rattle.std.specs.Prelude.{◌≡◌, ◌-◌, ◌<◌};

use crate::state::WindowState;
use cell::Rect;

/// The lines from `top` to `bottom`, both inclusive, from a column on.
pub fn lines_from(state: &WindowState, top: u16, bottom: u16, left: u16) -> Rect
    requires { 0 < state.now.columns }
    ensures { result ≡ record { top = top; left = left; bottom = bottom; right = state.now.columns - 1 } }
{
    Rect {
        top,
        left,
        bottom,
        right: state.columns - 1,
    }
}
