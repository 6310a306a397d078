//! Rectangles of a window.

ghost use Rattle.std.specs.Prelude.{◌≡◌};
ghost use Rattle.grids.specs.{frame_of_two};

use cell::Rect;

/// One place.
pub fn place(y: u16, x: u16) -> Rect
    ensures { result ≡ record { top = y; left = x; bottom = y; right = x } }
{
    Rect {
        top: y,
        left: x,
        bottom: y,
        right: x,
    }
}

/// The smallest rectangle that holds two.
pub fn frame_of_two(one: Option<Rect>, other: Option<Rect>) -> Option<Rect>
    ensures { result ≡ frame_of_two one other }
{
    match (one, other) {
        (None, _) => other,
        (Some(_), None) => one,
        (Some(a), Some(b)) => Some(Rect {
            top: a.top.min(b.top),
            left: a.left.min(b.left),
            bottom: a.bottom.max(b.bottom),
            right: a.right.max(b.right),
        }),
    }
}
