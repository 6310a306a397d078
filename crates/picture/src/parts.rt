//! Which part of the screen shows something of a window.

ghost use Rattle.std.specs.Prelude.{◌≡◌, ◌≤◌, ◌==◌};
ghost use Rattle.picture.specs.{ℕ, false, All, IsSome, MatchOption, ⊤, list_any, holds, place_of, AreSoundPanels, HasPlace, is_no_pad, follows_at, panel_shows_at, shows_at, windows as windows_of};
ghost use Rattle.picture.specs.{panels, IsFrameWithin, part_holds};

use cell::{Rect, WinId};
use grids::Grids;
use stack::Stack;
use world::PanelId;

/// The rectangle of a window on the screen, if there is such a window and it is no pad.
pub fn window_part(table: &Grids, win: WinId) -> Option<Rect>
    ensures holds { (y x : ℕ) → part_holds result y x ≡ holds (windows_of table.now).window win.0 y x }
    ensures within { MatchOption result ⊤ (IsFrameWithin table.now.lines table.now.columns) }
    ensures place { MatchOption result (is_no_pad (windows_of table.now).window win.0 ≡ false)
        (λ frame. (frame.top, frame.left) ≡ place_of (windows_of table.now).window win.0) }
{
    match (table.getbegyx(win), table.getmaxyx(win)) {
        (Ok((top, left)), Ok((lines, columns))) => Some(Rect {
            top,
            left,
            bottom: top + lines - 1,
            right: left + columns - 1,
        }),
        _ => None,
    }
}

/// The rectangle of the screen on which window `u` shows cells that `win` shows in a rectangle of it.
#[inline(always)]
pub fn shared_part(table: &Grids, win: WinId, frame: Rect, u: WinId) -> Option<Rect>
    requires ordered_lines { frame.top ≤ frame.bottom }
    requires ordered_columns { frame.left ≤ frame.right }
    requires inside { HasPlace (windows_of table.now).window win.0 frame.bottom frame.right }
    ensures holds { (y x : ℕ) → part_holds result y x ≡ shows_at (windows_of table.now).window win.0 frame y x u.0 }
    ensures within { MatchOption result ⊤ (IsFrameWithin table.now.lines table.now.columns) }
{
    if !table.has_window(u) {
        return None;
    }
    let seen = table.seen_in(win, frame, u)?;
    let (top, left) = table.getbegyx(u).ok()?;
    Some(Rect {
        top: top + seen.top,
        left: left + seen.left,
        bottom: top + seen.bottom,
        right: left + seen.right,
    })
}

/// The rectangle of window `u` on the screen, if it is `win` or derives from it.
pub fn following_part(table: &Grids, win: WinId, u: WinId) -> Option<Rect>
    ensures holds { (y x : ℕ) → part_holds result y x ≡ follows_at (windows_of table.now).window win.0 y x u.0 }
    ensures within { MatchOption result ⊤ (IsFrameWithin table.now.lines table.now.columns) }
{
    if table.has_window(u) && (u == win || table.derives(win, u)) {
        window_part(table, u)
    } else {
        None
    }
}

/// The rectangle of a panel's window on the screen, if there is such a panel and it is visible.
pub fn panel_part(table: &Grids, stack: &Stack, panel: PanelId) -> Option<Rect>
    requires { AreSoundPanels (windows_of table.now).window (panels stack.now) }
    ensures holds { (y x : ℕ) → part_holds result y x ≡ panel_shows_at (windows_of table.now).window (panels stack.now) panel.0 y x }
    ensures within { MatchOption result ⊤ (IsFrameWithin table.now.lines table.now.columns) }
{
    if !is_visible(stack, panel) {
        return None;
    }
    match stack.window(panel) {
        Ok(win) => window_part(table, win),
        Err(_) => None,
    }
}

/// Whether a panel is there and visible.
fn is_visible(stack: &Stack, panel: PanelId) -> bool
    requires { All (λ p. IsSome ((panels stack.now).window p)) (panels stack.now).visible }
    ensures { result ≡ list_any (λ q. q == panel.0) (panels stack.now).visible }
{
    match stack.is_hidden(panel) {
        Ok(hidden) => !hidden,
        Err(_) => false,
    }
}
