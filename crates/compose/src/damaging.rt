//! What a call damages of the screen: a rectangle for each window that shows what it changed.

ghost use Rattle.std.specs.Prelude.{◌≡◌, ◌<◌, ◌+◌, ◌==◌};
ghost use Rattle.compose.specs.{ℕ, MatchOption, Some, ⊤, length, true, list_any, windows_from_top, frame_shows_at, with_change, windows as windows_of, panels, IsFrameWithin, part_holds, Damages};
ghost use Rattle.compose.specs.{IsGridOf, IsPossible, affected_shows_at, any_shows_at, shows_at};

use cell::{Rect, WinId};
use extents::Extents;
use grids::Grids;
use picture::{following_part, shared_part};
use stack::Stack;

/// What a call affects of what windows show: a rectangle of a window, which it wrote, or a derived window, which it
/// moved in its parent.
#[derive(Clone, Copy)]
pub enum Affected {
    Written { win: WinId, frame: Rect },
    Moved { win: WinId },
}

/// Damages what the standard screen and the windows of visible panels show of what a call affected, if it affected
/// something.
#[inline(always)]
pub(crate) fn damage_affected(
    damage: &mut Extents,
    table: &Grids,
    stack: &Stack,
    affected: Option<Affected>,
)
    requires height { length damage.old ≡ table.now.lines }
    requires possible { MatchOption affected ⊤ (IsPossible (windows_of table.now).window) }
    ensures damaged { Damages table.now.columns (any_shows_at (windows_of table.now).window (panels stack.now) affected) damage.old damage.new }
{
    match affected {
        Some(Affected::Written { win, frame }) => damage_written(damage, table, stack, win, frame),
        Some(Affected::Moved { win }) => {
            damage_visible(damage, table, stack, Affected::Moved { win }, None);
        }
        None => {}
    }
}

/// Damages what the standard screen and the windows of visible panels show of a write: its frame, where it is in the
/// standard screen and no panel is visible.
#[inline(always)]
fn damage_written(damage: &mut Extents, table: &Grids, stack: &Stack, win: WinId, frame: Rect)
    requires height { length damage.old ≡ table.now.lines }
    requires inside { IsPossible (windows_of table.now).window (Affected.Written win frame) }
    ensures damaged { Damages table.now.columns (frame_shows_at (windows_of table.now).window (panels stack.now) win.0 (Some frame)) damage.old damage.new }
{
    if win == WinId::STANDARD && has_no_panel(stack) {
        prove!(table.has_window(WinId::STANDARD));
        damage.rectangle(frame);
    } else {
        damage_shown(damage, table, stack, win, frame);
    }
}

/// Whether no panel is visible.
#[inline(always)]
fn has_no_panel(stack: &Stack) -> bool
    ensures { result ≡ (length (panels stack.now).visible == 0) }
{
    stack.visible_from_top().next().is_none()
}

/// Damages what the standard screen shows of a write, and then what the windows of visible panels show of it.
#[inline(never)]
fn damage_shown(damage: &mut Extents, table: &Grids, stack: &Stack, win: WinId, frame: Rect)
    requires height { length damage.old ≡ table.now.lines }
    requires inside { IsPossible (windows_of table.now).window (Affected.Written win frame) }
    ensures damaged { Damages table.now.columns (frame_shows_at (windows_of table.now).window (panels stack.now) win.0 (Some frame)) damage.old damage.new }
{
    let affected = Affected::Written { win, frame };
    let grid = table.grid(win);
    damage_change(damage, table, affected, grid, WinId::STANDARD);
    damage_visible(damage, table, stack, affected, grid);
}

/// Damages what the windows of visible panels show of a change: of a write, those that have the grid of its window.
#[inline(always)]
fn damage_visible(
    damage: &mut Extents,
    table: &Grids,
    stack: &Stack,
    affected: Affected,
    grid: Option<u16>,
)
    requires height { length damage.old ≡ table.now.lines }
    requires possible { IsPossible (windows_of table.now).window affected }
    requires grid { IsGridOf (windows_of table.now).window affected grid }
    ensures damaged { Damages table.now.columns (λ y x. list_any (affected_shows_at (windows_of table.now).window affected y x)
        (windows_from_top (panels stack.now))) damage.old damage.new }
{
    for (_, u) in stack.visible_from_top() {
        damage_change(damage, table, affected, grid, u);
    }
}

/// Damages what window `u` shows of a change: nothing of a write in another grid.
#[inline(always)]
fn damage_change(
    damage: &mut Extents,
    table: &Grids,
    affected: Affected,
    grid: Option<u16>,
    u: WinId,
)
    requires height { length damage.old ≡ table.now.lines }
    requires possible { IsPossible (windows_of table.now).window affected }
    requires grid { IsGridOf (windows_of table.now).window affected grid }
    ensures damaged { Damages table.now.columns (λ y x. affected_shows_at (windows_of table.now).window affected y x u.0) damage.old damage.new }
{
    match affected {
        Affected::Written { win, frame } => {
            if table.grid(u) == grid {
                damage_shared(damage, table, win, frame, u);
            }
        }
        Affected::Moved { win } => {
            prove!(table.has_window(WinId::STANDARD));
            damage_part(damage, following_part(table, win, u));
        }
    }
}

/// Damages what window `u` shows of a write. It is not inlined, so that a look at windows that show nothing of it needs
/// few registers.
#[inline(never)]
fn damage_shared(damage: &mut Extents, table: &Grids, win: WinId, frame: Rect, u: WinId)
    requires height { length damage.old ≡ table.now.lines }
    requires inside { IsPossible (windows_of table.now).window (Affected.Written win frame) }
    ensures damaged { Damages table.now.columns (λ y x. shows_at (windows_of table.now).window win.0 frame y x u.0) damage.old damage.new }
{
    prove!(table.has_window(WinId::STANDARD));
    damage_part(damage, shared_part(table, win, frame, u));
}

/// Damages a part of the screen, if there is one.
pub(crate) fn damage_part(damage: &mut Extents, part: Option<Rect>)
    requires { MatchOption part ⊤ (λ r. IsFrameWithin (length damage.old) (r.right + 1) r) }
    ensures damaged { (columns : ℕ) → MatchOption part ⊤ (λ r. r.right < columns) → Damages columns (part_holds part) damage.old damage.new }
{
    if let Some(rect) = part {
        damage.rectangle(rect);
    }
}
