//! Cells that a program gives, with what they damage of the screen.

ghost use Rattle.std.specs.Prelude.{◌≡◌};
ghost use Rattle.compose.specs.{length, first_of, edits, fill_edit, fill_tests, put_edit, put_tests, windows as windows_of, panels, Affects, ChangedDamaging};

use crate::damaging::damage_affected;
use crate::dispatch::Outcome;
use cell::{Rect, Refusal, WinId};
use extents::Extents;
use stack::Stack;
use windows::Windows;
use world::Reply;

/// Sets the cells of a rectangle of a window to one cell, and adds what that damages.
#[tactic(auto, unfolding(crate::specs::steps::Outcomes::Affects))]
pub(crate) fn fill_damaging(
    windows: &mut Windows,
    stack: &Stack,
    damage: &mut Extents,
    win: WinId,
    rect: Rect,
    number: u32,
) -> Result<Reply, Refusal>
    requires height { length damage.old ≡ windows.old.table.lines }
    ensures { ChangedDamaging windows.old.table (panels stack.now) (first_of (fill_tests (windows_of windows.old.table) win.0 rect number))
        (edits (fill_edit win.0 rect number)) damage.old result windows.new.table damage.new }
{
    let outcome = fill(windows, win, rect, number)?;
    damage_affected(damage, &windows.table, stack, outcome.affected);
    Ok(outcome.reply)
}

/// Puts cells into a line of a window, and adds what that damages.
#[tactic(auto, unfolding(crate::specs::steps::Outcomes::Affects))]
pub(crate) fn put_damaging(
    windows: &mut Windows,
    stack: &Stack,
    damage: &mut Extents,
    win: WinId,
    y: u16,
    x: u16,
    numbers: &[u32],
) -> Result<Reply, Refusal>
    requires height { length damage.old ≡ windows.old.table.lines }
    ensures { ChangedDamaging windows.old.table (panels stack.now) (first_of (put_tests (windows_of windows.old.table) win.0 y x numbers.now))
        (edits (put_edit win.0 y x numbers.now)) damage.old result windows.new.table damage.new }
{
    let outcome = put(windows, win, y, x, numbers)?;
    damage_affected(damage, &windows.table, stack, outcome.affected);
    Ok(outcome.reply)
}

/// Sets the cells of a rectangle of a window to one cell.
#[tactic(auto, using(crate::proofs::OutcomeLaws::outcomes))]
fn fill(windows: &mut Windows, win: WinId, rect: Rect, number: u32) -> Result<Outcome, Refusal>
    ensures { Affects windows.old.table (first_of (fill_tests (windows_of windows.old.table) win.0 rect number))
        (edits (fill_edit win.0 rect number)) result windows.new.table }
{
    Outcome::drawing(win, windows.fill(win, rect, number))
}

/// Puts cells into a line of a window.
#[tactic(auto, using(crate::proofs::OutcomeLaws::outcomes))]
fn put(
    windows: &mut Windows,
    win: WinId,
    y: u16,
    x: u16,
    numbers: &[u32],
) -> Result<Outcome, Refusal>
    ensures { Affects windows.old.table (first_of (put_tests (windows_of windows.old.table) win.0 y x numbers.now))
        (edits (put_edit win.0 y x numbers.now)) result windows.new.table }
{
    Outcome::drawing(win, windows.put(win, y, x, numbers))
}
