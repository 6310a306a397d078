//! Calls on windows and panels, each with what it damages of the screen.

ghost use Rattle.std.specs.Prelude.{◌≡◌, ◌==◌};
ghost use Rattle.compose.specs.{ℕ, MatchOption, ⊤, false, length, option_map, option_map_or, is_in_panel, AreSoundPanels, copying_refusal, copying_change, writing_refusal, writing_edit};
ghost use Rattle.compose.specs.{making_refusal, making_change, panel_number, panel_shows_at, edits, Call, windows as windows_of, panels, IsFrameWithin, part_holds, top_window, ChangedDamaging};
ghost use Rattle.compose.specs.{OrderedDamaging};

use crate::damaging::{damage_affected, damage_part};
use crate::dispatch::{arrange, changed_panel, copy, make, named_panel, ordered_panel, write};
use cell::{Rect, Refusal, WinId};
use extents::Extents;
use grids::Grids;
use picture::panel_part;
use stack::Stack;
use windows::Windows;
use world::{Copying, Making, PanelId, Reply, Stacking, Writing};

/// Makes a call that makes, places or deletes a window or pad, and adds what it damages.
#[tactic(auto, unfolding(crate::specs::steps::Outcomes::Affects))]
pub(crate) fn make_damaging(
    table: &mut Grids,
    stack: &Stack,
    damage: &mut Extents,
    making: Making,
) -> Result<Reply, Refusal>
    requires panels { AreSoundPanels (windows_of table.old).window (panels stack.now) }
    requires height { length damage.old ≡ table.old.lines }
    ensures { ChangedDamaging table.old (panels stack.now) (making_refusal (windows_of table.old) (is_in_panel (panels stack.now)) making)
        (making_change (windows_of table.old) making) damage.old result table.new damage.new }
{
    let outcome = make(table, stack, making)?;
    damage_affected(damage, table, stack, outcome.affected);
    Ok(outcome.reply)
}

/// Makes a call that writes in a window, or sets how it is written in, and adds what it damages.
#[inline(always)]
#[tactic(auto, unfolding(crate::specs::steps::Outcomes::Affects))]
pub(crate) fn write_damaging(
    windows: &mut Windows,
    stack: &Stack,
    damage: &mut Extents,
    writing: Writing<'_>,
) -> Result<Reply, Refusal>
    requires height { length damage.old ≡ windows.old.table.lines }
    ensures { ChangedDamaging windows.old.table (panels stack.now) (writing_refusal (windows_of windows.old.table) writing.entry)
        (edits (writing_edit (windows_of windows.old.table) writing.entry)) damage.old result windows.new.table damage.new }
{
    let outcome = write(windows, writing)?;
    damage_affected(damage, &windows.table, stack, outcome.affected);
    Ok(outcome.reply)
}

/// Makes a call that copies cells or touches places, or asks what is touched, and adds what it damages.
#[inline(always)]
#[tactic(auto, unfolding(crate::specs::steps::Outcomes::Affects))]
pub(crate) fn copy_damaging(
    windows: &mut Windows,
    stack: &Stack,
    damage: &mut Extents,
    copying: Copying,
) -> Result<Reply, Refusal>
    requires height { length damage.old ≡ windows.old.table.lines }
    ensures { ChangedDamaging windows.old.table (panels stack.now) (copying_refusal (windows_of windows.old.table) copying)
        (copying_change (windows_of windows.old.table) copying) damage.old result windows.new.table damage.new }
{
    let outcome = copy(windows, copying)?;
    damage_affected(damage, &windows.table, stack, outcome.affected);
    Ok(outcome.reply)
}

/// Makes a call that changes panels, or asks about them, and adds what it damages.
#[tactic(auto, unfolding(crate::specs::steps::Outcomes::Rearranges))]
pub(crate) fn arrange_damaging(
    table: &mut Grids,
    stack: &mut Stack,
    damage: &mut Extents,
    stacking: Stacking,
) -> Result<Reply, Refusal>
    requires panels { AreSoundPanels (windows_of table.old).window (panels stack.old) }
    requires height { length damage.old ≡ table.old.lines }
    ensures { OrderedDamaging table.old stack.old stacking damage.old result table.new stack.new damage.new }
{
    prove!(table.has_window(WinId::STANDARD));
    let ordered = ordered_panel(stacking);
    let top = top_window(stack, ordered);
    let before = part_of(table, stack, named_panel(stacking));
    let reply = arrange(table, stack, stacking)?;
    // The panel was on top and still is, with the same window: the picture is as it was, so nothing is damaged.
    if is_same_window(top, top_window(stack, ordered)) {
        return Ok(reply);
    }
    let after = part_of(table, stack, changed_panel(stacking, &reply));
    damage_part(damage, before);
    damage_part(damage, after);
    Ok(reply)
}

/// The window of a panel, if the panel is the topmost.
fn top_window(stack: &Stack, panel: Option<PanelId>) -> Option<WinId>
    ensures { option_map (λ w. w.0) result ≡ top_window (panels stack.now) (panel_number panel) }
{
    let panel = panel?;
    match stack.below(None) {
        Ok(Some(top)) if top == panel => stack.window(panel).ok(),
        _ => None,
    }
}

/// Whether both are a window, and the same.
fn is_same_window(one: Option<WinId>, other: Option<WinId>) -> bool
    ensures { result ≡ option_map_or (λ w. option_map_or (λ u. u.0 == w.0) other false) one false }
{
    match (one, other) {
        (Some(one), Some(other)) => one == other,
        _ => false,
    }
}

/// The rectangle of a panel's window on the screen, if there is the panel, and it is visible.
fn part_of(table: &Grids, stack: &Stack, panel: Option<PanelId>) -> Option<Rect>
    requires { AreSoundPanels (windows_of table.now).window (panels stack.now) }
    ensures holds { (y x : ℕ) → part_holds result y x ≡ option_map_or (λ p. panel_shows_at (windows_of table.now).window (panels stack.now) p y x)
        (panel_number panel) false }
    ensures within { MatchOption result ⊤ (IsFrameWithin table.now.lines table.now.columns) }
{
    panel_part(table, stack, panel?)
}
