//! Composes the damaged part of the picture of windows and panels again.

ghost use Rattle.std.specs.Prelude.{◌≡◌, ◌≤◌};
ghost use Rattle.picture.specs.{ℕ, None, length, AreShown, picture_of, shown, found_from_top, panels, GrewBy, AddsChanges, columns_of, is_among, AreEnds, cells_above, IsRepairable};

use crate::line::compose_columns;
use crate::owners::Owners;
use crate::rows::Rows;
use cell::{Grid, Pairs, Shown};
use extents::Extents;
use stack::Stack;
use world::Columns;

/// Puts what a search from the top finds at each damaged place of so many lines into a picture, and clears the damage.
/// The damaged columns are added to the picture's changes, but for those of the first lines that show what they showed:
/// it looks whether they do until one doesn't. It answers how many cells of windows it read. The owners of any lines may
/// be passed: they only save the room.
pub fn show_damaged<'a, R: Rows<'a>>(
    rows: &mut R,
    stack: &Stack,
    pairs: &Pairs,
    owners: &mut Owners,
    lines: u16,
    damage: &mut Extents,
    picture: &mut Grid<Shown>,
    changes: &mut Extents,
) -> u32
    requires repairable { IsRepairable (R.windows rows.old) (panels stack.now) pairs.now damage.old picture.old }
    requires lines { lines ≡ (R.windows rows.old).lines }
    requires height { length changes.old ≡ (R.windows rows.old).lines }
    ensures shown { picture.new ≡ picture_of (R.windows rows.old).lines (R.windows rows.old).columns
        (λ y x. shown pairs.now (found_from_top (R.windows rows.old).window (panels stack.now) y x)) }
    ensures cells { AreShown picture.new }
    ensures height { length damage.new ≡ (R.windows rows.old).lines }
    ensures none { (y : ℕ) → columns_of damage.new y ≡ None }
    ensures read { result ≡ cells_above damage.old (R.windows rows.old).lines }
    ensures changes { AddsChanges changes.old picture.old changes.new picture.new }
    ensures few { (y : ℕ) → AreEnds (R.windows rows.old).columns (columns_of changes.old y) (is_among damage.old y) (columns_of changes.new y) }
    ensures count { GrewBy result (R.cells_read rows.old) (R.cells_read rows.new) }
    ensures same { R.windows rows.new ≡ R.windows rows.old }
{
    owners.start_over();
    let mut cells = 0;
    let mut changed = false;
    let mut y = damage.next(0);
    while y < lines {
        if let Some(Columns { first, last }) = damage.line(y) {
            changed = compose_columns(rows, stack, pairs, owners, y, first, last, changed, picture);
            cells += u32::from(last - first) + 1;
            if changed {
                changes.widen(y, first, last);
            }
            damage.clear_line(y);
        }
        y = damage.next(y + 1);
    }
    // Reading a line shows the proof that each cell can be printed.
    prove!(!picture.row(0).is_empty());
    cells
}
