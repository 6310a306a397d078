//! A part of a line of the picture, composed of pieces of windows.

ghost use Rattle.std.specs.Prelude.{◌≡◌, ◌<◌, ◌≤◌, ◌+◌, ◌-◌, ◌==◌, ◌&&◌, if◌then◌else◌};
ghost use Rattle.picture.specs.{ℕ, true, false, length, nat_le, nat_lt, HasSize, line_of, shown_at, shown, found_from_top, holds, standard_screen, panels, GrewBy, HasPanelWindows, KnowsOwners};

use crate::owners::Owners;
use crate::rows::Rows;
use crate::search::window_of;
use cell::{Grid, Pairs, Shown, show_cells};
use stack::Stack;

/// Sets the columns of line `y` of a picture of the screen, from `left` to `right`, both inclusive, to what a search
/// from the top visible panel down to the standard screen finds, and leaves all others. It reads as many cells of
/// windows as there are such columns. The standard screen must hold them, and so must the picture's line; and the
/// window of each visible panel must exist.
pub fn compose_row<'a, R: Rows<'a>>(
    rows: &mut R,
    stack: &Stack,
    pairs: &Pairs,
    y: u16,
    left: u16,
    right: u16,
    picture: &mut Grid<Shown>,
)
    requires standard { (u : ℕ) → left ≤ u → u ≤ right → holds (R.windows rows.old).window standard_screen y u ≡ true }
    requires panels { HasPanelWindows (R.windows rows.old).window (panels stack.now) }
    requires ordered { left ≤ right }
    requires line { y < length picture.old }
    requires columns { right < length (line_of picture.old y) }
    ensures shown { (v u : ℕ) → shown_at picture.new (v, u) ≡ (if (v == y) && (nat_le left u && nat_lt u (right + 1)) then shown pairs.now
        (found_from_top (R.windows rows.old).window (panels stack.now) y u) else shown_at picture.old (v, u)) }
    ensures size { (lines columns : ℕ) → HasSize lines columns picture.old → HasSize lines columns picture.new }
    ensures count { GrewBy (right - left + 1) (R.cells_read rows.old) (R.cells_read rows.new) }
    ensures same { R.windows rows.new ≡ R.windows rows.old }
{
    compose_columns(
        rows,
        stack,
        pairs,
        &mut Owners::none(),
        y,
        left,
        right,
        true,
        picture,
    );
}

/// The same, with what is known of lines. It answers whether the line may have changed. It looks whether the picture
/// shows the columns already, span by span until it doesn't, unless the line counts as changed anyway.
pub(crate) fn compose_columns<'a, R: Rows<'a>>(
    rows: &mut R,
    stack: &Stack,
    pairs: &Pairs,
    owners: &mut Owners,
    y: u16,
    left: u16,
    right: u16,
    changed: bool,
    picture: &mut Grid<Shown>,
) -> bool
    requires standard { (u : ℕ) → left ≤ u → u ≤ right → holds (R.windows rows.old).window standard_screen y u ≡ true }
    requires panels { HasPanelWindows (R.windows rows.old).window (panels stack.now) }
    requires ordered { left ≤ right }
    requires line { y < length picture.old }
    requires columns { right < length (line_of picture.old y) }
    requires known { KnowsOwners (R.windows rows.old).window (panels stack.now) owners.old }
    ensures shown { (v u : ℕ) → shown_at picture.new (v, u) ≡ (if (v == y) && (nat_le left u && nat_lt u (right + 1)) then shown pairs.now
        (found_from_top (R.windows rows.old).window (panels stack.now) y u) else shown_at picture.old (v, u)) }
    ensures size { (lines columns : ℕ) → HasSize lines columns picture.old → HasSize lines columns picture.new }
    ensures count { GrewBy (right - left + 1) (R.cells_read rows.old) (R.cells_read rows.new) }
    ensures same { R.windows rows.new ≡ R.windows rows.old }
    ensures known { KnowsOwners (R.windows rows.old).window (panels stack.now) owners.new }
    ensures kept { result ≡ false → picture.new ≡ picture.old }
{
    let mut changed = changed;
    let mut x = left;
    loop {
        let span = owners.span(rows, stack, y, x, right);
        let win = window_of(stack, span.panel);
        let rect = rows.rect(win);
        let cells = rows.read(win, y - rect.top, x - rect.left, span.end - rect.left);
        changed = show_cells(cells, pairs, y, x, changed, picture);
        if span.end == right {
            return changed;
        }
        x = span.end + 1;
    }
}
