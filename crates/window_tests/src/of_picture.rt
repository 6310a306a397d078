//! Lines that are composed of pieces of windows, and the columns that are left.

ghost use Rattle.std.specs.Prelude.{IfOk};
ghost use Rattle.cell.specs.Pictures.{HasSize};
ghost use Rattle.world.specs.Sound.{AreSoundPanels};
ghost use Rattle.grids.specs.Tables.{windows as windows_of};
ghost use Rattle.stack.specs.Tables.{panels};

use cell::{Attr, Cell, Grid, Pairs, Shown, WinId};
use grids::{Grids, Place};
use picture::{TableRows, compose_row, show_piece};
use stack::Stack;
use std::alloc::Global;
use std::test::Fail;

/// The window in a panel, and the one in none.
const IN_PANEL: WinId = WinId(1);

const DASHES: WinId = WinId(2);

/// Sets the cell of a column of a window's first line to a character.
fn put(table: &mut Grids, win: WinId, x: u16, character: u8) -> Result<(), Fail> {
    let (lines, columns) = table.getmaxyx(win)?;
    let cell = Cell::new(character, Attr::NONE, 0).ok_or("no cell")?;
    if lines == 0 || columns <= x {
        return Err("no such place".into());
    }
    table.fill(win, 0, x, x, cell);
    Ok(())
}

/// Makes a window at column 1, which shows `XY`, and one that shows `----`, on a screen that shows `abcd`.
fn fill(table: &mut Grids) -> Result<(), Fail> {
    table.newwin(1, 2, 0, 1)?;
    table.newwin(1, 4, 0, 0)?;
    for (x, character) in [(0, b'a'), (1, b'b'), (2, b'c'), (3, b'd')] {
        put(table, WinId::STANDARD, x, character)?;
        put(table, DASHES, x, b'-')?;
    }
    put(table, IN_PANEL, 0, b'X')?;
    put(table, IN_PANEL, 1, b'Y')
}

/// These windows, and a screen of 1 line and 4 columns.
fn windows(alloc: Global) -> Result<Grids, Fail> {
    let mut table = Grids::new(alloc, 1, 4)?;
    fill(&mut table)?;
    Ok(table)
}

/// The one window in a panel.
fn one_panel(alloc: Global, table: &Grids) -> Result<Stack, Fail>
    ensures { IfOk result (λ stack. AreSoundPanels (windows_of table.now).window (panels stack)) }
{
    table.getbegyx(IN_PANEL)?;
    let mut stack = Stack::new(alloc);
    stack.new_panel(IN_PANEL)?;
    Ok(stack)
}

/// A picture of the screen's size that shows `----`.
fn dashes(alloc: Global, table: &Grids) -> Result<Grid<Shown>, Fail>
    ensures { IfOk result (λ picture. HasSize table.now.lines table.now.columns picture) }
{
    if table.getmaxyx(WinId::STANDARD)? != (1, 4) || table.getmaxyx(DASHES)? != (1, 4) {
        return Err("another size".into());
    }
    let mut picture = Grid::new(alloc, 1, 4)?;
    let source = Place {
        win: DASHES,
        line: 0,
        column: 0,
    };
    show_piece(table, &Pairs::new(), source, 4, 0, 0, &mut picture);
    Ok(picture)
}

/// Composes the columns from `left` to `right` over dashes: the characters of the picture, and how many cells were read.
fn composed(
    alloc: Global,
    table: &Grids,
    stack: &Stack,
    left: u16,
    right: u16,
) -> Result<(Vec<u8>, u64), Fail>
    requires { AreSoundPanels (windows_of table.now).window (panels stack.now) }
{
    let mut picture = dashes(alloc, table)?;
    let (lines, columns) = table.getmaxyx(WinId::STANDARD)?;
    if lines == 0 || columns <= right || right < left {
        return Err("no such columns".into());
    }
    let mut rows = TableRows::of(table, 0);
    compose_row(
        &mut rows,
        stack,
        &Pairs::new(),
        0,
        left,
        right,
        &mut picture,
    );
    let mut shown = Vec::new(alloc);
    for cell in picture.row(0) {
        shown.push(cell.ch())?;
    }
    Ok((shown, rows.cells_read()))
}

/// The same, of new windows of which one is in a panel.
fn composed_anew(alloc: Global, left: u16, right: u16) -> Result<(Vec<u8>, u64), Fail> {
    let table = windows(alloc)?;
    let stack = one_panel(alloc, &table)?;
    composed(alloc, &table, &stack, left, right)
}

/// Columns, what the line shows once they are composed, and how many cells are read for that.
static COLUMNS: [(u16, u16, &str, u64); 2] = [(0, 3, "aXYd", 4), (2, 2, "--Y-", 1)];

#[test]
fn columns_are_composed_of_pieces_and_others_are_left(rt: HostRuntime) -> Result<(), Fail> {
    for (left, right, text, cells) in &COLUMNS {
        let (shown, read) = composed_anew(rt.alloc(), *left, *right)?;
        assert_eq!(rt; shown.as_slice(), text.as_bytes());
        assert_eq!(rt; read, *cells);
    }
    Ok(())
}
