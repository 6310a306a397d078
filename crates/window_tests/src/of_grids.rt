//! What scripts don't show of the table of windows.

use grids::{Attr, Cell, Grids, Rect, WinId};
use std::alloc::Global;
use std::test::Fail;

/// The touched columns of a line of a window.
fn touched_columns(grids: &Grids, win: WinId, y: u16) -> Result<Option<(u16, u16)>, Fail> {
    let (lines, _) = grids.getmaxyx(win)?;
    if lines <= y {
        return Err("no such line".into());
    }
    match grids.touched_columns(win, y) {
        Some(columns) => Ok(Some((columns.first, columns.last))),
        None => Ok(None),
    }
}

/// Sets one cell of a window to a character, in bold.
fn put(grids: &mut Grids, win: WinId, y: u16, x: u16, character: u8) -> Result<(), Fail> {
    let (lines, columns) = grids.getmaxyx(win)?;
    let cell = Cell::new(character, Attr::BOLD, 7).ok_or("no cell")?;
    if lines <= y || columns <= x {
        return Err("no such place".into());
    }
    grids.fill(win, y, x, x, cell);
    Ok(())
}

/// The cell at a place of a window.
fn cell(grids: &Grids, win: WinId, y: u16, x: u16) -> Result<Cell, Fail> {
    let (lines, columns) = grids.getmaxyx(win)?;
    if lines <= y || columns <= x {
        return Err("no such place".into());
    }
    Ok(grids.cell(win, y, x))
}

/// Unmarks a window, and says what is touched then of its first line.
fn unmark(grids: &mut Grids, win: WinId) -> Result<Option<(u16, u16)>, Fail> {
    if !grids.has_window(win) {
        return Err("no such window".into());
    }
    grids.unmark(win);
    touched_columns(grids, win, 0)
}

/// A window, one in it, and one in that.
fn nest_windows(grids: &mut Grids) -> Result<(WinId, WinId), Fail> {
    let first = grids.newwin(3, 8, 0, 0)?;
    let second = grids.derwin(first, 2, 6, 1, 1)?;
    Ok((first, grids.derwin(second, 1, 3, 1, 2)?))
}

/// What is touched of the outermost of three windows once the innermost is written on, of the innermost once the
/// outermost is, and after it is unmarked; and the cell that the outermost has then of the innermost.
fn sync_marks(grids: &mut Grids) -> Result<([Option<(u16, u16)>; 3], Cell), Fail> {
    let (first, third) = nest_windows(grids)?;
    put(grids, third, 0, 1, b't')?;
    grids.wsyncup(third)?;
    let up = touched_columns(grids, first, 2)?;
    put(grids, first, 2, 3, b'f')?;
    grids.wsyncdown(third)?;
    let down = touched_columns(grids, third, 0)?;
    let none = unmark(grids, third)?;
    Ok(([up, down, none], cell(grids, first, 2, 4)?))
}

fn handed_on_in_table(alloc: Global) -> Result<([Option<(u16, u16)>; 3], Cell), Fail> {
    let mut grids = Grids::new(alloc, 4, 10)?;
    let marks = sync_marks(&mut grids);
    drop(grids);
    marks
}

#[test]
fn touches_and_cells_are_handed_on(rt: HostRuntime) -> Result<(), Fail> {
    let (touched, cell) = handed_on_in_table(rt.alloc())?;
    assert_eq!(rt; touched, [Some((4, 4)), Some((0, 1)), None]);
    assert!(rt; Some(cell) == Cell::new(b't', Attr::BOLD, 7));
    Ok(())
}

/// Two windows that show parts of the same one, which is the last.
fn two_parts(grids: &mut Grids) -> Result<[WinId; 3], Fail> {
    let window = grids.newwin(3, 8, 0, 0)?;
    let low = grids.derwin(window, 2, 5, 1, 2)?;
    let high = grids.derwin(window, 2, 4, 0, 4)?;
    Ok([low, high, window])
}

/// Which places of the second window are places of the first window's lines 0 and 1, columns 1 to 4.
fn seen_in(grids: &Grids, low: WinId, high: WinId) -> Result<Option<Rect>, Fail> {
    let part = Rect {
        top: 0,
        left: 1,
        bottom: 1,
        right: 4,
    };
    let (lines, columns) = grids.getmaxyx(low)?;
    if lines < 2 || columns < 5 || !grids.has_window(high) {
        return Err("no such place".into());
    }
    Ok(grids.seen_in(low, part, high))
}

/// Whether a window derives from another, where both are there.
fn derives(grids: &Grids, low: WinId, high: WinId) -> bool {
    grids.has_window(low) && grids.has_window(high) && grids.derives(low, high)
}

/// Which places of a part of a window another part has, and whether that derives from the window, and from the part.
fn shared_places(grids: &mut Grids) -> Result<(Option<Rect>, [bool; 2]), Fail> {
    let [low, high, window] = two_parts(grids)?;
    let derived = [derives(grids, window, high), derives(grids, low, high)];
    Ok((seen_in(grids, low, high)?, derived))
}

fn shared_in_table(alloc: Global) -> Result<(Option<Rect>, [bool; 2]), Fail> {
    let mut grids = Grids::new(alloc, 4, 10)?;
    let places = shared_places(&mut grids);
    drop(grids);
    places
}

#[test]
fn windows_show_parts_of_one_another(rt: HostRuntime) -> Result<(), Fail> {
    let (seen, derived) = shared_in_table(rt.alloc())?;
    let wanted = Rect {
        top: 1,
        left: 0,
        bottom: 1,
        right: 2,
    };
    assert_eq!(rt; seen, Some(wanted));
    assert_eq!(rt; derived, [true, false]);
    Ok(())
}
