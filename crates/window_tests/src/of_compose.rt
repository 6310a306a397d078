//! What calls take into the virtual screen, and what a search from the top finds.

use crate::scripts::run;
use calls::Calls;
use cell::{Rect, VirtualScreen, WinId};
use compose::{Desk, Span};
use std::alloc::Global;
use std::test::Fail;
use world::{Composed, PanelId};

/// The characters of the virtual screen, line after line.
fn shown(desk: &Desk, alloc: Global) -> Result<Vec<u8>, Fail> {
    let mut shown = Vec::new(alloc);
    for y in 0..desk.size().0 {
        for cell in desk.virtual_row(y) {
            shown.push(cell.ch())?;
        }
    }
    Ok(shown)
}

/// A script, and of a virtual screen of 2 lines and 5 columns the characters, the cursor and whether it is cleared.
type Case = (&'static str, &'static str, (u16, u16), bool);

static PICTURES: [Case; 8] = [
    ("addstr 0 abcdefg", "          ", (0, 0), false),
    (
        "addstr 0 abcdefg\nupdate_panels",
        "abcdefg   ",
        (1, 2),
        false,
    ),
    (
        "newwin 1 2 0 0\naddstr 1 aa\nnew_panel 1\nnewwin 1 2 0 1\naddstr 2 bb\nnew_panel 2\n\
        update_panels",
        "abb       ",
        (0, 2),
        false,
    ),
    (
        "newwin 1 2 0 0\naddstr 1 aa\nnew_panel 1\nnewwin 1 2 0 1\naddstr 2 bb\nnew_panel 2\n\
        bottom_panel 2\nmove_panel 1 0 2\nupdate_panels",
        " baa      ",
        (0, 3),
        false,
    ),
    (
        "newwin 1 2 0 0\naddstr 1 aa\nnew_panel 1\nnewwin 1 2 0 1\naddstr 2 bb\nnew_panel 2\n\
        move_panel 1 0 2\nhide_panel 1\ndel_panel 1\nreplace_panel 2 1\nupdate_panels",
        "  aa      ",
        (0, 3),
        false,
    ),
    (
        "newwin 1 3 1 1\naddstr 1 xyz\nnoutrefresh 1",
        "      xyz ",
        (1, 3),
        false,
    ),
    (
        "newpad 6 20\nmove 1 5 17\naddstr 1 end\npnoutrefresh 1 5 17 1 0 1 2",
        "     end  ",
        (0, 0),
        false,
    ),
    (
        "addstr 0 ab\nclear 0\nupdate_panels",
        "          ",
        (0, 0),
        true,
    ),
];

/// Whether a script leaves its picture on a desk.
fn leaves(
    desk: &mut Desk,
    alloc: Global,
    (script, text, cursor, clear): Case,
) -> Result<bool, Fail> {
    run(desk, alloc, script)?;
    Ok(
        shown(desk, alloc)?.as_slice() == text.as_bytes()
            && desk.wanted_cursor() == cursor
            && desk.clear_wanted() == clear,
    )
}

fn is_met(alloc: Global, case: Case) -> Result<bool, Fail> {
    let mut desk = Desk::new(alloc, 2, 5)?;
    let is_met = leaves(&mut desk, alloc, case);
    drop(desk);
    is_met
}

#[test]
fn pictures_are_taken(rt: HostRuntime) -> Result<(), Fail> {
    for case in &PICTURES {
        assert!(rt; is_met(rt.alloc(), *case)?, "at {}", case.0);
    }
    Ok(())
}

/// How many cells two updates read after a character was written, and whether a clear screen is wanted after each, once
/// it is asked for, done, and no more asked for.
fn update_twice(desk: &mut Desk, alloc: Global) -> Result<([Composed; 2], [bool; 2]), Fail> {
    run(desk, alloc, "addch 0 a\nclearok 0 on")?;
    let first = desk.update_panels();
    let asked = desk.clear_wanted();
    desk.mark_taken();
    run(desk, alloc, "clearok 0 on\nclearok 0 off")?;
    let second = desk.update_panels();
    Ok(([first, second], [asked, desk.clear_wanted()]))
}

fn updated_screen(alloc: Global) -> Result<([Composed; 2], [bool; 2]), Fail> {
    let mut desk = Desk::new(alloc, 2, 5)?;
    let updated = update_twice(&mut desk, alloc);
    drop(desk);
    updated
}

#[test]
fn an_update_reads_what_changed(rt: HostRuntime) -> Result<(), Fail> {
    let (composed, clear) = updated_screen(rt.alloc())?;
    assert_eq!(rt; composed, [Composed { cells: 1 }, Composed { cells: 0 }]);
    assert_eq!(rt; clear, [true, false]);
    Ok(())
}

/// How many cells two updates read, the first after a rectangle of a panel's window was filled, the second after a row
/// was put into a window that derives from it; and what is shown then.
fn give_cells(desk: &mut Desk, alloc: Global) -> Result<([Composed; 2], Vec<u8>), Fail> {
    run(desk, alloc, "newwin 2 3 0 1\nnew_panel 1\nderwin 1 1 2 1 1")?;
    let rect = Rect {
        top: 0,
        left: 0,
        bottom: 1,
        right: 0,
    };
    desk.fill(WinId(1), rect, u32::from(b'x'))?;
    let first = desk.update_panels();
    desk.put(WinId(2), 0, 0, &[u32::from(b'a'), u32::from(b'b')])?;
    desk.put(WinId(2), 0, 2, &[])?;
    let second = desk.update_panels();
    Ok(([first, second], shown(desk, alloc)?))
}

fn cells_given(alloc: Global) -> Result<([Composed; 2], Vec<u8>), Fail> {
    let mut desk = Desk::new(alloc, 2, 5)?;
    let given = give_cells(&mut desk, alloc);
    drop(desk);
    given
}

#[test]
fn given_cells_are_shown(rt: HostRuntime) -> Result<(), Fail> {
    let (composed, shown) = cells_given(rt.alloc())?;
    assert_eq!(rt; composed, [Composed { cells: 6 }, Composed { cells: 2 }]);
    assert_eq!(rt; shown.as_slice(), b" x    xab ".as_slice());
    Ok(())
}

/// The line after the last that an update changed, before and after that is taken.
fn change_lines(desk: &mut Desk, alloc: Global) -> Result<[u16; 2], Fail> {
    run(desk, alloc, "addch 0 a")?;
    desk.update_panels();
    let changed = desk.changes().end();
    desk.mark_taken();
    Ok([changed, desk.changes().end()])
}

fn lines_changed(alloc: Global) -> Result<[u16; 2], Fail> {
    let mut desk = Desk::new(alloc, 2, 5)?;
    let lines = change_lines(&mut desk, alloc);
    drop(desk);
    lines
}

#[test]
fn changes_are_kept_until_they_are_taken(rt: HostRuntime) -> Result<(), Fail> {
    assert_eq!(rt; lines_changed(rt.alloc())?, [1, 0]);
    Ok(())
}

/// The character that is found at a place of the screen, the panel that has it, none for the standard screen, and the
/// last column up to which that is found.
type Found = (u8, Option<PanelId>, u16);

fn find_at(desk: &Desk, y: u16, x: u16) -> Option<Found> {
    let (lines, columns) = desk.size();
    if y < lines && x < columns {
        let Span { panel, end } = desk.owner_span(y, x);
        Some((desk.picture(y, x).ch(), panel, end))
    } else {
        None
    }
}

/// Scripts, a place, and what is found there. One panel is in the middle of another, and two are at one place.
#[rattlefmt::skip]
static SEARCHES: [(&str, (u16, u16), Found); 8] = [
    ("newwin 1 6 0 0\naddstr 1 abcdef\nnew_panel 1\nnewwin 1 2 0 2\naddstr 2 xy\nnew_panel 2", (0, 0), (b'a', Some(PanelId(1)), 1)),
    ("newwin 1 6 0 0\naddstr 1 abcdef\nnew_panel 1\nnewwin 1 2 0 2\naddstr 2 xy\nnew_panel 2", (0, 2), (b'x', Some(PanelId(2)), 3)),
    ("newwin 1 6 0 0\naddstr 1 abcdef\nnew_panel 1\nnewwin 1 2 0 2\naddstr 2 xy\nnew_panel 2", (0, 4), (b'e', Some(PanelId(1)), 5)),
    ("newwin 1 6 0 0\naddstr 1 abcdef\nnew_panel 1\nnewwin 1 2 0 2\naddstr 2 xy\nnew_panel 2", (0, 6), (b' ', None, 9)),
    ("newwin 1 6 0 0\nnew_panel 1\nnewwin 1 2 0 2\nnew_panel 2\nhide_panel 1", (0, 0), (b' ', None, 1)),
    ("newwin 2 3 1 2\nnew_panel 1\nnewwin 2 3 1 2\naddch 2 x\nnew_panel 2", (1, 0), (b' ', None, 1)),
    ("newwin 2 3 1 2\nnew_panel 1\nnewwin 2 3 1 2\naddch 2 x\nnew_panel 2", (1, 2), (b'x', Some(PanelId(2)), 4)),
    ("newwin 2 3 1 2\nnew_panel 1\nnewwin 2 3 1 2\naddch 2 x\nnew_panel 2", (1, 5), (b' ', None, 9)),
];

fn found_after(
    desk: &mut Desk,
    alloc: Global,
    script: &str,
    place: (u16, u16),
) -> Result<Option<Found>, Fail> {
    run(desk, alloc, script)?;
    Ok(find_at(desk, place.0, place.1))
}

/// What is found on a new screen of 4 lines and 10 columns after a script.
fn search(alloc: Global, script: &str, place: (u16, u16)) -> Result<Option<Found>, Fail> {
    let mut desk = Desk::new(alloc, 4, 10)?;
    let found = found_after(&mut desk, alloc, script, place);
    drop(desk);
    found
}

#[test]
fn a_span_is_of_the_upper_panel_and_ends_before_another(rt: HostRuntime) -> Result<(), Fail> {
    for (script, place, wanted) in &SEARCHES {
        let found = search(rt.alloc(), script, *place)?;
        assert_eq!(rt; found, Some(*wanted), "at {script}");
    }
    Ok(())
}
