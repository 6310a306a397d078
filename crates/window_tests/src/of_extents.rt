//! Columns of lines: those that are added, and which lines have some.

use cell::Rect;
use extents::Extents;
use std::alloc::Global;
use std::test::Fail;
use world::Columns;

/// The columns of three lines, and the line after the last that has some.
type Seen = ([Option<Columns>; 3], u16);

fn seen(extents: &Extents) -> Seen {
    let mut lines = [None; 3];
    for y in 0..extents.height() {
        if let Some(place) = lines.get_mut(usize::from(y)) {
            *place = extents.line(y);
        }
    }
    (lines, extents.end())
}

const NONE: Seen = ([None; 3], 0);

fn columns(first: u16, last: u16) -> Option<Columns> {
    Some(Columns { first, last })
}

fn changed(alloc: Global) -> Result<[Seen; 5], Fail> {
    let mut extents = Extents::none(alloc, 3)?;
    let none = seen(&extents);
    if extents.height() == 3 {
        extents.widen(1, 4, 6);
        extents.widen(1, 2, 2);
    }
    let one = seen(&extents);
    if extents.height() == 3 {
        extents.rectangle(Rect {
            top: 1,
            left: 3,
            bottom: 2,
            right: 9,
        });
    }
    let more = seen(&extents);
    if extents.height() == 3 {
        extents.clear_line(2);
    }
    let less = seen(&extents);
    extents.clear();
    Ok([none, one, more, less, seen(&extents)])
}

#[test]
fn columns_are_added_and_taken_away(rt: HostRuntime) -> Result<(), Fail> {
    let seen = changed(rt.alloc())?;
    let wanted = [
        NONE,
        ([None, columns(2, 6), None], 2),
        ([None, columns(2, 9), columns(3, 9)], 3),
        ([None, columns(2, 9), None], 2),
        NONE,
    ];
    assert_eq!(rt; seen, wanted);
    Ok(())
}

fn looked_for(alloc: Global) -> Result<([u16; 3], [(usize, usize); 2]), Fail> {
    let mut extents = Extents::none(alloc, 3)?;
    if extents.height() != 3 {
        return Ok(([0; 3], [(0, 0); 2]));
    }
    extents.widen(1, 4, 6);
    let next = [extents.next(0), extents.next(1), extents.next(2)];
    Ok((next, [extents.within(1, 6), extents.within(2, 6)]))
}

#[test]
fn lines_with_columns_are_found(rt: HostRuntime) -> Result<(), Fail> {
    let found = looked_for(rt.alloc())?;
    assert_eq!(rt; found, ([1, 1, 3], [(4, 6), (0, 0)]));
    let mut whole = Extents::none(rt.alloc(), 3)?;
    whole.widen(1, 4, 90);
    whole.fill(80);
    assert_eq!(rt; seen(&whole), ([columns(0, 79); 3], 3));
    Ok(())
}
