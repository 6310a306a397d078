//! The searches for differences against one that looks at all columns, on short lines.

use cell::{Attr, ColourPair, Rendition, Shown, first_diff, last_diff};
use std::test::Fail;

const LONGEST: usize = 50;

/// The first and the last column in which two lines differ.
fn search_plainly(old: &[Shown], new: &[Shown]) -> [Option<usize>; 2] {
    let mut differences = [None; 2];
    for (x, (one, other)) in old.iter().zip(new).enumerate() {
        if one != other {
            differences[0] = differences[0].or(Some(x));
            differences[1] = Some(x);
        }
    }
    differences
}

fn differences(old: &[Shown], new: &[Shown]) -> [Option<usize>; 2] {
    if old.len() == new.len() {
        [first_diff(old, new), last_diff(old, new)]
    } else {
        [None; 2]
    }
}

fn set(line: &mut [Shown; LONGEST], x: usize, cell: Shown) {
    if let Some(place) = line.get_mut(x) {
        *place = cell;
    }
}

/// Whether what is found in a line that has a cell at two columns, and a blank line, is what is searched. A column past
/// its end is no difference.
fn agrees(length: usize, columns: [usize; 2], cell: Shown) -> bool {
    let blank = [Shown::BLANK; LONGEST];
    let mut line = blank;
    set(&mut line, columns[0], cell);
    set(&mut line, columns[1], cell);
    match (blank.get(..length), line.get(..length)) {
        (Some(old), Some(new)) => differences(old, new) == search_plainly(old, new),
        _ => false,
    }
}

/// The same for a first column and each second one from there on.
fn agrees_from(length: usize, first: usize, cell: Shown) -> bool {
    for second in first..=length {
        if !agrees(length, [first, second], cell) {
            return false;
        }
    }
    true
}

/// The same for each first column.
fn agrees_in_lines(length: usize, cell: Shown) -> bool {
    for first in 0..=length {
        if !agrees_from(length, first, cell) {
            return false;
        }
    }
    true
}

/// A letter, and a blank in another rendition.
fn cells() -> Result<[Shown; 2], Fail> {
    let reverse = Rendition::new(Attr::REVERSE, ColourPair::DEFAULT);
    let letter = Shown::new(b'x', Rendition::NONE).ok_or("no cell")?;
    Ok([letter, Shown::new(b' ', reverse).ok_or("no cell")?])
}

#[test]
fn no_difference_is_missed(rt: HostRuntime) -> Result<(), Fail> {
    let [letter, blank] = cells()?;
    for length in 0..=LONGEST {
        assert!(rt; agrees_in_lines(length, letter), "of {length} columns");
        assert!(rt; agrees_in_lines(length, blank), "of {length} columns");
    }
    Ok(())
}
