//! Grids, cells, colours, and what has a limit.

ghost use Rattle.std.specs.Prelude.{length, ◌≡◌};

use bitflags::Flags;
use cell::{
    Attr, Cell, Colour, ColourPair, Grid, LARGEST_PAD, LARGEST_SCREEN, PairId, Pairs, Refusal,
    Rendition, Shown, have_rendition, hex_digits, is_no_size, is_printable, show_cells,
};
use std::alloc::AllocError;
use std::test::Fail;

mod differences;

/// Whether cells have these characters.
fn have_characters(cells: &[Cell], characters: &[u8]) -> bool {
    for (cell, character) in cells.iter().zip(characters) {
        if cell.ch() != *character {
            return false;
        }
    }
    cells.len() == characters.len()
}

/// Whether the lines of a grid have these characters.
fn has_characters(grid: &Grid<Cell>, lines: [&[u8]; 4]) -> bool
    requires { length grid.now ≡ 4 }
{
    for (y, characters) in lines.iter().enumerate() {
        if !have_characters(grid.row(y), characters) {
            return false;
        }
    }
    true
}

fn letter() -> Result<Cell, Fail> {
    Ok(Cell::new(b'A', Attr::BOLD, 0).ok_or("no cell")?)
}

#[test]
fn cells_are_set_and_filled_in_their_lines(rt: HostRuntime) -> Result<(), Fail> {
    let letter = letter()?;
    let mut grid = Grid::new(rt.alloc(), 4, 3)?;
    grid.set(1, 0, letter);
    grid.fill(2, 1, 3, letter);
    assert!(rt; has_characters(&grid, [b"   ", b"A  ", b" AA", b"   "]));
    assert!(rt; grid.row(1) == [letter, Cell::BLANK, Cell::BLANK].as_slice());
    Ok(())
}

#[test]
fn put_cells_stand_one_after_another(rt: HostRuntime) -> Result<(), Fail> {
    let mut grid = Grid::new(rt.alloc(), 4, 3)?;
    grid.put_cells(3, 1, &[letter()?, Cell::BLANK]);
    assert!(rt; has_characters(&grid, [b"   ", b"   ", b"   ", b" A "]));
    Ok(())
}

#[test]
fn copied_grid_has_every_cell(rt: HostRuntime) -> Result<(), Fail> {
    let letter = letter()?;
    let mut from = Grid::new(rt.alloc(), 4, 3)?;
    from.set(0, 1, letter);
    let mut to = Grid::new(rt.alloc(), 4, 3)?;
    to.set(1, 0, letter);
    to.copy_from(&from);
    assert!(rt; has_characters(&to, [b" A ", b"   ", b"   ", b"   "]));
    Ok(())
}

#[test]
fn cell_is_its_character_attributes_and_pair(rt: HostRuntime) -> Result<(), Fail> {
    let cell = Cell::new(b'~', Attr::from_bits_retain(0xe1), 3).ok_or("no cell")?;
    assert!(rt; cell.ch() == 126 && cell.attr().bits() == 0x21 && cell.pair().number() == 3);
    assert!(rt; cell.bits() == 0x3_217e && Cell::BLANK.bits() == 0x0020);
    Ok(())
}

/// Whether there is a cell of a character and a pair.
fn is_cell(ch: u8, pair: u16) -> bool {
    Cell::new(ch, Attr::NONE, pair).is_some()
}

#[test]
fn cells_have_characters_and_pairs_within_limits(rt: HostRuntime) {
    assert!(rt; is_cell(32, 0) && is_cell(126, 63));
    assert!(rt; !is_cell(31, 0) && !is_cell(127, 0) && !is_cell(b'x', 64));
    assert!(rt; is_printable(b' ') && is_printable(b'~'));
    assert!(rt; !is_printable(31) && !is_printable(127));
}

#[test]
fn sizes_have_their_limits(rt: HostRuntime) {
    assert!(rt; is_no_size(LARGEST_SCREEN, 0) && is_no_size(LARGEST_SCREEN, 1000));
    assert!(rt; !is_no_size(LARGEST_SCREEN, 1) && !is_no_size(LARGEST_SCREEN, 999));
    assert!(rt; !is_no_size(LARGEST_PAD, 1000) && is_no_size(LARGEST_PAD, 1001));
}

#[test]
fn cells_are_shown_in_the_colours_of_their_pair(rt: HostRuntime) -> Result<(), Fail> {
    let pair = PairId::new(2).ok_or("no pair")?;
    let cell = letter()?.with_pair(pair);
    let mut pairs = Pairs::new();
    let plain = Rendition::new(Attr::BOLD, ColourPair::DEFAULT);
    assert!(rt; Some(pairs.show_cell(cell)) == Shown::new(b'A', plain));
    pairs.set(pair, Colour::RED, Colour::BLUE);
    let colours = ColourPair {
        foreground: Colour::new(1),
        background: Colour::new(4),
    };
    let coloured = Rendition::new(Attr::BOLD, colours);
    assert!(rt; Some(pairs.show_cell(cell)) == Shown::new(b'A', coloured));
    Ok(())
}

/// A line of 50 cells, with others in its columns 31 and 49.
fn line_with<T: Copy>(cell: T, other: T) -> [T; 50] {
    let mut line = [cell; 50];
    line[31] = other;
    line[49] = other;
    line
}

#[test]
fn many_cells_are_shown_each_in_the_colours_of_its_pair(rt: HostRuntime) -> Result<(), Fail> {
    let pair = PairId::new(2).ok_or("no pair")?;
    let mut pairs = Pairs::new();
    pairs.set(pair, Colour::RED, Colour::BLUE);
    let letter = letter()?;
    let coloured = letter.with_pair(pair);
    let mut picture = Grid::new(rt.alloc(), 1, 50)?;
    show_cells(
        &line_with(letter, coloured),
        &pairs,
        0,
        0,
        false,
        &mut picture,
    );
    let wanted = line_with(pairs.show_cell(letter), pairs.show_cell(coloured));
    assert!(rt; picture.row(0) == wanted.as_slice());
    Ok(())
}

#[test]
fn another_character_keeps_attributes_and_pair(rt: HostRuntime) -> Result<(), Fail> {
    let pair = PairId::new(63).ok_or("no pair")?;
    let cell = letter()?.with_pair(pair).with_character(b'~');
    assert!(rt; cell.ch() == b'~' && cell.attr() == Attr::BOLD && cell.pair().number() == 63);
    Ok(())
}

#[test]
fn sixteen_cells_have_a_rendition_if_each_has(rt: HostRuntime) -> Result<(), Fail> {
    let bold = Rendition::new(Attr::BOLD, ColourPair::DEFAULT);
    let mut cells = [Shown::new(b'A', bold).ok_or("no cell")?; 16];
    let all = have_rendition(&cells, bold);
    cells[15] = Shown::BLANK;
    assert_eq!(rt; [all, have_rendition(&cells, bold)], [true, false]);
    Ok(())
}

/// The number of the colour of a number, if there is one.
fn number_of(number: u16) -> Option<u8> {
    match Colour::new(number) {
        Some(colour) => Some(colour.number()),
        None => None,
    }
}

#[test]
fn colours_are_numbered_from_0_to_7(rt: HostRuntime) {
    assert!(rt; number_of(0) == Some(0) && number_of(7) == Some(7) && number_of(8) == None);
    assert!(rt; Colour::RED.number() == 1 && Colour::BLUE.number() == 4);
}

#[test]
fn bytes_and_attributes_are_spelled_in_hexadecimal(rt: HostRuntime) {
    let all = Attr::from_bits_retain(0xff);
    let spelled = [
        hex_digits(0xab),
        (Attr::BOLD | Attr::REVERSE).hex_digits(),
        all.hex_digits(),
    ];
    assert!(rt; spelled == [*b"ab", *b"11", *b"3f"]);
    assert_eq!(rt; all.valid_attributes().bits(), 0x3f);
}

#[test]
fn refusals_have_their_names(rt: HostRuntime) {
    assert_eq!(rt; Refusal::from(AllocError).text(), "E18 NoMemory");
    assert_eq!(rt; Refusal::NoSuchWindow.text(), "E1 NoSuchWindow");
}
