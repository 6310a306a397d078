//! Colours, and pairs of them.

ghost use Rattle.std.specs.Prelude.{◌≡◌, ◌==◌, ◌&&◌, ◌<◌, ◌≤◌, if◌then◌else◌};
ghost use Rattle.cell.specs.{is_none, nat_le, length, map, slice_set, true, AllByRecursion, list_all, ArePairs, default_pair, IsColour, IsShown, first_pairs, pair_at, shown, shown_in};
ghost use Rattle.cell.specs.declared.lanes.TheConstants.{BLOCK, LANES};

use crate::cell::Cell;
use crate::colour_bits::ColourBits;
use crate::lanes::{BLOCK, LANES, have_pair, lanes_have_pair};
use crate::limits::{LAST_COLOUR, LAST_PAIR};
use crate::shown::Shown;
use std::marker::Model;

/// One of the eight colours of X/Open Curses, by its number.
#[derive(Clone, Copy, PartialEq, Eq, Debug)]
pub struct Colour(u8);

impl Model for Colour {
    ghost use Rattle.std.specs.Prelude.{ℕ, ◌≤◌};
    ghost use Rattle.cell.specs.declared.limits.TheConstants.{LAST_COLOUR};

    ghost Value = { ℕ };

    ghost view = { λ c. c.0 };

    ghost invariant = { λ c. c.0 ≤ LAST_COLOUR };

    ghost inverse = { λ n. record { 0 = n } };
}

impl Colour {
    pub const BLACK: Colour = Colour(0);

    pub const RED: Colour = Colour(1);

    pub const GREEN: Colour = Colour(2);

    pub const YELLOW: Colour = Colour(3);

    pub const BLUE: Colour = Colour(4);

    pub const MAGENTA: Colour = Colour(5);

    pub const CYAN: Colour = Colour(6);

    pub const WHITE: Colour = Colour(7);

    /// The colour of a number up to `LAST_COLOUR`, and none for another.
    pub fn new(number: u16) -> Option<Colour>
        ensures { result ≡ (if nat_le number LAST_COLOUR then Some number else None) }
    {
        if number <= u16::from(LAST_COLOUR) {
            Some(Colour(number as u8))
        } else {
            None
        }
    }

    /// The colour of a number that is one.
    pub(crate) fn of_number(number: u8) -> Colour
        requires { number ≤ LAST_COLOUR }
        ensures { result ≡ number }
    {
        Colour(number)
    }

    /// The number.
    pub fn number(self) -> u8
        ensures value { result ≡ self }
        ensures sound { self ≤ LAST_COLOUR }
    {
        self.0
    }
}

/// A colour pair of the table, by its number.
#[derive(Clone, Copy, PartialEq, Eq, Debug)]
pub struct PairId(u8);

impl Model for PairId {
    ghost use Rattle.std.specs.Prelude.{ℕ, ◌≤◌};
    ghost use Rattle.cell.specs.declared.limits.TheConstants.{LAST_PAIR};

    ghost Value = { ℕ };

    ghost view = { λ p. p.0 };

    ghost invariant = { λ p. p.0 ≤ LAST_PAIR };

    ghost inverse = { λ n. record { 0 = n } };
}

impl PairId {
    /// The pair that always has the default colours.
    pub const DEFAULT: PairId = PairId(0);

    /// The pair of a number up to `LAST_PAIR`, and none for another.
    pub fn new(number: u16) -> Option<PairId>
        ensures { result ≡ (if nat_le number LAST_PAIR then Some number else None) }
    {
        if number <= u16::from(LAST_PAIR) {
            Some(PairId(number as u8))
        } else {
            None
        }
    }

    /// The pair of a number known to be valid.
    pub(crate) fn of_number(number: u8) -> PairId
        requires { number ≤ LAST_PAIR }
        ensures { result ≡ number }
    {
        PairId(number)
    }

    /// The number.
    pub fn number(self) -> u8
        ensures value { result ≡ self }
        ensures sound { self ≤ LAST_PAIR }
    {
        self.0
    }
}

/// The foreground and the background of a pair. `None` is the terminal's default.
#[derive(Clone, Copy, PartialEq, Eq, Debug)]
pub struct ColourPair {
    pub foreground: Option<Colour>,
    pub background: Option<Colour>,
}

impl ColourPair {
    /// The default colours.
    pub const DEFAULT: ColourPair = ColourPair {
        foreground: None,
        background: None,
    };

    /// Whether both are the default.
    pub fn is_default(self) -> bool
        ensures { result ≡ (is_none self.foreground && is_none self.background) }
    {
        self.foreground.is_none() && self.background.is_none()
    }
}

/// The table of colour pairs, by their numbers.
#[derive(Drop)]
pub struct Pairs {
    pairs: [ColourBits; PAIRS],
}

/// How many pairs there are.
const PAIRS: usize = LAST_PAIR as usize + 1;

impl Model for Pairs {
    ghost use Rattle.cell.specs.ShownCells.{Pairs, ArePairs};

    ghost Value = { Pairs };

    ghost view = { λ table. table.pairs };

    ghost invariant = { λ table. ArePairs table.pairs };
}

impl Pairs {
    /// The table in which each pair has the default colours.
    pub fn new() -> Pairs
        ensures { result ≡ first_pairs }
    {
        Pairs {
            pairs: [ColourBits::DEFAULT; PAIRS],
        }
    }

    /// Gives a pair a foreground and a background.
    pub fn set(&mut self, at: PairId, foreground: Colour, background: Colour)
        ensures set { self.new ≡ slice_set self.old at (record { foreground = Some foreground; background = Some background }) }
        ensures sound { ArePairs self.new }
    {
        let pair = ColourBits::new(ColourPair {
            foreground: Some(foreground),
            background: Some(background),
        });
        self.pairs[usize::from(at.number())] = pair;
    }

    /// How a cell is shown.
    pub fn show_cell(&self, cell: Cell) -> Shown
        ensures value { result ≡ shown self.now cell }
        ensures sound { ArePairs self.now }
    {
        Shown::of_cell(cell, self.colours_of(cell.pair()))
    }

    /// The colours of a pair.
    fn colours_of(&self, pair: PairId) -> ColourBits
        ensures value { result ≡ pair_at self.now pair }
        ensures sound { ArePairs self.now }
    {
        self.pairs[usize::from(pair.number())]
    }

    /// Whether places show so many cells already. It may answer no where they do: where many have several pairs.
    #[inline(always)]
    pub(crate) fn are_shown(&self, cells: &[Cell], places: &[Shown]) -> bool
        requires { length places.now ≡ length cells.now }
        ensures { result ≡ true → places.now ≡ map (shown self.now) cells.now }
    {
        if cells.len() >= LANES {
            return self.are_many_shown(cells, places);
        }
        for x in 0..cells.len() {
            if self.show_cell(cells[x]) != places[x] {
                return false;
            }
        }
        true
    }

    /// The same of some cells: the first is looked at before the others.
    #[inline(never)]
    fn are_many_shown(&self, cells: &[Cell], places: &[Shown]) -> bool
        requires some { 0 < length cells.now }
        requires places { length places.now ≡ length cells.now }
        ensures { result ≡ true → places.now ≡ map (shown self.now) cells.now }
    {
        if self.show_cell(cells[0]) != places[0] {
            return false;
        }
        let pair = cells[0].pair();
        have_pair(cells, pair) && are_shown_in(self.colours_of(pair), cells, places)
    }

    /// Writes shown cells into as many places, so many together where there are at least so many.
    #[inline(always)]
    pub(crate) fn show(&self, cells: &[Cell], places: &mut [Shown])
        requires { length places.old ≡ length cells.now }
        ensures shown { places.new ≡ map (shown self.now) cells.now }
        ensures cells { AllByRecursion IsShown places.new }
    {
        if cells.len() < LANES {
            self.show_each(cells, places);
        } else if cells.len() < BLOCK {
            self.show_lanes(cells, places);
        } else {
            self.show_blocks(cells, places);
        }
    }

    /// The same, a block after another: a frame of long lines in one rendition takes four fifths of the instructions by
    /// it. Some cells before the rest may be shown twice.
    #[inline(never)]
    fn show_blocks(&self, cells: &[Cell], places: &mut [Shown])
        requires many { BLOCK ≤ length cells.now }
        requires places { length places.old ≡ length cells.now }
        ensures shown { places.new ≡ map (shown self.now) cells.now }
        ensures cells { AllByRecursion IsShown places.new }
    {
        let mut start = 0;
        while cells.len() - start >= BLOCK {
            let end = start + BLOCK;
            self.show_block(&cells[start..end], &mut places[start..end]);
            start = end;
        }
        if start < cells.len() {
            let rest = start.min(cells.len() - LANES);
            self.show_lanes(&cells[rest..], &mut places[rest..]);
        }
    }

    /// The same of a block, most of which have one pair.
    #[inline(always)]
    fn show_block(&self, cells: &[Cell], places: &mut [Shown])
        requires cells { length cells.now ≡ BLOCK }
        requires places { length places.old ≡ BLOCK }
        ensures shown { places.new ≡ map (shown self.now) cells.now }
        ensures cells { AllByRecursion IsShown places.new }
    {
        let pair = cells[0].pair();
        if have_pair(cells, pair) {
            show_alike(self.colours_of(pair), cells, places);
        } else {
            self.show_lanes(cells, places);
        }
    }

    /// The same, so many together. Where the last of them aren't as many, some are shown twice.
    #[inline(never)]
    fn show_lanes(&self, cells: &[Cell], places: &mut [Shown])
        requires many { LANES ≤ length cells.now }
        requires places { length places.old ≡ length cells.now }
        ensures shown { places.new ≡ map (shown self.now) cells.now }
        ensures cells { AllByRecursion IsShown places.new }
    {
        let mut start = 0;
        while cells.len() - start >= LANES {
            let end = start + LANES;
            self.show_many(
                cells[start].pair(),
                &cells[start..end],
                &mut places[start..end],
            );
            start = end;
        }
        if start < cells.len() {
            let last = cells.len() - LANES;
            self.show_many(cells[last].pair(), &cells[last..], &mut places[last..]);
        }
    }

    /// The same of as many cells as are looked at together: in the colours of a pair, if it is that of all.
    #[inline(never)]
    fn show_many(&self, pair: PairId, cells: &[Cell], places: &mut [Shown])
        requires cells { length cells.now ≡ LANES }
        requires places { length places.old ≡ LANES }
        ensures shown { places.new ≡ map (shown self.now) cells.now }
        ensures cells { AllByRecursion IsShown places.new }
    {
        if lanes_have_pair(cells, pair) {
            places.copy_from_slice(&show_in(self.colours_of(pair), cells));
        } else {
            self.show_each(cells, places);
        }
    }

    /// The same, one after another.
    fn show_each(&self, cells: &[Cell], places: &mut [Shown])
        requires { length places.old ≡ length cells.now }
        ensures shown { places.new ≡ map (shown self.now) cells.now }
        ensures cells { AllByRecursion IsShown places.new }
    {
        for x in 0..cells.len() {
            let shown = self.show_cell(cells[x]);
            prove!(shown.ch() >= b' ');
            places[x] = shown;
        }
    }
}

/// Writes the cells of a block in colours into as many places, whatever their pairs are.
fn show_alike(colours: ColourBits, cells: &[Cell], places: &mut [Shown])
    requires cells { length cells.now ≡ BLOCK }
    requires places { length places.old ≡ BLOCK }
    ensures shown { places.new ≡ map (shown_in colours) cells.now }
    ensures cells { AllByRecursion IsShown places.new }
{
    let mut start = 0;
    while start < BLOCK {
        let end = start + LANES;
        places[start..end].copy_from_slice(&show_in(colours, &cells[start..end]));
        start = end;
    }
}

/// So many cells in colours, whatever their pairs are, by a loop that the compiler vectorizes.
fn show_in(colours: ColourBits, cells: &[Cell]) -> [Shown; LANES]
    requires { length cells.now ≡ LANES }
    ensures shown { result ≡ map (shown_in colours) cells.now }
    ensures cells { AllByRecursion IsShown result }
{
    let mut shown = [Shown::BLANK; LANES];
    for x in 0..LANES {
        let cell = Shown::of_cell(cells[x], colours);
        prove!(cell.ch() >= b' ');
        shown[x] = cell;
    }
    shown
}

/// Whether places show so many cells in colours, whatever their pairs are, by a loop that the compiler vectorizes.
fn are_shown_in(colours: ColourBits, cells: &[Cell], places: &[Shown]) -> bool
    requires { length places.now ≡ length cells.now }
    ensures { result ≡ true → places.now ≡ map (shown_in colours) cells.now }
{
    let mut different = 0;
    for x in 0..cells.len() {
        different |= Shown::of_cell(cells[x], colours).bits() ^ places[x].bits();
    }
    different == 0
}

/// Always true: what it ensures is what is known of each colour.
pub fn is_colour(colour: Option<Colour>) -> bool
    ensures yes { result ≡ true }
    ensures sound { IsColour colour }
{
    match colour {
        Some(colour) => colour.number() <= LAST_COLOUR,
        None => true,
    }
}
