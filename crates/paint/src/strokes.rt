//! Strokes: each writes what is wanted where it writes, so that a pen may draw them in any order. They are found line by
//! line, and are as many as there is room for.

ghost use Rattle.std.specs.Prelude.{◌≡◌, ◌+◌, ◌-◌, ◌<◌, ◌≤◌, ◌++◌, ◌∷◌, if◌then◌else◌};
ghost use Rattle.paint.specs.{[], IfOk, List, length, min, LARGEST_SCREEN, AreAlike, ArePlanned, IsPageEnd};
ghost use Rattle.paint.specs.declared.strokes.Stroke.{Stroke as AnyStroke};
ghost use Rattle.paint.specs.declared.strokes.TheConstants.{ROOM};

use crate::blanks::{PageEnd, tail_over, tail_start};
use crate::changes::Update;
use crate::line::{next_changed, stretch};
use crate::tally::Tally;
use arrayvec::ArrayVec;
use cell::{LARGEST_SCREEN, Rendition, Shown, last_diff};
use ecma::position_length;
use std::alloc::{AllocError, Global};
use std::marker::Model;

/// For how many strokes there is room: more than a line can have.
pub const ROOM: usize = 1_024;

/// How many bytes an erasure has.
const ERASURE: usize = 3;

/// How a stroke is drawn.
#[derive(Clone, Copy, Debug)]
pub enum Ink {
    /// Its cells are printed. They have one rendition.
    Print,
    /// Its line is erased from its first column on. The wanted one is blank from there.
    EraseLine,
    /// The page is erased from its first place on. The wanted one is blank from there.
    ErasePage,
}

/// Cells of a line, from a column up to another, or all from a place on that are blank.
#[derive(Clone, Copy, Debug)]
pub struct Stroke {
    pub ink: Ink,
    pub line: u16,
    /// Where the gap begins that is before them, of cells that are shown already.
    pub gap: u16,
    pub start: u16,
    /// The column after the last, where they are printed.
    pub end: u16,
    /// The pass in which they are drawn.
    pub pass: u8,
}

impl Default for Stroke {
    /// One of no cells. Its bytes are all zero, so that a room for many is made where it will be, and not on the stack.
    fn default() -> Stroke {
        Stroke {
            ink: Ink::Print,
            line: 0,
            gap: 0,
            start: 0,
            end: 0,
            pass: 0,
        }
    }
}

/// Strokes of an update, in a box, so that a plan is moved in a few words.
#[derive(Drop)]
pub struct Plan {
    strokes: Box<ArrayVec<Stroke, ROOM>>,
    tally: Tally,
}

impl Model for Plan {
    ghost use Rattle.std.specs.Prelude.{List};
    ghost use Rattle.paint.specs.declared.strokes.Stroke.{Stroke};

    ghost Value = { List Stroke };

    ghost view = { λ plan. plan.strokes.value.items };
}

impl Plan {
    /// None.
    pub fn new(alloc: Global) -> Result<Plan, AllocError>
        ensures { IfOk result (λ plan. plan ≡ []) }
    {
        Ok(Plan {
            strokes: Box::new(alloc, ArrayVec::new())?,
            tally: Tally::new((0, 0), Rendition::NONE),
        })
    }

    /// Leaves none of them, where the cursor is at a place, in a rendition.
    pub fn clear(&mut self, at: (u16, u16), rendition: Rendition)
        ensures { self.new ≡ [] }
    {
        self.strokes.clear();
        self.tally = Tally::new(at, rendition);
    }

    /// The strokes.
    pub fn strokes(&self) -> &[Stroke]
        ensures { result.now ≡ self.now }
    {
        self.strokes.as_slice()
    }

    /// For how many more there is room.
    pub fn room(&self) -> usize
        ensures { result + length self.now ≡ ROOM }
    {
        self.strokes.remaining_capacity()
    }

    /// Whether they take fewer bytes rendition by rendition than as they were found.
    pub fn is_less_by_pass(&self) -> bool {
        self.tally.is_less_by_pass()
    }

    /// The line of the cursor after them.
    pub fn line(&self) -> u16 {
        self.tally.at().0
    }

    /// Adds one.
    fn push(&mut self, stroke: Stroke)
        requires { length self.old < ROOM }
        ensures { self.new ≡ self.old ++ stroke ∷ [] }
    {
        self.tally.end(stroke.line, stroke.end);
        self.strokes.push(stroke);
    }

    /// Takes note of one that begins after a gap of cells, and answers its pass.
    #[inline(always)]
    fn note(&mut self, line: u16, gap: usize, cells: &[Shown], rendition: Rendition) -> u8
        requires line { line < LARGEST_SCREEN }
        requires inside { gap + length cells.now < LARGEST_SCREEN }
        ensures { self.new ≡ self.old }
    {
        self.tally.note(line, gap as u16, cells, rendition)
    }

    /// Adds those of a line. Its blank end is erased where that takes fewer bytes.
    pub fn add_line(&mut self, update: &Update<'_>, line: u16)
        requires line { line < update.now.lines }
        requires room { length self.old + update.now.columns < ROOM }
        ensures planned { (others : List AnyStroke) → ArePlanned update.now.shown.now update.now.wanted.now (line, 0) others self.old
            → ArePlanned update.now.shown.now update.now.wanted.now (line + 1, 0) others self.new }
        ensures room { length self.new ≤ length self.old + update.now.columns }
    {
        let (shown, wanted) = update.line(line);
        let (start, end) = update.changes.within(line, usize::from(update.columns));
        let Some(skipped) = last_diff(&shown[start..end], &wanted[start..end]) else {
            return;
        };
        let last = start + skipped;
        let tail = tail_over(wanted, last);
        if tail > last {
            self.add_part(update, line, start, start, last + 1);
            return;
        }
        let column = next_changed(shown, wanted, tail.max(start), last);
        let gap = self.add_part(update, line, start, start, column);
        let from = self.erased_from(line, wanted, gap, tail, column);
        if self.is_erased(line, wanted, gap, from, column, last) {
            self.add_erasure(Ink::EraseLine, line, wanted, gap, from);
        } else {
            self.add_part(update, line, gap, column, last + 1);
        }
    }

    /// Adds those of a line in the blank end of a page, and answers whether the last of them erases all of that: where a
    /// blank end of the line is changed, or where the cursor is in it anyway.
    pub fn add_last_line(&mut self, update: &Update<'_>, line: u16, end: PageEnd) -> bool
        requires first { end.first ≤ line }
        requires line { line < end.line }
        requires end { IsPageEnd update.now.shown.now update.now.wanted.now end }
        requires room { length self.old + update.now.columns < ROOM }
        ensures { (others : List AnyStroke) → ArePlanned update.now.shown.now update.now.wanted.now (line, 0) others self.old
            → ArePlanned update.now.shown.now update.now.wanted.now (if result then update.now.lines else line + 1, 0) others self.new }
    {
        let (shown, wanted) = update.line(line);
        let (start, stop) = update.changes.within(line, usize::from(update.columns));
        let tail = tail_start(wanted);
        let column = next_changed(shown, wanted, tail.max(start).min(stop), stop);
        if column < stop {
            let gap = self.add_part(update, line, start, start, column);
            let from = self.erased_from(line, wanted, gap, tail.min(column), column);
            self.add_erasure(Ink::ErasePage, line, wanted, gap, from);
            return true;
        }
        self.add_line(update, line);
        let (y, x) = self.tally.at();
        let from = usize::from(x);
        if y != line || from < tail || x >= update.columns {
            return false;
        }
        self.add_erasure(Ink::ErasePage, line, wanted, from, from);
        true
    }

    /// Adds those of a line from a column up to another, after a gap of cells that are shown already. It answers where
    /// the next gap begins.
    fn add_part(
        &mut self,
        update: &Update<'_>,
        line: u16,
        from: usize,
        start: usize,
        end: usize,
    ) -> usize
        requires line { line < update.now.lines }
        requires gap { from ≤ start }
        requires ordered { start ≤ end }
        requires inside { end ≤ update.now.columns }
        requires room { length self.old + (end - start) ≤ ROOM }
        requires alike { AreAlike update.now.shown.now update.now.wanted.now line from start }
        ensures planned { (others : List AnyStroke) → ArePlanned update.now.shown.now update.now.wanted.now (line, start) others self.old
            → ArePlanned update.now.shown.now update.now.wanted.now (line, end) others self.new }
        ensures room { length self.new ≤ length self.old + (end - start) }
        ensures gap { result ≤ end }
        ensures alike { AreAlike update.now.shown.now update.now.wanted.now line result end }
    {
        let (shown, wanted) = update.line(line);
        let mut x = next_changed(shown, wanted, start, end);
        let mut gap = first_gap(from, start, x);
        while x < end {
            let (stop, next) = stretch(shown, wanted, x, end);
            let rendition = wanted[x].rendition();
            let pass = self.note(line, gap, &wanted[gap..x], rendition);
            self.push(Stroke {
                ink: Ink::Print,
                line,
                gap: gap as u16,
                start: x as u16,
                end: stop as u16,
                pass,
            });
            gap = stop;
            x = next;
        }
        gap
    }

    /// Adds an erasure from a column of a line on, which comes after a gap or is in it.
    fn add_erasure(
        &mut self,
        ink: Ink,
        line: u16,
        wanted: &[Shown],
        gap: usize,
        from: usize,
    ) -> Stroke
        requires line { line < LARGEST_SCREEN }
        requires from { from < length wanted.now }
        requires few { length wanted.now ≤ LARGEST_SCREEN }
        requires room { length self.old < ROOM }
        ensures added { self.new ≡ self.old ++ result ∷ [] }
        ensures ink { result.ink ≡ ink }
        ensures line { result.line ≡ line }
        ensures gap { result.gap ≡ min gap from }
        ensures start { result.start ≡ from }
    {
        let gap = gap.min(from);
        let pass = self.note(line, gap, &wanted[gap..from], Rendition::NONE);
        let stroke = Stroke {
            ink,
            line,
            gap: gap as u16,
            start: from as u16,
            end: from as u16,
            pass,
        };
        self.push(stroke);
        stroke
    }

    /// The column from which a line's blank end is erased, which is changed from a column on: the one where the cursor
    /// is, if it is in it, and else that one or the first, to which it takes fewer bytes to come.
    fn erased_from(
        &self,
        line: u16,
        wanted: &[Shown],
        gap: usize,
        tail: usize,
        column: usize,
    ) -> usize
        requires line { line < LARGEST_SCREEN }
        requires tail { tail ≤ column }
        requires column { column < length wanted.now }
        requires few { length wanted.now ≤ LARGEST_SCREEN }
        ensures from { tail ≤ result }
        ensures to { result ≤ column }
    {
        let (y, x) = self.tally.at();
        let here = usize::from(x);
        if y == line && tail <= here && here <= column {
            return here;
        }
        if self.reach(line, wanted, gap, tail) < self.reach(line, wanted, gap, column) {
            tail
        } else {
            column
        }
    }

    /// Whether to erase from a column takes fewer bytes than to print what is changed from a first column to a last.
    fn is_erased(
        &self,
        line: u16,
        wanted: &[Shown],
        gap: usize,
        from: usize,
        first: usize,
        last: usize,
    ) -> bool
        requires line { line < LARGEST_SCREEN }
        requires from { from < length wanted.now }
        requires first { first < length wanted.now }
        requires last { last < length wanted.now }
        requires few { length wanted.now ≤ LARGEST_SCREEN }
    {
        let erased = self.reach(line, wanted, gap, from) + ERASURE;
        erased + first < self.reach(line, wanted, gap, first) + last + 1
    }

    /// How many bytes it takes to come to a column, after a gap, but for a selection.
    fn reach(&self, line: u16, wanted: &[Shown], gap: usize, column: usize) -> usize
        requires line { line < LARGEST_SCREEN }
        requires column { column < length wanted.now }
        requires few { length wanted.now ≤ LARGEST_SCREEN }
        ensures { result ≤ 10 }
    {
        let gap = gap.min(column);
        let cells = &wanted[gap..column];
        let moved = position_length(line, column as u16);
        let at = self.tally.at();
        self.tally
            .approach_length(at, line, gap as u16, cells, Rendition::NONE, moved)
    }
}

/// Where the gap before the first changed cell begins, from a column on: at that cell, where none was drawn before.
fn first_gap(from: usize, start: usize, first: usize) -> usize
    requires { from ≤ first }
    ensures from { from ≤ result }
    ensures to { result ≤ first }
{
    if from == start { first } else { from }
}
