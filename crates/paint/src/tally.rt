//! How many bytes the strokes of an update take, drawn as they were found or rendition by rendition. It is counted while
//! they are found, and only where another rendition comes: elsewhere both take the same. What it answers is a choice.

ghost use Rattle.std.specs.Prelude.{◌+◌, ◌≤◌, ◌<◌};
ghost use Rattle.paint.specs.{length, LARGEST_SCREEN};
ghost use Rattle.paint.specs.declared.tally.TheConstants.{PASSES};

use crate::line::leading;
use cell::{LARGEST_SCREEN, Rendition, Shown, have_rendition};
use ecma::{position_length, selection_length};

/// How many bytes it takes to select no rendition.
const PLAIN: usize = 4;

/// The most renditions that have a pass of their own. What has another is drawn in one more, the last.
const MOST: usize = 8;

/// How many passes there are at most.
pub const PASSES: u8 = MOST as u8 + 1;

/// A place on no screen.
pub const NOWHERE: (u16, u16) = (u16::MAX, u16::MAX);

/// How many bytes either order is ahead at most before no more is counted: it is hardly ever behind again.
const FAR: usize = 256;

/// A tally of strokes.
#[derive(Drop)]
pub struct Tally {
    // The renditions that have a pass of their own, in the order of the passes, and how many bytes it takes to select them.
    order: [Rendition; MOST],
    selections: [usize; MOST],
    count: usize,
    // Where the last stroke ended, its rendition, and its pass.
    at: (u16, u16),
    last: Rendition,
    pass: u8,
    // Where the last stroke of each other pass ended: nowhere that is known, before it begins.
    ends: [(u16, u16); MOST + 1],
    // Bytes.
    as_found: usize,
    by_pass: usize,
}

impl Tally {
    /// Of no strokes, where the cursor is at a place, in a rendition. The empty rendition has the first pass.
    pub fn new(at: (u16, u16), rendition: Rendition) -> Tally {
        Tally {
            order: [Rendition::NONE; MOST],
            selections: [PLAIN; MOST],
            count: 1,
            at,
            last: rendition,
            pass: 0,
            ends: [NOWHERE; MOST + 1],
            as_found: 0,
            by_pass: 0,
        }
    }

    /// Whether the strokes take fewer bytes pass by pass. Both end with the empty rendition.
    pub fn is_less_by_pass(&self) -> bool {
        let more = if self.last == Rendition::NONE {
            PLAIN
        } else {
            0
        };
        self.by_pass.saturating_add(more) < self.as_found
    }

    /// Where the last stroke ended.
    pub fn at(&self) -> (u16, u16) {
        self.at
    }

    /// Takes note of where a stroke ends.
    #[inline(always)]
    pub fn end(&mut self, line: u16, column: u16) {
        self.at = (line, column);
    }

    /// Takes note of a stroke that begins after a gap of cells, and answers its pass.
    #[inline(always)]
    pub fn note(&mut self, line: u16, gap: u16, cells: &[Shown], rendition: Rendition) -> u8
        requires line { line < LARGEST_SCREEN }
        requires inside { gap + length cells.now < LARGEST_SCREEN }
        ensures { result < PASSES }
    {
        if rendition != self.last {
            if self.by_pass <= self.as_found.saturating_add(FAR) {
                self.switch(line, gap, cells, rendition);
            }
            self.last = rendition;
        }
        self.pass.min(PASSES - 1)
    }

    /// Finds the pass of one of another rendition, and counts it.
    #[inline(never)]
    fn switch(&mut self, line: u16, gap: u16, cells: &[Shown], rendition: Rendition)
        requires line { line < LARGEST_SCREEN }
        requires inside { gap + length cells.now < LARGEST_SCREEN }
    {
        let pass = self.pass_of(rendition);
        let (selection, selected) = self.select(pass, rendition);
        if self.as_found <= self.by_pass.saturating_add(FAR) {
            let moved = position_length(line, gap + cells.len() as u16);
            let from_last = self.approach_length(self.at, line, gap, cells, rendition, moved);
            self.as_found = self.as_found.saturating_add(selection + from_last);
            self.ends[usize::from(self.pass).min(MOST)] = self.at;
            let from_pass = self.approach_length(
                self.ends[pass],
                line,
                gap,
                cells,
                rendition,
                moved,
            );
            self.by_pass = self.by_pass.saturating_add(selected + from_pass);
        }
        self.pass = pass as u8;
    }

    /// How many bytes it takes to select a rendition, and how many in its pass: none where that was begun.
    fn select(&mut self, pass: usize, rendition: Rendition) -> (usize, usize)
        requires { pass < PASSES }
        ensures selection { result.0 ≤ 22 }
        ensures selected { result.1 ≤ 22 }
    {
        if pass < self.count.min(MOST) {
            return (self.selections[pass].min(22), 0);
        }
        let selection = selection_length(rendition);
        if pass == self.count && pass < MOST {
            self.order[pass] = rendition;
            self.selections[pass] = selection;
            self.count += 1;
        }
        (selection, selection)
    }

    /// The pass of a rendition: the next one, if there is room, for one that has none.
    fn pass_of(&self, rendition: Rendition) -> usize
        ensures { result < PASSES }
    {
        let count = self.count.min(MOST);
        for pass in 0..count {
            if self.order[pass] == rendition {
                return pass;
            }
        }
        count
    }

    /// How many bytes it takes to come from a place to the end of a gap, without a selection, where a move takes so many.
    pub fn approach_length(
        &self,
        at: (u16, u16),
        line: u16,
        gap: u16,
        cells: &[Shown],
        rendition: Rendition,
        moved: usize,
    ) -> usize
        requires moved { moved ≤ 10 }
        requires inside { gap + length cells.now < LARGEST_SCREEN }
        ensures { result ≤ 10 }
    {
        if at.0 != line {
            return moved;
        }
        if at.1 == gap + cells.len() as u16 {
            return 0;
        }
        if at.1 != gap || cells.len() > moved {
            return moved;
        }
        if have_rendition(&cells[leading(cells, self.last)..], rendition) {
            return cells.len();
        }
        if have_rendition(cells, Rendition::NONE) {
            return moved.min(cells.len() + PLAIN);
        }
        moved
    }
}
