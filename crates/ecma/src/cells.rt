//! The cells of a page, and from which column on each line is known to be blank.

ghost use Rattle.std.specs.Prelude.{◌≡◌, ◌≤◌, ◌<◌, ◌==◌, ◌&&◌, if◌then◌else◌};
ghost use Rattle.ecma.specs.{ℕ, nat_le, nat_lt, length, IfOk, HasSize, blank_picture, line_of, shown_at, with_shown, shown_blank, LARGEST_SCREEN};

use cell::{Grid, LARGEST_SCREEN, Shown};
use std::alloc::{AllocError, Global};
use std::marker::Model;

/// The cells of a page. It keeps for each line a column from which on that is known to be blank, so that what was
/// erased isn't written again until something is printed in its line.
#[derive(Drop)]
pub struct Cells {
    picture: Grid<Shown>,
    blank_from: Vec<u16>,
}

impl Model for Cells {
    ghost use Rattle.cell.specs.Pictures.{Picture};
    ghost use Rattle.ecma.specs.Pages.{KnowsBlanks};

    ghost Value = { Picture };

    ghost view = { λ c. c.picture };

    ghost invariant = { λ c. KnowsBlanks c.blank_from.items c.picture };
}

impl Cells {
    /// Blank cells.
    pub fn new(alloc: Global, lines: u16, columns: u16) -> Result<Cells, AllocError>
        requires lines { lines ≤ LARGEST_SCREEN }
        requires columns { columns ≤ LARGEST_SCREEN }
        ensures { IfOk result (λ cells. cells ≡ blank_picture lines columns) }
    {
        Ok(Cells {
            picture: Grid::new(alloc, lines, columns)?,
            blank_from: vec![in alloc; 0; usize::from(lines)]?,
        })
    }

    /// The picture that they make.
    pub fn picture(&self) -> &Grid<Shown>
        ensures { result.now ≡ self.now }
    {
        &self.picture
    }

    /// Puts a cell at line `y` and column `x`. Nothing is known of its line then.
    pub fn set(&mut self, y: u16, x: u16, shown: Shown)
        requires line { y < length self.old }
        requires column { x < length (line_of self.old y) }
        requires narrow { length (line_of self.old y) ≤ LARGEST_SCREEN }
        ensures { self.new ≡ with_shown self.old (y, x) shown }
    {
        self.picture.set(usize::from(y), usize::from(x), shown);
        self.blank_from[usize::from(y)] = LARGEST_SCREEN;
    }

    /// From which column on line `y` is known to be blank, or its end.
    fn known_blank(&self, y: u16) -> usize
        requires { y < length self.now }
        ensures blank { (x : ℕ) → result ≤ x → shown_at self.now (y, x) ≡ shown_blank }
        ensures on_line { result ≤ length (line_of self.now y) }
    {
        let y = usize::from(y);
        usize::from(self.blank_from[y]).min(self.picture.row(y).len())
    }

    /// Erases the columns of line `y` from `start` on, up to `end`, which it leaves out.
    pub fn erase(&mut self, y: u16, start: u16, end: u16)
        requires line { y < length self.old }
        requires ordered { start ≤ end }
        requires columns { end ≤ length (line_of self.old y) }
        ensures shown { (v u : ℕ) → shown_at self.new (v, u)
            ≡ (if (v == y) && (nat_le start u && nat_lt u end) then shown_blank else shown_at self.old (v, u)) }
        ensures size { (lines columns : ℕ) → HasSize lines columns self.old → HasSize lines columns self.new }
    {
        let line = usize::from(y);
        let first = usize::from(start);
        let end = usize::from(end);
        let known = self.known_blank(y);
        if known <= first {
            return;
        }
        if end < known {
            self.picture.fill(line, first, end, Shown::BLANK);
            return;
        }
        self.picture.fill(line, first, known, Shown::BLANK);
        self.blank_from[line] = start;
    }
}
