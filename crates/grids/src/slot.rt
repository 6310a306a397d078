//! What the table keeps of one window.

ghost use Rattle.std.specs.Prelude.{◌≡◌, ◌<◌, ◌≤◌, ◌+◌, ◌^◌, ◌&&◌};
ghost use Rattle.grids.specs.{EachIndex, IfOk, IsSome, is_some, Some, None, length, map, slice_index, true, AllByRecursion, range_with_len, IsCell, is_printable, lines_marked, without_marks};
ghost use Rattle.grids.specs.{with_place, with_part, given_cell, gives_cell, list_all, listed_cells, rectangle_filled, nat_le, set_in, with_cursor, with_settings, new_window, first_settings, blank_grid, any_below};
ghost use Rattle.grids.specs.{cell_of, part_of, window_of};
ghost use Rattle.grids.specs.{IsKept, Kept, HasShape, printed_cell, part_in, names_parent, with_touched, with_touched_lines, with_drawing, SameShape, with_new_offset, StaysInPlace, is_among};
ghost use Rattle.grids.specs.{unmarked_lines, with_block_copied};

use crate::ink::print_in;
use crate::touched::Touched;
use crate::touched_lines::TouchedLines;
use cell::{Attr, Cell, Grid, LARGEST_PAD, LAST_PAIR, PairId, Rect, give_cells};
use std::alloc::{AllocError, Global};
use std::marker::Model;
use world::{Columns, Settings};

/// The parent of a derived window, and the offset into it.
#[derive(Clone, Copy, Debug, PartialEq, Eq)]
pub struct Part {
    pub parent: u16,
    pub line: u16,
    pub column: u16,
}

/// Where the first place of a window is in a grid: the number of the window that has the grid, and the line and column
/// there.
#[derive(Clone, Copy, Debug, PartialEq, Eq)]
pub struct Origin {
    pub grid: u16,
    pub line: u16,
    pub column: u16,
}

impl Origin {
    /// The place some lines and columns on.
    pub fn onward(self, lines: u16, columns: u16) -> Origin
        requires line_in { self.line + lines < 2 ^ 16 }
        requires column_in { self.column + columns < 2 ^ 16 }
        ensures { result ≡ record { grid = self.grid; line = self.line + lines; column = self.column + columns } }
    {
        Origin {
            grid: self.grid,
            line: self.line + lines,
            column: self.column + columns,
        }
    }
}

/// The cells of a window: a grid of its own, or a part of its parent.
#[derive(Drop)]
pub enum Cells {
    Own(Grid<Cell>),
    Shared(Part),
}

/// A window or pad.
#[derive(Drop)]
pub struct Slot {
    lines: u16,
    columns: u16,
    place: Option<(u16, u16)>,
    settings: Settings,
    touched: TouchedLines,
    depth: u16,
    origin: Origin,
    cells: Cells,
}

impl Model for Slot {
    ghost Value = { Kept };

    ghost view = { λ a. record {
      lines = a.lines;
      columns = a.columns;
      place = a.place;
      settings = a.settings;
      touched = a.touched;
      depth = a.depth;
      origin = a.origin;
      cells = a.cells;
    } };

    ghost invariant = { λ a. HasShape a.lines a.columns a.settings a.touched a.cells };
}

impl Slot {
    /// A new window or pad of this number with a blank grid.
    pub fn with_grid(
        alloc: Global,
        number: u16,
        lines: u16,
        columns: u16,
        place: Option<(u16, u16)>,
    ) -> Result<Slot, AllocError>
        requires has_line { 0 < lines }
        requires has_column { 0 < columns }
        requires few_lines { lines ≤ LARGEST_PAD }
        requires few_columns { columns ≤ LARGEST_PAD }
        ensures window { IfOk result (λ s. window_of s ≡ new_window lines columns place blank_grid) }
        ensures kept { IfOk result (λ s. IsKept s × (s.depth ≡ 0) × (part_in s.cells ≡ None)) }
        ensures origin { IfOk result (λ s. s.origin ≡ record { grid = number; line = 0; column = 0 }) }
    {
        Ok(Slot {
            lines,
            columns,
            place,
            settings: first_settings(lines),
            touched: TouchedLines::none(alloc, lines)?,
            depth: 0,
            origin: Origin {
                grid: number,
                line: 0,
                column: 0,
            },
            cells: Cells::Own(Grid::new(alloc, lines, columns)?),
        })
    }

    /// A new window or pad that shows a part of another.
    pub fn with_parent(
        alloc: Global,
        lines: u16,
        columns: u16,
        place: Option<(u16, u16)>,
        part: Part,
        depth: u16,
        origin: Origin,
    ) -> Result<Slot, AllocError>
        requires has_line { 0 < lines }
        requires has_column { 0 < columns }
        requires few_lines { lines ≤ LARGEST_PAD }
        requires few_columns { columns ≤ LARGEST_PAD }
        ensures window { IfOk result (λ s. window_of s ≡ new_window lines columns place (part_of part.parent part.line part.column)) }
        ensures kept { IfOk result (λ s. IsKept s × (s.depth ≡ depth) × (part_in s.cells ≡ Some part)) }
        ensures origin { IfOk result (λ s. s.origin ≡ origin) }
    {
        Ok(Slot {
            lines,
            columns,
            place,
            settings: first_settings(lines),
            touched: TouchedLines::none(alloc, lines)?,
            depth,
            origin,
            cells: Cells::Shared(part),
        })
    }

    /// The number of lines.
    pub fn lines(&self) -> u16
        ensures { result ≡ self.now.lines }
    {
        self.lines
    }

    /// The number of columns.
    pub fn columns(&self) -> u16
        ensures { result ≡ self.now.columns }
    {
        self.columns
    }

    /// The place on the screen, which a pad has not.
    pub fn place(&self) -> Option<(u16, u16)>
        ensures { result ≡ self.now.place }
    {
        self.place
    }

    /// The window's settings.
    pub fn settings(&self) -> Settings
        ensures { result ≡ self.now.settings }
    {
        self.settings
    }

    /// The touched columns of a line.
    pub fn touched_columns(&self, line: u16) -> Option<Columns>
        requires { line < self.now.lines }
        ensures { result ≡ (window_of self.now).touched line }
    {
        self.touched.columns(line)
    }

    /// How many ancestors the window has.
    pub fn depth(&self) -> u16
        ensures { result ≡ self.now.depth }
    {
        self.depth
    }

    /// Where the window's first place is in a grid.
    pub fn origin(&self) -> Origin
        ensures { result ≡ self.now.origin }
    {
        self.origin
    }

    /// The parent and the offset into it, of a derived window.
    pub fn part(&self) -> Option<Part>
        ensures { result ≡ part_in self.now.cells }
    {
        match &self.cells {
            Cells::Own(_) => None,
            Cells::Shared(part) => Some(*part),
        }
    }

    /// Whether the window's parent is this one.
    pub fn is_part_of(&self, win: u16) -> bool
        ensures { result ≡ names_parent win (Some self.now) }
    {
        match &self.cells {
            Cells::Own(_) => false,
            Cells::Shared(part) => part.parent == win,
        }
    }

    /// The cells of a line of the window's own grid, `len` of them from a column on.
    pub fn row(&self, line: u16, left: u16, len: u16) -> &[Cell]
        requires own { part_in self.now.cells ≡ None }
        requires line_in { line < self.now.lines }
        requires columns_in { left + len ≤ self.now.columns }
        ensures row { result.now ≡ map (λ x. cell_of (window_of self.now).backing line (left + x)) (range_with_len 0 len) }
        ensures len { length result.now ≡ len }
        ensures cells { AllByRecursion IsCell result.now }
    {
        match &self.cells {
            Cells::Own(grid) => {
                let start = usize::from(left);
                &grid.row(usize::from(line))[start..start + usize::from(len)]
            }
            Cells::Shared(_) => unreachable!(),
        }
    }

    /// Gives the window other settings; bits beyond the six attributes are dropped.
    pub fn set_settings(&mut self, settings: Settings)
        requires cursor_line { settings.cursor.0 < self.old.lines }
        requires cursor_column { settings.cursor.1 < self.old.columns }
        requires region_order { settings.region.0 ≤ settings.region.1 }
        requires region_end { settings.region.1 < self.old.lines }
        ensures window { window_of self.new ≡ with_settings settings (window_of self.old) }
        ensures place { StaysInPlace self.old self.new }
    {
        prove!(settings.background.ch() >= b' ' && settings.pair.number() <= LAST_PAIR);
        self.settings = Settings {
            attrs: settings.attrs.valid_attributes(),
            ..settings
        };
    }

    /// Moves the cursor.
    pub fn set_cursor(&mut self, y: u16, x: u16)
        requires line { y < self.old.lines }
        requires column { x < self.old.columns }
        ensures window { window_of self.new ≡ set_in (with_cursor (y, x)) (window_of self.old) }
        ensures place { StaysInPlace self.old self.new }
    {
        self.settings.cursor = (y, x);
    }

    /// Moves the window to a place of the screen.
    pub fn set_place(&mut self, y: u16, x: u16)
        requires { IsSome self.old.place }
        ensures window { window_of self.new ≡ with_place y x (window_of self.old) }
        ensures place { StaysInPlace self.old self.new }
    {
        self.place = Some((y, x));
    }

    /// Moves a derived window to another offset in its parent.
    pub fn shift(&mut self, y: u16, x: u16)
        ensures window { window_of self.new ≡ with_part y x (window_of self.old) }
        ensures shape { SameShape self.old self.new }
        ensures cells { self.new.cells ≡ with_new_offset y x self.old.cells }
        ensures origin { self.new.origin ≡ self.old.origin }
        ensures kept { IsKept self.new }
    {
        if let Cells::Shared(part) = &mut self.cells {
            part.line = y;
            part.column = x;
        }
    }

    /// Sets where the window's first place is in a grid.
    pub fn set_origin(&mut self, origin: Origin)
        ensures { self.new ≡ record (self.old) { origin = origin } }
    {
        self.origin = origin;
    }

    /// Sets the cells of a rectangle of the grid to one cell.
    #[inline(always)]
    pub fn fill_rectangle(&mut self, rect: Rect, cell: Cell)
        requires own { part_in self.old.cells ≡ None }
        requires lines { rect.top ≤ rect.bottom }
        requires bottom_in { rect.bottom < self.old.lines }
        requires columns { rect.left ≤ rect.right }
        requires right_in { rect.right < self.old.columns }
        ensures window { window_of self.new ≡ with_drawing (rectangle_filled rect cell) (window_of self.old) }
        ensures place { StaysInPlace self.old self.new }
    {
        match &mut self.cells {
            Cells::Own(grid) => grid.fill_rectangle(
                usize::from(rect.top),
                usize::from(rect.bottom),
                usize::from(rect.left),
                usize::from(rect.right) + 1,
                cell,
            ),
            Cells::Shared(_) => unreachable!(),
        }
    }

    /// Untouches all lines, and asks for a clear screen no more. It answers whether it asked for one.
    pub fn unmark(&mut self) -> bool
        ensures asked { result ≡ self.old.settings.clear }
        ensures window { window_of self.new ≡ without_marks (window_of self.old) }
        ensures place { StaysInPlace self.old self.new }
    {
        self.touched.clear();
        self.unmark_lines(0, 0)
    }

    /// Untouches lines from one on, and asks for a clear screen no more. It answers whether it asked for one.
    pub fn unmark_lines(&mut self, first: u16, n: u16) -> bool
        requires { first + n ≤ self.old.lines }
        ensures asked { result ≡ self.old.settings.clear }
        ensures window { window_of self.new ≡ unmarked_lines (is_among first n) (window_of self.old) }
        ensures place { StaysInPlace self.old self.new }
    {
        let asked = self.settings.clear;
        self.touched.set(first, n, Touched::none());
        self.settings.clear = false;
        asked
    }

    /// Touches lines from their first column to their last, from one on, or untouches them.
    pub fn mark(&mut self, first: u16, n: u16, flag: bool)
        requires { first + n ≤ self.old.lines }
        ensures window { window_of self.new ≡ lines_marked first n flag (window_of self.old) }
        ensures place { StaysInPlace self.old self.new }
    {
        let columns = if flag {
            Touched::none().join(0, self.columns - 1)
        } else {
            Touched::none()
        };
        self.touched.set(first, n, columns);
    }

    /// Whether some line is touched.
    pub fn is_touched(&self) -> bool
        ensures { result ≡ any_below self.now.lines (λ y. is_some ((window_of self.now).touched y)) }
    {
        self.touched.are_touched()
    }

    /// Puts cells into a line of the grid, from column `left` on.
    pub fn put_row(&mut self, line: u16, left: u16, row: &[Cell])
        requires own { part_in self.old.cells ≡ None }
        requires line_in { line < self.old.lines }
        requires columns_in { left + length row.now ≤ self.old.columns }
        requires cells { AllByRecursion IsCell row.now }
        ensures window { window_of self.new ≡ with_drawing (listed_cells line left row.now) (window_of self.old) }
        ensures place { StaysInPlace self.old self.new }
    {
        match &mut self.cells {
            Cells::Own(grid) => grid.put_cells(usize::from(line), usize::from(left), row),
            Cells::Shared(_) => unreachable!(),
        }
    }

    /// Puts the cells that numbers give into a line of the grid, from column `left` on.
    pub fn give(&mut self, line: u16, left: u16, numbers: &[u32])
        requires own { part_in self.old.cells ≡ None }
        requires line_in { line < self.old.lines }
        requires columns_in { left + length numbers.now ≤ self.old.columns }
        requires given { list_all gives_cell numbers.now ≡ true }
        ensures window { window_of self.new ≡ with_drawing (listed_cells line left (map given_cell numbers.now)) (window_of self.old) }
        ensures place { StaysInPlace self.old self.new }
    {
        match &mut self.cells {
            Cells::Own(grid) => give_cells(numbers, usize::from(line), usize::from(left), grid),
            Cells::Shared(_) => unreachable!(),
        }
    }

    /// Copies so many lines and columns of the grid from line `sy` and column `sx` on to line `dy` and column `dx` on,
    /// as if all were read before any is written.
    pub fn copy_block(&mut self, sy: u16, sx: u16, dy: u16, dx: u16, lines: u16, columns: u16)
        requires own { part_in self.old.cells ≡ None }
        requires some { 0 < lines }
        requires source_lines { sy + lines ≤ self.old.lines }
        requires target_lines { dy + lines ≤ self.old.lines }
        requires source_columns { sx + columns ≤ self.old.columns }
        requires target_columns { dx + columns ≤ self.old.columns }
        ensures window { window_of self.new ≡ with_block_copied sy sx dy dx lines columns (window_of self.old) }
        ensures place { StaysInPlace self.old self.new }
    {
        match &mut self.cells {
            Cells::Own(grid) => grid.copy_block(
                usize::from(sy),
                usize::from(sx),
                usize::from(dy),
                usize::from(dx),
                usize::from(lines),
                usize::from(columns),
            ),
            Cells::Shared(_) => unreachable!(),
        }
    }

    /// Prints characters in a line of the grid, from column `left` on, with a pen.
    pub fn print(&mut self, line: u16, left: u16, text: &[u8], pen: Cell)
        requires own { part_in self.old.cells ≡ None }
        requires line_in { line < self.old.lines }
        requires columns_in { left + length text.now ≤ self.old.columns }
        requires printable { EachIndex text.now (λ k. is_printable (slice_index text.now k) ≡ true) }
        ensures window { window_of self.new ≡ with_drawing (listed_cells line left (map (printed_cell pen) text.now)) (window_of self.old) }
        ensures place { StaysInPlace self.old self.new }
    {
        match &mut self.cells {
            Cells::Own(grid) => print_in(grid, usize::from(line), usize::from(left), text, pen),
            Cells::Shared(_) => unreachable!(),
        }
    }

    /// Touches the columns from `left` to `right` of a line. It answers where the window's first place is in a grid.
    #[inline(always)]
    pub fn touch(&mut self, line: u16, left: u16, right: u16) -> Origin
        requires line_in { line < self.old.lines }
        requires ordered { left ≤ right }
        requires right_in { right < self.old.columns }
        ensures origin { result ≡ self.old.origin }
        ensures window { window_of self.new ≡ with_touched line left right (window_of self.old) }
        ensures place { StaysInPlace self.old self.new }
    {
        let origin = self.origin;
        self.touched.touch(line, left, right);
        origin
    }

    /// Touches the columns of a rectangle in each of its lines. It answers where the window's first place is in a grid.
    #[inline(always)]
    pub fn touch_rectangle(&mut self, rect: Rect) -> Origin
        requires lines { rect.top ≤ rect.bottom }
        requires bottom_in { rect.bottom < self.old.lines }
        requires columns { rect.left ≤ rect.right }
        requires right_in { rect.right < self.old.columns }
        ensures origin { result ≡ self.old.origin }
        ensures window { window_of self.new ≡
            with_touched_lines (λ y. nat_le rect.top y && nat_le y rect.bottom) rect.left rect.right (window_of self.old) }
        ensures place { StaysInPlace self.old self.new }
    {
        let origin = self.origin;
        self.touched
            .touch_lines(rect.top, rect.bottom, rect.left, rect.right);
        origin
    }
}

/// The settings of a new window.
fn first_settings(lines: u16) -> Settings
    requires { 0 < lines }
    ensures { result ≡ first_settings lines }
{
    Settings {
        cursor: (0, 0),
        region: (0, lines - 1),
        attrs: Attr::NONE,
        background: Cell::BLANK,
        pair: PairId::DEFAULT,
        scrolling: false,
        clear: false,
    }
}
