//! A grid of cells: what a window holds, or what a screen or a terminal shows.

ghost use Rattle.std.specs.Prelude.{◌≡◌, ◌≤◌, ◌<◌, ◌==◌, ◌&&◌, ◌+◌, ◌-◌, ◌*◌, if◌then◌else◌};
ghost use Rattle.cell.specs.{ℕ, nat_le, nat_lt, length, map, replicate, slice_index_or, IfOk, true, AllByRecursion, splice, blank, IsCell, with_blanks, moved, IsGrid, IsReached, shown};
ghost use Rattle.cell.specs.{shown_blank, start_of, IsShown, vec_capacity, EachCell, HasSize, all_of, cell_or, line_of, shown_at, size_of, with_cell, given_cell, gives_cell, list_all, rows, false};

use crate::cell::Cell;
use crate::colour::Pairs;
use crate::limits::LARGEST_PAD;
use crate::shown::Shown;
use std::alloc::{AllocError, Global};
use std::marker::Model;

/// What a grid has at each place. One of them is blank.
pub trait Element: Copy {
    // What a new grid has at each place, and what is known of each element.
    ghost blank: { Self };

    ghost Is: { Self → Type 0 };

    /// What a new grid has at each place.
    fn blank() -> Self
        ensures { result ≡ blank };

    /// Its character.
    fn character(self) -> u8
        ensures printable { 32 ≤ result }
        ensures sound { Is self };
}

impl Element for Cell {
    ghost blank = { blank };

    ghost Is = { IsCell };

    fn blank() -> Cell {
        Cell::BLANK
    }

    fn character(self) -> u8 {
        self.ch()
    }
}

impl Element for Shown {
    ghost blank = { shown_blank };

    ghost Is = { IsShown };

    fn blank() -> Shown {
        Shown::BLANK
    }

    fn character(self) -> u8 {
        self.ch()
    }
}

/// Lines of cells, all of one width, one after another in memory. Lines and columns count from 0.
#[derive(Drop)]
pub struct Grid<T: Element> {
    lines: usize,
    columns: usize,
    // The cells of the first lines, in memory for all. Where lines are missing, the last of these is blank, and stands
    // for them.
    cells: Vec<T>,
}

impl<T: Element> Model for Grid<T> {
    ghost use Rattle.std.specs.Prelude.{List, ◌*◌};
    ghost use Rattle.std.specs.Vec.{vec_capacity};
    ghost use Rattle.cell.specs.Grids.{rows, with_blanks, IsGrid};

    ghost Value = { List (List T) };

    ghost view = { λ grid. rows grid.lines grid.columns (with_blanks T.blank (grid.lines * grid.columns) grid.cells.items) };

    ghost invariant = { λ grid. IsGrid T.Is T.blank grid.lines grid.columns grid.cells.items (vec_capacity grid.cells) };
}

impl<T: Element> Grid<T> {
    /// A grid of blanks, in one allocation. It has at most `LARGEST_PAD` lines and columns, and fails only for lack of
    /// memory.
    pub fn new(alloc: Global, lines: u16, columns: u16) -> Result<Grid<T>, AllocError>
        requires lines { lines ≤ LARGEST_PAD }
        requires columns { columns ≤ LARGEST_PAD }
        ensures { IfOk result (λ grid. grid ≡ all_of T.blank lines columns) }
    {
        let lines = usize::from(lines);
        let columns = usize::from(columns);
        let mut cells = Vec::with_capacity(alloc, lines * columns)?;
        add_blanks(&mut cells, columns.min(lines * columns));
        Ok(Grid {
            lines,
            columns,
            cells,
        })
    }

    /// The cells of line `y`, from left to right.
    pub fn row(&self, y: usize) -> &[T]
        requires { y < length self.now }
        ensures row { result.now ≡ line_of self.now y }
        ensures cells { EachCell T.Is self.now }
    {
        let last = self.cells.len() - self.columns;
        let start = (y * self.columns).min(last);
        &self.cells[start..start + self.columns]
    }

    /// Puts a cell at line `y` and column `x`.
    pub fn set(&mut self, y: usize, x: usize, cell: T)
        requires line { y < length self.old }
        requires column { x < length (line_of self.old y) }
        ensures { self.new ≡ with_cell self.old (y, x) cell }
    {
        prove!(x < self.columns);
        self.fill(y, x, x + 1, cell);
    }

    /// Puts one cell in the columns of line `y` from `start` on, up to `end`, which it leaves out.
    #[inline(always)]
    pub fn fill(&mut self, y: usize, start: usize, end: usize, cell: T)
        requires line { y < length self.old }
        requires ordered { start ≤ end }
        requires columns { end ≤ length (line_of self.old y) }
        ensures shown { (v u : ℕ) → cell_or T.blank self.new (v, u) ≡ (if (v == y) &&
            (nat_le start u && nat_lt u end) then cell else cell_or T.blank self.old (v, u)) }
        ensures height { length self.new ≡ length self.old }
        ensures size { (lines columns : ℕ) → HasSize lines columns self.old → HasSize lines columns self.new }
        ensures cells { EachCell T.Is self.old → EachCell T.Is self.new }
    {
        self.fill_rectangle(y, y, start, end, cell);
    }

    /// Puts one cell in the columns from `start` on, up to `end`, which it leaves out, of the lines from `top` to
    /// `bottom`, both inclusive.
    #[inline(always)]
    pub fn fill_rectangle(&mut self, top: usize, bottom: usize, start: usize, end: usize, cell: T)
        requires lines { top ≤ bottom }
        requires bottom { bottom < length self.old }
        requires ordered { start ≤ end }
        requires columns { end ≤ length (line_of self.old bottom) }
        ensures shown { (v u : ℕ) → cell_or T.blank self.new (v, u) ≡ (if (nat_le top v && nat_le v bottom) &&
            (nat_le start u && nat_lt u end) then cell else cell_or T.blank self.old (v, u)) }
        ensures height { length self.new ≡ length self.old }
        ensures size { (lines columns : ℕ) → HasSize lines columns self.old → HasSize lines columns self.new }
        ensures cells { EachCell T.Is self.old → EachCell T.Is self.new }
    {
        prove!(cell.character() >= b' ');
        fill_lines(
            &mut self.cells,
            self.lines,
            self.columns,
            top,
            bottom,
            start,
            end,
            cell,
        );
    }

    /// Puts cells into line `y`, from column `x` on.
    pub fn put_cells(&mut self, y: usize, x: usize, cells: &[T])
        requires line { y < length self.old }
        requires columns { x + length cells.now ≤ length (line_of self.old y) }
        requires cells { AllByRecursion T.Is cells.now }
        ensures shown { (v u : ℕ) → cell_or T.blank self.new (v, u) ≡ (if (v == y) &&
            (nat_le x u && nat_lt u (x + length cells.now)) then slice_index_or cells.now (u - x) T.blank else cell_or T.blank self.old (v, u)) }
        ensures height { length self.new ≡ length self.old }
        ensures size { (lines columns : ℕ) → HasSize lines columns self.old → HasSize lines columns self.new }
        ensures cells { EachCell T.Is self.old → EachCell T.Is self.new }
    {
        let line = reach(&mut self.cells, self.lines, self.columns, y);
        put_piece(&mut self.cells, line + x, cells);
    }

    /// Copies so many lines and columns from line `sy` and column `sx` on to line `dy` and column `dx` on, as if all
    /// were read before any is written.
    pub fn copy_block(
        &mut self,
        sy: usize,
        sx: usize,
        dy: usize,
        dx: usize,
        lines: usize,
        columns: usize,
    )
        requires source { sy + lines ≤ length self.old }
        requires target { dy + lines ≤ length self.old }
        requires source_columns { sx + columns ≤ length (line_of self.old sy) }
        requires target_columns { dx + columns ≤ length (line_of self.old dy) }
        ensures shown { (v u : ℕ) → cell_or T.blank self.new (v, u) ≡ (if (nat_le dy v && nat_lt v (dy + lines)) && (nat_le dx u && nat_lt u (dx + columns))
            then cell_or T.blank self.old (sy + (v - dy), sx + (u - dx)) else cell_or T.blank self.old (v, u)) }
        ensures height { length self.new ≡ length self.old }
        ensures size { (lines columns : ℕ) → HasSize lines columns self.old → HasSize lines columns self.new }
        ensures cells { EachCell T.Is self.old → EachCell T.Is self.new }
    {
        if columns == self.columns {
            return self.copy_lines(sy, dy, lines);
        }
        let back = sy < dy;
        for i in 0..lines {
            let k = start_of(back, lines, i, 1);
            self.copy_cells(sy + k, sx, dy + k, dx, columns);
        }
    }

    /// Copies whole lines from line `from` on to line `to` on.
    fn copy_lines(&mut self, from: usize, to: usize, n: usize)
        requires source { from + n ≤ length self.old }
        requires target { to + n ≤ length self.old }
        ensures shown { (v u : ℕ) → cell_or T.blank self.new (v, u) ≡ (if nat_le to v && nat_lt v (to + n)
            then cell_or T.blank self.old (from + (v - to), u) else cell_or T.blank self.old (v, u)) }
        ensures height { length self.new ≡ length self.old }
        ensures size { (lines columns : ℕ) → HasSize lines columns self.old → HasSize lines columns self.new }
        ensures cells { EachCell T.Is self.old → EachCell T.Is self.new }
    {
        if n > 0 {
            move_cells(
                &mut self.cells,
                self.lines,
                self.columns,
                from.max(to) + n - 1,
                from * self.columns,
                to * self.columns,
                n * self.columns,
            );
        }
    }

    /// Copies `n` cells of line `sy` from column `sx` on to line `dy` from column `dx` on.
    fn copy_cells(&mut self, sy: usize, sx: usize, dy: usize, dx: usize, n: usize)
        requires source { sy < length self.old }
        requires target { dy < length self.old }
        requires source_columns { sx + n ≤ length (line_of self.old sy) }
        requires target_columns { dx + n ≤ length (line_of self.old dy) }
        ensures shown { (v u : ℕ) → cell_or T.blank self.new (v, u) ≡ (if (v == dy) && (nat_le dx u && nat_lt u (dx + n))
            then cell_or T.blank self.old (sy, sx + (u - dx)) else cell_or T.blank self.old (v, u)) }
        ensures height { length self.new ≡ length self.old }
        ensures size { (lines columns : ℕ) → HasSize lines columns self.old → HasSize lines columns self.new }
        ensures cells { EachCell T.Is self.old → EachCell T.Is self.new }
    {
        move_cells(
            &mut self.cells,
            self.lines,
            self.columns,
            sy.max(dy),
            sy * self.columns + sx,
            dy * self.columns + dx,
            n,
        );
    }

    /// Puts blanks everywhere.
    pub fn clear(&mut self)
        ensures { (lines columns : ℕ) → HasSize lines columns self.old → self.new ≡ all_of T.blank lines columns }
    {
        self.cells.truncate(0);
        add_blanks(&mut self.cells, self.columns.min(self.lines * self.columns));
    }

    /// Takes over all cells of a grid of the same size.
    pub fn copy_from(&mut self, other: &Grid<T>)
        requires { size_of self.old ≡ size_of other.now }
        ensures { self.new ≡ other.now }
    {
        self.cells.clear();
        self.cells.extend_from_slice(&other.cells).unwrap();
    }
}

/// Where the next of `n` lines begin, `len` of them after so many, from the first on or back from the last.
fn start_of(back: bool, n: usize, done: usize, len: usize) -> usize
    requires { done + len ≤ n }
    ensures { result ≡ start_of back n done len }
{
    if back { n - (done + len) } else { done }
}

/// Puts cells into line `y` of a picture from column `x` on, in the colours that their pairs have, and answers whether
/// the line may have changed. It looks whether it shows them already, unless the line has changed anyway.
pub fn show_cells(
    cells: &[Cell],
    pairs: &Pairs,
    y: u16,
    x: u16,
    changed: bool,
    picture: &mut Grid<Shown>,
) -> bool
    requires line { y < length picture.old }
    requires columns { x + length cells.now ≤ length (line_of picture.old y) }
    ensures shown { (v u : ℕ) → shown_at picture.new (v, u) ≡ (if (v == y) && (nat_le x u && nat_lt u (x + length cells.now)) then shown pairs.now
        (slice_index_or cells.now (u - x) blank) else shown_at picture.old (v, u)) }
    ensures size { (lines columns : ℕ) → HasSize lines columns picture.old → HasSize lines columns picture.new }
    ensures height { length picture.new ≡ length picture.old }
    ensures width { (v : ℕ) → length (line_of picture.new v) ≡ length (line_of picture.old v) }
    ensures kept { result ≡ false → (changed ≡ false) × (picture.new ≡ picture.old) }
{
    let (y, x) = (usize::from(y), usize::from(x));
    if !changed && pairs.are_shown(cells, &picture.row(y)[x..x + cells.len()]) {
        return false;
    }
    let line = reach(&mut picture.cells, picture.lines, picture.columns, y);
    show_piece(cells, pairs, &mut picture.cells, line + x);
    true
}

/// Puts the cells that numbers give into line `y` of a grid, from column `x` on.
pub fn give_cells(numbers: &[u32], y: usize, x: usize, grid: &mut Grid<Cell>)
    requires line { y < length grid.old }
    requires columns { x + length numbers.now ≤ length (line_of grid.old y) }
    requires given { list_all gives_cell numbers.now ≡ true }
    ensures shown { (v u : ℕ) → cell_or blank grid.new (v, u) ≡ (if (v == y) && (nat_le x u && nat_lt u (x + length numbers.now)) then
        slice_index_or (map given_cell numbers.now) (u - x) blank else cell_or blank grid.old (v, u)) }
    ensures height { length grid.new ≡ length grid.old }
    ensures size { (lines columns : ℕ) → HasSize lines columns grid.old → HasSize lines columns grid.new }
    ensures cells { EachCell IsCell grid.old → EachCell IsCell grid.new }
{
    let line = reach(&mut grid.cells, grid.lines, grid.columns, y);
    give_piece(numbers, &mut grid.cells, line + x);
}

/// Puts the cells that numbers give among others, from a place on, by a loop that the compiler vectorizes.
fn give_piece(numbers: &[u32], cells: &mut Vec<Cell>, start: usize)
    requires there { start + length numbers.now ≤ length cells.old.items }
    requires given { list_all gives_cell numbers.now ≡ true }
    ensures cells { cells.new.items ≡ splice cells.old.items start (start + length numbers.now) (map given_cell numbers.now) }
    ensures sound { AllByRecursion IsCell (map given_cell numbers.now) }
    ensures room { vec_capacity cells.new ≡ vec_capacity cells.old }
{
    let end = start + numbers.len();
    give_each(numbers, &mut cells[start..end]);
}

/// Writes the cells that numbers give into as many places.
fn give_each(numbers: &[u32], places: &mut [Cell])
    requires long { length places.old ≡ length numbers.now }
    requires given { list_all gives_cell numbers.now ≡ true }
    ensures given { places.new ≡ map given_cell numbers.now }
    ensures sound { AllByRecursion IsCell places.new }
{
    for x in 0..numbers.len() {
        places[x] = Cell::of_number(numbers[x]);
    }
}

/// Puts how cells are shown among others, from a place on.
fn show_piece(piece: &[Cell], pairs: &Pairs, cells: &mut Vec<Shown>, start: usize)
    requires { start + length piece.now ≤ length cells.old.items }
    ensures cells { cells.new.items ≡ splice cells.old.items start (start + length piece.now) (map (shown pairs.now) piece.now) }
    ensures sound { AllByRecursion IsShown (map (shown pairs.now) piece.now) }
    ensures room { vec_capacity cells.new ≡ vec_capacity cells.old }
{
    pairs.show(piece, &mut cells[start..start + piece.len()]);
}

/// Sees that line `y` of so many is there, and one below it if there is one, and answers where it starts.
#[inline(always)]
fn reach<T: Element>(cells: &mut Vec<T>, lines: usize, columns: usize, y: usize) -> usize
    requires grid { IsGrid T.Is T.blank lines columns cells.old.items (vec_capacity cells.old) }
    requires line { y < lines }
    ensures line { result ≡ y * columns }
    ensures grid { IsGrid T.Is T.blank lines columns cells.new.items (vec_capacity cells.new) }
    ensures reached { IsReached T.blank lines columns y cells.old.items cells.new.items }
{
    let line = y * columns;
    let end = line + columns + columns;
    if cells.len() < end && cells.len() < lines * columns {
        let twice = cells.len() * 2;
        add_blanks(cells, end.max(twice).min(lines * columns));
    }
    line
}

/// Adds blanks until there are so many cells. There is memory for them.
#[cold]
#[inline(never)]
fn add_blanks<T: Element>(cells: &mut Vec<T>, end: usize)
    requires { end ≤ vec_capacity cells.old }
    ensures cells { cells.new.items ≡ with_blanks T.blank end cells.old.items }
    ensures room { vec_capacity cells.old ≤ vec_capacity cells.new }
    ensures blank { T.Is T.blank }
{
    let blank = T::blank();
    prove!(blank.character() >= b' ');
    let end = end.max(cells.len());
    cells.resize(end, blank).unwrap();
}

/// Puts one cell in the columns from `start` on, up to `end`, which it leaves out, of the lines from `top` to `bottom` of
/// so many.
#[inline(always)]
fn fill_lines<T: Element>(
    cells: &mut Vec<T>,
    lines: usize,
    columns: usize,
    top: usize,
    bottom: usize,
    start: usize,
    end: usize,
    cell: T,
)
    requires grid { IsGrid T.Is T.blank lines columns cells.old.items (vec_capacity cells.old) }
    requires sound { T.Is cell }
    requires lines { top ≤ bottom }
    requires bottom { bottom < lines }
    requires ordered { start ≤ end }
    requires columns { end ≤ columns }
    ensures grid { IsGrid T.Is T.blank lines columns cells.new.items (vec_capacity cells.new) }
    ensures filled { (v u : ℕ) → cell_or T.blank (rows lines columns (with_blanks T.blank (lines * columns) cells.new.items)) (v, u)
        ≡ (if (nat_le top v && nat_le v bottom) && (nat_le start u && nat_lt u end) then cell
        else cell_or T.blank (rows lines columns (with_blanks T.blank (lines * columns) cells.old.items)) (v, u)) }
{
    reach(cells, lines, columns, bottom);
    for y in top..bottom + 1 {
        fill_piece(cells, y * columns + start, end - start, cell);
    }
}

/// Puts one cell in so many places, from one on.
fn fill_piece<T: Copy>(cells: &mut Vec<T>, start: usize, count: usize, cell: T)
    requires { start + count ≤ length cells.old.items }
    ensures cells { cells.new.items ≡ splice cells.old.items start (start + count) (replicate count cell) }
    ensures room { vec_capacity cells.new ≡ vec_capacity cells.old }
{
    fill_each(&mut cells[start..start + count], cell);
}

/// Puts one cell in all of some places, in more than one by a loop that the compiler vectorizes.
#[tactic(auto, using(crate::proofs::Fills::fill_one))]
fn fill_each<T: Copy>(places: &mut [T], cell: T)
    ensures { places.new ≡ replicate (length places.old) cell }
{
    if places.len() == 1 {
        places[0] = cell;
        return;
    }
    for x in 0..places.len() {
        places[x] = cell;
    }
}

/// Puts cells among others, from a place on.
fn put_piece<T: Copy>(cells: &mut Vec<T>, start: usize, piece: &[T])
    requires { start + length piece.now ≤ length cells.old.items }
    ensures cells { cells.new.items ≡ splice cells.old.items start (start + length piece.now) piece.now }
    ensures room { vec_capacity cells.new ≡ vec_capacity cells.old }
{
    cells[start..start + piece.len()].copy_from_slice(piece);
}

/// Copies so many cells of the lines up to line `y` from one place on to another, as if all were read before any is
/// written.
fn move_cells<T: Element>(
    cells: &mut Vec<T>,
    lines: usize,
    columns: usize,
    y: usize,
    from: usize,
    to: usize,
    n: usize,
)
    requires grid { IsGrid T.Is T.blank lines columns cells.old.items (vec_capacity cells.old) }
    requires line { y < lines }
    requires from { from + n ≤ y * columns + columns }
    requires to { to + n ≤ y * columns + columns }
    ensures grid { IsGrid T.Is T.blank lines columns cells.new.items (vec_capacity cells.new) }
    ensures moved { with_blanks T.blank (lines * columns) cells.new.items ≡ moved from to n (with_blanks T.blank (lines * columns) cells.old.items) }
{
    reach(cells, lines, columns, y);
    move_piece(cells, from, to, n);
}

/// Copies so many cells from one place on to another, as if all were read before any is written.
fn move_piece<T: Copy>(cells: &mut Vec<T>, from: usize, to: usize, n: usize)
    requires from { from + n ≤ length cells.old.items }
    requires to { to + n ≤ length cells.old.items }
    ensures cells { cells.new.items ≡ moved from to n cells.old.items }
    ensures room { vec_capacity cells.new ≡ vec_capacity cells.old }
{
    cells.copy_within(from..from + n, to);
}
