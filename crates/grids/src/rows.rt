//! Reading a line of a window, and the writes of one line of which every write is made.

ghost use Rattle.std.specs.Prelude.{◌≡◌, ◌<◌, ◌≤◌, ◌+◌, ◌-◌, ◌==◌, ◌&&◌};
ghost use Rattle.grids.specs.{ℕ, is_some, length, map, nat_lt, slice_index, slice_index_or, blank, EachIndex, true, false, AllByRecursion, IsCell, is_printable, printed_cell, set, with_cursor};
ghost use Rattle.grids.specs.{HasPlace, cell_at, put, AreSoundWindows, filled_cells, rectangle_filled, listed_cells, overlaid_cell, copied_cells, line_shown, AreAlike, AreRowsThere, RowCopied};
ghost use Rattle.grids.specs.{start_of, windows, given_cell, gives_cell, list_all};
ghost use Rattle.grids.specs.declared.rows.TheConstants.{PIECE};

use crate::frame::frame_of_two;
use crate::list::{columns_of, origin_of, row_in};
use crate::place::Place;
use crate::slot::Origin;
use crate::table::Grids;
use cell::{Cell, Rect, WinId};

/// How many cells are held at most while they are copied.
const PIECE: u16 = 128;

impl Grids {
    /// The cells of line `y` of a window, from left to right, without copying them. The line must exist.
    #[tactic(auto, using(crate::proofs::Sounds::each_sound))]
    pub fn row(&self, win: WinId, y: u16) -> &[Cell]
        requires { HasPlace (windows self.now).window win.0 y 0 }
        ensures row { result.now ≡ line_shown (windows self.now).window win.0 y }
        ensures cells { AllByRecursion IsCell result.now }
        ensures sound { AreSoundWindows (windows self.now) }
    {
        let origin = origin_of(&self.slots, win.0);
        let columns = columns_of(&self.slots, win.0);
        row_in(
            &self.slots,
            origin.grid,
            origin.line + y,
            origin.column,
            columns,
        )
    }

    /// The cell that a window shows at line `y` and column `x`. The place must exist.
    pub fn cell(&self, win: WinId, y: u16, x: u16) -> Cell
        requires { HasPlace (windows self.now).window win.0 y x }
        ensures cell { result ≡ cell_at (windows self.now).window win.0 y x }
        ensures sound { AreSoundWindows (windows self.now) }
    {
        self.row(win, y)[usize::from(x)]
    }

    /// Sets the cells of line `y` of a window in the columns from `left` to `right`, both inclusive, to one cell. The
    /// places must exist, and `left` must not be after `right`.
    pub fn fill(&mut self, win: WinId, y: u16, left: u16, right: u16, cell: Cell)
        requires ordered { left ≤ right }
        requires there { HasPlace (windows self.old).window win.0 y right }
        ensures written { windows self.new ≡ put (windows self.old) win.0 (filled_cells y left right cell) }
        ensures sound { AreSoundWindows (windows self.new) }
    {
        let line = Rect {
            top: y,
            left,
            bottom: y,
            right,
        };
        self.fill_rectangle(win, line, cell);
    }

    /// Sets the cells of a rectangle of a window to one cell. The places must exist, and no first line or column be after
    /// the last.
    pub fn fill_rectangle(&mut self, win: WinId, rect: Rect, cell: Cell)
        requires lines { rect.top ≤ rect.bottom }
        requires columns { rect.left ≤ rect.right }
        requires there { HasPlace (windows self.old).window win.0 rect.bottom rect.right }
        ensures written { windows self.new ≡ put (windows self.old) win.0 (rectangle_filled rect cell) }
        ensures sound { AreSoundWindows (windows self.new) }
    {
        let origin = self.touch_rectangle(win, rect);
        let filled = Rect {
            top: origin.line + rect.top,
            left: origin.column + rect.left,
            bottom: origin.line + rect.bottom,
            right: origin.column + rect.right,
        };
        self.change(WinId(origin.grid), |slot| slot.fill_rectangle(filled, cell));
    }

    /// Puts the cells that numbers give into line `y` of a window, from column `left` on. The places must exist.
    pub fn put(&mut self, win: WinId, y: u16, left: u16, numbers: &[u32])
        requires some { 0 < length numbers.now }
        requires given { list_all gives_cell numbers.now ≡ true }
        requires there { HasPlace (windows self.old).window win.0 y (left + length numbers.now - 1) }
        ensures written { windows self.new ≡ put (windows self.old) win.0 (listed_cells y left (map given_cell numbers.now)) }
        ensures sound { AreSoundWindows (windows self.new) }
    {
        prove!(self.has_window(WinId::STANDARD));
        let origin = self.touch(win, y, left, left + numbers.len() as u16 - 1);
        let line = origin.line + y;
        let start = origin.column + left;
        self.change(WinId(origin.grid), |slot| slot.give(line, start, numbers));
    }

    /// Sets the cell of a window at line `y` and column `x`, and moves the cursor to the next column. Both places must
    /// exist.
    #[inline(always)]
    pub fn type_cell(&mut self, win: WinId, y: u16, x: u16, cell: Cell)
        requires { HasPlace (windows self.old).window win.0 y (x + 1) }
        ensures written { windows self.new ≡ set (put (windows self.old) win.0 (filled_cells y x x cell)) win.0 (with_cursor (y, x + 1)) }
        ensures sound { AreSoundWindows (windows self.new) }
    {
        prove!(self.has_window(WinId::STANDARD));
        let origin = self.touch_to(win, y, x, x + 1);
        let line = origin.line + y;
        let column = origin.column + x;
        let place = Rect {
            top: line,
            left: column,
            bottom: line,
            right: column,
        };
        self.change(WinId(origin.grid), |slot| slot.fill_rectangle(place, cell));
    }

    /// Prints characters from 32 to 126 in line `y` of a window, from column `left` on, each with the attributes and
    /// the pair of a pen; a space becomes the pen itself. The cursor goes to the column after the last. The places must
    /// exist.
    #[inline(always)]
    pub fn print(&mut self, win: WinId, y: u16, left: u16, text: &[u8], pen: Cell)
        requires some { 0 < length text.now }
        requires there { HasPlace (windows self.old).window win.0 y (left + length text.now) }
        requires printable { EachIndex text.now (λ k. is_printable (slice_index text.now k) ≡ true) }
        ensures written { windows self.new ≡ set (put (windows self.old) win.0 (listed_cells y left (map (printed_cell pen) text.now)))
            win.0 (with_cursor (y, left + length text.now)) }
        ensures sound { AreSoundWindows (windows self.new) }
    {
        prove!(self.has_window(WinId::STANDARD));
        let origin = self.touch_to(win, y, left, left + text.len() as u16);
        let line = origin.line + y;
        let start = origin.column + left;
        self.change(
            WinId(origin.grid),
            |slot| slot.print(line, start, text, pen),
        );
    }

    /// Sets `n` cells of line `dy` of `dst` from column `dx` on to those that line `sy` of `src` has from column `sx`
    /// on, as if all were read before any is written; with `overlay`, all but the spaces. The places must exist.
    pub fn copy_row(
        &mut self,
        src: WinId,
        sy: u16,
        sx: u16,
        dst: WinId,
        dy: u16,
        dx: u16,
        n: u16,
        overlay: bool,
    )
        requires { 0 < n → AreRowsThere (windows self.old).window (record { win = src; line = sy; column = sx })
            (record { win = dst; line = dy; column = dx }) n }
        ensures written { windows self.new ≡ put (windows self.old) dst.0 (copied_cells (windows self.old).window src.0 sy sx dy dx n overlay) }
        ensures sound { AreSoundWindows (windows self.new) }
    {
        self.copy_rectangle(src, sy, sx, dst, dy, dx, 1, n, overlay);
    }

    /// Copies some cells of a line, and answers the smallest rectangle of the destination that holds what it wrote. It
    /// goes piece by piece, from the end at which no cell is written before it is read.
    pub(crate) fn copy_line(
        &mut self,
        from: Place,
        to: Place,
        n: u16,
        overlay: bool,
    ) -> Option<Rect>
        requires some { 0 < n }
        requires there { AreRowsThere (windows self.old).window from to n }
        ensures { RowCopied (windows self.old) from to n overlay result (windows self.new) }
    {
        let source = origin_of(&self.slots, from.win.0).onward(from.line, from.column);
        let target = origin_of(&self.slots, to.win.0).onward(to.line, to.column);
        let back = goes_back(source, target);
        let mut frame = None;
        let mut done = 0;
        'pieces: while done < n {
            let len = self.piece_length(from, n, done, back, overlay);
            let start = start_of(back, n, done, len);
            let copied = self.copy_piece(from.right_by(start), to.right_by(start), len, overlay);
            frame = frame_of_two(frame, copied);
            done += len;
        }
        frame
    }

    /// How many cells of a line of so many are the next piece of a copy: backwards one, of an overlay as many as are
    /// spaces, or as are none, and as can be held.
    fn piece_length(&self, from: Place, n: u16, done: u16, back: bool, overlay: bool) -> u16
        requires more { done < n }
        requires there { HasPlace (windows self.now).window from.win.0 from.line (from.column + n - 1) }
        ensures some { 0 < result }
        ensures few { result ≤ PIECE }
        ensures within { done + result ≤ n }
        ensures alike { AreAlike (windows self.now).window overlay from.win.0 from.line (from.column + start_of back n done result) result }
    {
        if back {
            return 1;
        }
        let most = (n - done).min(PIECE);
        if !overlay {
            return most;
        }
        let source = origin_of(&self.slots, from.win.0);
        run_length(row_in(
            &self.slots,
            source.grid,
            source.line + from.line,
            source.column + (from.column + done),
            most,
        ))
    }

    /// Copies cells that are all spaces, or of which none is, and so many that they can be held.
    fn copy_piece(&mut self, from: Place, to: Place, n: u16, overlay: bool) -> Option<Rect>
        requires some { 0 < n }
        requires few { n ≤ PIECE }
        requires there { AreRowsThere (windows self.old).window from to n }
        requires alike { AreAlike (windows self.old).window overlay from.win.0 from.line from.column n }
        ensures { RowCopied (windows self.old) from to n overlay result (windows self.new) }
    {
        if !is_copied(overlay, self.cell(from.win, from.line, from.column)) {
            return None;
        }
        self.copy_cells(from, to, n)
    }

    /// Copies so many cells that they can be held.
    fn copy_cells(&mut self, from: Place, to: Place, n: u16) -> Option<Rect>
        requires some { 0 < n }
        requires few { n ≤ PIECE }
        requires there { AreRowsThere (windows self.old).window from to n }
        ensures { RowCopied (windows self.old) from to n false result (windows self.new) }
    {
        let source = origin_of(&self.slots, from.win.0);
        let mut held = [Cell::BLANK; PIECE as usize];
        let piece = &mut held[..usize::from(n)];
        piece.copy_from_slice(row_in(
            &self.slots,
            source.grid,
            source.line + from.line,
            source.column + from.column,
            n,
        ));
        let right = to.column + n - 1;
        let target = self.touch(to.win, to.line, to.column, right);
        let line = target.line + to.line;
        let start = target.column + to.column;
        self.change(WinId(target.grid), |slot| slot.put_row(line, start, piece));
        Some(Rect {
            top: to.line,
            left: to.column,
            bottom: to.line,
            right,
        })
    }
}

/// Whether the cells of a line are copied from its end: a copy within one grid to columns further right.
fn goes_back(source: Origin, target: Origin) -> bool
    ensures { result ≡ (source.grid == target.grid && nat_lt source.column target.column) }
{
    source.grid == target.grid && source.column < target.column
}

/// Where the next of `n` lines or columns begin, `len` of them after so many, from the first on or back from the last.
pub(crate) fn start_of(back: bool, n: u16, done: u16, len: u16) -> u16
    requires { done + len ≤ n }
    ensures { result ≡ start_of back n done len }
{
    if back { n - (done + len) } else { done }
}

/// How many cells from the first on are spaces, or are none, as the first is.
fn run_length(cells: &[Cell]) -> u16
    requires some { 0 < length cells.now }
    requires few { length cells.now ≤ PIECE }
    ensures some { 0 < result }
    ensures within { result ≤ length cells.now }
    ensures alike { (k : ℕ) → k < result → is_some (overlaid_cell true (slice_index_or cells.now k blank)) ≡ is_some (overlaid_cell true (slice_index_or cells.now 0 blank)) }
{
    let first = is_copied(true, cells[0]);
    for k in 1..cells.len() {
        if is_copied(true, cells[k]) != first {
            return k as u16;
        }
    }
    cells.len() as u16
}

/// Whether a cell is copied, as all are but a space of an overlay.
fn is_copied(overlay: bool, cell: Cell) -> bool
    ensures { result ≡ is_some (overlaid_cell overlay cell) }
{
    !overlay || cell.ch() != b' '
}
