//! The windows and panels under a virtual screen.

ghost use Rattle.std.specs.Prelude.{◌≡◌, ◌<◌, ◌≤◌, ◌-◌, ◌==◌, ◌&&◌, if◌then◌else◌};
ghost use Rattle.compose.specs.{ℕ, None, Ok, Some, IfOk, false, true, length, nat_le, nat_lt, replicate, slice_index_or, result_err, AreShown, HasSize, line_of, picture_of, shown_at, blank, shown};
ghost use Rattle.compose.specs.{first_world, picture, is_doupdate, IsSound, new_refusal, among, colour_tests, line_shown, HasPlace, RefusedBy, first_of, windows as windows_of, panels, IsSpan, Call};
ghost use Rattle.compose.specs.{Refresh, damaged_columns, is_damaged_line, world, Called, Filled, RowPut};

use crate::damaging::damage_part;
use crate::damaging_calls::{arrange_damaging, copy_damaging, make_damaging, write_damaging};
use crate::dispatch::refresh;
use crate::given::{fill_damaging, put_damaging};
use crate::marks::unmark_composed;
use crate::queries::{answer, of_window};
use crate::virtual_picture::VirtualPicture;
use calls::Calls;
use cell::{Cell, Colour, Grid, PairId, Pairs, Rect, Refusal, Shown, VirtualScreen, WinId};
use extents::Extents;
use grids::Grids;
use picture::{
    Owners, Span, TableRows, cell_found, owner_span, show_damaged, wanted_cursor, window_part,
};
use stack::Stack;
use std::alloc::{AllocError, Global};
use std::marker::Model;
use windows::Windows;
use world::{Call, Columns, Composed, Copying, Making, Query, Refresh, Reply, Stacking, Writing};

/// A screen's windows and pads, its panels, its colour pairs, and its virtual screen: a picture, where the cursor is
/// wanted, and whether the terminal is to be cleared first. Of each line it keeps the damaged columns: everywhere else
/// the virtual screen shows what the search from the top finds. It also keeps the changed ones: everywhere else the
/// virtual screen shows what it showed when it was last taken.
#[derive(Drop)]
pub struct Desk {
    pub(crate) windows: Windows,
    pub(crate) stack: Stack,
    pub(crate) pairs: Pairs,
    pub(crate) picture: VirtualPicture,
    pub(crate) cursor: (u16, u16),
    pub(crate) clear: bool,
    pub(crate) damage: Extents,
    pub(crate) cells_read: u64,
    // Room for the search.
    owners: Box<Owners>,
}

impl Model for Desk {
    ghost use Rattle.compose.specs.Covers.{IsDesk};
    ghost use Rattle.compose.specs.Desks.{DeskTable};

    ghost Value = { DeskTable };

    ghost view = { λ d. record {
      windows = d.windows.table;
      panels = d.stack;
      pairs = d.pairs;
      virtual = record { picture = d.picture.cells; cursor = d.cursor; clear = d.clear };
      changes = d.picture.changes;
      damage = d.damage;
      cells_read = d.cells_read;
    } };

    ghost invariant = { λ d. IsDesk (record {
      windows = d.windows.table;
      panels = d.stack;
      pairs = d.pairs;
      virtual = record { picture = d.picture.cells; cursor = d.cursor; clear = d.clear };
      changes = d.picture.changes;
      damage = d.damage;
      cells_read = d.cells_read;
    }) };
}

impl Desk {
    /// The blank standard screen of 1 to `LARGEST_SCREEN` lines and columns, under a blank virtual screen.
    ///
    /// # Errors
    /// `BadSize` for a size out of these limits, `NoMemory`.
    pub fn new(alloc: Global, lines: u16, cols: u16) -> Result<Desk, Refusal>
        ensures world { IfOk result (λ desk. world desk ≡ first_world lines cols) }
        ensures sound { IfOk result (λ desk. IsSound (world desk)) }
        ensures damage { IfOk result (λ desk. (line : ℕ) → is_damaged_line desk line ≡ false) }
        ensures reads { IfOk result (λ desk. desk.cells_read ≡ 0) }
        ensures refused { RefusedBy (new_refusal lines cols) result }
    {
        let windows = Windows::new(alloc, lines, cols)?;
        let picture = VirtualPicture::new(alloc, lines, cols)?;
        let damage = Extents::none(alloc, lines)?;
        let owners = room_for_search(alloc)?;
        Ok(Desk {
            windows,
            stack: Stack::new(alloc),
            pairs: Pairs::new(),
            picture,
            cursor: (0, 0),
            clear: false,
            damage,
            cells_read: 0,
            owners,
        })
    }

    /// The windows and pads.
    pub fn windows(&self) -> &Windows
        ensures { result.now.table ≡ self.now.windows }
    {
        &self.windows
    }

    /// Takes the picture of windows and panels, and the topmost's cursor, into the virtual screen. It reads windows
    /// where the screen is damaged, answers how many cells that were, and leaves no damage. It lends the table: what it
    /// calls has rows that count, or marks, and so no cell but those that it counts.
    pub(crate) fn compose(&mut self) -> Composed
        ensures { Called self.old (Call.Refresh Refresh.UpdatePanels) (Ok (Reply.Composed result)) self.new }
    {
        let (lines, _) = self.size();
        let mut rows = TableRows::of(&self.windows.table, self.cells_read);
        let cells = show_damaged(
            &mut rows,
            &self.stack,
            &self.pairs,
            &mut self.owners,
            lines,
            &mut self.damage,
            &mut self.picture.cells,
            &mut self.picture.changes,
        );
        self.cursor = wanted_cursor(&rows, &self.stack);
        self.cells_read = rows.cells_read();
        self.clear |= unmark_composed(&mut self.windows.table, &self.stack);
        Composed { cells }
    }

    /// The damaged columns of a line, or none: everywhere else the virtual screen shows what the search from the top
    /// finds.
    pub fn damaged_columns(&self, y: u16) -> Option<Columns>
        requires { y < self.now.windows.lines }
        ensures columns { result ≡ damaged_columns self.now y }
        ensures shown { (x : ℕ) → x < self.now.windows.columns → among result x ≡ false
            → shown_at self.now.virtual.picture (y, x) ≡ picture (world self.now) y x }
    {
        self.damage.line(y)
    }

    /// The first line from one on that has damaged columns, and where there is none, a line past the last.
    pub fn next_damaged(&self, from: u16) -> u16
        ensures from { from ≤ result }
        ensures inside { from ≤ self.now.windows.lines → result ≤ self.now.windows.lines }
        ensures none { (y : ℕ) → from ≤ y → y < result → damaged_columns self.now y ≡ None }
        ensures found { result < self.now.windows.lines → is_damaged_line self.now result ≡ true }
        ensures shown { (y x : ℕ) → from ≤ y → y < result → y < self.now.windows.lines → x < self.now.windows.columns
            → shown_at self.now.virtual.picture (y, x) ≡ picture (world self.now) y x }
    {
        self.damage.next(from)
    }

    /// Gives a colour pair a foreground and a background. What is shown already stays.
    ///
    /// # Errors
    /// `BadPair` for pair 0, for one past `LAST_PAIR`, and for a colour past `LAST_COLOUR`.
    pub(crate) fn set_colours(
        &mut self,
        pair: u16,
        foreground: u16,
        background: u16,
    ) -> Result<Reply, Refusal>
        ensures { Called self.old (Call.Refresh (Refresh.InitPair pair foreground background)) result self.new }
    {
        let (at, foreground, background) = colours_for(pair, foreground, background)?;
        self.pairs.set(at, foreground, background);
        let part = window_part(&self.windows.table, WinId::STANDARD);
        damage_part(&mut self.damage, part);
        Ok(Reply::Nothing)
    }

    /// Makes a call that makes, places or deletes a window or pad. Each group has a function of its own, so that a call
    /// of another makes no room for what it takes and answers.
    #[inline(always)]
    fn make(&mut self, making: Making) -> Result<Reply, Refusal>
        ensures { Called self.old (Call.Making making) result self.new }
    {
        make_damaging(
            &mut self.windows.table,
            &self.stack,
            &mut self.damage,
            making,
        )
    }

    /// Makes a call that writes in a window, or sets how it is written in.
    #[inline(always)]
    fn write(&mut self, writing: Writing<'_>) -> Result<Reply, Refusal>
        ensures { Called self.old (Call.Writing writing.entry) result self.new }
    {
        write_damaging(&mut self.windows, &self.stack, &mut self.damage, writing)
    }

    /// Makes a call that copies cells or touches places, or asks what is touched.
    #[inline(always)]
    fn copy(&mut self, copying: Copying) -> Result<Reply, Refusal>
        ensures { Called self.old (Call.Copying copying) result self.new }
    {
        copy_damaging(&mut self.windows, &self.stack, &mut self.damage, copying)
    }

    /// Sets the cells of a rectangle of a window to one cell: a number, as `Cell::bits` answers it.
    ///
    /// # Errors
    /// `NoSuchWindow`; `BadRectangle` if a last line or column comes before its first; `OutsideWindow` if the rectangle
    /// isn't in the window; `BadCharacter` for a character outside 32 to 126; `BadPair` for a pair past `LAST_PAIR`.
    pub fn fill(&mut self, win: WinId, rect: Rect, cell: u32) -> Result<(), Refusal>
        ensures { Filled self.old win.0 rect cell result self.new }
    {
        fill_damaging(
            &mut self.windows,
            &self.stack,
            &mut self.damage,
            win,
            rect,
            cell,
        )?;
        Ok(())
    }

    /// Puts cells, numbers as `Cell::bits` answers them, into line `y` of a window, from column `x` on.
    ///
    /// # Errors
    /// `NoSuchWindow`; `OutsideWindow` if the window hasn't line `y`, or not so many columns from `x` on;
    /// `BadCharacter` for a character outside 32 to 126; `BadPair` for a pair past `LAST_PAIR`.
    pub fn put(&mut self, win: WinId, y: u16, x: u16, cells: &[u32]) -> Result<(), Refusal>
        ensures { RowPut self.old win.0 y x cells.now result self.new }
    {
        put_damaging(
            &mut self.windows,
            &self.stack,
            &mut self.damage,
            win,
            y,
            x,
            cells,
        )?;
        Ok(())
    }

    /// Answers a call that asks about a window or pad.
    #[inline(always)]
    fn ask_window(&self, asked: Query) -> Result<Reply, Refusal>
        ensures { Called self.now (Call.Query asked) result self.now }
    {
        of_window(&self.windows, asked)
    }

    /// Makes a call that changes panels, or asks about them.
    #[inline(always)]
    fn arrange(&mut self, stacking: Stacking) -> Result<Reply, Refusal>
        ensures { Called self.old (Call.Stacking stacking) result self.new }
    {
        arrange_damaging(
            &mut self.windows.table,
            &mut self.stack,
            &mut self.damage,
            stacking,
        )
    }

    /// Makes a call that refreshes or sets the colours of a pair, which is any of them but `doupdate`.
    #[inline(always)]
    fn refresh_any(&mut self, asked: Refresh) -> Result<Reply, Refusal>
        requires { is_doupdate (Call.Refresh asked) ≡ false }
        ensures { Called self.old (Call.Refresh asked) result self.new }
    {
        refresh(self, asked)
    }

    /// How many cells of windows the calls of `update_panels` have read since the desk was made, modulo 2^64.
    pub fn cells_read(&self) -> u64
        ensures { result ≡ self.now.cells_read }
    {
        self.cells_read
    }

    /// The panels.
    pub fn stack(&self) -> &Stack
        ensures { result.now ≡ self.now.panels }
    {
        &self.stack
    }

    /// What the search from the top finds at line `y` and column `x` of the screen, in the colours of its pair.
    pub fn picture(&self, y: u16, x: u16) -> Shown
        requires line { y < self.now.windows.lines }
        requires column { x < self.now.windows.columns }
        ensures { result ≡ picture (world self.now) y x }
    {
        let (_, columns) = self.size();
        self.pairs.show_cell(cell_found(&self.windows.table, &self.stack, y, x, columns))
    }

    /// The panel that the search from the top finds at line `y` and column `x` of the screen, none for the standard
    /// screen, and the last column up to which it finds the same at every column.
    pub fn owner_span(&self, y: u16, x: u16) -> Span
        requires line { y < self.now.windows.lines }
        requires column { x < self.now.windows.columns }
        ensures { IsSpan (windows_of self.now.windows).window (panels self.now.panels) y x (self.now.windows.columns - 1) result }
    {
        let (_, columns) = self.size();
        let rows = TableRows::of(&self.windows.table, 0);
        owner_span(&rows, &self.stack, y, x, columns - 1)
    }

    /// The cells of line `y` of a window or pad, from left to right. The line must exist.
    pub fn row(&self, win: WinId, y: u16) -> &[Cell]
        requires { HasPlace (world self.now).windows.window win.0 y 0 }
        ensures { result.now ≡ line_shown (world self.now).windows.window win.0 y }
    {
        self.windows.table.row(win, y)
    }

    /// How many lines and columns the screen has.
    pub fn size(&self) -> (u16, u16)
        ensures size { result ≡ (self.now.windows.lines, self.now.windows.columns) }
        ensures sound { IsSound (world self.now) }
    {
        self.windows.table.screen_size()
    }

    /// The cells of a line of the virtual screen.
    pub fn virtual_row(&self, y: u16) -> &[Shown]
        requires { y < self.now.windows.lines }
        ensures { result.now ≡ line_of self.now.virtual.picture y }
    {
        self.picture.cells.row(usize::from(y))
    }

    /// Of each line the columns in which the virtual screen may show something else than when it was last taken.
    pub fn changes(&self) -> &Extents
        ensures changes { result.now ≡ self.now.changes }
        ensures height { length result.now ≡ self.now.windows.lines }
    {
        &self.picture.changes
    }

    /// The virtual screen was taken: nothing of it has changed since, and the terminal needn't be cleared any more.
    pub fn mark_taken(&mut self)
        ensures { self.new ≡ record self.old {
          virtual = record self.old.virtual { clear = false };
          changes = replicate (length self.old.changes) None;
        } }
    {
        self.clear = false;
        self.picture.changes.clear();
    }
}

impl VirtualScreen for Desk {
    ghost shown = { λ desk. desk.virtual };

    fn virtual_screen(&self) -> &Grid<Shown> {
        &self.picture.cells
    }

    fn wanted_cursor(&self) -> (u16, u16) {
        self.cursor
    }

    fn clear_wanted(&self) -> bool {
        self.clear
    }
}

impl Calls for Desk {
    ghost use Rattle.compose.specs.KindLaws.{answers-called, composes-called};

    type Error = Refusal;

    ghost made = { Called };

    #[inline(always)]
    fn call(&mut self, call: &Call<'_>) -> Result<Reply, Refusal> {
        match *call {
            Call::Making(making) => self.make(making),
            Call::Writing(writing) => self.write(writing),
            Call::Copying(copying) => self.copy(copying),
            Call::Query(asked) => self.ask_window(asked),
            Call::Stacking(stacking) => self.arrange(stacking),
            Call::Refresh(asked) => self.refresh_any(asked),
        }
    }

    #[inline(always)]
    fn ask(&self, query: &Call<'_>) -> Result<Reply, Refusal> {
        answer(&self.windows, &self.stack, query)
    }

    ghost answers = { answers-called };

    ghost composes = { composes-called };
}

/// Room for the search. It is made in a function of its own, so that what makes a desk has no such room on the stack.
#[inline(never)]
fn room_for_search(alloc: Global) -> Result<Box<Owners>, AllocError> {
    Ok(Box::new(alloc, Owners::none())?)
}

/// A pair that can be set, and two colours.
fn colours_for(
    pair: u16,
    foreground: u16,
    background: u16,
) -> Result<(PairId, Colour, Colour), Refusal>
    ensures refused { result_err result ≡ first_of (colour_tests pair foreground background) }
    ensures made { IfOk result (λ made. made ≡ (pair, foreground, background)) }
{
    if pair == 0 {
        return Err(Refusal::BadPair);
    }
    let at = PairId::new(pair).ok_or(Refusal::BadPair)?;
    let foreground = Colour::new(foreground).ok_or(Refusal::BadPair)?;
    let background = Colour::new(background).ok_or(Refusal::BadPair)?;
    Ok((at, foreground, background))
}
