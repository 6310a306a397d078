//! The calls that write characters.

ghost use Rattle.std.specs.Prelude.{◌≡◌, ◌+◌, ◌<◌, ◌≤◌, ◌==◌, if◌then◌else◌, ◌&&◌};
ghost use Rattle.windows.specs.{ℕ, length, slice_index, take, EachIndex, IsSome, Some, false, nat_lt, true, list_all, list_any, bits_of, written_glyph, AreSoundWindows, is_bad_character, frame_of};
ghost use Rattle.windows.specs.{to_next_line, next_line_drawing, line_ended, line_ended_drawing, typed_in, typed_drawing, Writing, is_printable, windows, Wrote, its_frame, IsStateOf, window_in_state};
ghost use Rattle.windows.specs.{CharacterPrinted, HasStateAndPlace, StepWrote, TextTyped};

use crate::drawing::{clear_rest, delete_cell, insert_cell, move_up, set_cell};
use crate::frame::lines_from;
use crate::state::{WindowState, state_of};
use crate::table::Windows;
use bitflags::Flags;
use cell::{Cell, PairId, Rect, Refusal, WinId, are_printable, is_printable};
use grids::Grids;
use grids::frame::{frame_of_two, place};
use world::Settings;

const BACKSPACE: u8 = 8;

const NEWLINE: u8 = 10;

const CARRIAGE_RETURN: u8 = 13;

impl Windows {
    /// Writes a character at the cursor, which advances, from the last column to the next line. On the region's last
    /// line the region scrolls, if the window does, and else the cursor stays. Newline (10), carriage return (13) and
    /// backspace (8) move it.
    ///
    /// # Errors
    /// `NoSuchWindow`; `BadCharacter` for another character outside 32 to 126.
    #[inline(always)]
    pub fn waddch(&mut self, win: WinId, ch: u8) -> Result<Option<Rect>, Refusal>
        ensures { Wrote its_frame self.old.table (Writing.Addch win ch) result self.new.table }
    {
        let state = state_of(&self.table, win)?;
        if is_printed_inside(&state, ch) {
            return Ok(Some(print_inside(&mut self.table, win, &state, ch)));
        }
        self.waddstr(win, &[ch])
    }

    /// Writes the characters of a text in order, each as `waddch` does. No character of a refused text is written.
    ///
    /// # Errors
    /// `NoSuchWindow`; `BadCharacter` for a character other than 8, 10, 13 and 32 to 126.
    pub fn waddstr(&mut self, win: WinId, text: &[u8]) -> Result<Option<Rect>, Refusal>
        ensures { Wrote its_frame self.old.table (Writing.Addstr win text.entry) result self.new.table }
    {
        let state = state_of(&self.table, win)?;
        if is_one_run(&state, text) {
            return Ok(Some(print_run(&mut self.table, win, &state, text)));
        }
        if has_bad_character(text) {
            return Err(Refusal::BadCharacter);
        }
        Ok(type_text(&mut self.table, win, text))
    }

    /// Inserts a character at the cursor, which stays: the cells from there on go right, and the last is lost.
    ///
    /// # Errors
    /// `NoSuchWindow`; `BadCharacter` for a character outside 32 to 126.
    pub fn winsch(&mut self, win: WinId, ch: u8) -> Result<Option<Rect>, Refusal>
        ensures { Wrote its_frame self.old.table (Writing.Insch win ch) result self.new.table }
    {
        let state = state_of(&self.table, win)?;
        if !is_printable(ch) {
            return Err(Refusal::BadCharacter);
        }
        let (y, x) = state.settings.cursor;
        let cell = written_cell(&state.settings, ch);
        insert_cell(&mut self.table, win, &state, y, x, cell);
        Ok(Some(lines_from(&state, y, y, x)))
    }

    /// Deletes the character at the cursor, which stays: the cells after it go one column left, and the last is set to
    /// the background.
    ///
    /// # Errors
    /// `NoSuchWindow`.
    pub fn wdelch(&mut self, win: WinId) -> Result<Option<Rect>, Refusal>
        ensures { Wrote its_frame self.old.table (Writing.Delch win) result self.new.table }
    {
        let state = state_of(&self.table, win)?;
        let (y, x) = state.settings.cursor;
        delete_cell(&mut self.table, win, &state, y, x);
        Ok(Some(lines_from(&state, y, y, x)))
    }
}

/// Whether a text has a character that isn't accepted.
#[tactic(auto, using(crate::proofs::Texts::none_bad))]
fn has_bad_character(text: &[u8]) -> bool
    ensures { result ≡ list_any is_bad_character text.now }
{
    !are_printable(text) && text.iter().any(|ch| is_bad_character(*ch))
}

/// Whether a character is printed before the last column of the cursor's line.
fn is_printed_inside(state: &WindowState, ch: u8) -> bool
    requires { state.now.settings.cursor.1 < state.now.columns }
    ensures { result ≡ (is_printable ch && nat_lt (state.now.settings.cursor.1 + 1) state.now.columns) }
{
    is_printable(ch) && state.settings.cursor.1 < state.columns - 1
}

/// Whether a text has characters, and all are printed in the cursor's line before its last column.
fn is_one_run(state: &WindowState, text: &[u8]) -> bool
    requires { state.now.settings.cursor.1 < state.now.columns }
    ensures { result ≡ (nat_lt 0 (length text.now) && nat_lt (state.now.settings.cursor.1 + length text.now) state.now.columns
        && list_all is_printable text.now) }
{
    let rest = usize::from(state.columns - state.settings.cursor.1);
    0 < text.len() && text.len() < rest && are_printable(text)
}

/// Writes an accepted text in a window that is there.
#[inline(never)]
fn type_text(table: &mut Grids, win: WinId, text: &[u8]) -> Option<Rect>
    requires there { IsSome ((windows table.old).window win.0) }
    requires accepted { list_any is_bad_character text.now ≡ false }
    requires sound { AreSoundWindows (windows table.old) }
    ensures { TextTyped (windows table.old) win.0 text.now (windows table.new) result }
{
    let mut frame = None;
    let mut rest = text;
    while !rest.is_empty() {
        let (count, written) = type_first(table, win, rest);
        frame = frame_of_two(frame, written);
        rest = rest.split_at(count).1;
    }
    frame
}

/// Writes the first characters of an accepted text in a window that is there, and answers how many: at once those that
/// are printed in the cursor's line before its last column, or else one.
fn type_first(table: &mut Grids, win: WinId, text: &[u8]) -> (usize, Option<Rect>)
    requires there { IsSome ((windows table.old).window win.0) }
    requires accepted { list_any is_bad_character text.now ≡ false }
    requires some { 0 < length text.now }
    ensures some { 0 < result.0 }
    ensures within { result.0 ≤ length text.now }
    ensures typed { TextTyped (windows table.old) win.0 (take result.0 text.now) (windows table.new) result.1 }
    ensures there { IsSome ((windows table.new).window win.0) }
{
    match state_of(table, win) {
        Ok(state) => {
            let count = run_length(&state, text);
            if count == 0 {
                return (1, type_character(table, win, &state, text[0]));
            }
            (count, Some(print_run(table, win, &state, &text[..count])))
        }
        Err(_) => unreachable!(),
    }
}

/// How many first characters of a text are printed in the cursor's line before its last column.
fn run_length(state: &WindowState, text: &[u8]) -> usize
    requires { state.now.settings.cursor.1 < state.now.columns }
    ensures within { result ≤ length text.now }
    ensures inside { state.now.settings.cursor.1 + result < state.now.columns }
    ensures printable { (k : ℕ) → k < result → is_printable (slice_index text.now k) ≡ true }
    ensures longest { result < length text.now → state.now.settings.cursor.1 + result + 1 < state.now.columns
        → is_printable (slice_index text.now result) ≡ false }
{
    let room = usize::from(state.columns - 1 - state.settings.cursor.1);
    let first = &text[..room.min(text.len())];
    if are_printable(first) {
        return first.len();
    }
    for (count, ch) in first.iter().enumerate() {
        if !is_printable(*ch) {
            return count;
        }
    }
    first.len()
}

/// Prints characters at the cursor that end before the last column.
#[inline(always)]
fn print_run(table: &mut Grids, win: WinId, state: &WindowState, run: &[u8]) -> Rect
    requires state { IsStateOf (windows table.old) win.0 state.now }
    requires some { 0 < length run.now }
    requires inside { state.now.settings.cursor.1 + length run.now < state.now.columns }
    requires printable { EachIndex run.now (λ k. is_printable (slice_index run.now k) ≡ true) }
    ensures { TextTyped (windows table.old) win.0 run.now (windows table.new) (Some result) }
{
    let (y, x) = state.settings.cursor;
    let end = x + run.len() as u16;
    table.print(win, y, x, run, written_cell(&state.settings, b' '));
    Rect {
        top: y,
        left: x,
        bottom: y,
        right: end - 1,
    }
}

/// Whether a character is neither printed nor moves the cursor.
fn is_bad_character(ch: u8) -> bool
    ensures { result ≡ is_bad_character ch }
{
    !(is_printable(ch) || ch == BACKSPACE || ch == NEWLINE || ch == CARRIAGE_RETURN)
}

/// Writes an accepted character. The window must exist and have the given state.
#[tactic(auto, using(crate::proofs::States::has_place))]
fn type_character(table: &mut Grids, win: WinId, state: &WindowState, ch: u8) -> Option<Rect>
    requires state { IsStateOf (windows table.old) win.0 state.now }
    requires accepted { is_bad_character ch ≡ false }
    ensures { StepWrote (typed_in (windows table.old) win.0 ch (window_in_state state.now))
        (frame_of (window_in_state state.now) (typed_drawing (windows table.old) win.0 ch (window_in_state state.now))) (windows table.new) result }
{
    let (y, x) = state.settings.cursor;
    if ch == NEWLINE {
        return end_line(table, win, state);
    }
    if ch == CARRIAGE_RETURN {
        table.set_cursor(win, y, 0);
        return None;
    }
    if ch == BACKSPACE {
        table.set_cursor(win, y, x.saturating_sub(1));
        return None;
    }
    print(table, win, state, ch)
}

/// Prints a character at the cursor, which is before the last column.
#[inline(always)]
fn print_inside(table: &mut Grids, win: WinId, state: &WindowState, ch: u8) -> Rect
    requires state { IsStateOf (windows table.old) win.0 state.now }
    requires printable { is_printable ch ≡ true }
    requires inside { state.now.settings.cursor.1 + 1 < state.now.columns }
    ensures { CharacterPrinted (windows table.old) win.0 state.now ch (windows table.new) (Some result) }
{
    let (y, x) = state.settings.cursor;
    table.type_cell(win, y, x, written_cell(&state.settings, ch));
    place(y, x)
}

/// Prints a character at the cursor.
fn print(table: &mut Grids, win: WinId, state: &WindowState, ch: u8) -> Option<Rect>
    requires state { IsStateOf (windows table.old) win.0 state.now }
    requires printable { is_printable ch ≡ true }
    ensures { CharacterPrinted (windows table.old) win.0 state.now ch (windows table.new) result }
{
    let (y, x) = state.settings.cursor;
    if x + 1 < state.columns {
        return Some(print_inside(table, win, state, ch));
    }
    set_cell(table, win, state, y, x, written_cell(&state.settings, ch));
    let one = Some(place(y, x));
    frame_of_two(one, to_next_line(table, win, state, y, x))
}

/// Clears the rest of the cursor's line and goes to the next.
fn end_line(table: &mut Grids, win: WinId, state: &WindowState) -> Option<Rect>
    requires state { IsStateOf (windows table.old) win.0 state.now }
    ensures { StepWrote (line_ended (windows table.old) win.0 (window_in_state state.now))
        (frame_of (window_in_state state.now) (line_ended_drawing (windows table.old) win.0 (window_in_state state.now))) (windows table.new) result }
{
    let (y, x) = state.settings.cursor;
    clear_rest(table, win, state, y, x);
    let rest = Some(lines_from(state, y, y, x));
    frame_of_two(rest, to_next_line(table, win, state, y, 0))
}

/// Goes to the next line, or scrolls the region; at the end of a last line the cursor goes to the place (y, x) instead.
#[tactic(auto, using(crate::proofs::States::has_place))]
fn to_next_line(table: &mut Grids, win: WinId, state: &WindowState, y: u16, x: u16) -> Option<Rect>
    requires { HasStateAndPlace (windows table.old) win.0 state.now y x }
    ensures { StepWrote (to_next_line (windows table.old) win.0 (window_in_state state.now) (y, x))
        (frame_of (window_in_state state.now) (next_line_drawing (windows table.old).window win.0 (window_in_state state.now))) (windows table.new) result }
{
    let line = state.settings.cursor.0;
    let (top, bottom) = state.settings.region;
    if state.settings.scrolling && line == bottom {
        move_up(table, win, state, top, bottom, 1);
        table.set_cursor(win, line, 0);
        return Some(lines_from(state, top, bottom, 0));
    }
    if line == bottom || line + 1 == state.lines {
        table.set_cursor(win, y, x);
        return None;
    }
    table.set_cursor(win, line + 1, 0);
    None
}

/// The cell that a printed character becomes.
fn written_cell(settings: &Settings, ch: u8) -> Cell
    requires printable { is_printable ch ≡ true }
    requires attributes { bits_of settings.now.attrs < 64 }
    ensures { result ≡ written_glyph settings.now ch }
{
    let shown = if ch == b' ' {
        settings.background.ch()
    } else {
        ch
    };
    match Cell::new(shown, settings.attrs.union(settings.background.attr()), 0) {
        Some(cell) => cell.with_pair(written_pair(settings)),
        None => unreachable!(),
    }
}

/// The pair of a printed character: the window's, or the background's where that is 0.
fn written_pair(settings: &Settings) -> PairId
    ensures { result ≡ (if settings.now.pair == 0 then settings.now.background.pair else settings.now.pair) }
{
    if settings.pair.number() == 0 {
        settings.background.pair()
    } else {
        settings.pair
    }
}
