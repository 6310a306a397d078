//! A pen: it knows where a terminal's cursor is and how the terminal prints, and draws there by strokes.

ghost use Rattle.std.specs.Prelude.{◌≡◌, ◌+◌, ◌<◌, ◌≤◌, ◌++◌, ◌^◌};
ghost use Rattle.paint.specs.{[], ℕ, IfOk, List, length, slice_index_or, Some, LARGEST_SCREEN, no_rendition, shown_blank, Picture, line_of, origin, spelling, IsToken, erased_at, erased_page, ToEnd};
ghost use Rattle.paint.specs.{Ed, El, Sends, Seen, WritesFew, opening, Gathers, IsGathered, empty_outbox, change, characters, first_pen, is_at, move_from, with_cells, within, Draws, Erases};
ghost use Rattle.paint.specs.{IsPlainAt, SameTerminals};

use crate::outbox::Outbox;
use bitflags::Flags;
use cell::{LARGEST_SCREEN, Rendition, Shown};
use ecma::{Erase, LONGEST_SPELLING, Positions, Token, spell};
use std::alloc::{AllocError, Global};
use streams::{Sink, WriteFault};

/// Whether a cursor is known to be at a place.
fn is_at(cursor: Option<(u16, u16)>, line: u16, column: u16) -> bool
    ensures { result ≡ is_at cursor (line, column) }
{
    match cursor {
        Some((y, x)) => y == line && x == column,
        None => false,
    }
}

/// Draws on terminals of some columns.
#[derive(Drop)]
pub struct Pen {
    outbox: Outbox,
    columns: u16,
    // The line and column of the cursor, and none where it is unknown.
    cursor: Option<(u16, u16)>,
    rendition: Rendition,
}

impl Pen {
    /// A pen that gathered nothing.
    pub fn new(alloc: Global, columns: u16) -> Result<Pen, AllocError>
        ensures { IfOk result (λ pen. pen ≡ first_pen columns) }
    {
        Ok(Pen {
            outbox: Outbox::new(alloc)?,
            columns,
            cursor: None,
            rendition: Rendition::NONE,
        })
    }

    /// Begins a text, at a cursor and with the empty rendition.
    pub fn begin(&mut self, cursor: (u16, u16))
        ensures nothing { (seen : Seen) → IsGathered seen seen self.new.outbox [] }
        ensures empty { self.new.outbox ≡ empty_outbox }
        ensures columns { self.new.columns ≡ self.old.columns }
        ensures plain { IsPlainAt self.new cursor }
    {
        self.outbox.begin();
        self.cursor = Some(cursor);
        self.rendition = Rendition::NONE;
    }

    /// Puts a token after what was gathered.
    fn put<W: Sink>(&mut self, sink: &mut W, token: Token)
        requires { IsToken token }
        ensures gathers { Gathers (W.seen sink.old) (W.seen sink.new) self.old.outbox self.new.outbox (spelling token) }
        ensures rest { self.new ≡ record self.old { outbox = self.new.outbox } }
        ensures same { SameTerminals (W.name sink.old) (W.name sink.new) self.old self.new }
    {
        let mut text = [0; LONGEST_SPELLING];
        let length = spell(&token, &mut text);
        self.outbox.put(sink, &text[..length]);
    }

    /// Puts the position of a place after what was gathered.
    fn put_position<W: Sink>(&mut self, sink: &mut W, positions: &Positions, line: u16, column: u16)
        requires line { line < positions.now }
        requires column { column < positions.now }
        ensures gathers { Gathers (W.seen sink.old) (W.seen sink.new) self.old.outbox self.new.outbox (spelling (Token.Cup line column)) }
        ensures rest { self.new ≡ record self.old { outbox = self.new.outbox } }
        ensures same { SameTerminals (W.name sink.old) (W.name sink.new) self.old self.new }
    {
        let mut text = [0; LONGEST_SPELLING];
        let length = positions.spell(line, column, &mut text);
        self.outbox.put(sink, &text[..length]);
    }

    /// Clears the terminal, whatever it shows: no rendition, the page erased, the cursor at the origin.
    pub fn open<W: Sink>(&mut self, sink: &mut W)
        ensures gathers { Gathers (W.seen sink.old) (W.seen sink.new) self.old.outbox self.new.outbox opening }
        ensures plain { IsPlainAt self.new origin }
        ensures same { SameTerminals (W.name sink.old) (W.name sink.new) self.old self.new }
    {
        self.put(sink, Token::Sgr(Rendition::NONE));
        self.put(sink, Token::Ed(Erase::All));
        self.put(sink, Token::Cup(0, 0));
        self.cursor = Some((0, 0));
        self.rendition = Rendition::NONE;
    }

    /// The rendition in which it prints.
    pub fn rendition(&self) -> Rendition
        ensures { result ≡ self.now.rendition }
    {
        self.rendition
    }

    /// Prints in a rendition from now on.
    pub fn select<W: Sink>(&mut self, sink: &mut W, rendition: Rendition)
        ensures draws { (picture : Picture) → Draws (change self.old.rendition rendition) (W.seen sink.old)
            (W.seen sink.new) self.old self.new picture picture }
        ensures rendition { self.new.rendition ≡ rendition }
        ensures cursor { self.new.cursor ≡ self.old.cursor }
        ensures same { SameTerminals (W.name sink.old) (W.name sink.new) self.old self.new }
    {
        if rendition == self.rendition {
            return;
        }
        prove!(rendition.attrs().bits() < 64);
        self.put(sink, Token::Sgr(rendition));
        self.rendition = rendition;
    }

    /// Where the cursor is, and none where that is unknown.
    pub fn cursor(&self) -> Option<(u16, u16)>
        ensures { result ≡ self.now.cursor }
    {
        self.cursor
    }

    /// Whether the cursor is known to be at a place.
    pub fn is_at(&self, line: u16, column: u16) -> bool
        ensures { result ≡ is_at self.now.cursor (line, column) }
    {
        is_at(self.cursor, line, column)
    }

    /// Goes to a place.
    pub fn go<W: Sink>(&mut self, sink: &mut W, positions: &Positions, line: u16, column: u16)
        requires line { line < positions.now }
        requires column { column < positions.now }
        requires few { positions.now ≤ LARGEST_SCREEN }
        ensures draws { (picture : Picture) → column < length (line_of picture line)
            → Draws (move_from self.old.cursor (line, column)) (W.seen sink.old) (W.seen sink.new) self.old self.new picture picture }
        ensures rendition { self.new.rendition ≡ self.old.rendition }
        ensures cursor { self.new.cursor ≡ Some (line, column) }
        ensures same { SameTerminals (W.name sink.old) (W.name sink.new) self.old self.new }
    {
        if is_at(self.cursor, line, column) {
            return;
        }
        self.put_position(sink, positions, line, column);
        self.cursor = Some((line, column));
    }

    /// Prints cells from the cursor on, which is at this place. They have the rendition in force.
    #[inline(always)]
    pub fn print_run<W: Sink>(&mut self, sink: &mut W, line: u16, column: u16, cells: &[Shown])
        requires cursor { self.old.cursor ≡ Some (line, column) }
        requires rendition { (k : ℕ) → k < length cells.now → (slice_index_or cells.now k shown_blank).rendition ≡ self.old.rendition }
        requires some { 0 < length cells.now }
        requires inside { column + length cells.now ≤ self.old.columns }
        requires columns { self.old.columns ≤ LARGEST_SCREEN }
        ensures draws { (picture : Picture) → length (line_of picture line) ≡ self.old.columns
            → Draws (characters cells.now) (W.seen sink.old) (W.seen sink.new) self.old self.new picture
            (with_cells picture (line, column) cells.now) }
        ensures cursor { self.new.cursor ≡ within self.old.columns (line, column + length cells.now) }
        ensures rendition { self.new.rendition ≡ self.old.rendition }
        ensures same { SameTerminals (W.name sink.old) (W.name sink.new) self.old self.new }
    {
        self.outbox.put_characters(sink, cells);
        self.cursor = self.within(line, column + cells.len() as u16);
    }

    /// A place of a line, if it has the column.
    fn within(&self, line: u16, column: u16) -> Option<(u16, u16)>
        ensures { result ≡ within self.now.columns (line, column) }
    {
        if column < self.columns {
            Some((line, column))
        } else {
            None
        }
    }

    /// Erases from the cursor, which is at this place, to the end of the line.
    pub fn erase_line<W: Sink>(&mut self, sink: &mut W, line: u16, column: u16)
        requires { IsPlainAt self.old (line, column) }
        ensures { Erases W.seen W.name (El ToEnd) (erased_at ToEnd (line, column)) self.old sink.old self.new sink.new }
    {
        self.put(sink, Token::El(Erase::ToEnd));
    }

    /// Erases from the cursor, which is at this place, to the end of the page.
    pub fn erase_page<W: Sink>(&mut self, sink: &mut W, line: u16, column: u16)
        requires { IsPlainAt self.old (line, column) }
        ensures { Erases W.seen W.name (Ed ToEnd) (erased_page ToEnd (line, column)) self.old sink.old self.new sink.new }
    {
        self.put(sink, Token::Ed(Erase::ToEnd));
    }

    /// Ends the rendition, and goes to where the cursor is wanted.
    pub fn end<W: Sink>(&mut self, sink: &mut W, positions: &Positions, cursor: (u16, u16))
        requires line { cursor.0 < positions.now }
        requires column { cursor.1 < positions.now }
        requires few { positions.now ≤ LARGEST_SCREEN }
        ensures draws { (picture : Picture) → cursor.1 < length (line_of picture cursor.0)
            → Draws (change self.old.rendition no_rendition ++ move_from self.old.cursor cursor) (W.seen sink.old) (W.seen sink.new)
            self.old self.new picture picture }
        ensures plain { IsPlainAt self.new cursor }
        ensures same { SameTerminals (W.name sink.old) (W.name sink.new) self.old self.new }
    {
        self.select(sink, Rendition::NONE);
        self.go(sink, positions, cursor.0, cursor.1);
    }

    /// Sends what is left of the text, and says how many bytes went out.
    pub fn finish<W: Sink>(&mut self, sink: &mut W) -> Result<u32, WriteFault>
        ensures sends { (start : Seen) (text : List ℕ) → IsGathered start (W.seen sink.old) self.old.outbox text → length text < 2 ^ 32
            → Sends start (W.seen sink.new) 0 text result }
        ensures few { (start : Seen) (text : List ℕ) → IsGathered start (W.seen sink.old) self.old.outbox text
            → WritesFew start (W.seen sink.new) (length text) }
        ensures same { SameTerminals (W.name sink.old) (W.name sink.new) self.old self.new }
    {
        self.outbox.finish(sink)
    }
}
