//! What a terminal shows, and what characters and control functions do to it.

ghost use Rattle.std.specs.Prelude.{◌≡◌, ◌≤◌, ◌<◌, if◌then◌else◌, ◌∷◌, ◌++◌, ◌-◌};
ghost use Rattle.ecma.specs.{ℕ, All, false, IfOk, List, [], length, map, take, drop, option_and_then, is_printable, HasSize, is_empty, LARGEST_SCREEN, Control, SGR};
ghost use Rattle.ecma.specs.{parameter_of, function_of, blank_terminal, blank_line, effect, erase_line, erase_page, erased_at, move_to, print};

use crate::cells::Cells;
use crate::parameter::{Parameter, erasure, position};
use crate::selection::select_all;
use crate::token::Erase;
use bitflags::Flags;
use cell::{Attr, Rendition, Shown};
use std::alloc::{AllocError, Global};
use std::marker::Model;

/// The picture of a terminal, its cursor, and the rendition of what is printed next. A method that answers false has no
/// effect in the profile, and changed nothing.
#[derive(Drop)]
pub struct Page {
    pub lines: u16,
    pub columns: u16,
    pub picture: Cells,
    pub cursor: Option<(u16, u16)>,
    pub rendition: Rendition,
}

impl Model for Page {
    ghost use Rattle.ecma.specs.Terminals.{Terminal};
    ghost use Rattle.ecma.specs.Pages.{IsOnPage};

    ghost Value = { Terminal };

    ghost view = { λ p. record { picture = p.picture; cursor = p.cursor; rendition = p.rendition } };

    ghost invariant = { λ p. IsOnPage p.lines p.columns p.picture p.cursor };
}

impl Page {
    /// A blank page with the cursor at its first place.
    pub fn new(alloc: Global, lines: u16, columns: u16) -> Result<Page, AllocError>
        requires lines { 1 ≤ lines }
        requires few_lines { lines ≤ LARGEST_SCREEN }
        requires columns { 1 ≤ columns }
        requires few_columns { columns ≤ LARGEST_SCREEN }
        ensures { IfOk result (λ page. page ≡ blank_terminal lines columns) }
    {
        Ok(Page {
            lines,
            columns,
            picture: Cells::new(alloc, lines, columns)?,
            cursor: Some((0, 0)),
            rendition: Rendition::NONE,
        })
    }

    /// Prints a byte at the cursor.
    pub fn print(&mut self, byte: u8) -> bool
        ensures effect { (if result then Some self.new else None) ≡ (if is_printable byte then print byte self.old else None) }
        ensures same { result ≡ false → self.new ≡ self.old }
    {
        let Some((line, column)) = self.cursor else {
            return false;
        };
        let Some(shown) = Shown::new(byte, self.rendition) else {
            return false;
        };
        self.picture.set(line, column, shown);
        self.cursor = if column + 1 < self.columns {
            Some((line, column + 1))
        } else {
            None
        };
        true
    }

    /// Puts the cursor at a line and a column.
    pub fn move_to(&mut self, line: u16, column: u16) -> bool
        ensures effect { (if result then Some self.new else None) ≡ move_to (line, column) self.old }
        ensures same { result ≡ false → self.new ≡ self.old }
    {
        if line >= self.lines || column >= self.columns {
            return false;
        }
        self.cursor = Some((line, column));
        true
    }

    /// Erases in the line of the cursor.
    pub fn erase_line(&mut self, how: Erase) -> bool
        ensures effect { (if result then Some self.new else None) ≡ erase_line how self.old }
        ensures same { result ≡ false → self.new ≡ self.old }
    {
        if !is_empty(self.rendition) {
            return false;
        }
        let Some((line, column)) = self.cursor else {
            return false;
        };
        erase_in_line(&mut self.picture, how, line, column, self.columns);
        true
    }

    /// Erases in the page.
    pub fn erase_page(&mut self, how: Erase) -> bool
        ensures effect { (if result then Some self.new else None) ≡ erase_page how self.old }
        ensures same { result ≡ false → self.new ≡ self.old }
    {
        if !is_empty(self.rendition) {
            return false;
        }
        if how == Erase::All {
            erase_lines(&mut self.picture, 0, self.lines, self.columns);
            return true;
        }
        let Some((line, column)) = self.cursor else {
            return false;
        };
        erase_in_line(&mut self.picture, how, line, column, self.columns);
        if how == Erase::ToEnd {
            erase_lines(&mut self.picture, line + 1, self.lines, self.columns);
        } else {
            erase_lines(&mut self.picture, 0, line, self.columns);
        }
        true
    }
}

impl Page {
    /// Executes the control function that a byte ends, with these parameters and a last one after them.
    pub fn control(&mut self, byte: u8, ended: &[Parameter], last: Parameter) -> bool
        ensures effect { (digits : List (List ℕ)) → map parameter_of digits ≡ ended.now ++ last ∷ []
            → (if result then Some self.new else None) ≡ option_and_then (λ function. effect (Control function digits) self.old) (function_of byte) }
        ensures same { result ≡ false → self.new ≡ self.old }
    {
        match byte {
            b'H' => match position(ended, last) {
                Some((line, column)) => self.move_to(line, column),
                None => false,
            },
            b'J' => match erasure(ended, last) {
                Some(how) => self.erase_page(how),
                None => false,
            },
            b'K' => match erasure(ended, last) {
                Some(how) => self.erase_line(how),
                None => false,
            },
            b'm' => self.select(ended, last),
            _ => false,
        }
    }

    fn select(&mut self, ended: &[Parameter], last: Parameter) -> bool
        ensures effect { (digits : List (List ℕ)) → map parameter_of digits ≡ ended.now ++ last ∷ []
            → (if result then Some self.new else None) ≡ effect (Control SGR digits) self.old }
        ensures same { result ≡ false → self.new ≡ self.old }
    {
        match select_all(ended, last, self.rendition) {
            Some(rendition) => {
                self.rendition = rendition;
                true
            }
            None => false,
        }
    }
}

/// Erases in a line.
fn erase_in_line(picture: &mut Cells, how: Erase, line: u16, column: u16, columns: u16)
    requires line { line < length picture.old }
    requires column { column < columns }
    requires size { HasSize (length picture.old) columns picture.old }
    ensures { picture.new ≡ erased_at how (line, column) picture.old }
{
    let (start, end) = match how {
        Erase::ToEnd => (column, columns),
        Erase::FromStart => (0, column + 1),
        Erase::All => (0, columns),
    };
    picture.erase(line, start, end);
}

/// Erases the lines from a first one on, up to an end, which is left out.
#[tactic(auto, using(crate::proofs::Erasing::erased_lines))]
fn erase_lines(picture: &mut Cells, first: u16, end: u16, columns: u16)
    requires first { first ≤ end }
    requires end { end ≤ length picture.old }
    requires columns { 1 ≤ columns }
    requires size { HasSize (length picture.old) columns picture.old }
    ensures size { HasSize (length picture.old) columns picture.new }
    ensures erased { picture.new ≡ take first picture.old ++ map blank_line (take (end - first) (drop first picture.old)) ++ drop end picture.old }
{
    for line in first..end {
        erase_in_line(picture, Erase::All, line, 0, columns);
    }
}

/// Whether no attribute and no colour is on.
fn is_empty(rendition: Rendition) -> bool
    ensures { result ≡ is_empty rendition }
{
    rendition.attrs() == Attr::NONE && rendition.colours().is_default()
}
