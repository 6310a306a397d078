//! The cells of a line, as C gets them: a number each.

ghost use Rattle.std.specs.Prelude.{◌≡◌, ◌<◌, ◌^◌, ℕ, Err, IfOk, MatchResult, Ok, length, map};
ghost use Rattle.cell.specs.Packing.{glyph_bits};
ghost use Rattle.compose.specs.Desks.{world};
ghost use Rattle.capi.specs.Answers.{ok};
ghost use Rattle.capi.specs.Lines.{colour_number, line_answer, put_into, shown_answer, shown_number};

use crate::answer::Answer;
use bitflags::Flags;
use cell::{Cell, Colour, Shown};
use desk::{Desk, Refusal, WinId};

/// A cell that is a number for C.
pub trait Numbered {
    ghost number_of: { Self → ℕ };

    fn number(&self) -> u32
        ensures { result ≡ number_of self.now };
}

/// A cell of a window, as `winch` answers it.
impl Numbered for Cell {
    ghost number_of = { glyph_bits };

    #[inline(always)]
    fn number(&self) -> u32 {
        self.bits()
    }
}

/// A shown cell: background, foreground, attributes and character, eight bits each, the background in the highest.
impl Numbered for Shown {
    ghost number_of = { shown_number };

    fn number(&self) -> u32 {
        let rendition = self.rendition();
        let colours = rendition.colours();
        let foreground = colour_number(colours.foreground);
        let background = colour_number(colours.background);
        background * 16_777_216
            + foreground * 65_536
            + u32::from(rendition.attrs().bits()) * 256
            + u32::from(self.ch())
    }
}

/// The number of a colour, or 9 for the terminal's own.
fn colour_number(colour: Option<Colour>) -> u32
    ensures number { result ≡ colour_number colour }
    ensures small { result < 10 }
{
    match colour {
        Some(colour) => u32::from(colour.number()),
        None => 9,
    }
}

/// The cells of line `y` of a window or pad.
pub fn line_of_window(desk: &Desk, win: WinId, y: u16) -> Result<&[Cell], Refusal>
    ensures line { MatchResult result (λ row. line_answer (world desk.now).windows.window win.0 y ≡ Ok row.now)
        (λ refusal. line_answer (world desk.now).windows.window win.0 y ≡ Err refusal) }
    ensures short { IfOk result (λ row. length row.now < 2 ^ 16) }
{
    let (lines, columns) = desk.windows().table.getmaxyx(win)?;
    if y >= lines {
        return Err(Refusal::OutsideWindow);
    }
    let row = desk.row(win, y);
    prove!(row.len() == usize::from(columns));
    Ok(row)
}

/// The cells of line `y` of the virtual screen.
pub fn line_of_screen(desk: &Desk, y: u16) -> Result<&[Shown], Refusal>
    ensures line { MatchResult result (λ row. shown_answer (world desk.now) y ≡ Ok row.now)
        (λ refusal. shown_answer (world desk.now) y ≡ Err refusal) }
    ensures short { IfOk result (λ row. length row.now < 2 ^ 16) }
{
    let (lines, columns) = desk.size();
    if y >= lines {
        return Err(Refusal::OutsideWindow);
    }
    let row = desk.virtual_row(y);
    prove!(row.len() == usize::from(columns));
    Ok(row)
}

/// Puts the cells of a line into a buffer, as many as it has room for, and answers how many the line has.
pub fn tell_line<T: Numbered>(line: &[T], buffer: &mut [u32]) -> Answer
    requires { length line.now < 2 ^ 16 }
    ensures answer { result ≡ ok (length line.now) 0 }
    ensures cells { buffer.new ≡ put_into buffer.old (map T.number_of line.now) }
{
    put_cells(line, buffer);
    Answer::ok(line.len() as u32, 0)
}

/// Puts the cells of a line into a buffer, as many as it has room for.
fn put_cells<T: Numbered>(line: &[T], buffer: &mut [u32])
    requires { length line.now < 2 ^ 16 }
    ensures { buffer.new ≡ put_into buffer.old (map T.number_of line.now) }
{
    let count = line.len().min(buffer.len());
    for k in 0..count {
        buffer[k] = line[k].number();
    }
}
