//! A screen over a writer, and runs of calls on it.

mod writer;

ghost use Rattle.std.specs.Prelude.{◌≡◌, ◌∷◌};
ghost use Rattle.desk.specs.{ℕ, [], IfOk, None, is_some, false, new_refusal, RefusedBy, IsSound, first_world, is_doupdate, count_after, first_painter, cells_of_reply, is_damaged_line, world, Filled, RowPut};
ghost use Rattle.desk.specs.declared.screen.Fault.TheVariants.{Refused};

use calls::Calls;
use cell::{Rect, Refusal, WinId};
use compose::Desk;
use paint::Painter;
use std::alloc::Global;
use std::marker::Model;
use streams::{Sent, Sink, WriteFault};
use world::{Call, Refresh, Reply};

/// A desk, the painter that shows it, and the writer that the bytes go to.
#[derive(Drop)]
pub struct Screen<W> {
    pub(crate) desk: Desk,
    painter: Painter,
    writer: W,
}

impl<W> Model for Screen<W> {
    ghost use Rattle.desk.specs.States.{IsScreen, ScreenOver};

    ghost Value = { ScreenOver W };

    ghost view = { λ s. record { desk = s.desk; painter = s.painter; writer = s.writer } };

    ghost invariant = { λ s. IsScreen s.desk s.painter };
}

/// Why a call did nothing, or not all of it.
#[derive(Clone, Copy, PartialEq, Eq, Debug)]
pub enum Fault {
    Refused(Refusal),
    Write(WriteFault),
}

impl From<Refusal> for Fault {
    ghost from_gives = { λ refusal fault. fault ≡ Refused refusal };

    fn from(refusal: Refusal) -> Fault {
        Fault::Refused(refusal)
    }
}

/// How a run of calls ended.
#[derive(Clone, Copy, PartialEq, Eq, Debug)]
pub struct RunEnd {
    /// How many calls were accepted.
    pub done: usize,
    /// How many calls were refused.
    pub refused: usize,
    /// How many cells the calls of `update_panels` read: at least as many as they changed, and at most the columns of
    /// the lines that were damaged before or that calls affected since.
    pub composed: u128,
    /// The fault that ended the run before all calls were made.
    pub fault: Option<WriteFault>,
}

impl<W: Sink + Drop> Screen<W> {
    /// A blank screen of 1 to `LARGEST_SCREEN` lines and columns. Where it is refused, the writer is dropped.
    pub fn new(alloc: Global, lines: u16, cols: u16, writer: W) -> Result<Screen<W>, Refusal>
        ensures world { IfOk result (λ screen. world screen.desk ≡ first_world lines cols) }
        ensures damage { IfOk result (λ screen. (line : ℕ) → is_damaged_line screen.desk line ≡ false) }
        ensures reads { IfOk result (λ screen. screen.desk.cells_read ≡ 0) }
        ensures painter { IfOk result (λ screen. screen.painter ≡ first_painter lines cols) }
        ensures writer { IfOk result (λ screen. screen.writer ≡ writer) }
        ensures refused { RefusedBy (new_refusal lines cols) result }
    {
        let desk = Desk::new(alloc, lines, cols)?;
        let painter = Painter::new(alloc, lines, cols)?;
        Ok(Screen {
            desk,
            painter,
            writer,
        })
    }

    /// The same windows over another writer, on whose terminal nothing was shown yet. The old writer is dropped.
    pub fn with_writer<V>(self, writer: V) -> Screen<V>
        ensures { result ≡ record { desk = self.desk; painter = record self.painter { last = None }; writer = writer } }
    {
        let Screen {
            desk,
            mut painter,
            writer: _,
        } = self;
        painter.invalidate();
        Screen {
            desk,
            painter,
            writer,
        }
    }
}

impl<W> Screen<W> {
    /// Gives the writer back.
    pub fn into_writer(self) -> W
        ensures { result ≡ self.writer }
    {
        let Screen {
            desk: _,
            painter: _,
            writer,
        } = self;
        writer
    }
}

impl<W: Sink> Screen<W> {
    ghost use Rattle.desk.specs.States.{KeepsSize};
    ghost use Rattle.desk.specs.Ends.{RunEnds};
    ghost use Rattle.desk.specs.Showing.{RunShows};
    ghost use Rattle.desk.specs.Methods.{CallMade};
    ghost use Rattle.calls.specs.Methods.{as_reply};

    /// The windows and the virtual screen.
    pub fn desk(&self) -> &Desk
        ensures { result.now ≡ self.now.desk }
    {
        &self.desk
    }

    /// The writer.
    pub fn writer(&self) -> &W
        ensures { result.now ≡ self.now.writer }
    {
        &self.writer
    }

    /// Shows the virtual screen on the terminal. It answers how many bytes it sent.
    ///
    /// # Errors
    /// A `WriteFault`, with how many bytes were taken: what is on the terminal is unknown then, and the next one clears
    /// it.
    pub fn doupdate(&mut self) -> Result<Sent, Fault>
        ensures { CallMade W.seen W.name self.old (Call.Refresh Refresh.Doupdate) (as_reply Reply.Sent result) self.new }
    {
        let screen = &self.desk;
        match self
            .painter
            .doupdate_changes(screen, Some(screen.changes()), &mut self.writer)
        {
            Ok(sent) => {
                self.desk.mark_taken();
                Ok(sent)
            }
            Err(fault) => Err(Fault::Write(fault)),
        }
    }

    /// Sets the cells of a rectangle of a window or pad to one cell: a number, as `Cell::bits` answers it. Nothing is
    /// sent.
    ///
    /// # Errors
    /// `NoSuchWindow`; `BadRectangle` if a last line or column comes before its first; `OutsideWindow` if the rectangle
    /// isn't in the window; `BadCharacter` for a character outside 32 to 126; `BadPair` for a pair past `LAST_PAIR`.
    pub fn fill(&mut self, win: WinId, rect: Rect, cell: u32) -> Result<(), Refusal>
        ensures given { Filled self.old.desk win.0 rect cell result self.new.desk }
        ensures rest { self.new ≡ record self.old { desk = self.new.desk } }
        ensures size { KeepsSize self.old.desk self.new.desk }
    {
        self.desk.fill(win, rect, cell)
    }

    /// Puts cells, numbers as `Cell::bits` answers them, into line `y` of a window or pad, from column `x` on. Nothing
    /// is sent.
    ///
    /// # Errors
    /// `NoSuchWindow`; `OutsideWindow` if the window hasn't line `y`, or not so many columns from `x` on;
    /// `BadCharacter` for a character outside 32 to 126; `BadPair` for a pair past `LAST_PAIR`.
    pub fn put(&mut self, win: WinId, y: u16, x: u16, cells: &[u32]) -> Result<(), Refusal>
        ensures given { RowPut self.old.desk win.0 y x cells.now result self.new.desk }
        ensures rest { self.new ≡ record self.old { desk = self.new.desk } }
        ensures size { KeepsSize self.old.desk self.new.desk }
    {
        self.desk.put(win, y, x, cells)
    }

    /// Makes the calls in order. It goes on after a refusal, and stops where a write or a flush fails. Each
    /// `update_panels` composes only lines that were damaged before the run, or that a call affected since the one
    /// before it.
    pub fn run(&mut self, calls: &[Call<'_>]) -> RunEnd
        ensures run { RunEnds W.seen self.old calls.now result self.new }
        ensures shown { RunShows W.seen self.old self.new calls.now result.fault }
        ensures failures { (W.seen self.new.writer).failures ≡ count_after (is_some result.fault) (W.seen self.old.writer).failures }
        ensures same { W.name self.new.writer ≡ W.name self.old.writer }
        ensures sound { IsSound (world self.new.desk) }
        ensures size { KeepsSize self.old.desk self.new.desk }
    {
        // What a screen keeps is known where its desk is read: here before the calls, and below after them.
        let _ = &self.desk;
        let end = self.run_calls(calls);
        let _ = &self.desk;
        end
    }

    fn run_calls(&mut self, calls: &[Call<'_>]) -> RunEnd
        ensures run { RunEnds W.seen self.old calls.now result self.new }
        ensures failures { (W.seen self.new.writer).failures ≡ count_after (is_some result.fault) (W.seen self.old.writer).failures }
        ensures same { W.name self.new.writer ≡ W.name self.old.writer }
    {
        let mut end = RunEnd {
            done: 0,
            refused: 0,
            composed: 0,
            fault: None,
        };
        for call in calls {
            match self.call(call) {
                Ok(reply) => {
                    end.done += 1;
                    end.composed += u128::from(cells_of(reply));
                }
                Err(Fault::Refused(_)) => end.refused += 1,
                Err(Fault::Write(fault)) => {
                    end.fault = Some(fault);
                    return end;
                }
            }
        }
        end
    }
}

impl<W: Sink> Calls for Screen<W> {
    ghost use Rattle.desk.specs.Methods.{CallMade};
    ghost use Rattle.desk.specs.steps.AnswerLaws.{answers-made, composes-made};

    type Error = Fault;

    ghost made = { CallMade W.seen W.name };

    /// Makes one call, which may be `doupdate`.
    #[inline(always)]
    fn call(&mut self, call: &Call<'_>) -> Result<Reply, Fault>
        ensures { CallMade W.seen W.name self.old call.now result self.new }
    {
        match *call {
            Call::Refresh(Refresh::Doupdate) => Ok(Reply::Sent(self.doupdate()?)),
            _ => Ok(self.desk.call(call)?),
        }
    }

    /// Makes a call that only asks: the desk answers it.
    #[inline(always)]
    fn ask(&self, query: &Call<'_>) -> Result<Reply, Fault> {
        Ok(self.desk.ask(query)?)
    }

    ghost answers = { answers-made W.seen W.name };

    ghost composes = { composes-made W.seen W.name };
}

/// How many cells an answer says were read.
pub(crate) fn cells_of(reply: Reply) -> u32
    ensures { result ≡ cells_of_reply reply }
{
    match reply {
        Reply::Composed(composed) => composed.cells,
        _ => 0,
    }
}
