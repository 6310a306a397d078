//! A screen whose bytes are kept until C takes them.

ghost use Rattle.std.specs.Prelude.{◌≡◌, ◌≤◌, ◌<◌, ◌++◌, [], drop, length, IfOk, None, Some, true};
ghost use Rattle.cell.specs.Refusals.{RefusedBy};
ghost use Rattle.world.specs.calls.Making.{new_refusal};
ghost use Rattle.desk.specs.Methods.{CallMade};
ghost use Rattle.calls.specs.Queries.{is_query};
ghost use Rattle.capi.specs.Called.{Makes};
ghost use Rattle.capi.specs.Giving.{Gives, IsFill, IsRow};
ghost use Rattle.capi.specs.Held.{IsBlank, pending};
ghost use Rattle.capi.specs.Lines.{LineTold, screen_line, window_line};
ghost use Rattle.capi.specs.Questions.{Told};

use crate::answer::{Answer, refusal_answer};
use crate::line::{line_of_screen, line_of_window, tell_line};
use crate::question::Question;
use desk::{Call, Calls, Counted, Fault, Rect, Refusal, Reply, Screen, Sink, WinId};
use std::alloc::Global;

/// Where a screen sends its bytes.
pub type Outlet = Counted<Vec<u8>>;

/// What an open handle owns.
#[derive(Drop)]
pub struct CScreen {
    pub(crate) screen: Screen<Outlet>,
}

impl CScreen {
    /// A blank screen.
    pub fn new(alloc: Global, lines: u16, columns: u16) -> Result<CScreen, Refusal>
        ensures blank { IfOk result (IsBlank lines columns) }
        ensures refused { RefusedBy (new_refusal lines columns) result }
    {
        let screen = Screen::new(alloc, lines, columns, Counted::new(Vec::new(alloc)))?;
        Ok(CScreen { screen })
    }

    /// Makes a call, and says all that is known of it.
    #[inline(always)]
    fn make(&mut self, call: &Call<'_>) -> Result<Reply, Fault>
        ensures { CallMade ⟦<Outlet as Sink>⟧.seen ⟦<Outlet as Sink>⟧.name self.old.screen call.now result self.new.screen }
    {
        self.screen.call(call)
    }

    /// Makes a call, and answers C how it ended.
    #[inline(always)]
    pub fn call(&mut self, call: &Call<'_>) -> Answer
        ensures { Makes ⟦<Outlet as Sink>⟧ self.old call.now result self.new }
    {
        Answer::of(self.make(call))
    }

    /// Makes a call that only asks, and answers C how it ended.
    #[inline(always)]
    pub fn ask(&self, query: &Call<'_>) -> Answer
        requires { is_query query.now ≡ true }
        ensures { Makes ⟦<Outlet as Sink>⟧ self.now query.now result self.now }
    {
        Answer::of(self.find(query))
    }

    /// Makes a call that only asks, and says all that is known of it.
    #[inline(always)]
    fn find(&self, query: &Call<'_>) -> Result<Reply, Fault>
        requires { is_query query.now ≡ true }
        ensures { CallMade ⟦<Outlet as Sink>⟧.seen ⟦<Outlet as Sink>⟧.name self.now.screen query.now result self.now.screen }
    {
        self.screen.ask(query)
    }

    /// Answers C a question.
    #[inline(always)]
    pub fn tell(&self, question: Question) -> Answer
        ensures { Told (Some self.now) question result }
    {
        match question.ask(self.screen.desk()) {
            Ok(reply) => Answer::of(Ok(reply)),
            Err(refusal) => refusal_answer(refusal),
        }
    }

    /// Puts the cells of a line of a window into a buffer, as many as fit, and answers how many the line has.
    pub fn tell_row(&self, win: WinId, y: u16, cells: &mut [u32]) -> Answer
        ensures { LineTold (Some self.now) (window_line win.0 y) cells.old result cells.new }
    {
        match line_of_window(self.screen.desk(), win, y) {
            Ok(row) => tell_line(row, cells),
            Err(refusal) => refusal_answer(refusal),
        }
    }

    /// Puts the cells of a line of the virtual screen into a buffer, as many as fit, and answers how many the line has.
    pub fn tell_shown_row(&self, y: u16, cells: &mut [u32]) -> Answer
        ensures { LineTold (Some self.now) (screen_line y) cells.old result cells.new }
    {
        match line_of_screen(self.screen.desk(), y) {
            Ok(row) => tell_line(row, cells),
            Err(refusal) => refusal_answer(refusal),
        }
    }

    /// Sets the cells of a rectangle of a window to one cell.
    pub fn fill(&mut self, win: WinId, rect: Rect, cell: u32) -> Answer
        ensures { Gives (IsFill win.0 rect cell) self.old result self.new }
    {
        match self.screen.fill(win, rect, cell) {
            Ok(()) => Answer::of(Ok(Reply::Nothing)),
            Err(refusal) => refusal_answer(refusal),
        }
    }

    /// Puts cells into a line of a window.
    pub fn give_row(&mut self, win: WinId, y: u16, x: u16, cells: &[u32]) -> Answer
        ensures { Gives (IsRow win.0 y x cells.now) self.old result self.new }
    {
        match self.screen.put(win, y, x, cells) {
            Ok(()) => Answer::of(Ok(Reply::Nothing)),
            Err(refusal) => refusal_answer(refusal),
        }
    }

    /// Moves the bytes that were sent into a buffer, and says how many they are. If it is too short, they stay.
    pub fn take(&mut self, alloc: Global, out: &mut [u8]) -> usize
        ensures desk { self.new.screen.desk ≡ self.old.screen.desk }
        ensures painter { self.new.screen.painter ≡ self.old.screen.painter }
        ensures length { result ≡ length (pending self.old) }
        ensures moved { result ≤ length out.old → (out.new ≡ pending self.old ++ drop result out.old) × (pending self.new ≡ []) }
        ensures kept { length out.old < result → (out.new ≡ out.old) × (pending self.new ≡ pending self.old) }
    {
        let bytes = self
            .screen
            .replace_writer(Counted::new(Vec::new(alloc)))
            .into_inner();
        let length = bytes.len();
        if length > out.len() {
            let _none = self.screen.replace_writer(Counted::new(bytes));
            return length;
        }
        out[..length].copy_from_slice(bytes.as_slice());
        length
    }

    /// Forgets what the terminal shows.
    pub fn invalidate(&mut self)
        ensures desk { self.new.screen.desk ≡ self.old.screen.desk }
        ensures writer { self.new.screen.writer ≡ self.old.screen.writer }
        ensures painter { self.new.screen.painter ≡ record self.old.screen.painter { last = None } }
    {
        self.screen.invalidate();
    }
}
