//! A handle for C: the pointer of a box with a screen, or null.

ghost use Rattle.std.specs.Prelude.{◌≡◌, IfOk, Option, true};
ghost use Rattle.cell.specs.Refusals.{RefusedBy};
ghost use Rattle.world.specs.calls.Making.{new_refusal};
ghost use Rattle.calls.specs.Queries.{is_query};
ghost use Rattle.capi.specs.Called.{Asked, Called};
ghost use Rattle.capi.specs.Giving.{GivenTo, IsFill, IsRow};
ghost use Rattle.capi.specs.Held.{IsBlank};
ghost use Rattle.capi.specs.Lines.{LineTold, screen_line, window_line};
ghost use Rattle.capi.specs.Lives.{Forgotten, Opened, Taken};
ghost use Rattle.capi.specs.Questions.{Told};
ghost use Rattle.capi.specs.declared.c_screen.CScreen.{CScreen as TheCScreen};

use crate::answer::{Answer, refusal_answer};
use crate::c_screen::{CScreen, Outlet};
use crate::question::Question;
use desk::{Call, Rect, Refusal, Reply, Sink, WinId};
use raw_box::{HoldsBox, NullableBox};
use std::alloc::Global;
use std::marker::Model;

/// What C holds. A handle of zeros is closed.
#[repr(C)]
pub struct Handle {
    at: *mut u8,
    pub ghost value: { Option TheCScreen },
}

impl Model for Handle {
    ghost use Rattle.raw_box.specs.Nullable.{nullable_owns};
    ghost use Rattle.capi.specs.contracts.c_screen.CScreen.{the_row};

    ghost also_owns = { λ h. nullable_owns the_row h.at h.value };
}

impl HoldsBox for Handle {
    type Held = CScreen;

    ghost held = { λ h. h.value };

    fn of(boxed: NullableBox<CScreen>) -> Handle
        ensures { result.value ≡ boxed.value }
    {
        let NullableBox { at } = boxed;
        Handle { at: at as *mut u8 }
    }

    fn into_nullable_box(self) -> NullableBox<CScreen>
        ensures { result.value ≡ self.value }
    {
        let Handle { at } = self;
        NullableBox {
            at: at as *mut CScreen,
        }
    }
}

impl Handle {
    /// Puts a blank screen into the handle, in place of one that was there.
    pub fn open(&mut self, alloc: Global, lines: u16, columns: u16) -> Answer
        ensures { Opened lines columns self.old.value result self.new.value }
    {
        match new_screen(alloc, lines, columns) {
            Ok(c_screen) => {
                self.put(alloc, c_screen);
                Answer::of(Ok(Reply::Nothing))
            }
            Err(refusal) => refusal_answer(refusal),
        }
    }

    /// Makes a call on the screen.
    #[inline(always)]
    pub fn call(&mut self, alloc: Global, call: &Call<'_>) -> Answer
        ensures { Called ⟦<Outlet as Sink>⟧ self.old.value call.now result self.new.value }
    {
        with_held!(
            self,
            alloc,
            |c_screen| c_screen.call(call),
            Answer::of_closed_handle()
        )
    }

    /// Makes a call that only asks. The handle has the same box after it.
    #[inline(always)]
    pub fn ask(&mut self, alloc: Global, query: &Call<'_>) -> Answer
        requires { is_query query.now ≡ true }
        ensures { Asked ⟦<Outlet as Sink>⟧ self.old.value query.now result self.new.value }
    {
        with_held!(
            self,
            alloc,
            |c_screen| c_screen.ask(query),
            Answer::of_closed_handle()
        )
    }

    /// Answers a question.
    #[inline(always)]
    pub fn tell(&mut self, alloc: Global, question: Question) -> Answer
        ensures told { Told self.old.value question result }
        ensures same { self.new.value ≡ self.old.value }
    {
        with_held!(
            self,
            alloc,
            |c_screen| c_screen.tell(question),
            Answer::of_closed_handle()
        )
    }

    /// Puts the cells of a line of a window into a buffer, as many as fit, and answers how many the line has.
    pub fn tell_row(&mut self, alloc: Global, win: WinId, y: u16, cells: &mut [u32]) -> Answer
        ensures told { LineTold self.old.value (window_line win.0 y) cells.old result cells.new }
        ensures same { self.new.value ≡ self.old.value }
    {
        with_held!(
            self,
            alloc,
            |c_screen| c_screen.tell_row(win, y, cells),
            Answer::of_closed_handle()
        )
    }

    /// Puts the cells of a line of the virtual screen into a buffer, as many as fit, and answers how many the line has.
    pub fn tell_shown_row(&mut self, alloc: Global, y: u16, cells: &mut [u32]) -> Answer
        ensures told { LineTold self.old.value (screen_line y) cells.old result cells.new }
        ensures same { self.new.value ≡ self.old.value }
    {
        with_held!(
            self,
            alloc,
            |c_screen| c_screen.tell_shown_row(y, cells),
            Answer::of_closed_handle()
        )
    }

    /// Sets the cells of a rectangle of a window to one cell.
    pub fn fill(&mut self, alloc: Global, win: WinId, rect: Rect, cell: u32) -> Answer
        ensures { GivenTo (IsFill win.0 rect cell) self.old.value result self.new.value }
    {
        with_held!(
            self,
            alloc,
            |c_screen| c_screen.fill(win, rect, cell),
            Answer::of_closed_handle()
        )
    }

    /// Puts cells into a line of a window.
    pub fn give_row(&mut self, alloc: Global, win: WinId, y: u16, x: u16, cells: &[u32]) -> Answer
        ensures { GivenTo (IsRow win.0 y x cells.now) self.old.value result self.new.value }
    {
        with_held!(
            self,
            alloc,
            |c_screen| c_screen.give_row(win, y, x, cells),
            Answer::of_closed_handle()
        )
    }

    /// Moves the bytes that were sent into a buffer, and says how many they are. If it is too short, they stay.
    pub fn take(&mut self, alloc: Global, out: &mut [u8]) -> usize
        ensures { Taken self.old.value out.old result out.new self.new.value }
    {
        with_held!(self, alloc, |c_screen| c_screen.take(alloc, out), 0)
    }

    /// Forgets what the terminal shows.
    pub fn invalidate(&mut self, alloc: Global)
        ensures { Forgotten self.old.value self.new.value }
    {
        with_held!(self, alloc, |c_screen| c_screen.invalidate(), ())
    }
}

/// A blank screen in a box.
fn new_screen(alloc: Global, lines: u16, columns: u16) -> Result<Box<CScreen>, Refusal>
    ensures blank { IfOk result (λ c_screen. IsBlank lines columns c_screen.value) }
    ensures refused { RefusedBy (new_refusal lines columns) result }
{
    let c_screen = CScreen::new(alloc, lines, columns)?;
    match Box::new(alloc, c_screen) {
        Ok(c_screen) => Ok(c_screen),
        Err(failed) => {
            drop(failed.value);
            Err(Refusal::NoMemory)
        }
    }
}
