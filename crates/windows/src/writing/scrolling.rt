//! Scrolling.

ghost use Rattle.windows.specs.{frame_of, scrl_drawing, put, Writing, windows, Wrote, its_frame, IsStateOf, window_in_state, StepWrote};

use crate::drawing::{move_down, move_up};
use crate::frame::lines_from;
use crate::state::{WindowState, state_of};
use crate::table::Windows;
use cell::{Rect, Refusal, WinId};
use grids::Grids;

impl Windows {
    /// Moves the lines of the scroll region up by `n`, or down by `-n` for a negative one. Lines that come from outside
    /// the region are set to the background, and the cursor stays.
    ///
    /// # Errors
    /// `NoSuchWindow`; `ScrollingOff` for a window that doesn't scroll.
    pub fn wscrl(&mut self, win: WinId, n: i16) -> Result<Option<Rect>, Refusal>
        ensures { Wrote its_frame self.old.table (Writing.Scrl win n) result self.new.table }
    {
        let state = state_of(&self.table, win)?;
        if !state.settings.scrolling {
            return Err(Refusal::ScrollingOff);
        }
        Ok(scroll(&mut self.table, win, &state, n))
    }
}

/// Moves the lines of the scroll region up by `n`, or down by `-n`. The window must exist and have the given state.
fn scroll(table: &mut Grids, win: WinId, state: &WindowState, n: i16) -> Option<Rect>
    requires state { IsStateOf (windows table.old) win.0 state.now }
    ensures { StepWrote (put (windows table.old) win.0 (scrl_drawing (windows table.old).window win.0 n (window_in_state state.now)))
        (frame_of (window_in_state state.now) (scrl_drawing (windows table.old).window win.0 n (window_in_state state.now))) (windows table.new) result }
{
    if n == 0 {
        return None;
    }
    let (top, bottom) = state.settings.region;
    let count = n.unsigned_abs();
    if n > 0 {
        move_up(table, win, state, top, bottom, count);
    } else {
        move_down(table, win, state, top, bottom, count);
    }
    Some(lines_from(state, top, bottom, 0))
}
