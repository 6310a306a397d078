//! The calls that write in a window. Written by tools/calls from calls.table.

ghost use Rattle.std.specs.Prelude.{◌≡◌};
ghost use Rattle.world.specs.Effects.{edits};
ghost use Rattle.world.specs.calls.Writing.{writing_refusal, writing_edit};
ghost use Rattle.grids.specs.Tables.{windows as windows_of};
ghost use Rattle.windows.specs.Calls.{Drew, its_frame};
ghost use Rattle.compose.specs.steps.Outcomes.{written_window};

use crate::dispatch::without_frame;
use cell::{Rect, Refusal, WinId};
use windows::Windows;
use world::Writing;

/// The window that a call writes in, or of which it sets how it is written in.
pub(crate) fn window_of(writing: Writing<'_>) -> WinId
    ensures { result.0 ≡ written_window writing.entry }
{
    match writing {
        Writing::Move { win, .. } => win,
        Writing::Addch { win, .. } => win,
        Writing::Addstr { win, .. } => win,
        Writing::Insch { win, .. } => win,
        Writing::Delch { win } => win,
        Writing::Insertln { win } => win,
        Writing::Deleteln { win } => win,
        Writing::Erase { win } => win,
        Writing::Clear { win } => win,
        Writing::Clrtoeol { win } => win,
        Writing::Clrtobot { win } => win,
        Writing::Scrl { win, .. } => win,
        Writing::Setscrreg { win, .. } => win,
        Writing::Scrollok { win, .. } => win,
        Writing::Clearok { win, .. } => win,
        Writing::Attrset { win, .. } => win,
        Writing::Attron { win, .. } => win,
        Writing::Attroff { win, .. } => win,
        Writing::Bkgdset { win, .. } => win,
        Writing::ColorSet { win, .. } => win,
        Writing::Bkgdpair { win, .. } => win,
    }
}

/// Makes a call that writes in a window, or sets how it is written in, and answers its frame.
#[rattlefmt::skip]
#[inline(always)]
#[tactic(auto, using(crate::proofs::OutcomeLaws::framed))]
pub(crate) fn draw(windows: &mut Windows, writing: Writing<'_>) -> Result<Option<Rect>, Refusal>
    ensures { Drew its_frame windows.old.table (writing_refusal (windows_of windows.old.table) writing.entry)
        (edits (writing_edit (windows_of windows.old.table) writing.entry)) result windows.new.table }
{
    match writing {
        Writing::Move { win, .. } => without_frame(windows.set(win, writing)),
        Writing::Addch { win, ch } => windows.waddch(win, ch),
        Writing::Addstr { win, text } => windows.waddstr(win, text),
        Writing::Insch { win, ch } => windows.winsch(win, ch),
        Writing::Delch { win } => windows.wdelch(win),
        Writing::Insertln { win } => windows.winsertln(win),
        Writing::Deleteln { win } => windows.wdeleteln(win),
        Writing::Erase { win } => windows.werase(win),
        Writing::Clear { win } => windows.wclear(win),
        Writing::Clrtoeol { win } => windows.wclrtoeol(win),
        Writing::Clrtobot { win } => windows.wclrtobot(win),
        Writing::Scrl { win, n } => windows.wscrl(win, n),
        Writing::Setscrreg { win, .. } => without_frame(windows.set(win, writing)),
        Writing::Scrollok { win, .. } => without_frame(windows.set(win, writing)),
        Writing::Clearok { win, .. } => without_frame(windows.set(win, writing)),
        Writing::Attrset { win, .. } => without_frame(windows.set(win, writing)),
        Writing::Attron { win, .. } => without_frame(windows.set(win, writing)),
        Writing::Attroff { win, .. } => without_frame(windows.set(win, writing)),
        Writing::Bkgdset { win, .. } => without_frame(windows.set(win, writing)),
        Writing::ColorSet { win, .. } => without_frame(windows.set(win, writing)),
        Writing::Bkgdpair { win, .. } => without_frame(windows.set(win, writing)),
    }
}
