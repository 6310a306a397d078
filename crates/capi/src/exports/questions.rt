//! What is asked beside the calls.

ghost use Rattle.std.specs.Prelude.{◌≡◌};
ghost use Rattle.capi.specs.Lines.{LineTold, screen_line, window_line};
ghost use Rattle.capi.specs.Numbers.{panel_of, saturated, window_of};
ghost use Rattle.capi.specs.Questions.{Told};
ghost use Rattle.capi.specs.declared.question.Question.TheVariants.{Cell, IsPad, NextPanel, NextWindow, PanelOf, Parent, Setting as SettingOf};
ghost use Rattle.capi.specs.declared.question.Setting.TheVariants.{Attributes, Background, Clears, Region, Scrolls};

use crate::answer::Answer;
use crate::handle::Handle;
use crate::number::{panel_of, saturated, window_of};
use crate::question::{Question, Setting};
use std::alloc::Global;

/// Puts the cells of line `y` of a window or pad into a buffer, as many as fit, and answers how many the line has.
#[unsafe(no_mangle)]
pub extern "C" fn curspan_row(
    alloc: Global,
    screen: &mut Handle,
    win: u32,
    y: u32,
    cells: &mut [u32],
) -> Answer
    ensures told { LineTold screen.old.value (window_line (saturated win) (saturated y)) cells.old result cells.new }
    ensures same { screen.new.value ≡ screen.old.value }
{
    screen.tell_row(alloc, window_of(win), saturated(y), cells)
}

/// Puts the cells of line `y` of the virtual screen into a buffer, as many as fit, and answers how many the line has.
#[unsafe(no_mangle)]
pub extern "C" fn curspan_shown_row(
    alloc: Global,
    screen: &mut Handle,
    y: u32,
    cells: &mut [u32],
) -> Answer
    ensures told { LineTold screen.old.value (screen_line (saturated y)) cells.old result cells.new }
    ensures same { screen.new.value ≡ screen.old.value }
{
    screen.tell_shown_row(alloc, saturated(y), cells)
}

/// The cell of a window or pad at line `y` and column `x`.
#[unsafe(no_mangle)]
pub extern "C" fn curspan_cell(
    alloc: Global,
    screen: &mut Handle,
    win: u32,
    y: u32,
    x: u32,
) -> Answer
    ensures told { Told screen.old.value (Cell (window_of win) (saturated y) (saturated x)) result }
    ensures same { screen.new.value ≡ screen.old.value }
{
    screen.tell(
        alloc,
        Question::Cell(window_of(win), saturated(y), saturated(x)),
    )
}

/// The attributes that written characters get, and their colour pair.
#[unsafe(no_mangle)]
pub extern "C" fn curspan_wattr_get(alloc: Global, screen: &mut Handle, win: u32) -> Answer
    ensures told { Told screen.old.value (SettingOf Attributes (window_of win)) result }
    ensures same { screen.new.value ≡ screen.old.value }
{
    screen.tell(
        alloc,
        Question::Setting(Setting::Attributes, window_of(win)),
    )
}

/// The background.
#[unsafe(no_mangle)]
pub extern "C" fn curspan_getbkgd(alloc: Global, screen: &mut Handle, win: u32) -> Answer
    ensures told { Told screen.old.value (SettingOf Background (window_of win)) result }
    ensures same { screen.new.value ≡ screen.old.value }
{
    screen.tell(
        alloc,
        Question::Setting(Setting::Background, window_of(win)),
    )
}

/// The first and the last line of the scroll region.
#[unsafe(no_mangle)]
pub extern "C" fn curspan_wgetscrreg(alloc: Global, screen: &mut Handle, win: u32) -> Answer
    ensures told { Told screen.old.value (SettingOf Region (window_of win)) result }
    ensures same { screen.new.value ≡ screen.old.value }
{
    screen.tell(alloc, Question::Setting(Setting::Region, window_of(win)))
}

/// Whether the window scrolls.
#[unsafe(no_mangle)]
pub extern "C" fn curspan_is_scrollok(alloc: Global, screen: &mut Handle, win: u32) -> Answer
    ensures told { Told screen.old.value (SettingOf Scrolls (window_of win)) result }
    ensures same { screen.new.value ≡ screen.old.value }
{
    screen.tell(alloc, Question::Setting(Setting::Scrolls, window_of(win)))
}

/// Whether the window asks for a clear screen where it is next taken into the virtual screen.
#[unsafe(no_mangle)]
pub extern "C" fn curspan_is_cleared(alloc: Global, screen: &mut Handle, win: u32) -> Answer
    ensures told { Told screen.old.value (SettingOf Clears (window_of win)) result }
    ensures same { screen.new.value ≡ screen.old.value }
{
    screen.tell(alloc, Question::Setting(Setting::Clears, window_of(win)))
}

/// Whether it is a pad.
#[unsafe(no_mangle)]
pub extern "C" fn curspan_is_pad(alloc: Global, screen: &mut Handle, win: u32) -> Answer
    ensures told { Told screen.old.value (IsPad (window_of win)) result }
    ensures same { screen.new.value ≡ screen.old.value }
{
    screen.tell(alloc, Question::IsPad(window_of(win)))
}

/// The window or pad from which a window or pad derives.
#[unsafe(no_mangle)]
pub extern "C" fn curspan_wgetparent(alloc: Global, screen: &mut Handle, win: u32) -> Answer
    ensures told { Told screen.old.value (Parent (window_of win)) result }
    ensures same { screen.new.value ≡ screen.old.value }
{
    screen.tell(alloc, Question::Parent(window_of(win)))
}

/// The panel that a window is in, 0 for none.
#[unsafe(no_mangle)]
pub extern "C" fn curspan_window_panel(alloc: Global, screen: &mut Handle, win: u32) -> Answer
    ensures told { Told screen.old.value (PanelOf (window_of win)) result }
    ensures same { screen.new.value ≡ screen.old.value }
{
    screen.tell(alloc, Question::PanelOf(window_of(win)))
}

/// The least number of a window or pad that is greater than a number. 0 is none.
#[unsafe(no_mangle)]
pub extern "C" fn curspan_next_window(alloc: Global, screen: &mut Handle, win: u32) -> Answer
    ensures told { Told screen.old.value (NextWindow (window_of win)) result }
    ensures same { screen.new.value ≡ screen.old.value }
{
    screen.tell(alloc, Question::NextWindow(window_of(win)))
}

/// The least number of a panel that is greater than a number. 0 is none.
#[unsafe(no_mangle)]
pub extern "C" fn curspan_next_panel(alloc: Global, screen: &mut Handle, panel: u32) -> Answer
    ensures told { Told screen.old.value (NextPanel (panel_of panel)) result }
    ensures same { screen.new.value ≡ screen.old.value }
{
    screen.tell(alloc, Question::NextPanel(panel_of(panel)))
}
