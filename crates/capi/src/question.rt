//! What C asks of a screen beside the calls, and gets in one or two numbers.

ghost use Rattle.std.specs.Prelude.{◌≡◌, ◌∷◌, [], IfOk};
ghost use Rattle.std.specs.Option.{option_map};
ghost use Rattle.std.specs.Result.{result_err};
ghost use Rattle.calls.specs.Methods.{as_reply};
ghost use Rattle.cell.specs.Refusals.{first_of};
ghost use Rattle.world.specs.calls.Rules.{missing_window};
ghost use Rattle.compose.specs.Desks.{world};
ghost use Rattle.capi.specs.Questions.{IsAnswered, IsNext, IsPanelOf, cell_answer, is_panel, is_window, pad_answer, setting_reply, settings_of};

use bitflags::Flags;
use cell::{Cell, MOST_PANELS, MOST_WINDOWS};
use desk::{Desk, PanelId, Refusal, Reply, WinId};
use world::Settings;

/// A setting of a window.
#[derive(Clone, Copy)]
pub enum Setting {
    Attributes,
    Background,
    Region,
    Scrolls,
    Clears,
}

/// A question about a window or a panel.
#[derive(Clone, Copy)]
pub enum Question {
    Setting(Setting, WinId),
    IsPad(WinId),
    Parent(WinId),
    PanelOf(WinId),
    NextWindow(WinId),
    NextPanel(PanelId),
    Cell(WinId, u16, u16),
}

impl Question {
    /// Asks it of a desk.
    #[inline(always)]
    pub fn ask(self, desk: &Desk) -> Result<Reply, Refusal>
        ensures { IsAnswered (world desk.now) self result }
    {
        match self {
            Question::Setting(setting, win) => setting.reply(settings(desk, win)),
            Question::IsPad(win) => Ok(Reply::Flag(is_pad(desk, win)?)),
            Question::Parent(win) => Ok(Reply::Number(desk.windows().table.parent(win)?)),
            Question::PanelOf(win) => Ok(Reply::Panel(panel_of(desk, win)?)),
            Question::NextWindow(win) => {
                let next = next_window(desk, win);
                Ok(Reply::Number(next.unwrap_or(WinId::STANDARD)))
            }
            Question::NextPanel(panel) => Ok(Reply::Panel(next_panel(desk, panel))),
            Question::Cell(win, y, x) => Ok(Reply::Cell(cell_at(desk, win, y, x)?)),
        }
    }
}

impl Setting {
    /// What it is among some settings.
    #[inline(always)]
    fn reply(self, settings: Result<Settings, Refusal>) -> Result<Reply, Refusal>
        ensures { result ≡ as_reply (setting_reply self) settings }
    {
        let settings = settings?;
        Ok(match self {
            Setting::Attributes => Reply::TwoNumbers(
                u16::from(settings.attrs.bits()),
                u16::from(settings.pair.number()),
            ),
            Setting::Background => Reply::Cell(settings.background),
            Setting::Region => Reply::TwoNumbers(settings.region.0, settings.region.1),
            Setting::Scrolls => Reply::Flag(settings.scrolling),
            Setting::Clears => Reply::Flag(settings.clear),
        })
    }
}

/// The settings of a window or pad.
#[inline(always)]
fn settings(desk: &Desk, win: WinId) -> Result<Settings, Refusal>
    ensures { result ≡ settings_of (world desk.now).windows.window win.0 }
{
    let (_, _, settings) = desk.windows().table.state(win)?;
    Ok(settings)
}

/// Whether it is a pad.
#[inline(always)]
fn is_pad(desk: &Desk, win: WinId) -> Result<bool, Refusal>
    ensures { result ≡ pad_answer (world desk.now).windows.window win.0 }
{
    match desk.windows().table.getbegyx(win) {
        Ok(_) => Ok(false),
        Err(Refusal::IsPad) => Ok(true),
        Err(refusal) => Err(refusal),
    }
}

/// The cell that a window shows at a place.
#[inline(always)]
fn cell_at(desk: &Desk, win: WinId, y: u16, x: u16) -> Result<Cell, Refusal>
    ensures { result ≡ cell_answer (world desk.now).windows.window win.0 y x }
{
    let (lines, columns) = desk.windows().table.getmaxyx(win)?;
    if y >= lines || x >= columns {
        return Err(Refusal::OutsideWindow);
    }
    Ok(desk.windows().table.cell(win, y, x))
}

/// The panel that a window is in, if it is in one.
#[inline(always)]
fn panel_of(desk: &Desk, win: WinId) -> Result<Option<PanelId>, Refusal>
    ensures refused { result_err result ≡ first_of (missing_window (world desk.now).windows win.0 ∷ []) }
    ensures panel { IfOk result (IsPanelOf (world desk.now).panels win.0) }
{
    if desk.windows().table.has_window(win) {
        Ok(desk.stack().panel_of(win))
    } else {
        Err(Refusal::NoSuchWindow)
    }
}

/// The window or pad of the least number that is greater than one.
fn next_window(desk: &Desk, after: WinId) -> Option<WinId>
    ensures { IsNext (is_window (world desk.now)) after.0 (option_map (λ w. w.0) result) }
{
    let _sound = desk.size();
    let from = u32::from(after.0) + 1;
    for n in from..u32::from(MOST_WINDOWS) + 1 {
        let win = WinId(n as u16);
        if desk.windows().table.has_window(win) {
            return Some(win);
        }
    }
    None
}

/// The panel of the least number that is greater than one.
fn next_panel(desk: &Desk, after: PanelId) -> Option<PanelId>
    ensures { IsNext (is_panel (world desk.now)) after.0 (option_map (λ p. p.0) result) }
{
    let _sound = desk.size();
    let from = u32::from(after.0) + 1;
    for n in from..u32::from(MOST_PANELS) + 1 {
        let panel = PanelId(n as u16);
        if desk.stack().window(panel).is_ok() {
            return Some(panel);
        }
    }
    None
}
