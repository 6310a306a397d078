//! What a call reads of its window first, and sets of it.

ghost use Rattle.std.specs.Prelude.{◌≡◌};
ghost use Rattle.windows.specs.{MatchResult, None, set, AreSoundWindows, windows, IsStateOf, MayHave};

use cell::{Refusal, WinId};
use grids::Grids;
use world::Settings;

/// The size and the settings of a window.
#[derive(Clone, Copy)]
pub struct WindowState {
    pub lines: u16,
    pub columns: u16,
    pub settings: Settings,
}

/// The size and the settings of a window, or that there is no such window.
pub fn state_of(table: &Grids, win: WinId) -> Result<WindowState, Refusal>
    ensures state { MatchResult result
        (λ state. IsStateOf (windows table.now) win.0 state)
        (λ refusal. ((windows table.now).window win.0 ≡ None) × (refusal ≡ Refusal.NoSuchWindow)) }
    ensures sound { AreSoundWindows (windows table.now) }
{
    let (lines, columns, settings) = table.state(win)?;
    Ok(WindowState {
        lines,
        columns,
        settings,
    })
}

/// Gives a window these settings.
pub fn set_settings(table: &mut Grids, win: WinId, settings: Settings)
    requires { MayHave (windows table.old) win.0 settings }
    ensures set { windows table.new ≡ set (windows table.old) win.0 (λ before. settings) }
    ensures sound { AreSoundWindows (windows table.new) }
{
    table.set_settings(win, settings);
}
