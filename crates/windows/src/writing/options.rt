//! The cursor, the attributes, the colours and the background of a window, its region, and whether it scrolls and asks
//! for a clear screen.

ghost use Rattle.std.specs.Prelude.{◌≡◌};
ghost use Rattle.windows.specs.{None, Some, IfOk, MatchResult, AreSoundWindows, set, after_edit, writing_edit, writing_refusal, windows, IsSetting, MayHave, Wrote, no_frame};

use crate::state::{set_settings, state_of};
use crate::table::Windows;
use bitflags::Flags;
use cell::{Cell, PairId, Refusal, WinId};
use grids::Grids;
use world::{Settings, Writing};

impl Windows {
    /// Makes a call that sets how a window is written in.
    ///
    /// # Errors
    /// `NoSuchWindow`, `OutsideWindow`, `BadRegion`, `BadCharacter`, `BadPair`.
    pub fn set(&mut self, win: WinId, writing: Writing<'_>) -> Result<(), Refusal>
        requires { IsSetting win.0 (writing_edit (windows self.old.table) writing) }
        ensures { Wrote no_frame self.old.table writing.entry result self.new.table }
    {
        let settings = settings_by(&self.table, win, writing)?;
        set_settings(&mut self.table, win, settings);
        Ok(())
    }
}

/// The settings of a window after a call that sets how it is written in.
#[rattlefmt::skip]
#[tactic(auto, using(crate::proofs::States::of_the_six))]
fn settings_by(table: &Grids, win: WinId, writing: Writing<'_>) -> Result<Settings, Refusal>
    requires { IsSetting win.0 (writing_edit (windows table.now) writing) }
    ensures within { IfOk result (MayHave (windows table.now) win.0) }
    ensures made { MatchResult result
        (λ made. (writing_refusal (windows table.now) writing.entry ≡ None)
        × (set (windows table.now) win.0 (λ before. made) ≡ after_edit (windows table.now) (writing_edit (windows table.now) writing.entry)))
        (λ refusal. writing_refusal (windows table.now) writing.entry ≡ Some refusal) }
    ensures sound { AreSoundWindows (windows table.now) }
{
    let state = state_of(table, win)?;
    let settings = state.settings;
    let background = settings.background;
    match writing {
        Writing::Move { y, x, .. } => {
            if y >= state.lines || x >= state.columns {
                return Err(Refusal::OutsideWindow);
            }
            Ok(Settings { cursor: (y, x), ..settings })
        }
        Writing::Setscrreg { top, bottom, .. } => {
            if bottom < top || state.lines <= bottom {
                return Err(Refusal::BadRegion);
            }
            Ok(Settings { region: (top, bottom), ..settings })
        }
        Writing::Scrollok { flag, .. } => Ok(Settings { scrolling: flag, ..settings }),
        Writing::Clearok { flag, .. } => Ok(Settings { clear: flag, ..settings }),
        Writing::Attrset { attrs, .. } => Ok(Settings { attrs: attrs.valid_attributes(), ..settings }),
        Writing::Attron { attrs, .. } => Ok(Settings { attrs: settings.attrs.union(attrs.valid_attributes()), ..settings }),
        Writing::Attroff { attrs, .. } => Ok(Settings { attrs: settings.attrs.difference(attrs.valid_attributes()), ..settings }),
        Writing::Bkgdset { attrs, ch, .. } => Ok(Settings { background: Cell::new(ch, attrs, 0).ok_or(Refusal::BadCharacter)?, ..settings }),
        Writing::ColorSet { pair, .. } => Ok(Settings { pair: PairId::new(pair).ok_or(Refusal::BadPair)?, ..settings }),
        Writing::Bkgdpair { pair, .. } => Ok(Settings { background: background.with_pair(PairId::new(pair).ok_or(Refusal::BadPair)?), ..settings }),
        _ => unreachable!(),
    }
}
