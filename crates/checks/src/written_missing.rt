//! The calls on windows and panels that no screen has, by their numbers. Written by tools/calls from calls.table.

ghost use Rattle.std.specs.Prelude.{IfSome};
ghost use Rattle.checks.specs.Everywhere.{IsRefusedEverywhere};
ghost use Rattle.world.specs.declared.call.Call.TheVariants as calls;

use crate::everywhere::{is_no_panel, is_no_window};
use Refusal::*;
use cell::Refusal;
use world::{Call, Copying, Making, Query, Refresh, Stacking, Writing};

#[rattlefmt::skip]
fn of_making(call: &Making) -> Option<Refusal>
    ensures { IfSome result (IsRefusedEverywhere (calls.Making call.now)) }
{
    match *call {
        Making::Subwin { win, .. } | Making::Derwin { win, .. } | Making::Subpad { pad: win, .. } | Making::Delwin { win } | Making::Mvwin { win, .. }
        | Making::Mvderwin { win, .. } if is_no_window(win) => Some(NoSuchWindow),
        _ => None,
    }
}

#[rattlefmt::skip]
fn of_writing(call: &Writing<'_>) -> Option<Refusal>
    ensures { IfSome result (IsRefusedEverywhere (calls.Writing call.now)) }
{
    match *call {
        Writing::Move { win, .. } | Writing::Addch { win, .. } | Writing::Addstr { win, .. } | Writing::Insch { win, .. } | Writing::Delch { win } |
        Writing::Insertln { win } | Writing::Deleteln { win } | Writing::Erase { win } | Writing::Clear { win } | Writing::Clrtoeol { win }
        if is_no_window(win) => Some(NoSuchWindow),
        Writing::Clrtobot { win } | Writing::Scrl { win, .. } | Writing::Setscrreg { win, .. } | Writing::Scrollok { win, .. } |
        Writing::Clearok { win, .. } | Writing::Attrset { win, .. } | Writing::Attron { win, .. } | Writing::Attroff { win, .. } |
        Writing::Bkgdset { win, .. } | Writing::ColorSet { win, .. } if is_no_window(win) => Some(NoSuchWindow),
        Writing::Bkgdpair { win, .. } if is_no_window(win) => Some(NoSuchWindow),
        _ => None,
    }
}

#[rattlefmt::skip]
fn of_copying(call: &Copying) -> Option<Refusal>
    ensures { IfSome result (IsRefusedEverywhere (calls.Copying call.now)) }
{
    match *call {
        Copying::Overlay { src: win, .. } | Copying::Overwrite { src: win, .. } | Copying::Copywin { src: win, .. } | Copying::Touchwin { win } |
        Copying::Untouchwin { win } | Copying::Touchline { win, .. } | Copying::Touchln { win, .. } | Copying::Syncup { win } |
        Copying::Syncdown { win } | Copying::IsLinetouched { win, .. } if is_no_window(win) => Some(NoSuchWindow),
        Copying::IsWintouched { win } if is_no_window(win) => Some(NoSuchWindow),
        Copying::Overlay { dst: win, .. } | Copying::Overwrite { dst: win, .. } | Copying::Copywin { dst: win, .. } if is_no_window(win) =>
        Some(NoSuchWindow),
        _ => None,
    }
}

#[rattlefmt::skip]
fn of_query(call: &Query) -> Option<Refusal>
    ensures { IfSome result (IsRefusedEverywhere (calls.Query call.now)) }
{
    match *call {
        Query::Getyx { win } | Query::Getbegyx { win } | Query::Getmaxyx { win } | Query::Getparyx { win } | Query::Inch { win } if is_no_window(win)
        => Some(NoSuchWindow),
        _ => None,
    }
}

#[rattlefmt::skip]
fn of_stacking(call: &Stacking) -> Option<Refusal>
    ensures { IfSome result (IsRefusedEverywhere (calls.Stacking call.now)) }
{
    match *call {
        Stacking::DelPanel { panel } | Stacking::ShowPanel { panel } | Stacking::HidePanel { panel } | Stacking::TopPanel { panel } |
        Stacking::BottomPanel { panel } | Stacking::MovePanel { panel, .. } | Stacking::ReplacePanel { panel, .. } |
        Stacking::PanelAbove { panel: Some(panel) } | Stacking::PanelBelow { panel: Some(panel) } | Stacking::PanelWindow { panel }
        if is_no_panel(panel) => Some(NoSuchPanel),
        Stacking::PanelHidden { panel } if is_no_panel(panel) => Some(NoSuchPanel),
        Stacking::NewPanel { win } | Stacking::ReplacePanel { win, .. } if is_no_window(win) => Some(NoSuchWindow),
        _ => None,
    }
}

#[rattlefmt::skip]
fn of_refresh(call: &Refresh) -> Option<Refusal>
    ensures { IfSome result (IsRefusedEverywhere (calls.Refresh call.now)) }
{
    match *call {
        Refresh::Noutrefresh { win } | Refresh::Pnoutrefresh { pad: win, .. } if is_no_window(win) => Some(NoSuchWindow),
        _ => None,
    }
}

/// Why every screen refuses a call, where it is on a window or a panel of a number that none has.
pub(crate) fn refusal_by_number(call: &Call<'_>) -> Option<Refusal>
    ensures { IfSome result (IsRefusedEverywhere call.now) }
{
    match call {
        Call::Making(call) => of_making(call),
        Call::Writing(call) => of_writing(call),
        Call::Copying(call) => of_copying(call),
        Call::Query(call) => of_query(call),
        Call::Stacking(call) => of_stacking(call),
        Call::Refresh(call) => of_refresh(call),
    }
}
