//! The calls that every screen refuses, whatever its size, and whatever was called on it before.

ghost use Rattle.std.specs.Prelude.{◌≡◌, ◌+◌, ◌-◌};
ghost use Rattle.checks.specs.{IfSome, list_any, IsRefusedEverywhere, are_past, is_no_panel, is_no_window, is_past, is_too_great, most_of, is_inside, is_bad_character};
ghost use Rattle.world.specs.declared.call.Call.TheVariants as calls;

use crate::written_missing::refusal_by_number;
use Refusal::*;
use cell::{
    LARGEST_PAD, LARGEST_SCREEN, LAST_COLOUR, LAST_PAIR, MOST_PANELS, MOST_WINDOWS, Refusal, WinId,
    is_no_size, is_printable,
};
use world::{Call, Copying, Making, PanelId, Query, Refresh, Stacking, Writing};

/// Whether no screen has such a window or pad.
pub(crate) fn is_no_window(win: WinId) -> bool
    ensures { result ≡ is_no_window win.0 }
{
    MOST_WINDOWS < win.0
}

/// Whether no screen has such a panel.
pub(crate) fn is_no_panel(panel: PanelId) -> bool
    ensures { result ≡ is_no_panel panel.0 }
{
    panel.0 == 0 || MOST_PANELS < panel.0
}

/// How many lines and columns a window has at most.
fn most_of(win: WinId) -> u16
    ensures { result ≡ most_of win.0 }
{
    if win.0 == 0 {
        LARGEST_SCREEN
    } else {
        LARGEST_PAD
    }
}

/// Whether no such window has that place.
fn is_past(win: WinId, y: u32, x: u32) -> bool
    ensures { result ≡ is_past win.0 y x }
{
    let most = u32::from(most_of(win));
    most <= y || most <= x
}

/// Whether no such window has so many lines from a line on.
fn are_past(win: WinId, y: u16, n: u16) -> bool
    ensures { result ≡ are_past win.0 y n }
{
    let most = most_of(win);
    most <= y || u32::from(y) + u32::from(n) > u32::from(most)
}

/// Whether so many lines or columns from a place on are among so many. 0 reaches to their end.
fn is_inside(n: u16, most: u16, at: u16) -> bool
    ensures { result ≡ is_inside n most at }
{
    if n == 0 {
        at < most
    } else {
        u32::from(at) + u32::from(n) <= u32::from(most)
    }
}

/// Whether of so many lines and columns none has such a part.
fn is_too_great(most: u16, lines: u16, columns: u16, y: u16, x: u16) -> bool
    ensures { result ≡ is_too_great most lines columns y x }
{
    !(is_inside(lines, most, y) && is_inside(columns, most, x))
}

/// Whether no text has the character.
fn is_bad_character(character: u8) -> bool
    ensures { result ≡ is_bad_character character }
{
    !(is_printable(character) || matches!(character, 8 | 10 | 13))
}

/// Whether no such window has the last place of the rectangle that begins at a place and is as large as another, which
/// is given by its first and its last place.
fn ends_past(win: WinId, from: (u16, u16), first: (u16, u16), last: (u16, u16)) -> bool
    ensures { result ≡ is_past win.0 (from.0 + (last.0 - first.0)) (from.1 + (last.1 - first.1)) }
{
    is_past(
        win,
        u32::from(from.0) + u32::from(last.0.saturating_sub(first.0)),
        u32::from(from.1) + u32::from(last.1.saturating_sub(first.1)),
    )
}

#[rattlefmt::skip]
fn of_making(making: &Making) -> Option<Refusal>
    ensures { IfSome result (IsRefusedEverywhere (calls.Making making.now)) }
{
    match *making {
        Making::Newwin { lines, columns, y, x } if is_too_great(LARGEST_SCREEN, lines, columns, y, x) => Some(OffScreen),
        Making::Newpad { lines, columns } if is_no_size(LARGEST_PAD, lines) || is_no_size(LARGEST_PAD, columns) => Some(BadSize),
        Making::Subwin { lines, columns, y, x, .. } if is_too_great(LARGEST_SCREEN, lines, columns, y, x) => Some(OutsideParent),
        Making::Derwin { lines, columns, y, x, .. } if is_too_great(LARGEST_SCREEN, lines, columns, y, x) => Some(OutsideParent),
        Making::Subpad { pad, .. } if pad.0 == 0 => Some(NotPad),
        Making::Subpad { lines, columns, y, x, .. } if is_too_great(LARGEST_PAD, lines, columns, y, x) => Some(OutsideParent),
        Making::Delwin { win } | Making::Mvwin { win, .. } if win.0 == 0 => Some(StandardScreen),
        Making::Mvwin { y, x, .. } if y >= LARGEST_SCREEN || x >= LARGEST_SCREEN => Some(OffScreen),
        Making::Mvderwin { win, .. } if win.0 == 0 => Some(NotDerived),
        Making::Mvderwin { win, y, x } if is_past(win, u32::from(y), u32::from(x)) => Some(OutsideParent),
        _ => None,
    }
}

#[rattlefmt::skip]
fn of_writing(writing: &Writing<'_>) -> Option<Refusal>
    ensures { IfSome result (IsRefusedEverywhere (calls.Writing writing.now)) }
{
    match *writing {
        Writing::Move { win, y, x } if is_past(win, u32::from(y), u32::from(x)) => Some(OutsideWindow),
        Writing::Addch { ch, .. } if is_bad_character(ch) => Some(BadCharacter),
        Writing::Addstr { text, .. } if text.iter().any(|ch| is_bad_character(*ch)) => Some(BadCharacter),
        Writing::Insch { ch, .. } | Writing::Bkgdset { ch, .. } if !is_printable(ch) => Some(BadCharacter),
        Writing::Setscrreg { win, top, bottom } if bottom < top || is_past(win, u32::from(bottom), 0) => Some(BadRegion),
        Writing::ColorSet { pair, .. } | Writing::Bkgdpair { pair, .. } if pair > u16::from(LAST_PAIR) => Some(BadPair),
        _ => None,
    }
}

#[rattlefmt::skip]
fn of_copying(copying: &Copying) -> Option<Refusal>
    ensures { IfSome result (IsRefusedEverywhere (calls.Copying copying.now)) }
{
    match *copying {
        Copying::Copywin { dminrow, dmincol, dmaxrow, dmaxcol, .. } if dmaxrow < dminrow || dmaxcol < dmincol => Some(BadRectangle),
        Copying::Copywin { dst, dmaxrow, dmaxcol, .. } if is_past(dst, u32::from(dmaxrow), u32::from(dmaxcol)) => Some(OutsideWindow),
        Copying::Copywin { src, sminrow, smincol, dminrow, dmincol, dmaxrow, dmaxcol, .. }
            if ends_past(src, (sminrow, smincol), (dminrow, dmincol), (dmaxrow, dmaxcol)) => Some(OutsideWindow),
        Copying::Touchline { win, y, n } | Copying::Touchln { win, y, n, .. } if are_past(win, y, n) => Some(OutsideWindow),
        Copying::IsLinetouched { win, y } if is_past(win, u32::from(y), 0) => Some(OutsideWindow),
        _ => None,
    }
}

#[rattlefmt::skip]
fn of_query(query: &Query) -> Option<Refusal>
    ensures { IfSome result (IsRefusedEverywhere (calls.Query query.now)) }
{
    match *query {
        Query::Getparyx { win } if win.0 == 0 => Some(NotDerived),
        _ => None,
    }
}

#[rattlefmt::skip]
fn of_stacking(stacking: &Stacking) -> Option<Refusal>
    ensures { IfSome result (IsRefusedEverywhere (calls.Stacking stacking.now)) }
{
    match *stacking {
        Stacking::NewPanel { win } | Stacking::ReplacePanel { win, .. } if win.0 == 0 => Some(StandardScreen),
        Stacking::MovePanel { y, x, .. } if y >= LARGEST_SCREEN || x >= LARGEST_SCREEN => Some(OffScreen),
        _ => None,
    }
}

#[rattlefmt::skip]
fn of_refresh(refresh: &Refresh) -> Option<Refusal>
    ensures { IfSome result (IsRefusedEverywhere (calls.Refresh refresh.now)) }
{
    match *refresh {
        Refresh::Pnoutrefresh { pad, .. } if pad.0 == 0 => Some(NotPad),
        Refresh::Pnoutrefresh { sminrow, smincol, smaxrow, smaxcol, .. } if smaxrow < sminrow || smaxcol < smincol => Some(BadRectangle),
        Refresh::Pnoutrefresh { pad, pminrow, pmincol, sminrow, smincol, smaxrow, smaxcol }
            if ends_past(pad, (pminrow, pmincol), (sminrow, smincol), (smaxrow, smaxcol)) => Some(OutsideWindow),
        Refresh::Pnoutrefresh { smaxrow, smaxcol, .. } if smaxrow >= LARGEST_SCREEN || smaxcol >= LARGEST_SCREEN => Some(OffScreen),
        Refresh::InitPair { pair, foreground, background }
            if pair == 0 || pair > u16::from(LAST_PAIR) || foreground > u16::from(LAST_COLOUR) || background > u16::from(LAST_COLOUR) => Some(BadPair),
        _ => None,
    }
}

/// Why every screen refuses a call, where its arguments alone say so.
pub fn refusal_everywhere(call: &Call<'_>) -> Option<Refusal>
    ensures { IfSome result (IsRefusedEverywhere call.now) }
{
    if let Some(why) = refusal_by_number(call) {
        return Some(why);
    }
    match call {
        Call::Making(making) => of_making(making),
        Call::Writing(writing) => of_writing(writing),
        Call::Copying(copying) => of_copying(copying),
        Call::Query(query) => of_query(query),
        Call::Stacking(stacking) => of_stacking(stacking),
        Call::Refresh(refresh) => of_refresh(refresh),
    }
}
