//! The calls that only ask: about a window, about what is touched of it, and about panels.

ghost use Rattle.std.specs.Prelude.{◌≡◌};
ghost use Rattle.compose.specs.{Ok, true, change_reply, order_reply, World, copying_change, copying_refusal, refusal, reply_of, query_refusal, query_reply, numbered_panel, panel_number};
ghost use Rattle.compose.specs.{stacking_order, stacking_refusal, Call, as_reply, is_query, windows as windows_of, no_windows, panels, Answered};

use cell::{Refusal, WinId};
use grids::Grids;
use stack::Stack;
use windows::Windows;
use world::{Call, Copying, PanelId, Query, Reply, Stacking};

/// Answers a call that only asks.
#[inline(always)]
pub(crate) fn answer(windows: &Windows, stack: &Stack, query: &Call<'_>) -> Result<Reply, Refusal>
    requires { is_query query.now ≡ true }
    ensures { (world : World) → let seen = record world { windows = windows_of windows.now.table; panels = panels stack.now } in
        Answered (refusal seen query.now) (reply_of seen query.now) result }
{
    match *query {
        Call::Query(asked) => of_window(windows, asked),
        Call::Copying(asked) => of_marks(&windows.table, asked),
        Call::Stacking(asked) => of_panels(stack, asked),
        _ => unreachable!(),
    }
}

/// What is asked about a window or pad.
#[inline(always)]
pub(crate) fn of_window(windows: &Windows, query: Query) -> Result<Reply, Refusal>
    ensures { Answered (query_refusal (windows_of windows.now.table) query) (query_reply (windows_of windows.now.table) query) result }
{
    match query {
        Query::Getyx { win } => numbers(windows.table.getyx(win)?),
        Query::Getbegyx { win } => numbers(windows.table.getbegyx(win)?),
        Query::Getmaxyx { win } => numbers(windows.table.getmaxyx(win)?),
        Query::Getparyx { win } => numbers(windows.table.getparyx(win)?),
        Query::Inch { win } => Ok(Reply::Cell(windows.winch(win)?)),
    }
}

/// What is asked about what is touched.
#[inline(always)]
pub(crate) fn of_marks(table: &Grids, query: Copying) -> Result<Reply, Refusal>
    requires { is_query (Call.Copying query) ≡ true }
    ensures { Answered (copying_refusal (windows_of table.now) query) (change_reply (copying_change (windows_of table.now) query)) result }
{
    match query {
        Copying::IsLinetouched { win, y } => flag(table.is_linetouched(win, y)),
        Copying::IsWintouched { win } => flag(table.is_wintouched(win)),
        _ => unreachable!(),
    }
}

/// What is asked about panels.
#[inline(always)]
pub(crate) fn of_panels(stack: &Stack, query: Stacking) -> Result<Reply, Refusal>
    requires { is_query (Call.Stacking query) ≡ true }
    ensures { Answered (stacking_refusal no_windows (panels stack.now) query) (order_reply (stacking_order (panels stack.now) query)) result }
{
    match query {
        Stacking::PanelAbove { panel: above } => panel(stack.above(above)),
        Stacking::PanelBelow { panel: below } => panel(stack.below(below)),
        Stacking::PanelWindow { panel } => number(stack.window(panel)),
        Stacking::PanelHidden { panel } => flag(stack.is_hidden(panel)),
        _ => unreachable!(),
    }
}

/// Two numbers.
fn numbers(numbers: (u16, u16)) -> Result<Reply, Refusal>
    ensures { result ≡ Ok (Reply.TwoNumbers numbers.0 numbers.1) }
{
    Ok(Reply::TwoNumbers(numbers.0, numbers.1))
}

/// Whether something is so.
fn flag(is: Result<bool, Refusal>) -> Result<Reply, Refusal>
    ensures { result ≡ as_reply Reply.Flag is }
{
    Ok(Reply::Flag(is?))
}

/// The number of a window.
fn number(win: Result<WinId, Refusal>) -> Result<Reply, Refusal>
    ensures { result ≡ as_reply Reply.Number win }
{
    Ok(Reply::Number(win?))
}

/// A panel, if there is one.
fn panel(panel: Result<Option<PanelId>, Refusal>) -> Result<Reply, Refusal>
    ensures { result ≡ as_reply (λ p. Reply.Panel (numbered_panel (panel_number p))) panel }
{
    Ok(Reply::Panel(panel?))
}
