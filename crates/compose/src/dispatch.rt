//! The calls, by the group that they are in.

ghost use Rattle.std.specs.Prelude.{◌≡◌};
ghost use Rattle.compose.specs.{false, is_in_panel, AreSoundPanels, copying_refusal, copying_change, making_refusal, making_change, panel_number, is_doupdate, writing_refusal, writing_edit, edits};
ghost use Rattle.compose.specs.{Call, Reply, as_reply, windows as windows_of, no_frame, its_panel, no_answer, panels, changed_panel, named_panel, ordered_panel, Affects, Rearranges, as_outcome};
ghost use Rattle.compose.specs.{drawn, numbered, shifted, told, unseen, with_frame, Called};

use crate::damaging::Affected;
use crate::desk::Desk;
use crate::panels::{delete_window, move_panel, move_window, new_panel, replace_panel};
use crate::queries::of_panels;
use crate::written_dispatch::{draw, window_of};
use cell::{Rect, Refusal, WinId};
use grids::Grids;
use stack::Stack;
use windows::Windows;
use world::{Copying, Making, PanelId, Refresh, Reply, Stacking, Writing};

/// The outcome of a call on windows: its answer, and what it affects of what they show.
#[derive(Clone, Copy)]
pub struct Outcome {
    pub reply: Reply,
    pub affected: Option<Affected>,
}

/// Makes a call that makes, places or deletes a window or pad.
#[rattlefmt::skip]
#[tactic(auto, using(crate::proofs::OutcomeLaws::outcomes))]
pub(crate) fn make(table: &mut Grids, stack: &Stack, making: Making) -> Result<Outcome, Refusal>
    requires { AreSoundPanels (windows_of table.old).window (panels stack.now) }
    ensures { Affects table.old (making_refusal (windows_of table.old) (is_in_panel (panels stack.now)) making)
        (making_change (windows_of table.old) making) result table.new }
{
    match making {
        Making::Newwin { lines, columns, y, x } => Outcome::window(table.newwin(lines, columns, y, x)),
        Making::Subwin { win, lines, columns, y, x } => Outcome::window(table.subwin(win, lines, columns, y, x)),
        Making::Derwin { win, lines, columns, y, x } => Outcome::window(table.derwin(win, lines, columns, y, x)),
        Making::Newpad { lines, columns } => Outcome::window(table.newpad(lines, columns)),
        Making::Subpad { pad, lines, columns, y, x } => Outcome::window(table.subpad(pad, lines, columns, y, x)),
        Making::Delwin { win } => Outcome::unseen(delete_window(table, stack, win)),
        Making::Mvwin { win, y, x } => Outcome::unseen(move_window(table, stack, win, y, x)),
        Making::Mvderwin { win, y, x } => Outcome::shift(win, table.mvderwin(win, y, x)),
    }
}

/// The frame of a call that set how a window is written in: it has none.
#[inline(always)]
pub(crate) fn without_frame(end: Result<(), Refusal>) -> Result<Option<Rect>, Refusal>
    ensures { result ≡ with_frame no_frame end }
{
    end?;
    Ok(None)
}

/// Makes a call that writes in a window, or sets how it is written in.
#[inline(always)]
#[tactic(auto, using(crate::proofs::OutcomeLaws::outcomes))]
pub(crate) fn write(windows: &mut Windows, writing: Writing<'_>) -> Result<Outcome, Refusal>
    ensures { Affects windows.old.table (writing_refusal (windows_of windows.old.table) writing.entry)
        (edits (writing_edit (windows_of windows.old.table) writing.entry)) result windows.new.table }
{
    Outcome::drawing(window_of(writing), draw(windows, writing))
}

/// Makes a call that copies cells or touches places, or asks what is touched.
#[inline(always)]
#[rattlefmt::skip]
#[tactic(auto, using(crate::proofs::OutcomeLaws::outcomes))]
pub(crate) fn copy(windows: &mut Windows, copying: Copying) -> Result<Outcome, Refusal>
    ensures { Affects windows.old.table (copying_refusal (windows_of windows.old.table) copying)
        (copying_change (windows_of windows.old.table) copying) result windows.new.table }
{
    match copying {
        Copying::Overlay { src, dst } => Outcome::drawing(dst, windows.overlay(src, dst)),
        Copying::Overwrite { src, dst } => Outcome::drawing(dst, windows.overwrite(src, dst)),
        Copying::Copywin { src, dst, sminrow, smincol, dminrow, dmincol, dmaxrow, dmaxcol, overlay } =>
            Outcome::drawing(dst, windows.copywin(src, dst, sminrow, smincol, dminrow, dmincol, dmaxrow, dmaxcol, overlay)),
        Copying::Touchwin { win } => Outcome::unseen(windows.table.touchwin(win)),
        Copying::Untouchwin { win } => Outcome::unseen(windows.table.untouchwin(win)),
        Copying::Touchline { win, y, n } => Outcome::unseen(windows.table.touchline(win, y, n)),
        Copying::Touchln { win, y, n, flag } => Outcome::unseen(windows.table.wtouchln(win, y, n, flag)),
        Copying::Syncup { win } => Outcome::unseen(windows.table.wsyncup(win)),
        Copying::Syncdown { win } => Outcome::unseen(windows.table.wsyncdown(win)),
        Copying::IsLinetouched { win, y } => Outcome::answer(windows.table.is_linetouched(win, y)),
        Copying::IsWintouched { win } => Outcome::answer(windows.table.is_wintouched(win)),
    }
}

impl Outcome {
    /// Of a call that drew in a window.
    #[inline(always)]
    pub(crate) fn drawing(
        win: WinId,
        frame: Result<Option<Rect>, Refusal>,
    ) -> Result<Outcome, Refusal>
        ensures { result ≡ as_outcome (drawn win) frame }
    {
        let affected = match frame? {
            Some(frame) => Some(Affected::Written { win, frame }),
            None => None,
        };
        Ok(Outcome {
            reply: Reply::Nothing,
            affected,
        })
    }

    /// Of a call that answers nothing, and affects nothing that windows show.
    fn unseen(end: Result<(), Refusal>) -> Result<Outcome, Refusal>
        ensures { result ≡ as_outcome unseen end }
    {
        end?;
        Ok(Outcome {
            reply: Reply::Nothing,
            affected: None,
        })
    }

    /// Of a call that asked whether something is so.
    fn answer(is: Result<bool, Refusal>) -> Result<Outcome, Refusal>
        ensures { result ≡ as_outcome told is }
    {
        Ok(Outcome {
            reply: Reply::Flag(is?),
            affected: None,
        })
    }

    /// Of a call that moved a window in its parent.
    fn shift(win: WinId, end: Result<(), Refusal>) -> Result<Outcome, Refusal>
        ensures { result ≡ as_outcome (shifted win) end }
    {
        end?;
        Ok(Outcome {
            reply: Reply::Nothing,
            affected: Some(Affected::Moved { win }),
        })
    }

    /// Of a call that made a window.
    fn window(made: Result<WinId, Refusal>) -> Result<Outcome, Refusal>
        ensures { result ≡ as_outcome numbered made }
    {
        Ok(Outcome {
            reply: Reply::Number(made?),
            affected: None,
        })
    }
}

/// Makes a call that makes, deletes, orders or moves a panel, or gives it a window, or asks about panels.
#[rattlefmt::skip]
#[tactic(auto, using(crate::proofs::OutcomeLaws::replies))]
pub(crate) fn arrange(table: &mut Grids, stack: &mut Stack, stacking: Stacking) -> Result<Reply, Refusal>
    requires { AreSoundPanels (windows_of table.old).window (panels stack.old) }
    ensures { Rearranges table.old stack.old stacking result table.new stack.new }
{
    match stacking {
        Stacking::NewPanel { win } => new_number(new_panel(table, stack, win)),
        Stacking::DelPanel { panel } => nothing(stack.del(panel)),
        Stacking::ShowPanel { panel } => nothing(stack.show(panel)),
        Stacking::HidePanel { panel } => nothing(stack.hide(panel)),
        Stacking::TopPanel { panel } => nothing(stack.top(panel)),
        Stacking::BottomPanel { panel } => nothing(stack.bottom(panel)),
        Stacking::MovePanel { panel, y, x } => nothing(move_panel(table, stack, panel, y, x)),
        Stacking::ReplacePanel { panel, win } => nothing(replace_panel(table, stack, panel, win)),
        _ => of_panels(stack, stacking),
    }
}

/// The panel that a call deletes, orders, moves or gives a window, if it does so.
pub(crate) fn named_panel(stacking: Stacking) -> Option<PanelId>
    ensures { panel_number result ≡ named_panel stacking }
{
    match stacking {
        Stacking::DelPanel { panel } => Some(panel),
        Stacking::ShowPanel { panel } => Some(panel),
        Stacking::HidePanel { panel } => Some(panel),
        Stacking::TopPanel { panel } => Some(panel),
        Stacking::BottomPanel { panel } => Some(panel),
        Stacking::MovePanel { panel, .. } => Some(panel),
        Stacking::ReplacePanel { panel, .. } => Some(panel),
        _ => None,
    }
}

/// The panel whose place in the order a call changes, or its window, if it does so.
pub(crate) fn ordered_panel(stacking: Stacking) -> Option<PanelId>
    ensures { panel_number result ≡ ordered_panel stacking }
{
    match stacking {
        Stacking::MovePanel { .. } => None,
        _ => named_panel(stacking),
    }
}

/// The panel that a call changed or made, if it did so.
pub(crate) fn changed_panel(stacking: Stacking, reply: &Reply) -> Option<PanelId>
    ensures { panel_number result ≡ changed_panel stacking reply.now }
{
    match (stacking, *reply) {
        (Stacking::NewPanel { .. }, Reply::Panel(made)) => made,
        _ => named_panel(stacking),
    }
}

/// Makes a call that refreshes or sets the colours of a pair, which is any of them but `doupdate`.
#[rattlefmt::skip]
pub(crate) fn refresh(desk: &mut Desk, refresh: Refresh) -> Result<Reply, Refusal>
    requires { is_doupdate (Call.Refresh refresh) ≡ false }
    ensures { Called desk.old (Call.Refresh refresh) result desk.new }
{
    match refresh {
        Refresh::Noutrefresh { win } => desk.refresh_window(win),
        Refresh::Pnoutrefresh { pad, pminrow, pmincol, sminrow, smincol, smaxrow, smaxcol } =>
            desk.refresh_pad(pad, pminrow, pmincol, sminrow, smincol, smaxrow, smaxcol),
        Refresh::UpdatePanels => Ok(Reply::Composed(desk.compose())),
        Refresh::Doupdate => unreachable!(),
        Refresh::InitPair { pair, foreground, background } => desk.set_colours(pair, foreground, background),
    }
}

/// The answer of a call that answers nothing.
fn nothing(end: Result<(), Refusal>) -> Result<Reply, Refusal>
    ensures { result ≡ as_reply no_answer end }
{
    end?;
    Ok(Reply::Nothing)
}

/// The answer of a call that made a panel.
fn new_number(made: Result<PanelId, Refusal>) -> Result<Reply, Refusal>
    ensures { result ≡ as_reply its_panel made }
{
    Ok(Reply::Panel(Some(made?)))
}
