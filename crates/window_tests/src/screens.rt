//! Screens for tests. What is known of a call would be carried along through the proof of each test: so helpers without
//! a contract make them, and whoever owns a screen does little else, since each way out of a function that owns one
//! adds to its proof.

use cell::Rendition;
use desk::{
    Call, Calls, Counted, Fault, Refresh, Refusal, Reply, RunAllEnd, RunEnd, Screen, WinId, Writing,
};
use ecma::Terminal;
use std::alloc::Global;
use test_streams::Halting;

/// A screen over a writer that can fail.
pub(crate) type Tried = Screen<Counted<Halting>>;

/// A screen of 4 lines and 10 columns over a writer that fails once, where it has taken so many bytes.
pub(crate) fn screen(alloc: Global, stop: usize) -> Result<Tried, Refusal> {
    screen_over(alloc, Halting::until(alloc, stop, true))
}

/// A screen of that size over a writer.
pub(crate) fn screen_over(alloc: Global, writer: Halting) -> Result<Tried, Refusal> {
    Screen::new(alloc, 4, 10, Counted::new(writer))
}

/// Makes calls.
pub(crate) fn run(screen: &mut Tried, calls: &[Call<'_>]) -> RunEnd {
    screen.run(calls)
}

/// Makes all calls.
pub(crate) fn run_all(screen: &mut Tried, calls: &[Call<'_>]) -> RunAllEnd {
    screen.run_all(calls)
}

/// Makes a call.
pub(crate) fn call(screen: &mut Tried, call: &Call<'_>) -> Result<Reply, Fault> {
    screen.call(call)
}

/// All that the writer of a screen took.
pub(crate) fn stream(screen: Tried) -> Vec<u8> {
    screen.into_writer().into_inner().taken
}

pub(crate) const UPDATE: Call<'static> = Call::Refresh(Refresh::UpdatePanels);

pub(crate) const SHOW: Call<'static> = Call::Refresh(Refresh::Doupdate);

/// The text of a screen that shows `hi` at its top, with the cursor after it.
pub(crate) const HI: &[u8] = b"\x1b[0m\x1b[2J\x1b[1;1Hhi";

/// Writes a text on the standard screen.
pub(crate) fn addstr(text: &[u8]) -> Call<'_> {
    let win = WinId::STANDARD;
    Call::Writing(Writing::Addstr { win, text })
}

/// Whether a terminal that reads a stream shows a text in its corner, nothing else, and the cursor after it.
fn shows(terminal: &mut Terminal, stream: &[u8], text: &[u8]) -> bool {
    let fed = terminal.feed(stream);
    let mut rest = text;
    for y in 0..terminal.lines() {
        for cell in terminal.row(y) {
            match rest.split_first() {
                Some((ch, left)) if cell.ch() == *ch => rest = left,
                None if cell.ch() == b' ' => {}
                _ => return false,
            }
        }
    }
    fed.is_ok() && is_after(text, terminal.cursor()) && terminal.rendition() == Rendition::NONE
}

/// Whether the cursor is known to be after a text in the first line.
fn is_after(text: &[u8], cursor: Option<(u16, u16)>) -> bool {
    match cursor {
        Some((y, x)) => y == 0 && usize::from(x) == text.len(),
        None => false,
    }
}

/// The same, on a terminal of the size of these screens.
pub(crate) fn is_shown(alloc: Global, stream: &[u8], text: &[u8]) -> Result<bool, Refusal> {
    let mut terminal = Terminal::new(alloc, 4, 10)?;
    Ok(shows(&mut terminal, stream, text))
}
