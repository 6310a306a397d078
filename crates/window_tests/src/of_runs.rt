//! Runs of calls, methods, and writers that fail.

use crate::screens::{HI, SHOW, Tried, UPDATE, addstr, call, is_shown, run, screen, stream};
use calls::Methods;
use cell::Attr;
use desk::{
    Call, Calls, Counted, Fault, PanelId, Refusal, RunEnd, Screen, VirtualScreen, WinId,
    WriteFault, Writing,
};
use std::alloc::Global;
use std::test::Fail;
use test_streams::Halting;

/// A run of calls on a new screen, another, and all that the writer took.
fn run_twice(
    alloc: Global,
    stop: usize,
    first: &[Call<'_>],
    second: &[Call<'_>],
) -> Result<([RunEnd; 2], Vec<u8>), Refusal> {
    let mut screen = screen(alloc, stop)?;
    let ends = [run(&mut screen, first), run(&mut screen, second)];
    Ok((ends, stream(screen)))
}

/// Runs of calls of which one is refused, and of two that find nothing changed.
fn run_and_again(alloc: Global) -> Result<([RunEnd; 2], Vec<u8>), Refusal> {
    let win = WinId(9);
    let nowhere = Call::Writing(Writing::Erase { win });
    let calls = [UPDATE, addstr(b"hi"), nowhere, UPDATE, SHOW];
    run_twice(alloc, usize::MAX, &calls, &[UPDATE, SHOW])
}

#[test]
fn a_run_sends_what_it_shows_and_counts(rt: HostRuntime) -> Result<(), Fail> {
    let (ends, stream) = run_and_again(rt.alloc())?;
    let first = RunEnd {
        done: 4,
        refused: 1,
        composed: 2,
        fault: None,
    };
    let second = RunEnd {
        done: 2,
        refused: 0,
        composed: 0,
        fault: None,
    };
    assert!(rt; ends == [first, second]);
    assert_eq!(rt; stream.as_slice(), HI);
    Ok(())
}

/// Runs of which the first ends at a write that fails after five bytes.
fn run_after_fault(alloc: Global) -> Result<([RunEnd; 2], Vec<u8>), Refusal> {
    let first = [addstr(b"hi"), UPDATE, SHOW];
    run_twice(alloc, 5, &first, &[addstr(b"!"), UPDATE, SHOW])
}

#[test]
fn a_run_goes_on_after_one_that_a_failed_write_ended(rt: HostRuntime) -> Result<(), Fail> {
    let (ends, stream) = run_after_fault(rt.alloc())?;
    let [first, second] = ends;
    let fault = Some(WriteFault { sent: 5 });
    assert!(rt; (first.done, first.refused, first.fault) == (2, 0, fault));
    assert!(rt; (second.done, second.refused, second.fault) == (3, 0, None));
    assert_eq!(rt; stream.len(), 5 + 17);
    Ok(())
}

/// Whether a run ends at a write that fails after so many bytes of its last text, once the writer has taken `stop`, and
/// the next `doupdate` sends a text that shows all.
fn is_repaired(
    alloc: Global,
    stop: usize,
    sent: u32,
    calls: &[Call<'_>],
    text: &[u8],
) -> Result<bool, Refusal> {
    let (ends, stream) = run_twice(alloc, stop, calls, &[SHOW])?;
    let faults = [ends[0].fault, ends[1].fault];
    Ok(
        faults == [Some(WriteFault { sent }), None]
            && ends[0].done.saturating_add(1) == calls.len()
            && stream.get(stop..) == Some(text)
            && is_shown(alloc, &stream, text.get(14..).unwrap_or(&[]))?,
    )
}

#[test]
fn a_writer_that_fails_anywhere_is_shown_all_again(rt: HostRuntime) -> Result<(), Fail> {
    let first = [addstr(b"hi"), UPDATE, SHOW];
    for stop in 0..=16u8 {
        let is_repaired = is_repaired(rt.alloc(), usize::from(stop), u32::from(stop), &first, HI)?;
        assert!(rt; is_repaired, "after {stop} bytes");
    }
    Ok(())
}

#[test]
fn a_later_update_that_fails_is_shown_all_again(rt: HostRuntime) -> Result<(), Fail> {
    let later = [addstr(b"hi"), UPDATE, SHOW, addstr(b"there"), UPDATE, SHOW];
    let text = b"\x1b[0m\x1b[2J\x1b[1;1Hhithere";
    for sent in 1..=5u8 {
        let stop = 16 + usize::from(sent);
        let is_repaired = is_repaired(rt.alloc(), stop, u32::from(sent), &later, text)?;
        assert!(rt; is_repaired, "after {stop} bytes");
    }
    Ok(())
}

/// Whether a clear screen is wanted once it is asked for, after a `doupdate` that fails, and after one that doesn't.
fn clear_wanted(screen: &mut Tried) -> [bool; 3] {
    let win = WinId::STANDARD;
    run(screen, &[Call::Writing(Writing::Clear { win }), UPDATE]);
    let asked = screen.desk().clear_wanted();
    let failed = call(screen, &SHOW).is_err() && screen.desk().clear_wanted();
    let shown = call(screen, &SHOW).is_err() || screen.desk().clear_wanted();
    [asked, failed, shown]
}

fn wanted_of_screen(alloc: Global) -> Result<[bool; 3], Refusal> {
    let mut screen = screen(alloc, 0)?;
    let wanted = clear_wanted(&mut screen);
    drop(screen);
    Ok(wanted)
}

#[test]
fn a_clear_screen_is_wanted_until_it_is_shown(rt: HostRuntime) {
    assert_eq!(rt; wanted_of_screen(rt.alloc()), Ok([true, true, false]));
}

/// Makes a window and a panel of it, by their methods.
fn panel_that_says_hi(screen: &mut Tried) -> Result<WinId, Fault> {
    let win = screen.newwin(1, 3, 0, 0)?;
    screen.waddstr(win, b"hi")?;
    screen.new_panel(win)?;
    Ok(win)
}

/// The cursor of a window, and the panel at the bottom.
type Answers = ((u16, u16), Option<PanelId>);

/// What a screen answers, and what its desk does.
fn ask(screen: &Tried, win: WinId) -> Result<[Answers; 2], Fault> {
    let answers = (screen.getyx(win)?, screen.panel_above(None)?);
    let desk = screen.desk();
    Ok([answers, (desk.getyx(win)?, desk.panel_above(None)?)])
}

/// What is asked of a window in a panel, which is shown.
fn ask_all(screen: &mut Tried) -> Result<[Answers; 2], Fault> {
    let win = panel_that_says_hi(screen)?;
    run(screen, &[UPDATE, SHOW]);
    ask(screen, win)
}

fn asked_of_screen(alloc: Global) -> Result<(Result<[Answers; 2], Fault>, Vec<u8>), Refusal> {
    let mut screen = screen(alloc, usize::MAX)?;
    let answers = ask_all(&mut screen);
    Ok((answers, stream(screen)))
}

#[test]
fn each_method_answers_what_its_call_does(rt: HostRuntime) -> Result<(), Fail> {
    let (answers, stream) = asked_of_screen(rt.alloc())?;
    let both = [((0, 2), Some(PanelId(1))); 2];
    assert!(rt; answers == Ok(both));
    assert_eq!(rt; stream.as_slice(), HI);
    Ok(())
}

/// What another writer, which takes one byte a call, takes of a screen that was shown.
fn shown_again(alloc: Global) -> Result<Vec<u8>, Refusal> {
    let mut screen = screen(alloc, usize::MAX)?;
    run(&mut screen, &[addstr(b"hi"), UPDATE, SHOW]);
    let mut screen = screen.with_writer(Counted::new(Halting::in_pieces(alloc, 1, false)));
    run(&mut screen, &[SHOW]);
    Ok(stream(screen))
}

#[test]
fn another_writer_is_shown_all_again(rt: HostRuntime) -> Result<(), Fail> {
    assert_eq!(rt; shown_again(rt.alloc())?.as_slice(), HI);
    Ok(())
}

/// Shows a letter in each cell of a screen.
fn fill(screen: &mut Tried) {
    let win = WinId::STANDARD;
    let (attrs, ch) = (Attr::NONE, b'x');
    let background = Call::Writing(Writing::Bkgdset { win, attrs, ch });
    let erase = Call::Writing(Writing::Erase { win });
    run(screen, &[background, erase, UPDATE, SHOW]);
}

/// How many writes that takes of so many lines of 400 columns.
fn writes_of(alloc: Global, lines: u16) -> Result<u32, Refusal> {
    let writer = Counted::new(Halting::in_pieces(alloc, usize::MAX, false));
    let mut screen = Screen::new(alloc, lines, 400, writer)?;
    fill(&mut screen);
    Ok(screen.into_writer().into_inner().writes)
}

#[test]
fn a_doupdate_writes_once_up_to_4096_bytes(rt: HostRuntime) {
    let writes = [writes_of(rt.alloc(), 9), writes_of(rt.alloc(), 15)];
    assert_eq!(rt; writes, [Ok(1), Ok(2)]);
}
