//! Lists of calls that are all made over writers that fail.

use crate::screens::{SHOW, UPDATE, addstr, is_shown, run_all, screen_over, stream};
use desk::{Call, Refusal, RunAllEnd, WinId, WriteFault, Writing};
use std::alloc::Global;
use std::test::Fail;
use test_streams::Halting;

/// Makes all calls on a new screen, and gives all that the writer took.
fn made_over(
    alloc: Global,
    writer: Halting,
    calls: &[Call<'_>],
) -> Result<(RunAllEnd, Vec<u8>), Refusal> {
    let mut screen = screen_over(alloc, writer)?;
    let end = run_all(&mut screen, calls);
    Ok((end, stream(screen)))
}

/// Whether all calls end so over a writer, and a terminal that reads what it took shows a text.
fn ends_shown(
    alloc: Global,
    writer: Halting,
    calls: &[Call<'_>],
    end: RunAllEnd,
    text: &[u8],
) -> Result<bool, Refusal> {
    let (made, stream) = made_over(alloc, writer, calls)?;
    Ok(made == end && is_shown(alloc, &stream, text)?)
}

#[test]
fn a_writer_that_fails_at_any_byte_is_shown_all(rt: HostRuntime) -> Result<(), Fail> {
    let win = WinId(9);
    let calls = [
        addstr(b"hi"),
        UPDATE,
        SHOW,
        Call::Writing(Writing::Erase { win }),
        addstr(b"!"),
        UPDATE,
        SHOW,
    ];
    let end = RunAllEnd {
        done: 5,
        refused: 1,
        failed: 1,
        composed: 3,
        fault: None,
    };
    for stop in 0..=16u8 {
        let writer = Halting::until(rt.alloc(), usize::from(stop), true);
        assert!(rt;
            ends_shown(rt.alloc(), writer, &calls, end, b"hi!")?,
            "after {stop} bytes"
        );
    }
    Ok(())
}

#[test]
fn a_writer_that_fails_twice_in_a_row_is_shown_all(rt: HostRuntime) -> Result<(), Fail> {
    let calls = [
        addstr(b"hi"),
        UPDATE,
        SHOW,
        addstr(b"!"),
        UPDATE,
        SHOW,
        addstr(b"?"),
        UPDATE,
        SHOW,
    ];
    let end = RunAllEnd {
        done: 7,
        refused: 0,
        failed: 2,
        composed: 4,
        fault: None,
    };
    for stop in 0..=16u8 {
        for again in 0..=17u8 {
            let writer = Halting::twice(rt.alloc(), usize::from(stop), usize::from(again));
            let is_shown = ends_shown(rt.alloc(), writer, &calls, end, b"hi!?")?;
            assert!(rt; is_shown, "after {stop} bytes and {again} more");
        }
    }
    Ok(())
}

#[test]
fn the_fault_of_the_last_doupdate_is_told(rt: HostRuntime) -> Result<(), Fail> {
    let calls = [addstr(b"hi"), UPDATE, SHOW, SHOW, addstr(b"!"), UPDATE];
    let writer = Halting::twice(rt.alloc(), 3, 5);
    let (end, stream) = made_over(rt.alloc(), writer, &calls)?;
    assert!(rt; (end.done, end.failed, end.fault) == (4, 2, Some(WriteFault { sent: 5 })));
    assert_eq!(rt; stream.len(), 8);
    Ok(())
}
