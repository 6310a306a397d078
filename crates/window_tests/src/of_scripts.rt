//! Scripts whose reader, writer or log fails, each with one after it that shows the screen.

use crate::screens::{HI, Tried, screen, stream};
use desk::{Counted, CountedReader, Refusal, ScriptEnd, ScriptFault, TextFault, WriteFault};
use std::alloc::Global;
use std::test::Fail;
use test_streams::{Halting, Pieces};

/// Runs a script, with a log.
fn run_script(screen: &mut Tried, script: Pieces<'_>, log: &mut Counted<Halting>) -> ScriptEnd {
    screen.run_script(&mut CountedReader::new(script), log)
}

/// Runs another script, which shows the screen.
fn show(screen: &mut Tried, log: &mut Counted<Halting>) {
    let (bytes, step, fails) = (b"update_panels\ndoupdate".as_slice(), 600, false);
    run_script(screen, Pieces { bytes, step, fails }, log);
}

/// What may fail: a write after so many bytes of the screen or of the log, and a read after the script.
#[derive(Clone, Copy)]
struct Limits {
    writer: usize,
    log: usize,
    fails: bool,
}

/// How a script ends, and what the log and the writer take of it and of another one.
type Outcome = (ScriptEnd, Vec<u8>, Vec<u8>);

fn outcome(alloc: Global, bytes: &[u8], limits: &Limits) -> Result<Outcome, Refusal> {
    let mut screen = screen(alloc, limits.writer)?;
    let mut log = Counted::new(Halting::until(alloc, limits.log, true));
    let (step, fails) = (600, limits.fails);
    let end = run_script(&mut screen, Pieces { bytes, step, fails }, &mut log);
    show(&mut screen, &mut log);
    Ok((end, log.into_inner().taken, stream(screen)))
}

const NO_LIMIT: usize = usize::MAX;

/// A script, what fails in it, whether a call is refused and what ends it, its log, and the bytes of the screen.
type Case = (
    &'static [u8],
    Limits,
    (bool, Option<ScriptFault>),
    &'static [u8],
    &'static [u8],
);

#[rattlefmt::skip]
static CASES: [Case; 4] = [
    (
        b"addstr 9 hi\naddstr 0 hi\nupdate_panels\ndoupdate\n",
        Limits { writer: NO_LIMIT, log: NO_LIMIT, fails: false },
        (true, None),
        b"line 1: E1 NoSuchWindow\n",
        b"\x1b[0m\x1b[2J\x1b[1;1Hhi",
    ),
    (
        b"addstr 9 hi\naddstr 0 hi\naddstr 0 !",
        Limits { writer: NO_LIMIT, log: NO_LIMIT, fails: true },
        (true, Some(ScriptFault::Reading)),
        b"line 1: E1 NoSuchWindow\n",
        b"\x1b[0m\x1b[2J\x1b[1;1Hhi",
    ),
    (
        b"addstr 0 hi\ngetyx 0\naddstr 0 !\n",
        Limits { writer: NO_LIMIT, log: 6, fails: false },
        (false, Some(ScriptFault::Log)),
        b"line 2",
        b"\x1b[0m\x1b[2J\x1b[1;1Hhi",
    ),
    (
        b"addstr 0 hi\nupdate_panels\ndoupdate\naddstr 0 !\n",
        Limits { writer: 5, log: NO_LIMIT, fails: false },
        (false, Some(ScriptFault::Write { line: 3, fault: WriteFault { sent: 5 } })),
        b"",
        b"\x1b[0m\x1b\x1b[0m\x1b[2J\x1b[1;1Hhi",
    ),
];

fn is_met(alloc: Global, case: &Case) -> Result<bool, Refusal> {
    let (script, limits, wanted, wanted_log, wanted_stream) = case;
    let (end, log, stream) = outcome(alloc, script, limits)?;
    Ok(
        (end.refused, end.fault) == *wanted
            && log.as_slice() == *wanted_log
            && stream.as_slice() == *wanted_stream,
    )
}

#[test]
fn a_script_ends_where_something_fails_and_another_goes_on(rt: HostRuntime) {
    for case in &CASES {
        assert_eq!(rt; is_met(rt.alloc(), case), Ok(true), "at {:?}", case.0);
    }
}

/// How a script of two lines ends where a read fails after so many letters that a third one writes, if the first two
/// calls were made, and no other.
fn cut_after(alloc: Global, letters: usize) -> Result<Option<ScriptFault>, Refusal> {
    let mut text = [b'x'; 600];
    text[..31].copy_from_slice(b"addstr 0 h\naddstr 0 i\naddstr 0 ");
    let limits = Limits {
        writer: NO_LIMIT,
        log: NO_LIMIT,
        fails: true,
    };
    let bytes = text.get(..31usize.saturating_add(letters)).unwrap_or(&[]);
    let (end, _, stream) = outcome(alloc, bytes, &limits)?;
    if stream.as_slice() == HI {
        Ok(end.fault)
    } else {
        Ok(None)
    }
}

#[test]
fn a_line_is_too_long_before_a_read_fails(rt: HostRuntime) {
    let (line, fault) = (3, TextFault::LineTooLong);
    let reading = Ok(Some(ScriptFault::Reading));
    let faults = [
        cut_after(rt.alloc(), 1),
        cut_after(rt.alloc(), 503),
        cut_after(rt.alloc(), 504),
    ];
    assert_eq!(rt;
        faults,
        [
            reading,
            reading,
            Ok(Some(ScriptFault::Text { line, fault }))
        ]
    );
}
