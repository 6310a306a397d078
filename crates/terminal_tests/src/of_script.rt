//! What lines of scripts say, how they are read from pieces, and the lines of the log.

use cell::{Attr, Cell, Refusal, WinId};
use script::{
    Arguments, LONGEST_LINE, LineEnd, Lines, ScriptFault, TextFault, last_line, log_answer,
    read_line,
};
use std::alloc::{AllocError, Global};
use std::test::Fail;
use streams::{Counted, CountedReader, Sent, WriteFault};
use test_streams::{Halting, Pieces};
use world::{Composed, PanelId, Reply};

/// Whether a fault is written so.
fn is_fault(alloc: Global, fault: TextFault, text: &str) -> Result<bool, AllocError> {
    Ok(format!(in alloc; "{fault}")?.as_str() == text)
}

/// Whether a line makes no call, and that is said of it.
fn says(alloc: Global, line: &str, text: &str) -> Result<bool, AllocError> {
    if line.len() > LONGEST_LINE {
        return Ok(false);
    }
    match read_line(line.as_bytes(), &mut Arguments::new()) {
        Ok(Some(_)) => Ok(false),
        Ok(None) => Ok(text == "nothing"),
        Err(fault) => is_fault(alloc, fault, text),
    }
}

/// Lines that make no call, by what is said of them. A line with several faults has the first of them.
#[rattlefmt::skip]
static OTHERS: [(&str, &[&str]); 5] = [
    ("nothing", &["", "#", "# a comment ~"]),
    ("bad byte", &["# a\ttab", "erase 0\r", "nothing\x7f", "caf\u{e9}"]),
    ("unknown call", &[" ", " erase 0", "Erase 0"]),
    ("wrong number of arguments", &["erase", "erase 0 ", "erase  0", "addstr x", "doupdate 0"]),
    ("bad argument", &[
        "getyx 65536", "getyx 00", "getyx 01", "getyx -1", "getyx 123456", "getyx 1a",
        "scrl 0 32768", "scrl 0 -0", "scrl 0 -32768", "scrl 0 --1", "scrl 0 -",
        "attron 0 40", "attroff 0 1", "attrset 0 0A", "attrset 0 001",
        "scrollok 0 yes", "scrollok 0 ON", "addch 0 ab", "insch 0 ", "bkgdset 0 00 \\xAB",
        "addstr 0 a\\", "addstr 0 \\q", "addstr 0 \\N", "addstr 0 \\x4", "addstr 0 \\x4g",
        "panel_above None", "panel_below 01", "panel_window none", "getyx none",
    ]),
];

#[test]
fn other_lines_have_their_faults(rt: HostRuntime) -> Result<(), Fail> {
    for (fault, lines) in &OTHERS {
        for line in *lines {
            assert!(rt; says(rt.alloc(), line, fault)?, "at {line}");
        }
    }
    Ok(())
}

/// A line with its end, or none where it is too long.
type LineAndEnd<'a> = (&'a [u8], Option<LineEnd>);

/// Whether a reader gives these lines one after another, of bytes that come in pieces of so many.
fn gives(bytes: &[u8], step: usize, fails: bool, lines: &[LineAndEnd<'_>]) -> bool {
    let mut source = CountedReader::new(Pieces { bytes, step, fails });
    let mut reader = Lines::new();
    for (line, end) in lines {
        if reader.next_line(&mut source) != *end || reader.line() != *line {
            return false;
        }
    }
    true
}

const THREE_LINES: [LineAndEnd<'static>; 4] = [
    (b"newwin 1 1 0 0", Some(LineEnd::Newline)),
    (b"", Some(LineEnd::Newline)),
    (b"last", Some(LineEnd::ScriptEnd)),
    (b"", Some(LineEnd::ScriptEnd)),
];

#[test]
fn lines_come_whole_from_pieces(rt: HostRuntime) {
    for step in [1, 3, 600] {
        assert!(rt; gives(b"newwin 1 1 0 0\n\nlast", step, false, &THREE_LINES));
    }
}

static LONG: [u8; 513] = [b'x'; 513];

/// Whether a failed read leaves what came before it, a line of 512 bytes is given, and one of 513 isn't.
fn ends() -> [bool; 3] {
    let cut: [LineAndEnd<'static>; 2] = [
        (b"erase 0", Some(LineEnd::Newline)),
        (b"era", Some(LineEnd::ReadFailed)),
    ];
    let longest = &LONG[..512];
    [
        gives(b"erase 0\nera", 3, true, &cut),
        gives(longest, 600, false, &[(longest, Some(LineEnd::ScriptEnd))]),
        gives(&LONG, 600, false, &[(longest, None)]),
    ]
}

#[test]
fn lines_end_at_a_failed_read_and_at_512_bytes(rt: HostRuntime) {
    assert_eq!(rt; ends(), [true; 3]);
}

/// Faults of a script, with their last lines.
#[rattlefmt::skip]
static LAST_LINES: [(ScriptFault, &str); 4] = [
    (ScriptFault::Text { line: 12, fault: TextFault::WrongNumberOfArguments }, "line 12: wrong number of arguments\n"),
    (
        ScriptFault::Write { line: 12, fault: WriteFault { sent: u32::MAX } },
        "line 12: write failed after 4294967295 bytes\n",
    ),
    (ScriptFault::Reading, "reading failed\n"),
    (ScriptFault::Log, "writing failed\n"),
];

/// Whether that is the last line where a script has a fault.
fn is_last_line(fault: ScriptFault, text: &str) -> bool {
    last_line(fault).as_slice() == text.as_bytes()
}

#[test]
fn faults_have_their_last_lines(rt: HostRuntime) {
    for (fault, text) in &LAST_LINES {
        assert!(rt; is_last_line(*fault, text), "at {text}");
    }
}

/// Whether a log is given that of an answer.
fn is_logged(alloc: Global, number: u64, answer: Result<Reply, Refusal>, text: &str) -> bool {
    let mut log = Counted::new(Vec::new(alloc));
    log_answer(&mut log, number, answer).is_ok() && log.get_ref().as_slice() == text.as_bytes()
}

/// Answers, with their lines.
#[rattlefmt::skip]
const ANSWERS: [(u64, Result<Reply, Refusal>, &str); 9] = [
    (1, Ok(Reply::Number(WinId(2))), "line 1: 2\n"),
    (5, Ok(Reply::Panel(Some(PanelId(2)))), "line 5: 2\n"),
    (6, Ok(Reply::Panel(None)), "line 6: none\n"),
    (12, Ok(Reply::TwoNumbers(3, 0)), "line 12: 3 0\n"),
    (9, Err(Refusal::NoSuchWindow), "line 9: E1 NoSuchWindow\n"),
    (u64::MAX, Err(Refusal::BadCharacter), "line 18446744073709551615: E13 BadCharacter\n"),
    (2, Ok(Reply::Nothing), ""),
    (3, Ok(Reply::Composed(Composed { cells: 4 })), ""),
    (4, Ok(Reply::Sent(Sent { bytes: 30 })), ""),
];

#[test]
fn answers_have_their_lines(rt: HostRuntime) {
    for (number, answer, line) in &ANSWERS {
        assert!(rt;
            is_logged(rt.alloc(), *number, *answer, line),
            "at {number}"
        );
    }
}

#[test]
fn a_cell_is_logged_as_its_numbers(rt: HostRuntime) -> Result<(), Fail> {
    let cell = Cell::new(b'A', Attr::REVERSE, 63).ok_or("no cell")?;
    assert!(rt; is_logged(rt.alloc(), 7, Ok(Reply::Cell(cell)), "line 7: 65 10 63\n"));
    Ok(())
}

/// Logs a refusal.
fn log_refusal(log: &mut Counted<Halting>) -> Result<(), WriteFault> {
    log_answer(log, 4, Err(Refusal::HasDerived))
}

#[test]
fn a_full_log_fails(rt: HostRuntime) {
    let mut log = Counted::new(Halting::until(rt.alloc(), 6, true));
    assert!(rt; log_refusal(&mut log) == Err(WriteFault { sent: 6 }));
    assert!(rt; log.get_ref().taken.as_slice() == b"line 4".as_slice());
}
