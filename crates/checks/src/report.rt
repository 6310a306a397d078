//! Says of each faulty line of a script what is wrong with it, and which calls every screen refuses. No call is made.

ghost use Rattle.std.specs.Prelude.{◌≡◌, ◌≤◌, ◌<◌, ◌∷◌};
ghost use Rattle.checks.specs.{[], length, parse_line, entry_of, outputs, Checks, ReportsCall, ReportsFault, ReportsLine, count_line, EndsReport, ReportsMore, ReportsRead, ReportsScript};
ghost use Rattle.checks.specs.{ReportsSome};

use crate::everywhere::refusal_everywhere;
use crate::findings::{finding, refused};
use arrayvec::ArrayVec;
use commands::{ACCEPTED, BAD_TEXT, Closable, complain, log_failure, put, write_out};
use script::{Arguments, LONGEST_LINE, LineEnd, Lines, ScriptFault, TextFault, Word, read_line};
use streams::{Sink, Source, append, append_decimal};

/// Room for the line on how many lines are faulty: a number, and 14 bytes more.
const COUNT_ROOM: usize = 64;

/// What was said of a script's lines.
#[derive(Clone, Copy)]
struct Report {
    /// How many are faulty.
    faulty: u64,
    /// Whether all that was said went out.
    is_written: bool,
}

/// Writes one line more of a report, unless a write failed before.
fn report_text<O: Sink>(out: &mut O, report: Report, text: &[u8]) -> Report
    ensures { ReportsMore (O.seen out.old) (O.seen out.new) report result (text.now ∷ []) }
{
    let is_written = report.is_written && put(out, text);
    Report {
        faulty: report.faulty.saturating_add(1),
        is_written,
    }
}

/// Reports a fault.
fn report_fault<O: Sink>(
    out: &mut O,
    report: Report,
    number: u64,
    fault: TextFault,
    line: &[u8],
) -> Report
    requires { length line.now ≤ LONGEST_LINE }
    ensures { ReportsSome (ReportsFault number fault line.now) (O.seen out.old) (O.seen out.new) report result }
{
    report_text(out, report, finding(number, fault, line).as_slice())
}

/// Reports a call, if every screen refuses it.
fn report_call<O: Sink>(
    out: &mut O,
    report: Report,
    number: u64,
    word: Word,
    taken: &Arguments,
) -> Report
    ensures { ReportsSome (ReportsCall number ((entry_of word).call taken.now)) (O.seen out.old) (O.seen out.new) report result }
{
    match refusal_everywhere(&word.call(taken)) {
        Some(why) => report_text(out, report, refused(number, word, why).as_slice()),
        None => report,
    }
}

/// Reports a line, if it has a fault, or a call that every screen refuses.
fn report_line<O: Sink>(
    out: &mut O,
    report: Report,
    number: u64,
    line: &[u8],
    taken: &mut Arguments,
) -> Report
    requires { length line.now ≤ LONGEST_LINE }
    ensures { ReportsSome (ReportsLine number line.now (parse_line line.now)) (O.seen out.old) (O.seen out.new) report result }
{
    match read_line(line, taken) {
        Ok(Some(word)) => report_call(out, report, number, word, taken),
        Ok(None) => report,
        Err(fault) => report_fault(out, report, number, fault, line),
    }
}

/// The same of a line as it was read: it may be too long, or end where a read failed.
fn report_read<O: Sink>(
    out: &mut O,
    report: Report,
    number: u64,
    end: LineEnd,
    is_kept: bool,
    line: &[u8],
    taken: &mut Arguments,
) -> Report
    requires { length line.now ≤ LONGEST_LINE }
    ensures { ReportsSome (ReportsRead number line.now is_kept end) (O.seen out.old) (O.seen out.new) report result }
{
    if !is_kept {
        return report_fault(out, report, number, TextFault::LineTooLong, b"");
    }
    match end {
        LineEnd::Newline => report_line(out, report, number, line, taken),
        LineEnd::ScriptEnd => report_line(out, report, number, line, taken),
        LineEnd::ReadFailed => report,
    }
}

/// Reads a script to its end or until a read fails, reports each faulty line, and answers whether it was read to its end.
/// Nothing is flushed.
fn report_lines<R: Source, O: Sink>(input: &mut R, out: &mut O) -> (bool, Report)
    ensures { ReportsScript (R.seen input.old) (R.seen input.new) (O.seen out.old) (O.seen out.new) result.0 result.1 }
{
    let mut lines = Lines::new();
    let mut taken = Arguments::new();
    let mut number = 1u64;
    let mut report = Report {
        faulty: 0,
        is_written: true,
    };
    loop {
        let (end, is_kept) = lines.next_whole_line(input);
        report = report_read(out, report, number, end, is_kept, lines.line(), &mut taken);
        match end {
            LineEnd::Newline => number = number.saturating_add(1),
            LineEnd::ScriptEnd => return (true, report),
            LineEnd::ReadFailed => return (false, report),
        }
    }
}

/// The line that says how many lines are faulty, if one is.
fn count_line(n: u64) -> ArrayVec<u8, COUNT_ROOM>
    ensures { result.items ≡ count_line n }
{
    let mut text = ArrayVec::<u8, COUNT_ROOM>::new();
    if n == 0 {
        return text;
    }
    append_decimal(&mut text, n);
    append(
        &mut text,
        if n == 1 {
            b" faulty line".as_slice()
        } else {
            b" faulty lines"
        },
    );
    append(&mut text, b"\n");
    text
}

/// Writes how many lines a report has, and flushes, and answers whether all of it went out.
fn end_report<O: Sink>(out: &mut O, report: Report) -> bool
    ensures { EndsReport (O.seen out.old) (O.seen out.new) report result }
{
    if !report.is_written {
        return false;
    }
    write_out(out, count_line(report.faulty).as_slice())
}

/// Reads a script to its end or until a read fails, says on the output of each faulty line where it is and what is
/// wrong, and after them how many they are, and answers the status. It isn't inlined, so that what runs a script has no
/// room for findings on the stack.
#[inline(never)]
pub fn check_script<R: Source, O: Closable, L: Sink>(input: &mut R, out: &mut O, log: &mut L) -> u8
    ensures checked { Checks (R.seen input.old) (R.seen input.new) (outputs (O.seen out.old) (O.closed out.old) (L.seen log.old))
        (outputs (O.seen out.new) (O.closed out.new) (L.seen log.new)) result }
    ensures log { result < 2 → (L.seen log.new).failures ≡ (L.seen log.old).failures }
{
    let checked = report_lines(input, out);
    if !end_report(out, checked.1) {
        return complain(out, log);
    }
    if !checked.0 {
        return log_failure(log, ScriptFault::Reading);
    }
    if checked.1.faulty == 0 {
        ACCEPTED
    } else {
        BAD_TEXT
    }
}
