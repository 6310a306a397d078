//! The lines of the log.

ghost use Rattle.std.specs.Prelude.{◌≡◌, ◌≤◌, ◌+◌, ◌<◌, ◌++◌, ◌∷◌};
ghost use Rattle.script.specs.{length, take, Some, is_err, is_some, true, IfErr, OnOk, option_map_or, Appends, codes, decimal, [], newline, answer_text, last_line, log_line, panel_text, reply_text};
ghost use Rattle.script.specs.{count_after};

use crate::fault::ScriptFault;
use arrayvec::ArrayVec;
use cell::Refusal;
use streams::{MOST_DECIMAL_DIGITS, Sink, WriteFault, append, append_decimal, send};
use world::{PanelId, Reply};

/// Room for a line of the log.
const LINE_ROOM: usize = 128;

/// A line of the log.
pub type LogLine = ArrayVec<u8, LINE_ROOM>;

/// The most bytes that the log says of a reply: two numbers, and between them two spaces and two digits.
const LONGEST_REPLY: usize = 2 * MOST_DECIMAL_DIGITS + 4;

/// Appends the number of a panel, or that there is none.
fn append_panel(line: &mut LogLine, panel: Option<PanelId>)
    requires { length line.old.items + MOST_DECIMAL_DIGITS ≤ LINE_ROOM }
    ensures text { line.new.items ≡ line.old.items ++ panel_text panel }
    ensures short { length line.new.items ≤ length line.old.items + MOST_DECIMAL_DIGITS }
{
    match panel {
        Some(panel) => append_decimal(line, u64::from(panel.0)),
        None => append(line, b"none"),
    }
}

/// Appends what the log says of a reply, if it says something.
fn append_reply(line: &mut LogLine, reply: Reply)
    requires { length line.old.items + LONGEST_REPLY ≤ LINE_ROOM }
    ensures text { Some line.new.items ≡ option_map_or (λ text. Some (line.old.items ++ text)) (reply_text reply) (Some line.old.items) }
    ensures short { length line.new.items ≤ length line.old.items + LONGEST_REPLY }
{
    match reply {
        Reply::Nothing | Reply::Composed(_) | Reply::Sent(_) => {}
        Reply::Number(win) => append_decimal(line, u64::from(win.0)),
        Reply::TwoNumbers(y, x) => {
            append_decimal(line, u64::from(y));
            append(line, b" ");
            append_decimal(line, u64::from(x));
        }
        Reply::Panel(panel) => append_panel(line, panel),
        Reply::Flag(true) => append(line, b"true"),
        Reply::Flag(false) => append(line, b"false"),
        Reply::Cell(cell) => {
            append_decimal(line, u64::from(cell.ch()));
            append(line, b" ");
            append(line, &cell.attr().hex_digits());
            append(line, b" ");
            append_decimal(line, u64::from(cell.pair().number()));
        }
    }
}

/// Whether the log says something of an answer.
fn has_line(answer: &Result<Reply, Refusal>) -> bool
    ensures { result ≡ is_some (answer_text answer.now) }
{
    match answer {
        Ok(Reply::Nothing | Reply::Composed(_) | Reply::Sent(_)) => false,
        Ok(_) | Err(_) => true,
    }
}

/// How a line of the log begins that says something of a script's line.
fn beginning(number: u64) -> LogLine
    ensures text { result.items ≡ codes "line " ++ decimal number ++ codes ": " }
    ensures short { length result.items ≤ 27 }
{
    let mut line = LogLine::new();
    append(&mut line, b"line ");
    append_decimal(&mut line, number);
    append(&mut line, b": ");
    line
}

/// A line with its last words, and its end.
fn end_line(line: LogLine, text: &[u8]) -> LogLine
    requires { length line.items + length text.now < LINE_ROOM }
    ensures { result.items ≡ line.items ++ text.now ++ newline ∷ [] }
{
    let mut line = line;
    append(&mut line, text);
    append(&mut line, b"\n");
    line
}

/// The line after those of the calls, for the fault that ended a script.
pub fn last_line(fault: ScriptFault) -> LogLine
    ensures { result.items ≡ last_line fault }
{
    match fault {
        ScriptFault::Text { line, fault } => end_line(beginning(line), fault.text().as_bytes()),
        ScriptFault::Reading => end_line(LogLine::new(), b"reading failed"),
        ScriptFault::Write { line, fault } => {
            let mut text = beginning(line);
            append(&mut text, b"write failed after ");
            append_decimal(&mut text, u64::from(fault.sent));
            end_line(text, b" bytes")
        }
        ScriptFault::Log => end_line(LogLine::new(), b"writing failed"),
    }
}

/// The line of a call that answers something or is refused.
fn answer_line(number: u64, answer: Result<Reply, Refusal>) -> LogLine
    requires { is_some (answer_text answer) ≡ true }
    ensures text { result.items ≡ log_line number answer }
{
    let mut line = beginning(number);
    match answer {
        Ok(reply) => append_reply(&mut line, reply),
        Err(refusal) => append(&mut line, refusal.text().as_bytes()),
    }
    append(&mut line, b"\n");
    line
}

/// Writes the line of a call that answers something or is refused. An error leaves a prefix of the line, and not all.
/// Nothing is flushed. It is not inlined, so that a call without a line makes no room for one.
#[inline(never)]
fn write_line<L: Sink>(
    log: &mut L,
    number: u64,
    answer: Result<Reply, Refusal>,
) -> Result<(), WriteFault>
    requires { is_some (answer_text answer) ≡ true }
    ensures ok { OnOk result (Appends (L.seen log.old).taken (L.seen log.new).taken (log_line number answer)) }
    ensures err { IfErr result (λ fault. (fault.sent < length (log_line number answer))
        × Appends (L.seen log.old).taken (L.seen log.new).taken (take fault.sent (log_line number answer))) }
    ensures failures { (L.seen log.new).failures ≡ count_after (is_err result) (L.seen log.old).failures }
    ensures flushes { (L.seen log.new).flushes ≡ (L.seen log.old).flushes }
{
    match send(log, 0, answer_line(number, answer).as_slice()) {
        Ok(_) => Ok(()),
        Err(fault) => Err(fault),
    }
}

/// Writes the line of a call that answers something or is refused, and nothing for another. An error leaves a prefix of
/// the line, and not all. Nothing is flushed.
#[inline(always)]
pub fn log_answer<L: Sink>(
    log: &mut L,
    number: u64,
    answer: Result<Reply, Refusal>,
) -> Result<(), WriteFault>
    ensures ok { OnOk result (Appends (L.seen log.old).taken (L.seen log.new).taken (log_line number answer)) }
    ensures err { IfErr result (λ fault. (fault.sent < length (log_line number answer))
        × Appends (L.seen log.old).taken (L.seen log.new).taken (take fault.sent (log_line number answer))) }
    ensures failures { (L.seen log.new).failures ≡ count_after (is_err result) (L.seen log.old).failures }
    ensures flushes { (L.seen log.new).flushes ≡ (L.seen log.old).flushes }
{
    if !has_line(&answer) {
        return Ok(());
    }
    write_line(log, number, answer)
}
