//! The exit statuses, and what is written to the log with them.

ghost use Rattle.std.specs.Prelude.{◌≡◌, ◌<◌};
ghost use Rattle.commands.specs.{MatchOption, None, SaysFault, no_memory_line, status_of, Complains, TriesToLog, last_line};

use crate::closing::Closable;
use crate::writing::write_log;
use script::{ScriptEnd, ScriptFault, last_line};
use streams::Sink;

/// Every call was accepted, the stream is in the profile, or help was asked for.
pub const ACCEPTED: u8 = 0;
/// Some call was refused, or the stream isn't in the profile.
pub const REFUSED: u8 = 1;
/// The command line or the script's text has a fault.
pub const BAD_TEXT: u8 = 2;
/// Reading or writing failed.
pub const FAILED: u8 = 3;
/// There is no memory.
const NO_MEMORY: u8 = 4;

/// What the program needs memory for.
#[derive(Clone, Copy)]
pub enum Need {
    /// The words of the command line, and what they ask for.
    CommandLine,
    /// The help text, or the version.
    Help,
    /// The text of a fault of the command line.
    Usage,
    /// What waits to be read or written.
    Streams,
    /// The screen of a script, or the one that a stream is shown on.
    Screen,
}

/// The line that says what there is no memory for.
fn no_memory_line(need: Need) -> &'static [u8]
    ensures { result.now ≡ no_memory_line need }
{
    match need {
        Need::CommandLine => b"no memory for the command line\n".as_slice(),
        Need::Help => b"no memory for the help text\n",
        Need::Usage => b"no memory for the fault of the command line\n",
        Need::Streams => b"no memory for the streams\n",
        Need::Screen => b"no memory for the screen\n",
    }
}

/// Says on the log what there is no memory for, and answers that status.
pub fn no_memory<L: Sink>(log: &mut L, need: Need) -> u8
    ensures status { result ≡ 4 }
    ensures logs { TriesToLog (L.seen log.old) (L.seen log.new) (no_memory_line need) }
{
    write_log(log, no_memory_line(need));
    NO_MEMORY
}

/// Writes to the log the line of a fault, which is a failed read or write, and answers the status for it.
pub fn log_failure<L: Sink>(log: &mut L, fault: ScriptFault) -> u8
    ensures status { result ≡ 3 }
    ensures logs { TriesToLog (L.seen log.old) (L.seen log.new) (last_line fault) }
{
    write_log(log, last_line(fault).as_slice());
    FAILED
}

/// Writes to the log that writing the output failed, unless nobody reads it, and answers the status for that. Who closed
/// the output wants no complaint of it.
pub fn complain<O: Closable, L: Sink>(out: &O, log: &mut L) -> u8
    ensures status { result ≡ 3 }
    ensures logs { Complains (O.closed out.now) (L.seen log.old) (L.seen log.new) (last_line ScriptFault.Log) }
{
    if out.is_closed() {
        return FAILED;
    }
    log_failure(log, ScriptFault::Log)
}

/// Writes to the log the line of the fault that ended a script, if there is one; but none of a failed write where nobody
/// reads the output.
pub fn log_fault<O: Closable, L: Sink>(out: &O, log: &mut L, fault: Option<ScriptFault>)
    ensures { MatchOption fault (log.new ≡ log.old) (λ fault. SaysFault (O.closed out.now) fault (L.seen log.old) (L.seen log.new)) }
{
    match fault {
        Some(ScriptFault::Write { .. }) if out.is_closed() => {}
        Some(fault) => write_log(log, last_line(fault).as_slice()),
        None => {}
    }
}

/// The status for how a script ended.
pub fn status_of(end: ScriptEnd) -> u8
    ensures status { result ≡ status_of end }
    ensures well { result < 2 → end.fault ≡ None }
{
    match end.fault {
        Some(ScriptFault::Text { .. }) => BAD_TEXT,
        Some(_) => FAILED,
        None if end.refused => REFUSED,
        None => ACCEPTED,
    }
}
