//! Shows what a stream of terminal bytes leaves on a terminal.

ghost use Rattle.std.specs.Prelude.{◌≡◌, ◌<◌, ◌⊎◌};
ghost use Rattle.commands.specs.{[], HasRead, blank_terminal, IsSize, Shows, offset_line, terminal_text, LacksMemory, Feeds, LogsFault, WritingEnds, outputs};
ghost use Rattle.commands.specs.declared.requests.Job.{Job};
ghost use Rattle.commands.specs.declared.status.Need.{Need};

use crate::closing::Closable;
use crate::printing::print;
use crate::requests::Job;
use crate::status::{ACCEPTED, FAILED, Need, REFUSED, complain, log_failure, no_memory};
use crate::writing::write_out;
use arrayvec::ArrayVec;
use ecma::{NotInProfile, Terminal};
use script::ScriptFault;
use std::alloc::Global;
use streams::{Sink, Source, append, append_decimal};

/// How many bytes are read at once, at most.
const LONGEST_PIECE: usize = 4096;

/// Room for the line on a stream that fails: a number, and 29 bytes more.
const ROOM: usize = 64;

/// Reads a stream into a terminal, to its end or until a read fails, and answers whether it is whole.
fn read_stream<R: Source>(input: &mut R, terminal: &mut Terminal) -> bool
    ensures { Feeds (R.seen input.old) (R.seen input.new) terminal.old terminal.new result }
{
    let mut piece = [0; LONGEST_PIECE];
    loop {
        match input.read(&mut piece) {
            Ok(0) => return true,
            Ok(count) => {
                // what leaves the profile is told once all is read
                let _ = terminal.feed(&piece[..count]);
            }
            Err(_) => return false,
        }
    }
}

/// Prints the picture of a terminal and flushes, and answers whether all of it went out.
fn print_terminal<O: Sink>(out: &mut O, terminal: &Terminal) -> bool
    ensures { WritingEnds result (O.seen out.old) (O.seen out.new) (terminal_text terminal.now.terminal) }
{
    print(
        out,
        terminal.picture(),
        terminal.lines(),
        terminal.cursor(),
        terminal.rendition(),
    )
}

/// The line of the log on a stream that fails.
fn offset_line(fault: NotInProfile) -> ArrayVec<u8, ROOM>
    ensures { result.items ≡ offset_line fault.at }
{
    let mut line = ArrayVec::<u8, ROOM>::new();
    append(&mut line, b"offset ");
    append_decimal(&mut line, fault.at);
    append(&mut line, b": not in the profile");
    append(&mut line, b"\n");
    line
}

/// Writes to the log at which offset a stream fails, if it does, and answers the status.
fn judge<L: Sink>(log: &mut L, fault: Option<NotInProfile>) -> u8
    ensures { LogsFault fault (L.seen log.old) (L.seen log.new) result }
{
    match fault {
        None => ACCEPTED,
        Some(fault) => {
            if write_out(log, offset_line(fault).as_slice()) {
                REFUSED
            } else {
                FAILED
            }
        }
    }
}

/// Reads a stream to its end into a terminal, prints the picture that it leaves, and gives the status.
fn show_on<R: Source, O: Closable, L: Sink>(
    terminal: &mut Terminal,
    input: &mut R,
    out: &mut O,
    log: &mut L,
) -> u8
    ensures shown { (job : Job) → HasRead [] (blank_terminal job.lines job.cols) terminal.old
        → Shows job (R.seen input.old) (R.seen input.new) (outputs (O.seen out.old) (O.closed out.old) (L.seen log.old)) (outputs (O.seen out.new) (O.closed out.new) (L.seen log.new)) result }
    ensures log { result < 2 → (L.seen log.new).failures ≡ (L.seen log.old).failures }
{
    if !read_stream(input, terminal) {
        return log_failure(log, ScriptFault::Reading);
    }
    if print_terminal(out, terminal) {
        judge(log, terminal.fault())
    } else {
        complain(out, log)
    }
}

/// Shows the stream that is read on a terminal of the job's size, and gives the status.
pub fn show_stream<R: Source, O: Closable, L: Sink>(
    alloc: Global,
    job: Job,
    input: &mut R,
    out: &mut O,
    log: &mut L,
) -> u8
    requires { IsSize job.lines × IsSize job.cols }
    ensures shown { (LacksMemory Need.Screen (outputs (O.seen out.old) (O.closed out.old) (L.seen log.old)) (outputs (O.seen out.new) (O.closed out.new) (L.seen log.new)) result ×
        (R.seen input.new ≡ R.seen input.old))
        ⊎ Shows job (R.seen input.old) (R.seen input.new) (outputs (O.seen out.old) (O.closed out.old) (L.seen log.old)) (outputs (O.seen out.new) (O.closed out.new) (L.seen log.new)) result }
    ensures log { result < 2 → (L.seen log.new).failures ≡ (L.seen log.old).failures }
{
    match Terminal::new(alloc, job.lines, job.cols) {
        Ok(mut terminal) => show_on(&mut terminal, input, out, log),
        Err(_) => no_memory(log, Need::Screen),
    }
}
