//! What is shown of words that `clap` refuses: help on the output, or a usage fault on the log.

ghost use Rattle.std.specs.Prelude.{◌≡◌, ◌<◌};
ghost use Rattle.commands.specs.{kind_of, Explains, ShowsText, outputs};

use crate::closing::Closable;
use crate::escapes::log_escaped;
use crate::status::{ACCEPTED, BAD_TEXT, Need, complain, no_memory};
use crate::writing::write_out;
use clap::Error;
use clap::error::ErrorKind;
use std::alloc::Global;
use std::convert::AsStr;
use streams::Sink;

/// Prints a text on the output, and answers the status.
fn show_text<O: Closable, L: Sink>(text: &[u8], out: &mut O, log: &mut L) -> u8
    ensures shown { ShowsText text.now (outputs (O.seen out.old) (O.closed out.old) (L.seen log.old)) (outputs (O.seen out.new) (O.closed out.new) (L.seen log.new)) result }
    ensures log { result < 2 → log.new ≡ log.old }
{
    if write_out(out, text) {
        ACCEPTED
    } else {
        complain(out, log)
    }
}

/// Prints help on the output, or a usage fault, escaped, on the log, and answers the status.
pub fn usage<O: Closable, L: Sink>(alloc: Global, error: &Error, out: &mut O, log: &mut L) -> u8
    ensures explained { Explains (kind_of error.now) (outputs (O.seen out.old) (O.closed out.old) (L.seen log.old)) (outputs (O.seen out.new) (O.closed out.new) (L.seen log.new)) result }
    ensures log { result < 2 → log.new ≡ log.old }
{
    if error.kind() == ErrorKind::OutOfMemory {
        return no_memory(log, Need::CommandLine);
    }
    match error.to_string(alloc) {
        Ok(text) if error.use_stderr() => {
            log_escaped(log, text.as_bytes());
            BAD_TEXT
        }
        Ok(text) => show_text(text.as_bytes(), out, log),
        Err(_) if error.use_stderr() => no_memory(log, Need::Usage),
        Err(_) => no_memory(log, Need::Help),
    }
}
