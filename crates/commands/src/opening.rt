//! Files that can't be opened, and what the log says of them.

ghost use Rattle.std.specs.Prelude.{◌≡◌};
ghost use Rattle.commands.specs.{SaysUnopened, reason, unopened_line, PuttingEnds, WritingEnds};

use crate::escapes::put_escaped;
use crate::status::{FAILED, Need, no_memory};
use crate::writing::{flush_after, put};
use streams::Sink;

/// Why a file can't be opened.
#[derive(Clone, Copy)]
pub enum OpenFault {
    /// There is no file of that name, or no folder that it would be in.
    Missing,
    /// This user may not.
    Denied,
    /// It is a folder.
    Folder,
    /// Its name goes on after that of a file, as in a folder.
    InFile,
    /// It is to be written, and is the file that is read.
    IsRead,
    /// There is no memory for its buffer.
    NoMemory,
    /// The system says another reason.
    Refused,
}

/// Why a file can't be opened, in words.
fn reason(fault: OpenFault) -> &'static str
    ensures { result.now ≡ reason fault }
{
    match fault {
        OpenFault::Missing => "there is no such file or folder",
        OpenFault::Denied => "permission denied",
        OpenFault::Folder => "it is a folder",
        OpenFault::InFile => "a file is named as a folder",
        OpenFault::IsRead => "it is the file that is read",
        OpenFault::NoMemory => "no memory",
        OpenFault::Refused => "the system refuses it",
    }
}

/// Writes the line on a file that can't be opened, its name escaped, and answers whether all of it went out. Nothing is
/// flushed.
fn put_unopened<L: Sink>(log: &mut L, name: &str, fault: OpenFault) -> bool
    ensures { PuttingEnds result (L.seen log.old) (L.seen log.new) (unopened_line name.now fault) }
{
    if !put(log, b"can't open ") {
        return false;
    }
    if !put_escaped(log, name.as_bytes()) {
        return false;
    }
    if !put(log, b": ") {
        return false;
    }
    if !put(log, reason(fault).as_bytes()) {
        return false;
    }
    put(log, b"\n")
}

/// The same, and flushes.
fn write_unopened<L: Sink>(log: &mut L, name: &str, fault: OpenFault) -> bool
    ensures { WritingEnds result (L.seen log.old) (L.seen log.new) (unopened_line name.now fault) }
{
    let is_put = put_unopened(log, name, fault);
    flush_after(log, is_put)
}

/// Says on the log that a file can't be opened, and answers the status.
pub fn log_unopened<L: Sink>(log: &mut L, name: &str, fault: OpenFault) -> u8
    ensures { SaysUnopened name.now fault (L.seen log.old) (L.seen log.new) result }
{
    match fault {
        OpenFault::NoMemory => no_memory(log, Need::Streams),
        _ => {
            write_unopened(log, name, fault);
            FAILED
        }
    }
}
