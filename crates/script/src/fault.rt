//! What is wrong with a script's text, and how a script ends.

ghost use Rattle.std.specs.Prelude.{◌≡◌, ◌≤◌};
ghost use Rattle.script.specs.{length};

use streams::WriteFault;
use thiserror::Error;

/// The first fault of a line.
#[derive(Clone, Copy, Debug, PartialEq, Eq, Error)]
#[error("{}", self.text())]
pub enum TextFault {
    LineTooLong,
    BadByte,
    UnknownCall,
    WrongNumberOfArguments,
    BadArgument,
}

impl TextFault {
    ghost use Rattle.script.specs.Log.{fault_text};

    /// What the log says of it.
    pub fn text(self) -> &'static str
        ensures text { result.now ≡ fault_text self }
        ensures short { length result.now ≤ 25 }
    {
        match self {
            TextFault::LineTooLong => "line too long",
            TextFault::BadByte => "bad byte",
            TextFault::UnknownCall => "unknown call",
            TextFault::WrongNumberOfArguments => "wrong number of arguments",
            TextFault::BadArgument => "bad argument",
        }
    }
}

/// Why a script ended before its end. Lines are numbered from 1.
#[derive(Clone, Copy, Debug, PartialEq, Eq)]
pub enum ScriptFault {
    /// The text of a line has a fault.
    Text { line: u64, fault: TextFault },
    /// A read failed.
    Reading,
    /// The `doupdate` of a line failed.
    Write { line: u64, fault: WriteFault },
    /// The log could not be written.
    Log,
}

/// How a script ended.
#[derive(Clone, Copy, Debug, PartialEq, Eq)]
pub struct ScriptEnd {
    /// Whether some call was refused.
    pub refused: bool,
    /// What ended it before its end.
    pub fault: Option<ScriptFault>,
}
