//! What the environment says of the size of the screen.

ghost use Rattle.std.specs.Prelude.{◌≡◌};
ghost use Rattle.curspan.specs.{IfErr, error_kind, OutOfMemory};

use std::env::VarError;
use std::io::ErrorKind;
use std::{env, io};

/// What a variable that isn't in UTF-8 is read as. No size is written so.
const UNREADABLE: &str = "\u{fffd}";

/// The text of a variable, if it is set. An error says that there is no memory for it.
pub fn variable(rt: &HostRuntime, name: &str) -> io::Result<Option<String>>
    ensures { IfErr result (λ error. error_kind error ≡ OutOfMemory) }
{
    match env::var(rt, name) {
        Ok(text) => Ok(Some(text)),
        Err(VarError::NotPresent) => Ok(None),
        Err(VarError::NotUnicode) => Ok(Some(String::from_str(rt.alloc(), UNREADABLE)?)),
        Err(VarError::OutOfMemory) => Err(io::Error::from(ErrorKind::OutOfMemory)),
    }
}
