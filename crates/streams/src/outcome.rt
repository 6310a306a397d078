//! By which kind of error a call of a stream failed.

ghost use Rattle.std.specs.Prelude.{◌≡◌, ◌↔◌};
ghost use Rattle.streams.specs.{IsErrAnd, IsTrue, error_kind};

use std::io;
use std::io::ErrorKind;

/// Whether a call failed by an error of this kind.
pub fn fails_by<T>(outcome: &io::Result<T>, kind: ErrorKind) -> bool
    ensures { IsTrue result ↔ IsErrAnd outcome.now (λ e. error_kind e ≡ kind) }
{
    match outcome {
        Ok(_) => false,
        Err(error) => error.kind() == kind,
    }
}
