//! Why a call is refused.

ghost use Rattle.std.specs.Prelude.{◌≡◌};

pub use crate::written_refusals::Refusal;
use std::alloc::AllocError;

impl From<AllocError> for Refusal {
    ghost use Rattle.cell.specs.declared.written_refusals.Refusal.TheVariants.{NoMemory};

    ghost from_gives = { λ error refusal. refusal ≡ NoMemory };

    fn from(error: AllocError) -> Refusal {
        Refusal::NoMemory
    }
}
