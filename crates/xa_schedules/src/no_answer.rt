//! Why a row has no answer.
ghost use Rattle.std.specs.Prelude.{◌≡◌};
ghost use Rattle.xa_schedules.specs.declared.no_answer.NoAnswer.TheVariants.{Memory};

use std::alloc::{AllocError, AllocFailed};

/// Why a row has no answer.
#[derive(Clone, Copy, Debug, PartialEq, Eq)]
pub enum NoAnswer {
    /// There was no memory for it.
    Memory,
    /// A field says nothing that is known.
    Malformed,
}

impl From<AllocError> for NoAnswer {
    ghost from_gives = { λ _ e. e ≡ Memory };

    fn from(_: AllocError) -> NoAnswer {
        NoAnswer::Memory
    }
}

impl<T: Drop> From<AllocFailed<T>> for NoAnswer {
    ghost from_gives = { λ _ e. e ≡ Memory };

    fn from(_: AllocFailed<T>) -> NoAnswer {
        NoAnswer::Memory
    }
}
