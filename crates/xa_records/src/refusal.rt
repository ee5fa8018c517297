//! Why a keeper doesn't do what it is asked for.
ghost use Rattle.std.specs.Prelude.{◌≡◌};
ghost use Rattle.xa_records.specs.Keeper.{CountsChange, failure_of_value};
ghost use Rattle.xa_records.specs.declared.refusal.ChangeError.TheVariants.{Failed, Refused};
ghost use Rattle.xa_records.specs.declared.refusal.Failure.TheVariants.{Memory};

use std::alloc::{AllocError, AllocFailed};
use thiserror::Error;
use xa_value::{OrMemory, ReadError};

/// Why a change is refused. Nothing has changed.
#[derive(Clone, Copy, Debug, PartialEq, Eq, Error)]
pub enum Refusal {
    /// There is a domain of that name already.
    #[error("there is a domain of that name already")]
    Exists,
    /// There is no such domain, token or document.
    #[error("there is no such domain, token or document")]
    Absent,
    /// The domain may keep no more of them: 32 tokens, 1,024 documents, 4,096 source rows.
    #[error("the domain may keep no more tokens, documents or source rows")]
    Quota,
    /// There is a document of that kind, id and version already, with another text.
    #[error("there is a document of that kind, id and version already, with another text")]
    SameVersionOtherText,
    /// The document is active. It has to be made inactive first.
    #[error("the document is active")]
    StillActive,
}

/// Why a keeper gave no answer. Nothing has changed. After `Store` one exception holds: if the storage is
/// opened again, after an orderly end or a crash, the change may be there, as a whole.
#[derive(Clone, Copy, Debug, PartialEq, Eq, Error)]
pub enum Failure {
    /// There was no memory for it.
    #[error("out of memory")]
    Memory,
    /// The storage failed; or the next number or an epoch is the greatest already; or the storage can't
    /// keep a value or a row. The keeper counts these calls.
    #[error("the storage failed")]
    Store,
}

/// Why a change wasn't made.
#[derive(Clone, Copy, Debug, PartialEq, Eq, Error)]
pub enum ChangeError {
    /// It failed.
    #[error(transparent)]
    Failed(Failure),
    /// It is refused.
    #[error(transparent)]
    Refused(Refusal),
}

impl From<AllocError> for Failure {
    ghost from_gives = { λ _ e. e ≡ Memory };

    fn from(_error: AllocError) -> Failure {
        Failure::Memory
    }
}

impl<T: Drop> From<AllocFailed<T>> for Failure {
    ghost from_gives = { λ _ e. e ≡ Memory };

    fn from(_error: AllocFailed<T>) -> Failure {
        Failure::Memory
    }
}

impl From<OrMemory<ReadError>> for Failure {
    ghost from_gives = { λ error e. e ≡ failure_of_value error };

    fn from(error: OrMemory<ReadError>) -> Failure {
        match error {
            OrMemory::Memory => Failure::Memory,
            OrMemory::Error(_) => Failure::Store,
        }
    }
}

impl From<AllocError> for ChangeError {
    ghost from_gives = { λ _ e. e ≡ Failed Memory };

    fn from(_error: AllocError) -> ChangeError {
        ChangeError::Failed(Failure::Memory)
    }
}

impl<T: Drop> From<AllocFailed<T>> for ChangeError {
    ghost from_gives = { λ _ e. e ≡ Failed Memory };

    fn from(_error: AllocFailed<T>) -> ChangeError {
        ChangeError::Failed(Failure::Memory)
    }
}

impl From<Failure> for ChangeError {
    ghost from_gives = { λ failure e. e ≡ Failed failure };

    fn from(failure: Failure) -> ChangeError {
        ChangeError::Failed(failure)
    }
}

impl From<Refusal> for ChangeError {
    ghost from_gives = { λ refusal e. e ≡ Refused refusal };

    fn from(refusal: Refusal) -> ChangeError {
        ChangeError::Refused(refusal)
    }
}

/// Counts the change if the storage failed.
pub fn count_failure<X>(faults: &mut u64, done: &Result<X, ChangeError>)
    ensures { CountsChange faults.old faults.new done.now }
{
    match done {
        Err(ChangeError::Failed(Failure::Store)) => *faults = faults.saturating_add(1),
        Ok(_) | Err(ChangeError::Refused(_)) | Err(ChangeError::Failed(Failure::Memory)) => {}
    }
}
