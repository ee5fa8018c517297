//! What an error of the database means: for a reading or a change, want of memory or a failure of the
//! store; for opening, that the tables are of another schema, too.
ghost use Rattle.std.specs.Prelude.{◌≡◌, ◌↔◌};
ghost use Rattle.sqlite.specs.declared.error.Error.TheVariants.{SqliteFailure};
ghost use Rattle.sqlite.specs.declared.error.ErrorCode.TheVariants.{OutOfMemory};
ghost use Rattle.xa_records.specs.declared.refusal.Failure.TheVariants as failures;
ghost use Rattle.xa_store.specs.declared.error.OpenError.TheVariants.{Memory};
ghost use Rattle.xa_store.specs.keeping.Check.{error_of_check};
ghost use Rattle.xa_store.specs.Opening.{IsFailure};

use crate::error::OpenError;
use sqlite::{Error, ErrorCode};
use std::alloc::AllocError;
use xa_records::Failure;

impl From<AllocError> for OpenError {
    ghost from_gives = { λ _ e. e ≡ Memory };

    fn from(_error: AllocError) -> OpenError {
        OpenError::Memory
    }
}

impl From<Failure> for OpenError {
    ghost from_gives = { λ _ e. IsFailure e };

    fn from(failure: Failure) -> OpenError {
        error_of_failure(failure)
    }
}

/// For a reading or a change: want of memory is `Memory`, and all else `Store`.
pub(crate) fn failure_of(error: Error) -> Failure
    ensures { (result ≡ failures.Memory) ↔ (error ≡ SqliteFailure OutOfMemory) }
{
    match error {
        Error::SqliteFailure(ErrorCode::OutOfMemory) => Failure::Memory,
        _ => Failure::Store,
    }
}

/// For a query of the check: a statement that isn't understood, and a name that is taken, tell tables of
/// another schema.
pub(crate) fn error_of_check(error: Error) -> OpenError
    ensures { result ≡ error_of_check error }
{
    match error {
        Error::SqliteFailure(ErrorCode::OutOfMemory) => OpenError::Memory,
        Error::SqlInputError(_) | Error::SqliteFailure(ErrorCode::NameTaken) => {
            OpenError::NotThisSchema
        }
        _ => OpenError::Store,
    }
}

/// For a change of the tables that failed.
fn error_of_failure(failure: Failure) -> OpenError
    ensures { IsFailure result }
{
    match failure {
        Failure::Memory => OpenError::Memory,
        Failure::Store => OpenError::Store,
    }
}

/// For a statement that is no query, or for a commit: one function, which `map_err` takes.
pub(crate) fn error_of_statement(error: Error) -> OpenError
    ensures { IsFailure result }
{
    error_of_failure(failure_of(error))
}

/// For the check of tables that were just made: these are sound, so whatever is said of them tells a failure.
pub(crate) fn error_after_making(error: OpenError) -> OpenError
    ensures { IsFailure result }
{
    match error {
        OpenError::Memory => OpenError::Memory,
        _ => OpenError::Store,
    }
}
