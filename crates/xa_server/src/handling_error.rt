//! Error answers and failures: which of them each error that a message may meet comes to.
ghost use Rattle.std.specs.Prelude.{◌≡◌};
ghost use Rattle.xa_http.specs.declared.route.RouteFault.{RouteFault};
ghost use Rattle.xa_notation.specs.declared.notation_error.NotationError.{NotationError};
ghost use Rattle.xa_records.specs.declared.refusal.Failure.TheVariants.{Memory};
ghost use Rattle.xa_server.specs.declared.cause.Cause.TheVariants.{Wanting};
ghost use Rattle.xa_server.specs.declared.error_code.ErrorCode.{ErrorCode};
ghost use Rattle.xa_server.specs.declared.handling_error.HandlingError.TheVariants.{Error, Failed};
ghost use Rattle.xa_server.specs.handling.HandlingError.{cause_of_limit, error_of_body, error_of_change};
ghost use Rattle.xa_server.specs.handling.HandlingError.{error_of_route};

use crate::cause::Cause;
use crate::error_code::ErrorCode;
use std::alloc::AllocError;
use xa_decide::OverLimit;
use xa_http::RouteFault;
use xa_notation::NotationError;
use xa_records::{ChangeError, Failure};
use xa_value::OrMemory;

/// Why a message isn't answered with success: by an error answer, or not at all.
#[derive(Clone, Copy, Debug)]
pub(crate) enum HandlingError {
    /// The error answer.
    Error(ErrorCode),
    /// No answer: there is no memory for one, or a limit was reached, or the storage failed.
    Failed(Cause),
}

impl From<AllocError> for HandlingError {
    ghost from_gives = { λ _ given. given ≡ Failed (Wanting Memory) };

    fn from(_error: AllocError) -> HandlingError {
        HandlingError::Failed(Cause::Wanting(Failure::Memory))
    }
}

impl From<Failure> for HandlingError {
    ghost from_gives = { λ failure given. given ≡ Failed (Wanting failure) };

    fn from(failure: Failure) -> HandlingError {
        HandlingError::Failed(Cause::Wanting(failure))
    }
}

impl From<ErrorCode> for HandlingError {
    ghost from_gives = { λ code given. given ≡ Error code };

    fn from(code: ErrorCode) -> HandlingError {
        HandlingError::Error(code)
    }
}

impl From<ChangeError> for HandlingError {
    ghost from_gives = { λ error given. given ≡ error_of_change error };

    fn from(error: ChangeError) -> HandlingError {
        match error {
            ChangeError::Failed(failure) => HandlingError::Failed(Cause::Wanting(failure)),
            ChangeError::Refused(refusal) => HandlingError::Error(ErrorCode::Keeper(refusal)),
        }
    }
}

impl From<OrMemory<NotationError>> for HandlingError {
    ghost from_gives = { λ error given. given ≡ error_of_body error };

    fn from(error: OrMemory<NotationError>) -> HandlingError {
        match error {
            OrMemory::Memory => HandlingError::Failed(Cause::Wanting(Failure::Memory)),
            OrMemory::Error(fault) => HandlingError::Error(ErrorCode::Body(fault)),
        }
    }
}

impl From<OrMemory<RouteFault>> for HandlingError {
    ghost from_gives = { λ error given. given ≡ error_of_route error };

    fn from(error: OrMemory<RouteFault>) -> HandlingError {
        match error {
            OrMemory::Memory => HandlingError::Failed(Cause::Wanting(Failure::Memory)),
            OrMemory::Error(fault) => HandlingError::Error(ErrorCode::from(fault)),
        }
    }
}

impl From<OrMemory<OverLimit>> for HandlingError {
    ghost from_gives = { λ error given. given ≡ Failed (cause_of_limit error) };

    fn from(error: OrMemory<OverLimit>) -> HandlingError {
        match error {
            OrMemory::Memory => HandlingError::Failed(Cause::Wanting(Failure::Memory)),
            OrMemory::Error(over) => HandlingError::Failed(Cause::OverLimit(over)),
        }
    }
}
