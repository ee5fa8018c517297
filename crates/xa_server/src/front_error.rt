//! Why a call on a connection fails.
ghost use Rattle.std.specs.Prelude.{◌≡◌};
ghost use Rattle.xa_server.specs.declared.front_error.FrontError.TheVariants.{Memory};

use crate::connection::TakeError;
use std::alloc::AllocError;
use thiserror::Error;

/// Why a call on a connection fails. Nothing has changed.
#[derive(Clone, Copy, Debug, PartialEq, Eq, Error)]
pub enum FrontError {
    /// There was no memory for it.
    #[error("out of memory")]
    Memory,
    /// No connection of that number is open.
    #[error("no such connection is open")]
    NoSuchConnection,
    /// 64 connections are open.
    #[error("no more connections can be open")]
    TooManyConnections,
    /// The bytes that the connection holds and the piece are more than 1,048,576 together.
    #[error("the connection holds too many bytes")]
    Full,
}

impl From<AllocError> for FrontError {
    ghost from_gives = { λ _ e. e ≡ Memory };

    fn from(_error: AllocError) -> FrontError {
        FrontError::Memory
    }
}

impl From<TakeError> for FrontError {
    ghost use Rattle.xa_server.specs.Lines.{refusal_of};

    ghost from_gives = { λ why e. e ≡ refusal_of why };

    fn from(why: TakeError) -> FrontError {
        match why {
            TakeError::Memory => FrontError::Memory,
            TakeError::Full => FrontError::Full,
        }
    }
}
