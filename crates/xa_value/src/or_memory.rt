//! Want of memory: a call that may grow something answers as its definition does, or that there was
//! no memory.
ghost use Rattle.std.specs.Prelude.{◌≡◌, Ok, Err, IfOk, is_ok};
ghost use Rattle.xa_value.specs.declared.or_memory.OrMemory.TheVariants.{Memory};
ghost use Rattle.xa_value.specs.Gives.{answered, memory_apart, ForError, IsErrorAnd, MatchGiven};

use std::alloc::{AllocError, AllocFailed};
use std::fmt::Display;
use thiserror::Error;

/// Why a call that may grow something gave nothing: the error `E` that its definition gives, or
/// there was no memory. A call whose work is counted says the same if what it may ask for is
/// spent. Definitions speak of `E` alone.
#[derive(Debug, Drop, PartialEq, Eq, Error)]
#[error_bound(E: Display)]
pub enum OrMemory<E> {
    /// There was no memory, or the work that the message may ask for is spent. Nothing has changed
    /// that a contract speaks of.
    #[error("out of memory")]
    Memory,
    /// The error that the definition gives.
    #[error(transparent)]
    Error(E),
}

impl<E> From<AllocError> for OrMemory<E> {
    ghost from_gives = { λ _ e. e ≡ Memory };

    fn from(_error: AllocError) -> OrMemory<E> {
        OrMemory::Memory
    }
}

impl<E, T: Drop> From<AllocFailed<T>> for OrMemory<E> {
    ghost from_gives = { λ _ e. e ≡ Memory };

    fn from(_error: AllocFailed<T>) -> OrMemory<E> {
        OrMemory::Memory
    }
}

/// The definition's answer, with want of memory apart: it alone is the error. So `?` passes it on, and
/// a match of two arms is left.
pub fn memory_apart<T, E>(given: Result<T, OrMemory<E>>) -> Result<Result<T, E>, AllocError>
    ensures value { result ≡ memory_apart given }
    ensures answer { IfOk result (λ answer. given ≡ answered answer) }
{
    match given {
        Ok(value) => Ok(Ok(value)),
        Err(OrMemory::Memory) => Err(AllocError),
        Err(OrMemory::Error(error)) => Ok(Err(error)),
    }
}

/// The answer, with its error changed into another. Want of memory stays.
pub fn map_error<T, E, D, F: FnOnce(E) -> D>(
    given: Result<T, OrMemory<E>>,
    change: F,
) -> Result<T, OrMemory<D>>
    requires { ForError given (F.pre change) }
    ensures cases { MatchGiven given (λ value. result ≡ Ok value) (result ≡ Err Memory)
        (λ error. IsErrorAnd result (F.post change error)) }
    ensures variant { is_ok result ≡ is_ok given }
{
    match given {
        Ok(value) => Ok(value),
        Err(OrMemory::Memory) => Err(OrMemory::Memory),
        Err(OrMemory::Error(error)) => Err(OrMemory::Error(change(error))),
    }
}
