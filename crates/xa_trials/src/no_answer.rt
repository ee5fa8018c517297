//! Why a row gets no answer.
use std::alloc::{AllocError, AllocFailed};
use std::io;
use xa_decide::OverLimit;
use xa_server::FrontError;
use xa_value::OrMemory;

/// Why a row gets no answer.
#[derive(Clone, Copy)]
pub enum NoAnswer {
    /// There was no memory.
    Memory,
    /// A row of its kind has another number of fields.
    FieldCount,
    /// The row is none of those that the program knows.
    Malformed,
    /// A store isn't opened as a keeper's.
    NotOpened,
    /// A socket of this machine failed.
    Socket,
    /// The answer is there already.
    Answered,
    /// A call on a connection failed.
    Front(FrontError),
}

impl From<AllocError> for NoAnswer {
    fn from(_error: AllocError) -> NoAnswer {
        NoAnswer::Memory
    }
}

impl<T: Drop> From<AllocFailed<T>> for NoAnswer {
    fn from(_error: AllocFailed<T>) -> NoAnswer {
        NoAnswer::Memory
    }
}

impl From<OrMemory<OverLimit>> for NoAnswer {
    fn from(_error: OrMemory<OverLimit>) -> NoAnswer {
        // No row sets a limit that comes here.
        NoAnswer::Memory
    }
}

impl From<io::Error> for NoAnswer {
    fn from(error: io::Error) -> NoAnswer {
        match error.kind() {
            io::ErrorKind::OutOfMemory => NoAnswer::Memory,
            _ => NoAnswer::Socket,
        }
    }
}

impl From<FrontError> for NoAnswer {
    fn from(error: FrontError) -> NoAnswer {
        match error {
            FrontError::Memory => NoAnswer::Memory,
            error => NoAnswer::Front(error),
        }
    }
}

/// What comes of a row: that its answer is there already is no failure.
pub fn unless_answered(done: Result<(), NoAnswer>) -> Result<(), NoAnswer> {
    match done {
        Err(NoAnswer::Answered) => Ok(()),
        done => done,
    }
}
