//! Why bytes are no request.
ghost use Rattle.std.specs.Prelude.{◌≡◌};
ghost use Rattle.xa_value.specs.declared.or_memory.OrMemory.TheVariants.{Error as AnError};

use thiserror::Error;
use xa_value::OrMemory;

/// Why bytes are no request.
#[derive(Clone, Copy, Debug, PartialEq, Eq, Error)]
pub enum RequestError {
    /// They are not JSON in UTF-8 (RFC 8259, section 8.1).
    #[error("the body is not JSON")]
    NotJson,
    /// They are JSON, but no request (JSON Profile, section 4).
    #[error("the body is not a request of the JSON Profile")]
    NotProfile,
}

impl From<RequestError> for OrMemory<RequestError> {
    ghost from_gives = { λ error e. e ≡ AnError error };

    fn from(error: RequestError) -> OrMemory<RequestError> {
        OrMemory::Error(error)
    }
}
