//! Why a text is no document, or no body that administers a domain.
ghost use Rattle.std.specs.Prelude.{◌≡◌};
ghost use Rattle.xa_value.specs.declared.or_memory.OrMemory.TheVariants.{Error};

use crate::member::Member;
use thiserror::Error;
use xa_expr::CheckError;
use xa_value::OrMemory;

/// Why a text is no document, or no body that administers a domain: the first fault, of the text, then of
/// the members of its objects from the outside to the inside, and then of the types of its expressions.
#[derive(Clone, Copy, Debug, PartialEq, Eq, Error)]
pub enum NotationError {
    /// The text is not JSON.
    #[error("the text is not JSON")]
    NotJson,
    /// An object lacks a member that it has to have.
    #[error("the member {0} is missing")]
    MissingMember(Member),
    /// An object has a member that it cannot have, or a second one if it may have only one.
    #[error("a member is unknown")]
    UnknownMember,
    /// A member has a value that it cannot have.
    #[error("a member has a value that it cannot have")]
    BadValue,
    /// An expression or a match has no type.
    #[error("{0}")]
    IllTyped(CheckError),
    /// No combining algorithm has this name, or none that may stand here.
    #[error("a combining algorithm is unknown")]
    UnknownAlgorithm,
    /// The text has more than 65,536 bytes, or more than eight policy sets stand inside one another.
    #[error("the document is too large")]
    TooLarge,
}

impl From<NotationError> for OrMemory<NotationError> {
    ghost from_gives = { λ error e. e ≡ Error error };

    fn from(error: NotationError) -> OrMemory<NotationError> {
        OrMemory::Error(error)
    }
}
