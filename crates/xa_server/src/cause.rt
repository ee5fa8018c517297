//! Why a message isn't answered, and which domain's it was.
use thiserror::Error;
use xa_decide::OverLimit;
use xa_records::Failure;
use xa_value::Text;

/// Why a message isn't answered: it is refused, and its reply is the fixed 503.
#[derive(Clone, Copy, Debug, Error)]
pub enum Cause {
    /// There was no memory, or the storage failed.
    #[error(transparent)]
    Wanting(Failure),
    /// It asks for more than a limit of the server's allows.
    #[error(transparent)]
    OverLimit(OverLimit),
}

/// Why a message gets the fixed 503.
#[derive(Clone, Copy, Debug, Error)]
pub enum Unanswered {
    /// The server refused it.
    #[error(transparent)]
    Refused(Cause),
    /// It asks for a change where none is taken (`Front::turn_away`). The server wasn't asked.
    #[error("it asks for a change, and changes are taken at another address")]
    TurnedAway,
}

/// A message that was refused, or turned away.
#[derive(Debug, Drop)]
pub struct RefusedMessage {
    /// Why.
    pub cause: Unanswered,
    /// The domain that its path names; none if it names none, or if that couldn't be told for want of memory.
    pub domain: Option<Text>,
    /// How many others were refused or turned away since the last one that was taken
    /// (`Server::take_refused`).
    pub others: u64,
}
