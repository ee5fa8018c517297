//! Why an expression has no type.
ghost use Rattle.std.specs.Prelude.{◌≡◌};
ghost use Rattle.xa_value.specs.declared.or_memory.OrMemory.TheVariants.{Error};

use thiserror::Error;
use xa_value::OrMemory;

/// Why an expression or a match has no type: the first fault found. An unknown function, and too many
/// expressions inside one another, come before the arguments. Then come the faults of these from the first
/// to the last, then their number, then their kinds.
#[derive(Clone, Copy, Debug, PartialEq, Eq, Error)]
pub enum CheckError {
    /// No function has this name, or none that may stand here.
    #[error("a function is unknown")]
    UnknownFunction,
    /// The function takes another number of arguments.
    #[error("a function has the wrong number of arguments")]
    WrongCount,
    /// An argument is of another type or kind than belongs at its place.
    #[error("an expression is of the wrong type")]
    WrongType,
    /// No variable that is defined before has this name.
    #[error("a variable is unknown")]
    UnknownVariable,
    /// More than 24 expressions stand inside one another.
    #[error("expressions are nested too deeply")]
    TooDeep,
}

impl From<CheckError> for OrMemory<CheckError> {
    ghost from_gives = { λ fault e. e ≡ Error fault };

    fn from(fault: CheckError) -> OrMemory<CheckError> {
        OrMemory::Error(fault)
    }
}
