//! Why a text is no value of a type.
ghost use Rattle.std.specs.Prelude.{◌≡◌};
ghost use Rattle.xa_value.specs.declared.or_memory.OrMemory.TheVariants.{Error};

use crate::or_memory::OrMemory;
use thiserror::Error;

/// Why a text was not read as a value of a type (XACML 3.0, core, appendix A.2).
#[derive(Clone, Copy, Debug, PartialEq, Eq, Error)]
pub enum ReadError {
    /// The text does not have the shape of the type.
    #[error("the text is not of this data type")]
    NotThisType,
    /// The text has the shape of the type, with a part outside its range.
    #[error("a part of the text is out of its range")]
    OutOfRange,
}

impl From<ReadError> for OrMemory<ReadError> {
    ghost from_gives = { λ error e. e ≡ Error error };

    fn from(error: ReadError) -> OrMemory<ReadError> {
        OrMemory::Error(error)
    }
}
