//! Why a function gives no value, and the status code for which that stands.
ghost use Rattle.std.specs.Prelude.{◌≡◌};
ghost use Rattle.xa_value.specs.declared.or_memory.OrMemory.TheVariants.{Error};
ghost use Rattle.xa_func.specs.Fault.{status_of};

use crate::status::Status;
use thiserror::Error;
use xa_value::OrMemory;

/// Why a function gives no value (XACML 3.0, core, section 7.5 and appendix B.8).
#[derive(Clone, Copy, Debug, PartialEq, Eq, Error)]
pub enum FuncFault {
    /// A division by zero.
    #[error("division by zero")]
    ZeroDivisor,
    /// A whole number outside 64 bits.
    #[error("the result does not fit 64 bits")]
    Overflow,
    /// A text that is not of the data type.
    #[error("the text is not of this data type")]
    BadText,
    /// A place outside the text; or, of n-of, a number below 0 or above that of its booleans.
    #[error("the position is outside the text or the arguments")]
    Position,
    /// A day outside the years 1 to 9999.
    #[error("the result is outside the years 1 to 9999")]
    CalendarRange,
}

impl FuncFault {
    /// The status code of the fault.
    pub fn status(self) -> Status
        ensures { result ≡ status_of self }
    {
        match self {
            FuncFault::BadText => Status::SyntaxError,
            FuncFault::ZeroDivisor
            | FuncFault::Overflow
            | FuncFault::Position
            | FuncFault::CalendarRange => Status::ProcessingError,
        }
    }
}

impl From<FuncFault> for OrMemory<FuncFault> {
    ghost from_gives = { λ fault e. e ≡ Error fault };

    fn from(fault: FuncFault) -> OrMemory<FuncFault> {
        OrMemory::Error(fault)
    }
}
