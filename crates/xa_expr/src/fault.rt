//! Why an expression or a target has no value.
ghost use Rattle.std.specs.Prelude.{◌≡◌};
ghost use Rattle.xa_expr.specs.Fault.{status_of, fault_with};

use thiserror::Error;
use xa_func::Status;

/// Why an expression or a target has no value: one of the three status codes of faults (core, appendix B.8).
#[derive(Clone, Copy, Debug, PartialEq, Eq, Error)]
pub enum Fault {
    /// An attribute that must be present has no value.
    #[error("an attribute that must be present is missing")]
    MissingAttribute,
    /// A text was read that is not a value of the type wanted.
    #[error("a text is not a value of its type")]
    SyntaxError,
    /// A function has no value for its arguments.
    #[error("a function has no value for its arguments")]
    ProcessingError,
}

impl Fault {
    /// The status code of the fault.
    pub fn status(self) -> Status
        ensures { result ≡ status_of self }
    {
        match self {
            Fault::MissingAttribute => Status::MissingAttribute,
            Fault::SyntaxError => Status::SyntaxError,
            Fault::ProcessingError => Status::ProcessingError,
        }
    }

    /// The fault that has the status code; no fault has `ok`.
    pub(crate) fn with(status: Status) -> Fault
        ensures { result ≡ fault_with status }
    {
        match status {
            Status::MissingAttribute => Fault::MissingAttribute,
            Status::SyntaxError => Fault::SyntaxError,
            _ => Fault::ProcessingError,
        }
    }
}
