//! Why a function of bags gives no value, and the status code for which that stands.
ghost use Rattle.std.specs.Prelude.{◌≡◌};
ghost use Rattle.xa_value.specs.declared.or_memory.OrMemory.TheVariants.{Error};
ghost use Rattle.xa_bag.specs.Fault.{status_of};

use thiserror::Error;
use xa_func::{FuncFault, Status};
use xa_value::OrMemory;

/// Why a function of bags gives no value (XACML 3.0, core, appendices A.3.10, A.3.12 and B.8). `F` says why
/// its inner function gives none.
#[derive(Clone, Copy, Debug, PartialEq, Eq, Error)]
pub enum BagFault<F> {
    /// One-and-only was given a bag that does not have exactly one value; or all-of-any or all-of-all was
    /// given arguments other than two bags.
    #[error("the bag does not have exactly one value, or there are not two bags")]
    NotOne,
    /// The function that was applied to the values gave this fault.
    #[error("the inner function failed")]
    Inner(F),
}

impl BagFault<FuncFault> {
    /// The status code of the fault.
    pub fn status(self) -> Status
        ensures { result ≡ status_of self }
    {
        match self {
            BagFault::NotOne => Status::ProcessingError,
            BagFault::Inner(fault) => fault.status(),
        }
    }
}

impl<F> From<BagFault<F>> for OrMemory<BagFault<F>> {
    ghost from_gives = { λ fault e. e ≡ Error fault };

    fn from(fault: BagFault<F>) -> OrMemory<BagFault<F>> {
        OrMemory::Error(fault)
    }
}
