//! Why documents aren't linked.
ghost use Rattle.std.specs.Prelude.{◌≡◌};
ghost use Rattle.xa_value.specs.declared.or_memory.OrMemory.TheVariants.{Error};

use thiserror::Error;
use xa_value::OrMemory;

/// Why the documents that a reference leads to are not linked to one tree.
#[derive(Clone, Copy, Debug, PartialEq, Eq, Error)]
pub enum LinkError {
    /// The tree would have more than 1,000 policies and policy sets.
    #[error("the tree has more than 1,000 policies and policy sets")]
    TooLarge,
}

impl From<LinkError> for OrMemory<LinkError> {
    ghost from_gives = { λ error e. e ≡ Error error };

    fn from(error: LinkError) -> OrMemory<LinkError> {
        OrMemory::Error(error)
    }
}
