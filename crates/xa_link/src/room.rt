//! How many more policies and policy sets a tree may have.
ghost use Rattle.std.specs.Prelude.{◌≡◌};
ghost use Rattle.xa_link.specs.placing.Room.{less_one};

use crate::link_error::LinkError;

/// A part of a tree for which there is room, and the room that it leaves.
#[derive(Debug, Drop)]
pub(crate) struct Fitted<T> {
    /// The part.
    pub(crate) part: T,
    /// How many more policies and policy sets there may be.
    pub(crate) room: usize,
}

/// The room that one policy, or one policy set without its children, leaves.
pub(crate) fn less_one(room: usize) -> Result<usize, LinkError>
    ensures { result ≡ less_one room }
{
    if room == 0 {
        return Err(LinkError::TooLarge);
    }
    Ok(room - 1)
}
