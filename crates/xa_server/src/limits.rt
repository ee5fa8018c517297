//! What a decision request may cost.
use xa_decide::Limits;

/// What one decision request may cost, with all its decisions. Nothing is used up: each message begins
/// anew, whatever others have asked. A message over a limit is refused as for want of memory, as any
/// message may be.
#[derive(Clone, Copy)]
pub(crate) struct MessageLimits {
    /// What is limited of deciding: the work, and the bytes of the response's body.
    pub(crate) deciding: Limits,
    /// The bytes of the texts of policies that are read for it; none is no limit. They are counted whether
    /// their documents are on the shelf or not.
    pub(crate) reading: Option<u64>,
}

impl MessageLimits {
    /// No limits.
    pub(crate) fn none() -> MessageLimits {
        MessageLimits {
            deciding: Limits::none(),
            reading: None,
        }
    }
}
