//! What is counted while a request is decided, up to a limit.
use std::alloc::AllocError;
use std::cell::Cell;

/// What may still be spent of a limit: units of work, bytes or values. A unit of work is a byte of text or of
/// a value that is made, copied or compared. No clause speaks of what is left. An evaluation that asks for
/// more ends, as it does without memory, and `is_exceeded` tells then which of both it was.
#[derive(Drop)]
pub(crate) struct Budget {
    /// How much may be spent in all; none is no limit.
    limit: Option<u64>,
    /// How much of the limit may still be spent.
    left: Cell<u64>,
    /// Whether more was asked for.
    is_exceeded: Cell<bool>,
}

impl Budget {
    /// A budget of which nothing is spent.
    pub(crate) fn new(limit: Option<u64>) -> Budget {
        Budget {
            limit,
            left: Cell::new(limit.unwrap_or(0)),
            is_exceeded: Cell::new(false),
        }
    }

    /// Takes so much from what is left. If it is more than that, nothing is left afterwards: nothing smaller
    /// is taken after something that was refused.
    pub(crate) fn spend(&self, count: u64) -> Result<(), AllocError> {
        if self.limit.is_none() {
            return Ok(());
        }
        match self.left.get().checked_sub(count) {
            Some(left) => {
                self.left.set(left);
                Ok(())
            }
            None => {
                self.left.set(0);
                self.is_exceeded.set(true);
                Err(AllocError)
            }
        }
    }

    /// Whether more was asked for than there was.
    pub(crate) fn is_exceeded(&self) -> bool {
        self.is_exceeded.get()
    }
}
