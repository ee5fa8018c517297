//! The ends of a driven connection.
ghost use Rattle.std.specs.Prelude.{◌≡◌};
ghost use Rattle.xa_server.specs.declared.drive_end.DriveEnd.TheVariants.{Memory};

use std::alloc::AllocError;

/// How `drive` ended.
#[derive(Clone, Copy, Debug, PartialEq, Eq)]
pub enum DriveEnd {
    /// Its stream has ended, or its session: by a message that closes it (RFC 9112, section 9.6), or by a
    /// fault, which was answered. Or it wasn't open.
    Ended,
    /// A read failed; an interrupted one hasn't. All messages that were whole by then are answered.
    ReadFault,
    /// A write or a flush failed; an interrupted write hasn't. The message whose reply it was is done,
    /// and of that reply a part may have been sent.
    WriteFault,
    /// The clock was asked and told no moment. The message that wanted one is not answered, and is held
    /// as before.
    NoClock,
    /// It was read from 1,000,000 times. All messages that were whole by then are answered.
    TooManyReads,
    /// There was no memory. Whole messages may be left unanswered.
    Memory,
    /// A message was refused for want of storage, and its keeper can't go on. Its reply was written;
    /// whole messages may be left unanswered.
    Shut,
}

impl From<AllocError> for DriveEnd {
    ghost from_gives = { λ _ e. e ≡ Memory };

    fn from(_error: AllocError) -> DriveEnd {
        DriveEnd::Memory
    }
}
