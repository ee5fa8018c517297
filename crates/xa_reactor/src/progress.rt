//! How far a connection is, and why one is closed.

/// Why a connection is closed.
#[derive(Clone, Copy, Debug, PartialEq, Eq)]
pub enum Reason {
    /// Its stream has ended, and all that was whole of it is answered; or its last reply was sent.
    Ended,
    /// A read or a write failed.
    Failed,
    /// There was no memory for what was read, or for an answer.
    WantOfMemory,
    /// Nothing had come for as long as it is waited for.
    Idle,
    /// It was waited for as long as its stage may last: for the rest of a message, or that a reply is taken.
    Late,
    /// All places were taken and another waited, and of those that owed nothing none was idle for longer.
    DrivenOut,
}

/// How far a connection is.
#[derive(Clone, Copy, Debug, PartialEq, Eq)]
pub enum Progress {
    /// Nothing can be done until its socket is ready.
    Waits,
    /// More can be done at once.
    Goes,
    /// It is to be closed.
    Ends(Reason),
}
