//! What a connection holds of its stream.

/// What a connection holds of its stream, before anything of it is answered.
#[derive(Clone, Copy, Debug, PartialEq, Eq)]
pub enum Holding {
    /// Nothing.
    Nothing,
    /// The beginning of a message.
    Part,
    /// A whole message, or the fault by which its stream ends: there is something to answer.
    Whole,
    /// Its session has ended: whatever it holds, nothing is answered.
    Ended,
}
