//! Why a reactor halts before all its connections have ended.

/// Why a reactor halts.
#[derive(Clone, Copy, Debug, PartialEq, Eq)]
pub enum Halt {
    /// The clock told no moment for a message, which is held as before.
    NoClock,
    /// The timer didn't tell the time.
    NoTimer,
    /// A message was refused for want of storage, and its keeper can't go on. Its reply had one write.
    Shut,
    /// Waiting for the network failed.
    Network,
    /// Taking connections failed, or did so 1,000 times in a row.
    Door,
    /// There were 18,446,744,073,709,551,615 turns.
    TooManyTurns,
}
