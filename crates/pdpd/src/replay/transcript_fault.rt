//! What is wrong with an entry of a transcript.

use crate::replay::heading::HeadingFault;
use thiserror::Error;

/// What is wrong with an entry.
#[derive(Clone, Copy, Debug, Error)]
pub enum TranscriptFault {
    /// The line before it is too long.
    #[error("the line before it has more than 64 bytes")]
    LongLine,
    /// The transcript ends within the line before it.
    #[error("the transcript ends within the line before it")]
    CutLine,
    /// The line before it is no heading.
    #[error(transparent)]
    Heading(HeadingFault),
    /// The transcript ends within its bytes.
    #[error("the transcript ends within its bytes")]
    CutBytes,
    /// No line feed stands after its bytes.
    #[error("no line feed stands behind its bytes")]
    NoLineFeed,
}
