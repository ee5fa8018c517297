//! Why a text is no version.
use thiserror::Error;

/// Why a text is no version, or no pattern of versions (XACML 3.0, core, sections 5.12 and 5.13). A text of
/// another shape is BadText, however long it is.
#[derive(Clone, Copy, Debug, PartialEq, Eq, Error)]
pub enum VersionError {
    /// The text does not have the shape.
    #[error("the text does not have the shape of a version or a pattern")]
    BadText,
    /// The text has the shape, with more than eight parts, or with a number of more than nine digits.
    #[error("the text has more than eight parts, or a number of more than nine digits")]
    TooLong,
}
