//! Why a session ends before its stream does.
ghost use Rattle.std.specs.Prelude.{◌≡◌};
ghost use Rattle.xa_http.specs.Fault.{status_of};

use http::StatusCode;
use thiserror::Error;

/// Why a session ended before its stream did.
#[derive(Clone, Copy, Debug, Drop, Error, PartialEq, Eq)]
pub enum SessionFault {
    /// No head begins like that, or a Content-Length is no number, or two of them differ: 400.
    #[error("the request is malformed")]
    BadHead,
    /// The body has too many bytes: 413.
    #[error("the body is too large")]
    BodyTooLarge,
    /// The head has too many bytes or too many field lines: 431.
    #[error("the head is too large")]
    HeadTooLarge,
    /// The body comes in a transfer coding: 501.
    #[error("the body comes in a transfer coding")]
    TransferCoding,
}

impl SessionFault {
    /// The status of the reply to it (RFC 9110, sections 15.5 and 15.6; RFC 6585, section 5).
    pub fn status(self) -> StatusCode
        ensures { result ≡ status_of self }
    {
        match self {
            SessionFault::BadHead => StatusCode::BAD_REQUEST,
            SessionFault::BodyTooLarge => StatusCode::PAYLOAD_TOO_LARGE,
            SessionFault::HeadTooLarge => StatusCode::REQUEST_HEADER_FIELDS_TOO_LARGE,
            SessionFault::TransferCoding => StatusCode::NOT_IMPLEMENTED,
        }
    }
}
