//! The error answers: why a message is turned away, and the bytes of that reply.
ghost use Rattle.std.specs.Prelude.{◌≡◌, IfOk};
ghost use Rattle.xa_server.specs.ErrorCode.{code_of_route_fault, code_of_session_fault};
ghost use Rattle.xa_server.specs.ErrorCode.{error_body, error_reply, extra_of, row_of};
ghost use Rattle.xa_server.specs.declared.error_code.ErrorCode.TheVariants as code;

use crate::replies::items_of_reply;
use http::StatusCode;
use std::alloc::{AllocError, Global};
use thiserror::Error;
use xa_http::{Extra, Media, Place, RouteFault, SessionFault};
use xa_notation::NotationError;
use xa_records::Refusal;
use xa_value::Items;

/// 404: what is asked for isn't there.
pub(crate) const ABSENT: ErrorCode = ErrorCode::Keeper(Refusal::Absent);

/// Why a message is turned away: the code that the body of the reply names (statuses: RFC 9110, section 15;
/// 431: RFC 6585, section 5).
#[derive(Clone, Copy, Debug, PartialEq, Eq, Error)]
pub enum ErrorCode {
    /// 404: nothing is served at the path.
    #[error("nothing is served at the path")]
    NoRoute,
    /// 405: the path doesn't take the method.
    #[error("the path doesn't take the method")]
    BadMethod(Place),
    /// 415: the body has another media type than JSON.
    #[error("the body has another media type than JSON")]
    BadMediaType,
    /// 401: the message shows no token of the domain, or on the operator's paths not the operator's.
    #[error("the message shows no token that is let in there")]
    Unauthorized,
    /// 403: the role of the message's token may not ask for that.
    #[error("the role of the message's token may not ask for that")]
    Forbidden,
    /// 400: what the operator's path names is no domain name.
    #[error("what the path names is no domain name")]
    BadDomain,
    /// 400: the body isn't what it has to be.
    #[error(transparent)]
    Body(NotationError),
    /// 404 or 409, by the keeper: what is asked for isn't there, or can't be done as things are.
    #[error(transparent)]
    Keeper(Refusal),
    /// 400, 413, 431 or 501: the stream doesn't go on with a message that is taken.
    #[error(transparent)]
    Session(SessionFault),
}

impl ErrorCode {
    /// The status of the error answer.
    fn status(self) -> StatusCode
        ensures { result ≡ (row_of self).status }
    {
        match self {
            ErrorCode::NoRoute => StatusCode::NOT_FOUND,
            ErrorCode::BadMethod(_) => StatusCode::METHOD_NOT_ALLOWED,
            ErrorCode::BadMediaType => StatusCode::UNSUPPORTED_MEDIA_TYPE,
            ErrorCode::Unauthorized => StatusCode::UNAUTHORIZED,
            ErrorCode::Forbidden => StatusCode::FORBIDDEN,
            ErrorCode::BadDomain => StatusCode::BAD_REQUEST,
            ErrorCode::Body(_) => StatusCode::BAD_REQUEST,
            ErrorCode::Keeper(Refusal::Absent) => StatusCode::NOT_FOUND,
            ErrorCode::Keeper(_) => StatusCode::CONFLICT,
            ErrorCode::Session(fault) => fault.status(),
        }
    }

    /// The field that the error answer has beside Content-Type and Content-Length (RFC 9110, sections
    /// 10.2.1 and 11.6.1).
    fn extra(self) -> Extra
        ensures { result ≡ extra_of self }
    {
        match self {
            ErrorCode::BadMethod(place) => Extra::Allow(place),
            ErrorCode::Unauthorized => Extra::Challenge,
            _ => Extra::Nothing,
        }
    }

    /// The body of the error answer.
    #[tactic(auto, unfolding(crate::specs::ErrorCode::error_body))]
    fn body(self) -> &'static [u8]
        ensures { result.now ≡ error_body self }
    {
        match self {
            ErrorCode::NoRoute => b"{\"Error\":\"NoRoute\"}",
            ErrorCode::BadMethod(_) => b"{\"Error\":\"BadMethod\"}",
            ErrorCode::BadMediaType => b"{\"Error\":\"BadMediaType\"}",
            ErrorCode::Unauthorized => b"{\"Error\":\"Unauthorized\"}",
            ErrorCode::Forbidden => b"{\"Error\":\"Forbidden\"}",
            ErrorCode::BadDomain => b"{\"Error\":\"BadDomain\"}",
            ErrorCode::Body(fault) => body_of_notation(fault),
            ErrorCode::Keeper(refusal) => body_of_refusal(refusal),
            ErrorCode::Session(fault) => body_of_session(fault),
        }
    }

    /// The bytes of the error answer.
    #[tactic(auto, unfolding(crate::specs::ErrorCode::error_reply))]
    pub fn reply(self, alloc: Global) -> Result<Items<u8>, AllocError>
        ensures { IfOk result (λ bytes. bytes ≡ error_reply self) }
    {
        items_of_reply(alloc, self.status(), Media::Json, self.extra(), self.body())
    }
}

impl From<RouteFault> for ErrorCode {
    ghost from_gives = { λ fault code. code ≡ code_of_route_fault fault };

    fn from(fault: RouteFault) -> ErrorCode {
        match fault {
            RouteFault::NoRoute => ErrorCode::NoRoute,
            RouteFault::BadMethod(place) => ErrorCode::BadMethod(place),
            RouteFault::BadMediaType => ErrorCode::BadMediaType,
        }
    }
}

impl From<SessionFault> for ErrorCode {
    ghost from_gives = { λ fault code. code ≡ code_of_session_fault fault };

    fn from(fault: SessionFault) -> ErrorCode {
        ErrorCode::Session(fault)
    }
}

/// The body of the reply to a fault of a body.
#[tactic(auto, unfolding(crate::specs::ErrorCode::error_body))]
fn body_of_notation(fault: NotationError) -> &'static [u8]
    ensures { result.now ≡ error_body (code.Body fault) }
{
    match fault {
        NotationError::NotJson => b"{\"Error\":\"NotJson\"}",
        NotationError::MissingMember(_) => b"{\"Error\":\"MissingMember\"}",
        NotationError::UnknownMember => b"{\"Error\":\"UnknownMember\"}",
        NotationError::BadValue => b"{\"Error\":\"BadValue\"}",
        NotationError::IllTyped(_) => b"{\"Error\":\"IllTyped\"}",
        NotationError::UnknownAlgorithm => b"{\"Error\":\"UnknownAlgorithm\"}",
        NotationError::TooLarge => b"{\"Error\":\"TooLarge\"}",
    }
}

/// The body of the reply to a refusal of the keeper.
#[tactic(auto, unfolding(crate::specs::ErrorCode::error_body))]
fn body_of_refusal(refusal: Refusal) -> &'static [u8]
    ensures { result.now ≡ error_body (code.Keeper refusal) }
{
    match refusal {
        Refusal::Exists => b"{\"Error\":\"Exists\"}",
        Refusal::Absent => b"{\"Error\":\"Absent\"}",
        Refusal::Quota => b"{\"Error\":\"Quota\"}",
        Refusal::SameVersionOtherText => b"{\"Error\":\"SameVersionOtherText\"}",
        Refusal::StillActive => b"{\"Error\":\"StillActive\"}",
    }
}

/// The body of the reply to a stream that ends by that fault.
#[tactic(auto, unfolding(crate::specs::ErrorCode::error_body))]
fn body_of_session(fault: SessionFault) -> &'static [u8]
    ensures { result.now ≡ error_body (code.Session fault) }
{
    match fault {
        SessionFault::BadHead => b"{\"Error\":\"BadHead\"}",
        SessionFault::BodyTooLarge => b"{\"Error\":\"BodyTooLarge\"}",
        SessionFault::HeadTooLarge => b"{\"Error\":\"HeadTooLarge\"}",
        SessionFault::TransferCoding => b"{\"Error\":\"TransferCoding\"}",
    }
}

/// The bytes of the reply to a stream that ends by that fault.
pub fn fault_reply(alloc: Global, fault: SessionFault) -> Result<Items<u8>, AllocError>
    ensures { IfOk result (λ bytes. bytes ≡ error_reply (code_of_session_fault fault)) }
{
    ErrorCode::from(fault).reply(alloc)
}
