//! The bytes of a reply.
ghost use Rattle.std.specs.Prelude.{◌≡◌, ◌++◌, codes, IfOk, OnOk};
ghost use Rattle.xa_http.specs.Table.{methods_text};
ghost use Rattle.xa_http.specs.Reply.{phrase, status_line, field_line, media_text, extra_lines, http_bytes};

use crate::table::Place;
use http::StatusCode;
use std::alloc::{AllocError, Global};

/// Any head of a reply fits into this many bytes.
const HEAD_ROOM: usize = 256;

/// The media type of a reply's body.
#[derive(Clone, Copy, Debug, PartialEq, Eq)]
pub enum Media {
    /// `application/json`
    Json,
    /// `application/xacml+json` (JSON Profile of XACML 3.0, sections 6 and 7)
    XacmlJson,
}

/// The field that a reply has beside `Content-Type` and `Content-Length`.
#[derive(Clone, Copy, Debug, PartialEq, Eq)]
pub enum Extra {
    /// None.
    Nothing,
    /// `WWW-Authenticate: Bearer`, of a 401 (RFC 9110, section 11.6.1).
    Challenge,
    /// `Allow`, of a 405 (RFC 9110, section 10.2.1): the methods that are served at the place.
    Allow(Place),
}

impl Media {
    /// The name of the media type.
    fn name(self) -> &'static str
        ensures { result.now ≡ media_text self }
    {
        match self {
            Media::Json => "application/json",
            Media::XacmlJson => "application/xacml+json",
        }
    }
}

/// The reason phrase of the status, empty if it has none.
#[tactic(auto, unfolding(crate::specs::Reply::phrase))]
fn phrase(status: StatusCode) -> &'static str
    ensures { result.now ≡ phrase status }
{
    status.canonical_reason().unwrap_or("")
}

/// Adds the status line (RFC 9112, section 4), with its line end.
#[tactic(auto, unfolding(crate::specs::Reply::status_line))]
fn push_status_line(bytes: &mut Vec<u8>, status: StatusCode) -> Result<(), AllocError>
    ensures { OnOk result (bytes.new.items ≡ bytes.old.items ++ status_line status) }
{
    bytes.extend_from_slice(b"HTTP/1.1 ")?;
    bytes.extend_from_slice(status.as_str().as_bytes())?;
    bytes.extend_from_slice(b" ")?;
    bytes.extend_from_slice(phrase(status).as_bytes())?;
    bytes.extend_from_slice(b"\r\n")
}

/// Adds a field line (RFC 9112, section 5), with its line end.
#[tactic(auto, unfolding(crate::specs::Reply::field_line))]
fn push_field_line(bytes: &mut Vec<u8>, name: &str, value: &str) -> Result<(), AllocError>
    ensures { OnOk result (bytes.new.items ≡ bytes.old.items ++ field_line name.now value.now) }
{
    bytes.extend_from_slice(name.as_bytes())?;
    bytes.extend_from_slice(b": ")?;
    bytes.extend_from_slice(value.as_bytes())?;
    bytes.extend_from_slice(b"\r\n")
}

/// Adds the field line of `Allow`, with the methods that are served at the place.
#[tactic(auto, unfolding(crate::specs::Reply::field_line))]
fn push_allow(bytes: &mut Vec<u8>, place: Place) -> Result<(), AllocError>
    ensures { OnOk result
        (bytes.new.items ≡ bytes.old.items ++ field_line (codes "Allow") (methods_text place)) }
{
    bytes.extend_from_slice(b"Allow: ")?;
    place.push_methods(bytes)?;
    bytes.extend_from_slice(b"\r\n")
}

/// Adds the field line of the extra field, and nothing if there is none.
#[tactic(auto, unfolding(crate::specs::Reply::extra_lines))]
fn push_extra_lines(bytes: &mut Vec<u8>, extra: Extra) -> Result<(), AllocError>
    ensures { OnOk result (bytes.new.items ≡ bytes.old.items ++ extra_lines extra) }
{
    match extra {
        Extra::Nothing => Ok(()),
        Extra::Challenge => push_field_line(bytes, "WWW-Authenticate", "Bearer"),
        Extra::Allow(place) => push_allow(bytes, place),
    }
}

/// The bytes of a reply (RFC 9112, section 4): its status line, the fields Content-Type and
/// Content-Length and the extra one, and the body.
#[tactic(auto, unfolding(crate::specs::Reply::http_bytes))]
pub fn reply(
    alloc: Global,
    status: StatusCode,
    media: Media,
    extra: Extra,
    body: &[u8],
) -> Result<Vec<u8>, AllocError>
    ensures { IfOk result (λ bytes. bytes.items ≡ http_bytes status media extra body.now) }
{
    let mut bytes = Vec::with_capacity(alloc, body.len().saturating_add(HEAD_ROOM))?;
    push_status_line(&mut bytes, status)?;
    push_field_line(&mut bytes, "Content-Type", media.name())?;
    let length = body.len().to_string(alloc)?;
    push_field_line(&mut bytes, "Content-Length", length.as_str())?;
    push_extra_lines(&mut bytes, extra)?;
    bytes.extend_from_slice(b"\r\n")?;
    bytes.extend_from_slice(body)?;
    Ok(bytes)
}
