//! Which media types a body that is read may have (RFC 9110, section 8.3).
ghost use Rattle.std.specs.Prelude.{◌≡◌};
ghost use Rattle.xa_http.specs.ContentType.{allows_json, is_json, is_media, media_type};

use crate::fields::first_value;
use crate::message::Field;
use crate::parts::before;
use crate::white_space::trim_ows;

/// The media type of a Content-Type without its parameters.
fn media_type(value: &[u8]) -> &[u8]
    ensures { result.now ≡ media_type value.now }
{
    trim_ows(before(value, b';'))
}

/// Whether that is the media type of a Content-Type.
fn is_media(name: &str, value: &[u8]) -> bool
    ensures { result ≡ is_media name.now value.now }
{
    media_type(value).eq_ignore_ascii_case(name.as_bytes())
}

/// Whether the Content-Type is JSON, or XACML in JSON.
#[tactic(auto, unfolding(crate::specs::ContentType::is_json))]
fn is_json(value: &[u8]) -> bool
    ensures { result ≡ is_json value.now }
{
    is_media("application/json", value) || is_media("application/xacml+json", value)
}

/// Whether the fields say nothing of the body's media type, or that it is JSON.
#[tactic(auto, unfolding(crate::specs::ContentType::allows_json))]
pub(crate) fn allows_json(fields: &[Field]) -> bool
    ensures { result ≡ allows_json fields.now }
{
    let Some((value, others)) = first_value(fields, "Content-Type") else {
        return true;
    };
    match first_value(others, "Content-Type") {
        Some(_) => false,
        None => is_json(value),
    }
}
