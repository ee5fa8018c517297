//! Which message is the last of its stream (RFC 9112, section 9.3).
ghost use Rattle.std.specs.Prelude.{◌≡◌, codes};
ghost use Rattle.std.specs.List.{list_any};
ghost use Rattle.xa_http.specs.Closing.{closes, is_close, names_close};
ghost use Rattle.xa_http.specs.Fields.{values_of};

use crate::fields::is_named;
use crate::message::Field;
use crate::white_space::trim_ows;

/// Whether the token is `close`.
fn is_close(token: &[u8]) -> bool
    ensures { result ≡ is_close token.now }
{
    token.eq_ignore_ascii_case(b"close")
}

/// Whether the list has the token `close`.
fn names_close(list: &[u8]) -> bool
    ensures { result ≡ names_close list.now }
{
    list.split(|byte| *byte == b',')
        .map(|member| trim_ows(member))
        .any(|member| is_close(member))
}

/// Whether a Connection field has the token `close`.
fn connection_names_close(fields: &[Field]) -> bool
    ensures { result ≡ list_any names_close (values_of (codes "Connection") fields.now) }
{
    fields
        .iter()
        .filter(|field| is_named(field, "Connection"))
        .map(|field| field.value.as_slice())
        .any(|value| names_close(value))
}

/// Whether no message follows one of that minor version of HTTP/1 with these fields. After one of HTTP/1.0
/// none does.
#[tactic(auto, unfolding(crate::specs::Closing::closes))]
pub(crate) fn closes(minor: u8, fields: &[Field]) -> bool
    ensures { result ≡ closes minor fields.now }
{
    minor == 0 || connection_names_close(fields)
}
