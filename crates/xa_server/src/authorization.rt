//! The token that a message shows.
ghost use Rattle.std.specs.Prelude.{◌≡◌, codes, option_map};
ghost use Rattle.xa_http.specs.Fields.{is_named, values_of};
ghost use Rattle.xa_server.specs.Authorization.{after_spaces, credentials_of, token_if, the_only, token_in};

use xa_http::Field;
use xa_notation::is_token;

/// The scheme, and the first of the spaces after it.
const SCHEME: &[u8] = b"Bearer ";

/// The text from its first byte that is no space.
fn after_spaces(text: &[u8]) -> &[u8]
    ensures { result.now ≡ after_spaces text.now }
{
    let mut rest = text;
    while let [b' ', others @ ..] = rest {
        rest = others;
    }
    rest
}

/// What follows the scheme `Bearer` (RFC 6750, section 2.1), written in any case (RFC 9110, section 11.1),
/// and at least one space.
#[tactic(auto, unfolding(crate::specs::Authorization::credentials_of))]
fn credentials_of(value: &[u8]) -> Option<&[u8]>
    ensures { option_map (λ text. text.now) result ≡ credentials_of value.now }
{
    if value.len() < SCHEME.len() {
        return None;
    }
    let (scheme, rest) = value.split_at(SCHEME.len());
    if scheme.eq_ignore_ascii_case(SCHEME) {
        Some(after_spaces(rest))
    } else {
        None
    }
}

/// Whether it is an Authorization field; names compare without letter case (RFC 9110, section 5.1).
fn is_authorization(field: &Field) -> bool
    ensures { result ≡ is_named (codes "Authorization") field.now }
{
    field.name.as_slice().eq_ignore_ascii_case(b"Authorization")
}

/// The value of the one Authorization field.
fn authorization_of(fields: &[Field]) -> Option<&[u8]>
    ensures { option_map (λ value. value.now) result
        ≡ the_only (values_of (codes "Authorization") fields.now) }
{
    let mut found: Option<&[u8]> = None;
    for field in fields {
        if is_authorization(field) {
            if found.is_some() {
                return None;
            }
            found = Some(field.value.as_slice());
        }
    }
    found
}

/// The text itself, if it is a token.
fn token_if(text: &[u8]) -> Option<&[u8]>
    ensures { option_map (λ token. token.now) result ≡ token_if text.now }
{
    if is_token(text) { Some(text) } else { None }
}

/// The token that the fields of a message show (RFC 9110, section 11.6.2).
#[tactic(auto, unfolding(crate::specs::Authorization::token_in))]
pub(crate) fn token_in(fields: &[Field]) -> Option<&[u8]>
    ensures { option_map (λ token. token.now) result ≡ token_in fields.now }
{
    let value = authorization_of(fields)?;
    let text = credentials_of(value)?;
    token_if(text)
}
