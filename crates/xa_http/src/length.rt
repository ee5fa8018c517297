//! The length of a body, which the fields of its head announce (RFC 9112, section 6).
ghost use Rattle.std.specs.Prelude.{◌≡◌, ◌==◌, ◌≤◌, drop, length, IsTrue};
ghost use Rattle.std.specs.List.{list_all, prefix_len};
ghost use Rattle.std.specs.Str.Parse.{digits_value};
ghost use Rattle.xa_value.specs.Digits.{is_number};
ghost use Rattle.xa_http.specs.Fields.{values_of};
ghost use Rattle.xa_http.specs.Length.{agreed_length, body_length, within_limit, writes_same};

use crate::fault::SessionFault;
use crate::fields::{first_value, has_field, is_named};
use crate::limits::{MAX_BODY_BYTES, MAX_FIELDS};
use crate::message::Field;
use xa_value::{is_number, number_up_to};

/// How many zeros the digits begin with.
fn zeros_len(digits: &[u8]) -> usize
    ensures len { result ≡ prefix_len (λ c. c == 48) digits.now }
    ensures within { result ≤ length digits.now }
{
    digits.iter().take_while(|digit| **digit == b'0').count()
}

/// The digits from the first that is no zero.
fn without_zeros(digits: &[u8]) -> &[u8]
    ensures { result.now ≡ drop (prefix_len (λ c. c == 48) digits.now) digits.now }
{
    &digits[zeros_len(digits)..]
}

/// Whether the text is digits alone, and writes the number that the digits do.
#[tactic(auto, using(crate::proofs::NumberLemmas::same_number))]
fn writes_same(text: &[u8], digits: &[u8]) -> bool
    requires { IsTrue (is_number digits.now) }
    ensures { result ≡ writes_same digits.now text.now }
{
    is_number(text) && without_zeros(text) == without_zeros(digits)
}

/// Whether each field of that name writes the number that the digits do.
fn all_write_same(fields: &[Field], name: &str, digits: &[u8]) -> bool
    requires { IsTrue (is_number digits.now) }
    ensures { result ≡ list_all (writes_same digits.now) (values_of name.now fields.now) }
{
    fields
        .iter()
        .filter(|field| is_named(field, name))
        .map(|field| field.value.as_slice())
        .all(|value| writes_same(value, digits))
}

/// The number that the digits write, if a body may be so long.
fn within_limit(digits: &[u8]) -> Result<usize, SessionFault>
    requires { IsTrue (is_number digits.now) }
    ensures { result ≡ within_limit (digits_value 10 digits.now) }
{
    number_up_to(MAX_BODY_BYTES, digits).ok_or(SessionFault::BodyTooLarge)
}

/// The length on which the fields of that name agree.
#[tactic(auto, unfolding(crate::specs::Length::agreed_length))]
fn agreed_length(fields: &[Field], name: &str) -> Result<usize, SessionFault>
    ensures { result ≡ agreed_length (values_of name.now fields.now) }
{
    let Some((first, others)) = first_value(fields, name) else {
        return Ok(0);
    };
    if is_number(first) && all_write_same(others, name, first) {
        within_limit(first)
    } else {
        Err(SessionFault::BadHead)
    }
}

/// The length of the body after a head of those fields.
#[tactic(auto, unfolding(crate::specs::Length::body_length))]
pub(crate) fn body_length(fields: &[Field]) -> Result<usize, SessionFault>
    ensures { result ≡ body_length fields.now }
{
    if fields.len() > MAX_FIELDS {
        return Err(SessionFault::HeadTooLarge);
    }
    if has_field(fields, "Transfer-Encoding") {
        return Err(SessionFault::TransferCoding);
    }
    agreed_length(fields, "Content-Length")
}
