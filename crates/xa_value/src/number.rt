//! Booleans and integers, read and printed.
ghost use Rattle.std.specs.Prelude.{◌≡◌, ◌++◌, OnOk, string_bytes};
ghost use Rattle.std.specs.Fmt.{signed_decimal};
ghost use Rattle.xa_value.specs.Number.{boolean_text};
ghost use Rattle.xa_value.specs.parsing.Number.{read_boolean, integer_of, without_sign, read_integer};

use crate::digits::is_number;
use crate::lexical::{begins_with, number};
use crate::read_error::ReadError;
use std::alloc::AllocError;

/// The boolean of the text: `true` or `1`, `false` or `0`.
#[tactic(auto, unfolding(crate::specs::parsing::Number::read_boolean))]
pub(crate) fn read_boolean(text: &[u8]) -> Result<bool, ReadError>
    ensures { result ≡ read_boolean text.now }
{
    if text == b"true".as_slice() || text == b"1".as_slice() {
        return Ok(true);
    }
    if text == b"false".as_slice() || text == b"0".as_slice() {
        return Ok(false);
    }
    Err(ReadError::NotThisType)
}

/// Writes `true` or `false`.
#[tactic(auto, unfolding(crate::specs::Number::boolean_text))]
pub(crate) fn push_boolean(text: &mut String, value: bool) -> Result<(), AllocError>
    ensures { OnOk result (string_bytes text.new ≡ string_bytes text.old ++ boolean_text value) }
{
    if value {
        text.push_str("true")
    } else {
        text.push_str("false")
    }
}

/// The text without the sign that it may begin with.
#[tactic(auto, unfolding(crate::specs::parsing::Number::without_sign))]
fn without_sign(text: &[u8]) -> &[u8]
    ensures { result.now ≡ without_sign text.now }
{
    match text {
        [b'-' | b'+', digits @ ..] => digits,
        _ => text,
    }
}

/// The number with its sign, if it fits 64 bits.
#[tactic(auto, unfolding(crate::specs::parsing::Number::integer_of))]
fn integer_of(negative: bool, magnitude: u64) -> Result<i64, ReadError>
    ensures { result ≡ integer_of negative magnitude }
{
    let value = if negative {
        -i128::from(magnitude)
    } else {
        i128::from(magnitude)
    };
    i64::try_from(value).map_err(|_| ReadError::OutOfRange)
}

/// The integer of the text: digits, after a sign or none.
#[tactic(auto, using(crate::proofs::NumberLemmas::integer_capped), unfolding(crate::specs::parsing::Number::read_integer))]
pub(crate) fn read_integer(text: &[u8]) -> Result<i64, ReadError>
    ensures { result ≡ read_integer text.now }
{
    let digits = without_sign(text);
    if !is_number(digits) {
        return Err(ReadError::NotThisType);
    }
    integer_of(begins_with(b'-', text), number(digits))
}

/// Writes the integer without a plus and without leading zeros.
pub(crate) fn push_integer(text: &mut String, value: i64) -> Result<(), AllocError>
    ensures { OnOk result (string_bytes text.new ≡ string_bytes text.old ++ signed_decimal value) }
{
    write!(text, "{value}")
}
