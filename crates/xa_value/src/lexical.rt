//! White space, digits and shapes of a text.
ghost use Rattle.std.specs.Prelude.{◌≡◌, ◌+◌, ◌-◌, ◌<◌, ◌≤◌, ◌^◌, [], ◌∷◌};
ghost use Rattle.std.specs.Prelude.{length, min, OnOk, ◌++◌, IsTrue, string_bytes};
ghost use Rattle.std.specs.List.{prefix_len};
ghost use Rattle.xa_value.specs.Lexical.{is_blank, trimmed_end, trimmed, number, last_digits};
ghost use Rattle.xa_value.specs.parsing.Lexical.{begins_with, fits_place, has_shape, two_digits, digit_count};

use std::alloc::AllocError;

/// Whether the character is white space: space, tab, carriage return or line feed.
pub(crate) fn is_blank(byte: u8) -> bool
    ensures { result ≡ is_blank byte }
{
    byte == b' ' || byte == b'\t' || byte == b'\r' || byte == b'\n'
}

/// The text without the white space that it ends with.
#[tactic(auto, using(crate::proofs::LexicalLemmas::last_blank, crate::proofs::LexicalLemmas::last_other, crate::proofs::LexicalLemmas::trimmed_end_none))]
fn trimmed_end(text: &[u8]) -> &[u8]
    ensures { result.now ≡ trimmed_end text.now }
{
    let mut rest = text;
    while let [others @ .., last] = rest {
        if !is_blank(*last) {
            return rest;
        }
        rest = others;
    }
    rest
}

/// How many characters of white space the text begins with.
fn blank_count(text: &[u8]) -> usize
    ensures value { result ≡ prefix_len is_blank text.now }
    ensures within { result ≤ length text.now }
{
    for (place, byte) in text.iter().enumerate() {
        if !is_blank(*byte) {
            return place;
        }
    }
    text.len()
}

/// The text without white space at its ends: cut at places where a character begins.
#[tactic(auto, using(crate::proofs::LexicalLemmas::boundary_after_blanks, crate::proofs::LexicalLemmas::boundary_before_blanks, crate::proofs::LexicalLemmas::trimmed_start_is_drop, crate::proofs::LexicalLemmas::trimmed_end_is_take))]
pub(crate) fn trimmed_text(text: &str) -> &str
    ensures { result.now ≡ trimmed text.now }
{
    let rest = &text[blank_count(text.as_bytes())..];
    &rest[..trimmed_end(rest.as_bytes()).len()]
}

/// Whether the text begins with the character.
pub(crate) fn begins_with(byte: u8, text: &[u8]) -> bool
    ensures { result ≡ begins_with byte text.now }
{
    match text {
        [] => false,
        [first, ..] => byte == *first,
    }
}

/// Whether a character fits a place of a shape; 9 stands for any digit.
fn fits_place(place: u8, byte: u8) -> bool
    ensures { result ≡ fits_place place byte }
{
    if place == b'9' {
        byte.is_ascii_digit()
    } else {
        place == byte
    }
}

/// Whether the text begins with characters of the shape, such as `9999-99-99`.
#[tactic(auto, unfolding(crate::specs::parsing::Lexical::has_shape))]
pub(crate) fn has_shape(shape: &[u8], text: &[u8]) -> bool
    ensures value { result ≡ has_shape shape.now text.now }
    ensures long { IsTrue result → length shape.now ≤ length text.now }
{
    let [place, places @ ..] = shape else {
        return true;
    };
    let [byte, bytes @ ..] = text else {
        return false;
    };
    fits_place(*place, *byte) && has_shape(places, bytes)
}

/// The number of the two digits at a place of the text.
pub(crate) fn two_digits(text: &[u8], at: usize) -> u32
    requires { at + 1 < length text.now }
    ensures value { result ≡ two_digits text.now at }
    ensures bound { result < 2500 }
{
    u32::from(text[at].saturating_sub(b'0')) * 10 + u32::from(text[at + 1].saturating_sub(b'0'))
}

/// How many digits the text begins with.
pub(crate) fn digit_count(text: &[u8]) -> usize
    ensures value { result ≡ digit_count text.now }
    ensures within { result ≤ length text.now }
{
    for (place, byte) in text.iter().enumerate() {
        if !byte.is_ascii_digit() {
            return place;
        }
    }
    text.len()
}

/// The number that the digits write, or `u64::MAX` if it is larger.
#[tactic(auto, using(crate::proofs::LexicalLemmas::number_more), unfolding(crate::specs::Lexical::number_after))]
pub(crate) fn number(digits: &[u8]) -> u64
    ensures { result ≡ min (number digits.now) (2 ^ 64 - 1) }
{
    let mut value = 0u64;
    for digit in digits {
        value = value
            .saturating_mul(10)
            .saturating_add(u64::from(digit.saturating_sub(b'0')));
    }
    value
}

/// Writes a digit.
fn push_digit(text: &mut String, digit: u8) -> Result<(), AllocError>
    requires { digit < 10 }
    ensures { OnOk result (string_bytes text.new ≡ string_bytes text.old ++ (48 + digit) ∷ []) }
{
    text.push(char::from(b'0' + digit))
}

/// Writes the last `count` digits of the number.
#[tactic(auto, unfolding(crate::specs::Lexical::last_digits))]
pub(crate) fn push_padded(text: &mut String, count: u8, number: u32) -> Result<(), AllocError>
    ensures { OnOk result (string_bytes text.new ≡ string_bytes text.old ++ last_digits count number) }
{
    if count == 0 {
        return Ok(());
    }
    push_padded(text, count - 1, number / 10)?;
    push_digit(text, (number % 10) as u8)
}
