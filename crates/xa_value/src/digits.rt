//! Plain digits, and the numbers that they write.
ghost use Rattle.std.specs.Prelude.{◌≡◌};
ghost use Rattle.std.specs.List.{list_all};
ghost use Rattle.std.specs.Char.{is_ascii_digit};
ghost use Rattle.xa_value.specs.Digits.{is_number, number_up_to};

use std::str;

/// Whether each byte is a digit.
fn all_digits(text: &[u8]) -> bool
    ensures { result ≡ list_all is_ascii_digit text.now }
{
    text.iter().all(|byte| byte.is_ascii_digit())
}

/// Whether the text is one digit or more, and nothing else.
pub fn is_number(text: &[u8]) -> bool
    ensures { result ≡ is_number text.now }
{
    !text.is_empty() && all_digits(text)
}

/// The number that plain digits write, with leading zeros or none, if it is no greater than `most`.
#[tactic(auto, using(crate::proofs::DigitLemmas::is_text, crate::proofs::DigitLemmas::parsed))]
pub fn number_up_to(most: usize, text: &[u8]) -> Option<usize>
    ensures { result ≡ number_up_to most text.now }
{
    if !is_number(text) {
        return None;
    }
    let Ok(digits) = str::from_utf8(text) else {
        return None;
    };
    match digits.parse() {
        Ok(number) if number <= most => Some(number),
        _ => None,
    }
}
