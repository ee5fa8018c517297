//! The numbers of JSON.
ghost use Rattle.std.specs.Prelude.{◌≡◌, true, false, option_map};
ghost use Rattle.serde_json.specs.Read.{number_of, number_from};
ghost use Rattle.serde_json.specs.View.{number_view};

use fast_float::Numeral;
use serde_json::Number;

/// The number without a minus: whole if it fits 64 bits, else the nearest float if that is finite.
fn unsigned_number(numeral: &Numeral<'_>) -> Option<Number>
    ensures { option_map number_view result ≡ number_from false numeral.now }
{
    match numeral.to_u64() {
        Some(whole) => Number::from_u128(u128::from(whole)),
        None => Number::from_f64(numeral.to_float::<f64>(false)),
    }
}

/// The number after a minus: whole if it fits 64 bits and isn't zero, else the nearest float if that is
/// finite.
fn negative_number(numeral: &Numeral<'_>) -> Option<Number>
    ensures { option_map number_view result ≡ number_from true numeral.now }
{
    match numeral.to_i64(true) {
        Some(whole) if whole < 0 => Number::from_i128(i128::from(whole)),
        _ => Number::from_f64(numeral.to_float::<f64>(true)),
    }
}

/// The number that a text is, unless it is too large.
#[tactic(auto, unfolding(serde_json::specs::Read::number_of))]
pub(crate) fn number(text: &str) -> Option<Number>
    ensures { option_map number_view result ≡ number_of text.now }
{
    match text.as_bytes() {
        [b'-', digits @ ..] => negative_number(&Numeral::scan(digits)),
        digits => unsigned_number(&Numeral::scan(digits)),
    }
}
