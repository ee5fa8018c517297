//! What it costs to write a part of a response: how much work, and how many bytes. It is asked before
//! anything is written, so that nothing is written if too little is left. A text counts by the bytes that
//! JSON has for it: a quotation mark, a backslash and a control character take two or six (RFC 8259,
//! section 7). Clauses say that what is counted is written.
ghost use Rattle.std.specs.Prelude.{◌≡◌, ◌≤◌, ◌+◌, length};
ghost use Rattle.json.specs.Print.{escape_byte};
ghost use Rattle.xa_profile.specs.Response.{values_data};
ghost use Rattle.xa_profile.specs.writing.Lengths.{bytes_of, bytes_of_all, bytes_of_text};
ghost use Rattle.xa_profile.specs.writing.Lengths.{bytes_of_text_if_any, bytes_of_value, length_of};

use xa_bag::Bag;
use xa_expr::{is_of_one_size, units_of, units_of_printing};
use xa_value::{Text, Value};

/// The units of each byte that escapes add to a text: what is escaped is written by itself.
const ESCAPED: u64 = 7;

/// What it costs to write a part of a response.
#[derive(Clone, Copy)]
pub(crate) struct WritingCost {
    /// The work, in units.
    pub(crate) units: u64,
    /// The bytes, or some fewer: those of texts and binary values as they are written, and the least
    /// that stands beside them.
    pub(crate) bytes: u64,
}

impl WritingCost {
    /// Nothing is written.
    pub(crate) const NOTHING: WritingCost = WritingCost { units: 0, bytes: 0 };

    /// What it costs to write both of these.
    pub(crate) fn and(self, other: WritingCost) -> WritingCost
        ensures { result.bytes ≤ self.bytes + other.bytes }
    {
        WritingCost {
            units: self.units.saturating_add(other.units),
            bytes: self.bytes.saturating_add(other.bytes),
        }
    }

    /// What it costs to write a text.
    pub(crate) fn of_text(text: &Text) -> WritingCost
        ensures { result.bytes ≤ bytes_of_text text.now }
    {
        let bytes = text.as_bytes();
        let count = bytes.len() as u64;
        let escapes = escapes_in(bytes);
        WritingCost {
            units: count.saturating_add(ESCAPED.saturating_mul(escapes)),
            bytes: count.saturating_add(escapes),
        }
    }

    /// What it costs to write a text that may be left out.
    pub(crate) fn of_text_if_any(text: &Option<Text>) -> WritingCost
        ensures { result.bytes ≤ bytes_of_text_if_any text.now }
    {
        match text {
            Some(text) => WritingCost::of_text(text),
            None => WritingCost::NOTHING,
        }
    }

    /// What it costs to write a value. What has no text of its own is printed first.
    pub(crate) fn of_value(value: &Value) -> WritingCost
        ensures { result.bytes ≤ bytes_of_value value.now }
    {
        let growth = growth_of(value);
        WritingCost {
            units: units_of(value)
                .saturating_add(units_of_printing(value.data_type()))
                .saturating_add(units_of_growth(value, growth)),
            bytes: length_of(value).saturating_add(growth),
        }
    }

    /// What it costs to write the values, one after another.
    fn of_values(values: &[Value]) -> WritingCost
        ensures { result.bytes ≤ bytes_of_all bytes_of_value values.now }
    {
        let mut cost = WritingCost::NOTHING;
        for value in values {
            cost = cost.and(WritingCost::of_value(value));
        }
        cost
    }

    /// What it costs to write the values of a bag. If these are of one size, none but the first is looked at,
    /// and of their bytes the commas alone are counted.
    #[tactic(auto, using(xa_profile::proofs::LengthLemmas::values_take, xa_profile::proofs::LengthLemmas::commas_of_values))]
    pub(crate) fn of_bag(bag: &Bag) -> WritingCost
        ensures { result.bytes ≤ bytes_of (values_data bag.now.values) }
    {
        match bag.values() {
            [first, ..] if is_of_one_size(bag.data_type()) => {
                let count = bag.len() as u64;
                WritingCost {
                    units: WritingCost::of_value(first).units.saturating_mul(count),
                    bytes: count.saturating_sub(1),
                }
            }
            values => WritingCost::of_values(values),
        }
    }
}

/// Whether JSON has an escape for the byte.
fn is_escaped(byte: u8) -> bool {
    byte < 0x20 || byte == b'"' || byte == b'\\'
}

/// How many more bytes an escape takes than the byte that it stands for: one if it is a backslash and a
/// character, five if it is `\u` and four digits.
#[tactic(auto, unfolding(json::specs::Print::escape_byte))]
fn escape_growth(byte: u8) -> u64
    ensures { result + 1 ≡ length (escape_byte byte) }
{
    match byte {
        b'"' | b'\\' | 8 | 9 | 10 | 12 | 13 => 1,
        0..=31 => 5,
        _ => 0,
    }
}

/// Whether a byte of the text has an escape. Few texts have one, so that escapes are counted in these alone.
/// Each byte is looked at, with no branch at the first that has one, so that several may be taken at once.
fn has_escapes(text: &[u8]) -> bool {
    text.iter()
        .fold(false, |found, byte| found | is_escaped(*byte))
}

/// How many bytes the escapes of the text add to it.
#[tactic(auto, using(xa_profile::proofs::LengthLemmas::no_shorter))]
fn escapes_in(text: &[u8]) -> u64
    ensures { length text.now + result ≤ bytes_of_text text.now }
{
    if !has_escapes(text) {
        return 0;
    }
    let mut escapes = 0u64;
    for byte in text {
        escapes = escapes.saturating_add(escape_growth(*byte));
    }
    escapes
}

/// How many more bytes a value takes than it has: its escapes, a second digit for each byte, or a third in
/// base64.
#[tactic(auto, using(xa_profile::proofs::LengthLemmas::string_takes, xa_profile::proofs::LengthLemmas::uri_takes, xa_profile::proofs::LengthLemmas::hex_takes, xa_profile::proofs::LengthLemmas::base64_takes))]
fn growth_of(value: &Value) -> u64
    ensures { length_of value.now + result ≤ bytes_of_value value.now }
{
    match value {
        Value::String(text) | Value::AnyUri(text) => escapes_in(text.as_bytes()),
        Value::HexBinary(bytes) => bytes.as_slice().len() as u64,
        Value::Base64Binary(bytes) => bytes.as_slice().len() as u64 / 3,
        _ => 0,
    }
}

/// The units of so many more bytes than the value has.
fn units_of_growth(value: &Value, growth: u64) -> u64 {
    match value {
        Value::HexBinary(_) | Value::Base64Binary(_) => growth,
        _ => ESCAPED.saturating_mul(growth),
    }
}

/// How many bytes the value has, of text or binary; none, if it is of another type.
fn length_of(value: &Value) -> u64
    ensures { result ≡ length_of value.now }
{
    match value {
        Value::String(text) | Value::AnyUri(text) => text.as_bytes().len() as u64,
        Value::HexBinary(bytes) | Value::Base64Binary(bytes) => bytes.as_slice().len() as u64,
        _ => 0,
    }
}
