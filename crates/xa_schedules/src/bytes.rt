//! Bytes as text: two digits of the base 16 each.
ghost use Rattle.std.specs.Prelude.{◌<◌, IfOk};

use crate::no_answer::NoAnswer;
use std::alloc::Global;
use std::fmt::Write;

/// The value of a digit.
fn digit_of(byte: u8) -> Result<u8, NoAnswer>
    ensures { IfOk result (λ digit. digit < 16) }
{
    match byte {
        b'0'..=b'9' => Ok(byte - b'0'),
        b'a'..=b'f' => Ok(byte - b'a' + 10),
        _ => Err(NoAnswer::Malformed),
    }
}

/// The bytes that a text writes.
pub fn bytes_of(alloc: Global, text: &str) -> Result<Vec<u8>, NoAnswer> {
    let mut bytes = Vec::new(alloc);
    for pair in text.as_bytes().chunks(2) {
        let [high, low] = pair else {
            return Err(NoAnswer::Malformed);
        };
        bytes.push(digit_of(*high)? * 16 + digit_of(*low)?)?;
    }
    Ok(bytes)
}

/// Writes bytes at the end of a text.
pub fn push_bytes(text: &mut String, bytes: &[u8]) -> Result<(), NoAnswer> {
    for byte in bytes {
        write!(text, "{byte:02x}").map_err(|_| NoAnswer::Memory)?;
    }
    Ok(())
}

/// The number that a text writes.
pub fn number_of(text: &str) -> Result<usize, NoAnswer> {
    text.parse().map_err(|_| NoAnswer::Malformed)
}
