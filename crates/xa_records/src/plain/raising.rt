//! Numbers that rise by one.
ghost use Rattle.std.specs.Prelude.{◌<◌, ◌^◌, ◌↔◌, IsTrue};
ghost use Rattle.xa_records.specs.Plain.{RaisesTo};

use crate::refusal::Failure;

/// The greatest number or epoch: a signed number of 64 bits holds it, as in the columns of a table.
const GREATEST: u64 = i64::MAX as u64;

/// The number after this one; `Store`, after the greatest.
pub(crate) fn next_after(number: u64) -> Result<u64, Failure>
    ensures { RaisesTo number result }
{
    if number >= GREATEST {
        return Err(Failure::Store);
    }
    Ok(number + 1)
}

/// Whether the number is at most the greatest.
pub(crate) fn is_at_most_greatest(number: u64) -> bool
    ensures { IsTrue result ↔ (number < 2 ^ 63) }
{
    number <= GREATEST
}
