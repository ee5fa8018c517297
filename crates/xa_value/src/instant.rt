//! Days and times of day as nanoseconds: as written, and by UTC.
ghost use Rattle.std.specs.Prelude.{◌≡◌, ◌^◌, pos, neg_ℤ, ◌+ℤ◌, ◌*ℤ◌};
ghost use Rattle.jiff_core.specs.Calendar.{IsBetween, IsWithin};
ghost use Rattle.xa_value.specs.Calendar.{instant};
ghost use Rattle.xa_value.specs.Instant.{local_nanos};
ghost use Rattle.xa_value.specs.Zone.{offset_of};

use crate::calendar::DateTime;
use crate::time::{DAY_NANOS, MINUTE_NANOS};
use crate::zone::{Offset, offset_of};

impl DateTime {
    /// Nanoseconds from the midnight that began 1970, as written: by the zone's own clock.
    pub fn local_nanos(self) -> i128
        ensures value { result ≡ local_nanos self }
        ensures within { IsWithin 1_000_000_000_000_000_000_000 result }
    {
        local_nanos(self.civil().to_unix_epoch_day(), self.nanos())
    }
}

/// Nanoseconds since the midnight that began 1970, by the zone's clock.
fn local_nanos(day: i32, nanos: u64) -> i128
    ensures value { result ≡ day *ℤ pos 86_400_000_000_000 +ℤ pos nanos }
    ensures within { IsBetween (neg_ℤ (pos (2 ^ 100))) (pos (2 ^ 100)) result }
{
    i128::from(day) * i128::from(DAY_NANOS) + i128::from(nanos)
}

/// The nanoseconds by which the zone is ahead of UTC.
fn offset_nanos(zone: Option<Offset>) -> i128
    ensures value { result ≡ offset_of zone *ℤ pos 60_000_000_000 }
    ensures within { IsBetween (neg_ℤ (pos (2 ^ 100))) (pos (2 ^ 100)) result }
{
    i128::from(offset_of(zone)) * i128::from(MINUTE_NANOS)
}

/// Nanoseconds since 1970-01-01T00:00:00Z.
pub(crate) fn instant(day: i32, nanos: u64, zone: Option<Offset>) -> i128
    ensures { result ≡ instant day nanos zone }
{
    local_nanos(day, nanos) - offset_nanos(zone)
}
