//! Durations, printed in canonical form.
ghost use Rattle.std.specs.Prelude.{◌≡◌, [], codes, ◌<◌, ◌++◌, if◌then◌else◌, OnOk, string_bytes};
ghost use Rattle.xa_value.specs.Duration.{part_text};
ghost use Rattle.xa_value.specs.Duration.{year_month_text, seconds_text, clock_part_text, day_time_text};

use crate::duration::{DayTimeDuration, YearMonthDuration};
use crate::time::{DAY_NANOS, HOUR_NANOS, MINUTE_NANOS, SECOND_NANOS, push_fraction};
use std::alloc::AllocError;

/// Writes a minus if it is negative.
fn push_sign(text: &mut String, negative: bool) -> Result<(), AllocError>
    ensures { OnOk result
        (string_bytes text.new ≡ string_bytes text.old ++ (if negative then codes "-" else [])) }
{
    if negative { text.push('-') } else { Ok(()) }
}

/// Writes a part with its unit, or nothing if it is zero.
#[tactic(auto, unfolding(crate::specs::Duration::part_text))]
fn push_part(text: &mut String, number: u64, unit: char) -> Result<(), AllocError>
    requires { unit < 128 }
    ensures { OnOk result (string_bytes text.new ≡ string_bytes text.old ++ part_text number unit) }
{
    if number == 0 {
        return Ok(());
    }
    write!(text, "{number}")?;
    text.push(unit)
}

/// Writes the duration as years and months.
#[tactic(auto, unfolding(crate::specs::Duration::year_month_text))]
pub(crate) fn push_year_month(
    text: &mut String,
    duration: YearMonthDuration,
) -> Result<(), AllocError>
    ensures { OnOk result (string_bytes text.new ≡ string_bytes text.old ++ year_month_text duration) }
{
    let months = duration.months().unsigned_abs();
    if months == 0 {
        return text.push_str("P0M");
    }
    push_sign(text, duration.months() < 0)?;
    text.push('P')?;
    push_part(text, u64::from(months / 12), 'Y')?;
    push_part(text, u64::from(months % 12), 'M')
}

/// Writes seconds with a fraction, or nothing if they are zero.
#[tactic(auto, unfolding(crate::specs::Duration::seconds_text))]
fn push_seconds(text: &mut String, nanos: u64) -> Result<(), AllocError>
    ensures { OnOk result (string_bytes text.new ≡ string_bytes text.old ++ seconds_text nanos) }
{
    if nanos == 0 {
        return Ok(());
    }
    let seconds = nanos / SECOND_NANOS;
    write!(text, "{seconds}")?;
    push_fraction(text, (nanos % SECOND_NANOS) as u32)?;
    text.push('S')
}

/// Writes hours, minutes and seconds after `T`, or nothing if they are zero.
#[tactic(auto, unfolding(crate::specs::Duration::clock_part_text))]
fn push_clock_part(text: &mut String, nanos: u64) -> Result<(), AllocError>
    ensures { OnOk result (string_bytes text.new ≡ string_bytes text.old ++ clock_part_text nanos) }
{
    if nanos == 0 {
        return Ok(());
    }
    text.push('T')?;
    push_part(text, nanos / HOUR_NANOS, 'H')?;
    push_part(text, nanos / MINUTE_NANOS % 60, 'M')?;
    push_seconds(text, nanos % MINUTE_NANOS)
}

/// Writes the duration as days, hours, minutes and seconds.
#[tactic(auto, unfolding(crate::specs::Duration::day_time_text))]
pub(crate) fn push_day_time(text: &mut String, duration: DayTimeDuration) -> Result<(), AllocError>
    ensures { OnOk result (string_bytes text.new ≡ string_bytes text.old ++ day_time_text duration) }
{
    let nanos = duration.nanos().unsigned_abs();
    if nanos == 0 {
        return text.push_str("PT0S");
    }
    push_sign(text, duration.nanos() < 0)?;
    text.push('P')?;
    push_part(text, (nanos / u128::from(DAY_NANOS)) as u64, 'D')?;
    push_clock_part(text, (nanos % u128::from(DAY_NANOS)) as u64)
}
