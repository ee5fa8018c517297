//! Durations, and how they are read from texts.
ghost use Rattle.std.specs.Prelude.{◌≡◌, ◌+◌, ◌-◌, ◌*◌, ◌^◌, ◌≤◌, min};
ghost use Rattle.std.specs.Prelude.{drop, SomeIff, length, true};
ghost use Rattle.xa_value.specs.Duration.{most_months, most_nanos, IsMonths, IsNanos};
ghost use Rattle.xa_value.specs.parsing.Duration.{part_length, part, after, after_part, seconds_length};
ghost use Rattle.xa_value.specs.parsing.Duration.{seconds_fraction, without_minus, within};
ghost use Rattle.xa_value.specs.parsing.Duration.{is_years_and_months, read_year_month};
ghost use Rattle.xa_value.specs.parsing.Duration.{is_clock_part, is_days_and_clock, seconds_of};
ghost use Rattle.xa_value.specs.parsing.Duration.{total_nanos, nanos_of, has_short_fraction, read_day_time};

use crate::lexical::{begins_with, digit_count, number};
use crate::read_error::ReadError;
use crate::time::{LONGEST_FRACTION, SECOND_NANOS, fraction_length, fraction_nanos};
use std::marker::Model;

/// 10,000 years, in months: more than lie between any two dates of the years 1 to 9999.
const MOST_MONTHS: i32 = 120_000;

/// The most months that a text may write. Its sign is read apart.
const MOST_MONTHS_WRITTEN: u128 = MOST_MONTHS as u128;

/// 10,000 years of 365.25 days, in nanoseconds: more than lie between any two moments of the years
/// 1 to 9999.
const MOST_NANOS: i128 = 315_576_000_000_000_000_000;

/// The most nanoseconds that a text may write. Its sign is read apart.
const MOST_NANOS_WRITTEN: u128 = MOST_NANOS as u128;

/// A duration in years and months, as months: at most 120,000 to either side (XML Schema, part 2, section
/// 3.2.6; XQuery and XPath data model, section 3.3.2).
#[derive(Clone, Copy, Debug, PartialEq, Eq)]
pub struct YearMonthDuration {
    months: i32,
}

impl Model for YearMonthDuration {
    ghost use Rattle.std.specs.Prelude.{ℤ};
    ghost use Rattle.xa_value.specs.Duration.{IsMonths};

    ghost Value = { ℤ };

    ghost view = { λ d. d.months };

    ghost invariant = { λ d. IsMonths d.months };

    ghost inverse = { λ z. record { months = z } };
}

impl YearMonthDuration {
    /// The duration of this many months, if they are at most 120,000 to either side.
    pub fn new(months: i32) -> Option<YearMonthDuration>
        ensures { SomeIff result (IsMonths months) months }
    {
        if -MOST_MONTHS <= months && months <= MOST_MONTHS {
            Some(YearMonthDuration { months })
        } else {
            None
        }
    }

    /// The months, negative for a duration backwards.
    pub fn months(self) -> i32
        ensures value { result ≡ self }
        ensures within { IsMonths result }
    {
        self.months
    }
}

/// A duration in days, hours, minutes and seconds, as nanoseconds: at most 315,576,000,000 seconds
/// to either side (XML Schema, part 2, section 3.2.6; XQuery and XPath data model, section 3.3.2).
#[derive(Clone, Copy, Debug, PartialEq, Eq)]
pub struct DayTimeDuration {
    nanos: i128,
}

impl Model for DayTimeDuration {
    ghost use Rattle.std.specs.Prelude.{ℤ};
    ghost use Rattle.xa_value.specs.Duration.{IsNanos};

    ghost Value = { ℤ };

    ghost view = { λ d. d.nanos };

    ghost invariant = { λ d. IsNanos d.nanos };

    ghost inverse = { λ z. record { nanos = z } };
}

impl DayTimeDuration {
    /// The duration of this many nanoseconds, if they are at most 315,576,000,000 seconds to either side.
    pub fn new(nanos: i128) -> Option<DayTimeDuration>
        ensures { SomeIff result (IsNanos nanos) nanos }
    {
        if -MOST_NANOS <= nanos && nanos <= MOST_NANOS {
            Some(DayTimeDuration { nanos })
        } else {
            None
        }
    }

    /// The nanoseconds, negative for a duration backwards.
    pub fn nanos(self) -> i128
        ensures value { result ≡ self }
        ensures within { IsNanos result }
    {
        self.nanos
    }
}

/// How many digits stand before the unit, if the text begins with a part of that unit.
#[tactic(auto, unfolding(crate::specs::parsing::Duration::part_length))]
fn part_length(unit: u8, text: &[u8]) -> usize
    ensures value { result ≡ part_length unit text.now }
    ensures within { result ≤ length text.now }
{
    let count = digit_count(text);
    if 0 < count && begins_with(unit, &text[count..]) {
        count
    } else {
        0
    }
}

/// The number of that part, or `u64::MAX` if it is larger, and 0 if it is absent.
fn part(unit: u8, text: &[u8]) -> u64
    ensures { result ≡ min (part unit text.now) (2 ^ 64 - 1) }
{
    number(&text[..part_length(unit, text)])
}

/// What follows a part of this many characters and its unit, if it is there.
fn after(count: usize, text: &[u8]) -> &[u8]
    requires { count ≤ length text.now }
    ensures { result.now ≡ after count text.now }
{
    if count == 0 {
        return text;
    }
    let rest = &text[count..];
    match rest {
        [] => rest,
        [_, others @ ..] => others,
    }
}

/// What follows a part of that unit, if the text begins with one; the text if not.
fn after_part(unit: u8, text: &[u8]) -> &[u8]
    ensures { result.now ≡ after_part unit text.now }
{
    after(part_length(unit, text), text)
}

/// The length of seconds with a fraction, if the text begins with them.
#[tactic(auto, unfolding(crate::specs::parsing::Duration::seconds_length))]
fn seconds_length(text: &[u8]) -> usize
    ensures value { result ≡ seconds_length text.now }
    ensures within { result ≤ length text.now }
{
    let count = digit_count(text);
    let fraction = fraction_length(&text[count..]);
    if 0 < count && fraction != 1 && begins_with(b'S', &text[count + fraction..]) {
        count + fraction
    } else {
        0
    }
}

/// The text without the minus sign that it may begin with.
#[tactic(auto, unfolding(crate::specs::parsing::Duration::without_minus))]
fn without_minus(text: &[u8]) -> &[u8]
    ensures { result.now ≡ without_minus text.now }
{
    match text {
        [b'-', rest @ ..] => rest,
        _ => text,
    }
}

/// The text without its first character.
fn without_first(text: &[u8]) -> &[u8]
    ensures { result.now ≡ drop 1 text.now }
{
    match text {
        [] => text,
        [_, rest @ ..] => rest,
    }
}

/// Whether years and months stand after `P`: at least one part, and nothing else.
#[tactic(auto, unfolding(crate::specs::parsing::Duration::is_years_and_months))]
fn is_years_and_months(text: &[u8]) -> bool
    ensures { result ≡ is_years_and_months text.now }
{
    let [b'P', body @ ..] = text else {
        return false;
    };
    !body.is_empty() && after_part(b'M', after_part(b'Y', body)).is_empty()
}

/// The duration of this many years and months, if it is in range.
#[tactic(auto, unfolding(crate::specs::parsing::Duration::within))]
fn months_within(negative: bool, years: u64, months: u64) -> Result<YearMonthDuration, ReadError>
    ensures { result ≡ within most_months negative (years * 12 + months) }
{
    let magnitude = u128::from(years) * 12 + u128::from(months);
    if magnitude > MOST_MONTHS_WRITTEN {
        return Err(ReadError::OutOfRange);
    }
    let months = magnitude as i32;
    Ok(YearMonthDuration {
        months: if negative { -months } else { months },
    })
}

/// The duration of the text, `-?P(nY)?(nM)?`.
#[tactic(auto, using(crate::proofs::DurationLemmas::months_capped), unfolding(crate::specs::parsing::Duration::read_year_month, crate::specs::parsing::Duration::months_of))]
pub(crate) fn read_year_month(text: &[u8]) -> Result<YearMonthDuration, ReadError>
    ensures { result ≡ read_year_month text.now }
{
    let whole = without_minus(text);
    if !is_years_and_months(whole) {
        return Err(ReadError::NotThisType);
    }
    let body = without_first(whole);
    months_within(
        begins_with(b'-', text),
        part(b'Y', body),
        part(b'M', after_part(b'Y', body)),
    )
}

/// What follows hours and minutes (`H` is 72, `M` is 77).
fn after_minutes(clock: &[u8]) -> &[u8]
    ensures { result.now ≡ after_part 77 (after_part 72 clock.now) }
{
    after_part(b'M', after_part(b'H', clock))
}

/// Whether hours, minutes and seconds stand after `T`: at least one part, and nothing else.
#[tactic(auto, unfolding(crate::specs::parsing::Duration::is_clock_part))]
fn is_clock_part(text: &[u8]) -> bool
    ensures { result ≡ is_clock_part text.now }
{
    let [b'T', clock @ ..] = text else {
        return false;
    };
    let rest = after_minutes(clock);
    !clock.is_empty() && after(seconds_length(rest), rest).is_empty()
}

/// Whether days, and what may follow them, stand after `P`: at least one part, and nothing else.
#[tactic(auto, unfolding(crate::specs::parsing::Duration::is_days_and_clock))]
fn is_days_and_clock(text: &[u8]) -> bool
    ensures { result ≡ is_days_and_clock text.now }
{
    let [b'P', body @ ..] = text else {
        return false;
    };
    let rest = after_part(b'D', body);
    !body.is_empty() && (rest.is_empty() || is_clock_part(rest))
}

/// The seconds that follow hours and minutes.
fn seconds_of(clock: &[u8]) -> &[u8]
    ensures { result.now ≡ seconds_of clock.now }
{
    let rest = after_minutes(clock);
    &rest[..seconds_length(rest)]
}

/// The fraction of seconds, with its point.
fn seconds_fraction(seconds: &[u8]) -> &[u8]
    ensures { result.now ≡ seconds_fraction seconds.now }
{
    &seconds[digit_count(seconds)..]
}

/// Whether the fraction has at most nine digits.
#[tactic(auto, unfolding(crate::specs::parsing::Duration::has_short_fraction))]
fn has_short_fraction(clock: &[u8]) -> bool
    ensures { result ≡ has_short_fraction clock.now }
{
    fraction_length(seconds_fraction(seconds_of(clock))) <= LONGEST_FRACTION
}

/// The duration of this many days, hours, minutes, seconds and nanoseconds, if it is in range.
#[tactic(auto, unfolding(crate::specs::parsing::Duration::within))]
fn total_within(
    negative: bool,
    days: u64,
    hours: u64,
    minutes: u64,
    seconds: u64,
    fraction: u64,
) -> Result<DayTimeDuration, ReadError>
    ensures { result ≡ within most_nanos negative (total_nanos days hours minutes seconds fraction) }
{
    let hours = u128::from(days) * 24 + u128::from(hours);
    let seconds = (hours * 60 + u128::from(minutes)) * 60 + u128::from(seconds);
    let magnitude = seconds * u128::from(SECOND_NANOS) + u128::from(fraction);
    if magnitude > MOST_NANOS_WRITTEN {
        return Err(ReadError::OutOfRange);
    }
    let nanos = magnitude as i128;
    Ok(DayTimeDuration {
        nanos: if negative { -nanos } else { nanos },
    })
}

/// The duration of this many days and the hours, minutes and seconds of a clock part, if it is in range.
#[tactic(auto, using(crate::proofs::DurationLemmas::clock_capped), unfolding(crate::specs::parsing::Duration::nanos_of, crate::specs::parsing::Duration::has_short_fraction))]
fn nanos_within(negative: bool, days: u64, clock: &[u8]) -> Result<DayTimeDuration, ReadError>
    requires { has_short_fraction clock.now ≡ true }
    ensures { result ≡ within most_nanos negative (nanos_of days clock.now) }
{
    let seconds = seconds_of(clock);
    let whole = number(&seconds[..digit_count(seconds)]);
    let fraction = fraction_nanos(seconds_fraction(seconds));
    let minutes = part(b'M', after_part(b'H', clock));
    total_within(negative, days, part(b'H', clock), minutes, whole, fraction)
}

/// The duration of the text, `-?P(nD)?(T(nH)?(nM)?(n(\.f)?S)?)?`.
#[tactic(auto, using(crate::proofs::DurationLemmas::days_capped), unfolding(crate::specs::parsing::Duration::read_day_time))]
pub(crate) fn read_day_time(text: &[u8]) -> Result<DayTimeDuration, ReadError>
    ensures { result ≡ read_day_time text.now }
{
    let whole = without_minus(text);
    if !is_days_and_clock(whole) {
        return Err(ReadError::NotThisType);
    }
    let body = without_first(whole);
    let clock = without_first(after_part(b'D', body));
    if !has_short_fraction(clock) {
        return Err(ReadError::OutOfRange);
    }
    nanos_within(begins_with(b'-', text), part(b'D', body), clock)
}
