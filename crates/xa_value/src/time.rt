//! Times of day, read and printed.
ghost use Rattle.std.specs.Prelude.{◌≡◌, ◌+◌, ◌≤◌, ◌<◌, ◌++◌, true};
ghost use Rattle.std.specs.Prelude.{OnOk, string_bytes, length, SomeIff};
ghost use Rattle.xa_value.specs.parsing.Lexical.{digit_count};
ghost use Rattle.xa_value.specs.Time.{day_nanos, nanoseconds, significant_digits};
ghost use Rattle.xa_value.specs.Time.{fraction_text, clock_text, time_text};
ghost use Rattle.xa_value.specs.parsing.Time.{fraction_length, fraction_digits};
ghost use Rattle.xa_value.specs.parsing.Time.{is_clock, clock_nanos, time_of, read_time};

use crate::lexical::{digit_count, has_shape, number, push_padded, two_digits};
use crate::read_error::ReadError;
use crate::zone::{Offset, push_zone, read_zone};
use std::alloc::AllocError;
use std::marker::Model;

/// The nanoseconds of a second.
pub(crate) const SECOND_NANOS: u64 = 1_000_000_000;

/// The nanoseconds of a minute.
pub const MINUTE_NANOS: u64 = 60_000_000_000;

/// The nanoseconds of an hour.
pub(crate) const HOUR_NANOS: u64 = 3_600_000_000_000;

/// The nanoseconds of a day.
pub const DAY_NANOS: u64 = 86_400_000_000_000;

/// The length of the longest fraction of a second: its point and nine digits.
pub(crate) const LONGEST_FRACTION: usize = 10;

/// A time of day, in nanoseconds since midnight, with or without a zone (XML Schema, part 2, section
/// 3.2.8).
#[derive(Clone, Copy, Debug, PartialEq, Eq)]
pub struct Time {
    nanos: u64,
    zone: Option<Offset>,
}

impl Model for Time {
    ghost use Rattle.std.specs.Prelude.{◌<◌};
    ghost use Rattle.xa_value.specs.Time.{ClockTime, day_nanos};

    ghost Value = { ClockTime };

    ghost view = { λ t. record { nanos = t.nanos; zone = t.zone } };

    ghost invariant = { λ t. t.nanos < day_nanos };

    ghost inverse = { λ t. record { nanos = t.nanos; zone = t.zone } };
}

impl Time {
    /// The time of this many nanoseconds since midnight, if they are less than a day.
    pub fn new(nanos: u64, zone: Option<Offset>) -> Option<Time>
        ensures { SomeIff result (nanos < day_nanos) record { nanos = nanos; zone = zone } }
    {
        if nanos < DAY_NANOS {
            Some(Time { nanos, zone })
        } else {
            None
        }
    }

    /// The nanoseconds since midnight.
    pub fn nanos(self) -> u64
        ensures value { result ≡ self.nanos }
        ensures within { result < day_nanos }
    {
        self.nanos
    }

    /// The zone as it was written.
    pub fn zone(self) -> Option<Offset>
        ensures { result ≡ self.zone }
    {
        self.zone
    }
}

/// The length of the point and digits that the text begins with.
#[tactic(auto, unfolding(crate::specs::parsing::Time::fraction_length))]
pub(crate) fn fraction_length(text: &[u8]) -> usize
    ensures value { result ≡ fraction_length text.now }
    ensures within { result ≤ length text.now }
{
    match text {
        [b'.', rest @ ..] => 1 + digit_count(rest),
        _ => 0,
    }
}

/// The digits of a fraction of a second, in nanoseconds.
#[tactic(auto, using(crate::proofs::TimeLemmas::nanoseconds_lt, crate::proofs::TimeLemmas::number_short, crate::proofs::TimeLemmas::small_power), unfolding(crate::specs::Time::nanoseconds))]
fn nanoseconds(digits: &[u8]) -> u64
    requires digits { digit_count digits.now ≡ length digits.now }
    requires short { length digits.now ≤ 9 }
    ensures value { result ≡ nanoseconds digits.now }
    ensures bound { result < 1_000_000_000 }
{
    number(digits) * 10u64.pow((9 - digits.len()) as u32)
}

/// Whether hours, minutes, seconds and the fraction are those of a clock.
#[tactic(auto, unfolding(crate::specs::parsing::Time::is_clock))]
fn is_clock(text: &[u8]) -> bool
    requires { 8 ≤ length text.now }
    ensures { result ≡ is_clock text.now }
{
    two_digits(text, 0) <= 23
        && two_digits(text, 3) <= 59
        && two_digits(text, 6) <= 59
        && fraction_length(&text[8..]) <= LONGEST_FRACTION
}

/// The nanoseconds of the fraction that the text begins with, if it has one.
#[tactic(auto, using(crate::proofs::TimeLemmas::fraction_digits_count, crate::proofs::TimeLemmas::no_fraction))]
pub(crate) fn fraction_nanos(text: &[u8]) -> u64
    requires { fraction_length text.now ≤ 10 }
    ensures value { result ≡ nanoseconds (fraction_digits text.now) }
    ensures bound { result < 1_000_000_000 }
{
    let length = fraction_length(text);
    if length == 0 {
        return 0;
    }
    nanoseconds(&text[1..length])
}

/// The nanoseconds since midnight of a text that a clock shows.
#[tactic(auto, using(crate::proofs::TimeLemmas::clock_bounds), unfolding(crate::specs::parsing::Time::clock_nanos))]
fn clock_nanos(text: &[u8]) -> u64
    requires long { 8 ≤ length text.now }
    requires clock { is_clock text.now ≡ true }
    ensures value { result ≡ clock_nanos text.now }
    ensures bound { result < day_nanos }
{
    let hours = u64::from(two_digits(text, 0));
    let minutes = u64::from(two_digits(text, 3));
    let seconds = u64::from(two_digits(text, 6));
    ((hours * 60 + minutes) * 60 + seconds) * SECOND_NANOS + fraction_nanos(&text[8..])
}

/// The time in its zone, if a clock shows it.
#[tactic(auto, unfolding(crate::specs::parsing::Time::time_of))]
fn time_of(text: &[u8], zone: Option<Offset>) -> Result<Time, ReadError>
    requires { 8 ≤ length text.now }
    ensures { result ≡ time_of text.now zone }
{
    if !is_clock(text) {
        return Err(ReadError::OutOfRange);
    }
    let nanos = clock_nanos(text);
    Ok(Time { nanos, zone })
}

/// The time of the text, `hh:mm:ss` with or without a fraction and a zone.
#[tactic(auto, unfolding(crate::specs::parsing::Time::read_time))]
pub(crate) fn read_time(text: &[u8]) -> Result<Time, ReadError>
    ensures { result ≡ read_time text.now }
{
    if !has_shape(b"99:99:99", text) {
        return Err(ReadError::NotThisType);
    }
    let rest = &text[8..];
    let length = fraction_length(rest);
    if length == 1 {
        return Err(ReadError::NotThisType);
    }
    let zone = read_zone(&rest[length..])?;
    time_of(text, zone)
}

/// Writes the digits of a fraction without zeros at its end.
#[tactic(auto, unfolding(crate::specs::Time::significant_digits))]
fn push_significant(text: &mut String, count: u8, nanos: u32) -> Result<(), AllocError>
    ensures { OnOk result (string_bytes text.new ≡ string_bytes text.old ++ significant_digits count nanos) }
{
    if count == 0 {
        return Ok(());
    }
    if nanos % 10 == 0 {
        return push_significant(text, count - 1, nanos / 10);
    }
    push_padded(text, count, nanos)
}

/// Writes a point and the fraction, or nothing if it is zero.
#[tactic(auto, unfolding(crate::specs::Time::fraction_text))]
pub(crate) fn push_fraction(text: &mut String, nanos: u32) -> Result<(), AllocError>
    ensures { OnOk result (string_bytes text.new ≡ string_bytes text.old ++ fraction_text nanos) }
{
    if nanos == 0 {
        return Ok(());
    }
    text.push('.')?;
    push_significant(text, 9, nanos)
}

/// Writes hours, minutes, seconds and the fraction.
#[tactic(auto, unfolding(crate::specs::Time::clock_text))]
pub(crate) fn push_clock(text: &mut String, nanos: u64) -> Result<(), AllocError>
    requires { nanos < day_nanos }
    ensures { OnOk result (string_bytes text.new ≡ string_bytes text.old ++ clock_text nanos) }
{
    push_padded(text, 2, (nanos / HOUR_NANOS) as u32)?;
    text.push(':')?;
    push_padded(text, 2, (nanos / MINUTE_NANOS % 60) as u32)?;
    text.push(':')?;
    push_padded(text, 2, (nanos / SECOND_NANOS % 60) as u32)?;
    push_fraction(text, (nanos % SECOND_NANOS) as u32)
}

/// Writes the time of day and its zone.
pub(crate) fn push_time(text: &mut String, time: Time) -> Result<(), AllocError>
    ensures { OnOk result (string_bytes text.new ≡ string_bytes text.old ++ time_text time) }
{
    push_clock(text, time.nanos())?;
    push_zone(text, time.zone())
}
