//! Dates, with and without a time, read and printed.
ghost use Rattle.std.specs.Prelude.{◌≡◌, ◌≤◌, ◌<◌, ◌≤ℤ◌, unsigned_abs, ◌++◌, OnOk, IsTrue};
ghost use Rattle.std.specs.Prelude.{SomeIff, string_bytes, length, drop, pos};
ghost use Rattle.jiff_core.specs.Date.{IsYmd, epoch_day};
ghost use Rattle.xa_value.specs.Calendar.{is_day, day_text, date_text, date_time_text, day_number};
ghost use Rattle.xa_value.specs.parsing.Calendar.{date_of, date_time_of, year_of, read_date, read_date_time};
ghost use Rattle.xa_value.specs.Time.{day_nanos};
ghost use Rattle.xa_value.specs.parsing.Time.{read_time};

use crate::lexical::{has_shape, push_padded, two_digits};
use crate::read_error::ReadError;
use crate::time::{DAY_NANOS, Time, push_clock, read_time};
use crate::zone::{Offset, push_zone, read_zone};
use jiff_core::civil;
use std::alloc::AllocError;
use std::marker::Model;

/// A day of the calendar in the years 1 to 9999, with or without a zone (XML Schema, part 2, section
/// 3.2.9).
#[derive(Clone, Copy, Debug, PartialEq, Eq)]
pub struct Date {
    year: u16,
    month: u8,
    day: u8,
    zone: Option<Offset>,
}

impl Model for Date {
    ghost use Rattle.std.specs.Prelude.{IsTrue};
    ghost use Rattle.xa_value.specs.Calendar.{CivilDate, is_day};

    ghost Value = { CivilDate };

    ghost view = { λ d. record { year = d.year; month = d.month; day = d.day; zone = d.zone } };

    ghost invariant = { λ d. IsTrue (is_day d.year d.month d.day) };

    ghost inverse = { λ d. record { year = d.year; month = d.month; day = d.day; zone = d.zone } };
}

impl Date {
    /// The day in its zone, if its year is 1 or later.
    #[tactic(auto, using(crate::proofs::CalendarLemmas::civil_is_day))]
    pub fn new(day: civil::Date, zone: Option<Offset>) -> Option<Date>
        ensures { SomeIff result (pos 1 ≤ℤ day.year)
            record { year = unsigned_abs day.year; month = day.month; day = day.day; zone = zone } }
    {
        if day.year < 1 {
            return None;
        }
        Some(Date {
            year: day.year as u16,
            month: day.month,
            day: day.day,
            zone,
        })
    }

    /// The day.
    pub fn civil(self) -> civil::Date
        ensures parts { IsYmd (pos self.year) (pos self.month) (pos self.day) result }
        ensures number { epoch_day result ≡ day_number self.year self.month self.day }
        ensures real { IsTrue (is_day self.year self.month self.day) }
    {
        civil_day(self.year, self.month, self.day)
    }

    /// The zone as it was written.
    pub fn zone(self) -> Option<Offset>
        ensures { result ≡ self.zone }
    {
        self.zone
    }
}

/// A day of the calendar in the years 1 to 9999 and a time of that day, with or without a zone (XML
/// Schema, part 2, section 3.2.7).
#[derive(Clone, Copy, Debug, PartialEq, Eq)]
pub struct DateTime {
    year: u16,
    month: u8,
    day: u8,
    nanos: u64,
    zone: Option<Offset>,
}

impl Model for DateTime {
    ghost use Rattle.std.specs.Prelude.{IsTrue, ◌<◌};
    ghost use Rattle.xa_value.specs.Calendar.{CivilDateTime, is_day};
    ghost use Rattle.xa_value.specs.Time.{day_nanos};

    ghost Value = { CivilDateTime };

    ghost view = { λ d.
        record { year = d.year; month = d.month; day = d.day; nanos = d.nanos; zone = d.zone } };

    ghost invariant = { λ d. IsTrue (is_day d.year d.month d.day) × (d.nanos < day_nanos) };

    ghost inverse = { λ d.
        record { year = d.year; month = d.month; day = d.day; nanos = d.nanos; zone = d.zone } };
}

impl DateTime {
    /// The day and the nanoseconds since its midnight, if its year is 1 or later and they are
    /// less than a day.
    #[tactic(auto, using(crate::proofs::CalendarLemmas::civil_is_day))]
    pub fn new(day: civil::Date, nanos: u64, zone: Option<Offset>) -> Option<DateTime>
        ensures { SomeIff result ((pos 1 ≤ℤ day.year) × (nanos < day_nanos)) record
            { year = unsigned_abs day.year; month = day.month; day = day.day; nanos = nanos; zone = zone } }
    {
        if day.year < 1 || nanos >= DAY_NANOS {
            return None;
        }
        Some(DateTime {
            year: day.year as u16,
            month: day.month,
            day: day.day,
            nanos,
            zone,
        })
    }

    /// The day.
    pub fn civil(self) -> civil::Date
        ensures parts { IsYmd (pos self.year) (pos self.month) (pos self.day) result }
        ensures number { epoch_day result ≡ day_number self.year self.month self.day }
        ensures real { IsTrue (is_day self.year self.month self.day) }
    {
        civil_day(self.year, self.month, self.day)
    }

    /// The nanoseconds since the day's midnight.
    pub fn nanos(self) -> u64
        ensures value { result ≡ self.nanos }
        ensures within { result < day_nanos }
    {
        self.nanos
    }

    /// The zone as it was written.
    pub fn zone(self) -> Option<Offset>
        ensures { result ≡ self.zone }
    {
        self.zone
    }
}

/// The day of this year, month and number.
#[tactic(auto, using(crate::proofs::CalendarLemmas::day_bounds))]
fn civil_day(year: u16, month: u8, day: u8) -> civil::Date
    requires { IsTrue (is_day year month day) }
    ensures parts { IsYmd (pos year) (pos month) (pos day) result }
    ensures number { epoch_day result ≡ day_number year month day }
{
    civil::Date {
        year: year as i16,
        month,
        day,
    }
}

/// Whether the calendar has this day, in the years 1 to 9999.
#[tactic(auto, unfolding(crate::specs::Calendar::is_day))]
fn is_day(year: u32, month: u32, day: u32) -> bool
    ensures { result ≡ is_day year month day }
{
    1 <= year
        && year <= 9999
        && 1 <= month
        && month <= 12
        && 1 <= day
        && day <= u32::from(civil::days_in_month(year as i16, month as u8))
}

/// The date, if the calendar has it.
#[tactic(auto, using(crate::proofs::CalendarLemmas::day_bounds), unfolding(crate::specs::parsing::Calendar::date_of))]
fn date_of(year: u32, month: u32, day: u32, zone: Option<Offset>) -> Result<Date, ReadError>
    ensures { result ≡ date_of year month day zone }
{
    if !is_day(year, month, day) {
        return Err(ReadError::OutOfRange);
    }
    Ok(Date {
        year: year as u16,
        month: month as u8,
        day: day as u8,
        zone,
    })
}

/// The year of four digits that the text begins with.
fn year_of(text: &[u8]) -> u32
    requires { 4 ≤ length text.now }
    ensures { result ≡ year_of text.now }
{
    two_digits(text, 0) * 100 + two_digits(text, 2)
}

/// The date of the text, `YYYY-MM-DD` and a zone.
#[tactic(auto, unfolding(crate::specs::parsing::Calendar::read_date))]
pub(crate) fn read_date(text: &[u8]) -> Result<Date, ReadError>
    ensures { result ≡ read_date text.now }
{
    if !has_shape(b"9999-99-99", text) {
        return Err(ReadError::NotThisType);
    }
    let zone = read_zone(&text[10..])?;
    date_of(
        year_of(text),
        two_digits(text, 5),
        two_digits(text, 8),
        zone,
    )
}

/// Writes four, two and two digits.
#[tactic(auto, unfolding(crate::specs::Calendar::day_text))]
fn push_day(text: &mut String, year: u16, month: u8, day: u8) -> Result<(), AllocError>
    ensures { OnOk result (string_bytes text.new ≡ string_bytes text.old ++ day_text year month day) }
{
    push_padded(text, 4, u32::from(year))?;
    text.push('-')?;
    push_padded(text, 2, u32::from(month))?;
    text.push('-')?;
    push_padded(text, 2, u32::from(day))
}

/// Writes the day and its zone.
pub(crate) fn push_date(text: &mut String, date: Date) -> Result<(), AllocError>
    ensures { OnOk result (string_bytes text.new ≡ string_bytes text.old ++ date_text date) }
{
    push_day(text, date.year, date.month, date.day)?;
    push_zone(text, date.zone)
}

/// The date with a time, if the calendar has it.
#[tactic(auto, using(crate::proofs::CalendarLemmas::day_bounds), unfolding(crate::specs::parsing::Calendar::date_time_of))]
fn date_time_of(year: u32, month: u32, day: u32, time: Time) -> Result<DateTime, ReadError>
    ensures { result ≡ date_time_of year month day time }
{
    if !is_day(year, month, day) {
        return Err(ReadError::OutOfRange);
    }
    Ok(DateTime {
        year: year as u16,
        month: month as u8,
        day: day as u8,
        nanos: time.nanos(),
        zone: time.zone(),
    })
}

/// The time, with its zone, behind the day and `T`.
fn time_after_day(text: &[u8]) -> Result<Time, ReadError>
    requires { 11 ≤ length text.now }
    ensures { result ≡ read_time (drop 11 text.now) }
{
    read_time(&text[11..])
}

/// The date and time of the text: a date without a zone, `T`, and a time.
#[tactic(auto, unfolding(crate::specs::parsing::Calendar::read_date_time))]
pub(crate) fn read_date_time(text: &[u8]) -> Result<DateTime, ReadError>
    ensures { result ≡ read_date_time text.now }
{
    if !has_shape(b"9999-99-99T", text) {
        return Err(ReadError::NotThisType);
    }
    let time = time_after_day(text)?;
    date_time_of(
        year_of(text),
        two_digits(text, 5),
        two_digits(text, 8),
        time,
    )
}

/// Writes the day, `T`, the time of day and the zone.
pub(crate) fn push_date_time(text: &mut String, date_time: DateTime) -> Result<(), AllocError>
    ensures { OnOk result (string_bytes text.new ≡ string_bytes text.old ++ date_time_text date_time) }
{
    push_day(text, date_time.year, date_time.month, date_time.day)?;
    text.push('T')?;
    push_clock(text, date_time.nanos)?;
    push_zone(text, date_time.zone)
}
