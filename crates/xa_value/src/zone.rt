//! Zones and their offsets from UTC, read and printed.
ghost use Rattle.std.specs.Prelude.{◌≡◌, ◌++◌, neg_ℤ, if◌then◌else◌, OnOk};
ghost use Rattle.std.specs.Prelude.{string_bytes, length, SomeIff};
ghost use Rattle.xa_value.specs.Zone.{IsOffset, offset_text, zone_text, offset_of};
ghost use Rattle.xa_value.specs.parsing.Zone.{is_offset_text, read_offset, read_zone};

use crate::lexical::{begins_with, has_shape, push_padded, two_digits};
use crate::read_error::ReadError;
use std::alloc::AllocError;
use std::marker::Model;

/// The greatest distance from UTC that a text may write, in minutes: 14 hours. Its sign is read apart.
const MOST_WRITTEN: u32 = Offset::MOST as u32;

/// The minutes by which a zone is ahead of UTC, at most 14 hours to either side (XML Schema, part 2,
/// section 3.2.7.3).
#[derive(Clone, Copy, Debug, PartialEq, Eq)]
pub struct Offset {
    minutes: i16,
}

impl Model for Offset {
    ghost use Rattle.std.specs.Prelude.{ℤ};
    ghost use Rattle.xa_value.specs.Zone.{IsOffset};

    ghost Value = { ℤ };

    ghost view = { λ o. o.minutes };

    ghost invariant = { λ o. IsOffset o.minutes };

    ghost inverse = { λ z. record { minutes = z } };
}

impl Offset {
    /// The greatest distance from UTC, in minutes: 14 hours (XML Schema, part 2, section 3.2.7.3).
    const MOST: i16 = 840;

    /// The offset of this many minutes, if it is at most 14 hours.
    pub fn new(minutes: i16) -> Option<Offset>
        ensures { SomeIff result (IsOffset minutes) minutes }
    {
        if -Offset::MOST <= minutes && minutes <= Offset::MOST {
            Some(Offset { minutes })
        } else {
            None
        }
    }

    /// The minutes by which the zone is ahead of UTC.
    pub fn minutes(self) -> i16
        ensures value { result ≡ self }
        ensures within { IsOffset result }
    {
        self.minutes
    }
}

/// Whether the text is a sign, hours and minutes.
fn is_offset_text(text: &[u8]) -> bool
    ensures { result ≡ is_offset_text text.now }
{
    text.len() == 6 && (has_shape(b"+99:99", text) || has_shape(b"-99:99", text))
}

/// This many minutes before or after UTC.
fn signed_offset(negative: bool, minutes: i16) -> Offset
    requires { IsOffset minutes }
    ensures { result ≡ (if negative then neg_ℤ minutes else minutes) }
{
    if negative {
        Offset { minutes: -minutes }
    } else {
        Offset { minutes }
    }
}

/// The offset of a text of that shape.
#[tactic(auto, unfolding(crate::specs::parsing::Zone::read_offset))]
fn read_offset(text: &[u8]) -> Result<Option<Offset>, ReadError>
    requires { length text.now ≡ 6 }
    ensures { result ≡ read_offset text.now }
{
    let minutes = two_digits(text, 1) * 60 + two_digits(text, 4);
    if two_digits(text, 4) <= 59 && minutes <= MOST_WRITTEN {
        Ok(Some(signed_offset(begins_with(b'-', text), minutes as i16)))
    } else {
        Err(ReadError::OutOfRange)
    }
}

/// The zone of the text: absent, `Z`, or an offset.
#[tactic(auto, unfolding(crate::specs::parsing::Zone::read_zone))]
pub(crate) fn read_zone(text: &[u8]) -> Result<Option<Offset>, ReadError>
    ensures { result ≡ read_zone text.now }
{
    if text.is_empty() {
        return Ok(None);
    }
    if text == b"Z".as_slice() {
        return Ok(Some(Offset { minutes: 0 }));
    }
    if is_offset_text(text) {
        return read_offset(text);
    }
    Err(ReadError::NotThisType)
}

/// Writes the hours and the minutes of an offset.
fn push_offset(text: &mut String, minutes: u16) -> Result<(), AllocError>
    ensures { OnOk result (string_bytes text.new ≡ string_bytes text.old ++ offset_text minutes) }
{
    push_padded(text, 2, u32::from(minutes / 60))?;
    text.push(':')?;
    push_padded(text, 2, u32::from(minutes % 60))
}

/// Writes the zone: nothing if it is absent, `Z` for an offset of 0.
pub(crate) fn push_zone(text: &mut String, zone: Option<Offset>) -> Result<(), AllocError>
    ensures { OnOk result (string_bytes text.new ≡ string_bytes text.old ++ zone_text zone) }
{
    let Some(offset) = zone else {
        return Ok(());
    };
    let minutes = offset.minutes();
    if minutes == 0 {
        return text.push('Z');
    }
    text.push(if minutes < 0 { '-' } else { '+' })?;
    push_offset(text, minutes.unsigned_abs())
}

/// The minutes by which the zone is ahead of UTC. An absent zone counts as UTC.
pub(crate) fn offset_of(zone: Option<Offset>) -> i16
    ensures value { result ≡ offset_of zone }
    ensures within { IsOffset result }
{
    match zone {
        None => 0,
        Some(offset) => offset.minutes(),
    }
}
