//! The line before an entry: `CONNECTION MOMENT COUNT`.
ghost use Rattle.std.specs.Prelude.{◌≡◌, ◌-◌, ◌^◌, ◌∷◌, [], MatchOption, option_map, pos};
ghost use Rattle.xa_value.specs.Digits.{number_up_to};
ghost use Rattle.pdpd.specs.Heading.{heading_of, heading_of_three, moment_of, parts_of};

use thiserror::Error;
use xa_value::{Moment, number_up_to};

/// How many connections a transcript has: all those of a front, the 64 of `xa_server` (`lines.rt`).
pub const CONNECTIONS: usize = 64;

/// The most bytes of an entry. They are held whole while it is answered.
pub const MAX_ENTRY_BYTES: usize = 1_048_576;

/// What stands in the line before an entry.
#[derive(Clone, Copy)]
pub struct Heading {
    /// The connection, from 0 to 63.
    pub connection: usize,
    /// The moment at which the entry's messages are answered.
    pub moment: Moment,
    /// How many bytes follow.
    pub count: usize,
}

/// What is wrong with the line before an entry. Of several faults it is the first.
#[derive(Clone, Copy, Debug, Error)]
pub enum HeadingFault {
    /// It hasn't three parts, with one space between two.
    #[error("the line before it hasn't three parts, with one space between")]
    Parts,
    /// The connection is no number from 0 to 63.
    #[error("its connection is no number from 0 to 63")]
    BadConnection,
    /// The moment is no number of seconds within the years 0001 to 9999.
    #[error("its moment is no number of seconds within the years 0001 to 9999")]
    BadMoment,
    /// The count is no number of at most 1,048,576.
    #[error("its count is no number of at most 1048576")]
    BadCount,
}

/// The seconds that plain digits write.
fn seconds(digits: &[u8]) -> Option<i64>
    ensures { result ≡ option_map pos (number_up_to (2 ^ 63 - 1) digits.now) }
{
    i64::try_from(number_up_to(usize::MAX, digits)?).ok()
}

/// The moment that plain digits write, after a `-` if it lies before 1970.
#[tactic(auto, unfolding(crate::specs::Heading::moment_of))]
fn moment_of(text: &[u8]) -> Option<Moment>
    ensures { result ≡ moment_of text.now }
{
    match text {
        [b'-', digits @ ..] => Moment::new(-seconds(digits)?),
        digits => Moment::new(seconds(digits)?),
    }
}

/// The text before the first space, and the text after it.
#[tactic(auto, using(crate::proofs::PartLemmas::no_space_more))]
fn split_once_at_space(text: &[u8]) -> Option<(&[u8], &[u8])>
    ensures { MatchOption result (parts_of text.now ≡ text.now ∷ [])
        (λ found. parts_of text.now ≡ found.0.now ∷ parts_of found.1.now) }
{
    for (i, byte) in text.iter().enumerate() {
        if *byte == b' ' {
            return Some((&text[..i], &text[i + 1..]));
        }
    }
    None
}

/// The heading of three parts.
#[tactic(auto, unfolding(crate::specs::Heading::heading_of_three))]
fn heading_of_three(connection: &[u8], moment: &[u8], count: &[u8]) -> Result<Heading, HeadingFault>
    ensures { result ≡ heading_of_three connection.now moment.now count.now }
{
    let connection = number_up_to(CONNECTIONS - 1, connection).ok_or(HeadingFault::BadConnection)?;
    let moment = moment_of(moment).ok_or(HeadingFault::BadMoment)?;
    let count = number_up_to(MAX_ENTRY_BYTES, count).ok_or(HeadingFault::BadCount)?;
    Ok(Heading {
        connection,
        moment,
        count,
    })
}

/// The heading that a line writes, or what is wrong with the line.
#[tactic(auto, using(crate::proofs::PartLemmas::more_parts))]
pub fn heading_of(line: &[u8]) -> Result<Heading, HeadingFault>
    ensures { result ≡ heading_of line.now }
{
    let (connection, rest) = split_once_at_space(line).ok_or(HeadingFault::Parts)?;
    let (moment, count) = split_once_at_space(rest).ok_or(HeadingFault::Parts)?;
    match split_once_at_space(count) {
        Some(_) => Err(HeadingFault::Parts),
        None => heading_of_three(connection, moment, count),
    }
}
