//! Versions of policies and policy sets.
ghost use Rattle.std.specs.Prelude.{◌≡◌, ◌<◌, ◌≤◌, ◌++◌, map, length, nat_eq};
ghost use Rattle.std.specs.Prelude.{decimal, IfOk, OnOk, Ok, IsTrue, string_bytes};
ghost use Rattle.std.specs.Cmp.{partial_equiv_from_equiv};
ghost use Rattle.std.specs.Cmp.Lexicographic.{pointwise, nat_list_eq_equiv};
ghost use Rattle.std.specs.Cmp.Lexicographic.{nat_list_cmp_total, texts_ties, texts_po};
ghost use Rattle.std.specs.Cmp.Rules.{comparing};
ghost use Rattle.std.specs.List.{list_all};
ghost use Rattle.std.specs.Ordering.{as_partial_cmp};
ghost use Rattle.std.specs.Str.Parse.{digits_value};
ghost use Rattle.std.proofs.Common.{rules};
ghost use Rattle.xa_value.specs.Digits.{is_number};
ghost use Rattle.xa_policy.specs.Version.{compare_versions, parts, is_short};
ghost use Rattle.xa_policy.specs.Version.{read_version, version_text, IsVersion};

use crate::version_error::VersionError;
use std::alloc::{AllocError, Global};
use std::cmp::Ordering;
use std::marker::Model;
use xa_value::{Text, is_number, number_up_to};

/// The most numbers of a version or a pattern: a bound of this project's own, so that each takes no memory.
pub(crate) const MAX_NUMBERS: usize = 8;

/// The most digits of a number, with which it fits 32 bits.
const MAX_DIGITS: usize = 9;

/// The greatest number of this many digits.
const MAX_NUMBER: usize = 999_999_999;

/// A version (XACML 3.0, core, section 5.12): the list of its numbers.
#[derive(Clone, Copy, Debug)]
pub struct Version {
    /// The numbers, and zeros after them.
    numbers: [u32; MAX_NUMBERS],
    /// How many there are.
    count: usize,
}

impl Model for Version {
    ghost use Rattle.std.specs.Prelude.{List, ℕ, ◌-◌, ◌++◌, length, take, replicate, refl};
    ghost use Rattle.xa_policy.specs.Room.{IsRoom, room_given_back};
    ghost use Rattle.xa_policy.specs.Version.{IsVersion};

    ghost Value = { List ℕ };

    ghost view = { λ v. take v.count v.numbers };

    ghost invariant = { λ v. IsVersion (take v.count v.numbers) × IsRoom 0 v.numbers v.count };

    ghost inverse = { λ ns. record { numbers = ns ++ replicate (8 - length ns) 0; count = length ns } };

    ghost inverse_ok = { λ v h. let k = room_given_back 0 v.numbers v.count h.1 in Prim.rw (k.0, k.1) refl };
}

impl Version {
    /// The version that the text writes: numbers with dots between (XACML 3.0, core, section 5.12).
    /// Leading zeros are dropped. The fault is BadText of any other shape, and TooLong of more than eight
    /// numbers, or of one of more than nine digits.
    pub fn read(text: &str) -> Result<Version, VersionError>
        ensures { result ≡ read_version text.now }
    {
        if !is_version(text) {
            return Err(VersionError::BadText);
        }
        if !is_short(text) {
            return Err(VersionError::TooLong);
        }
        Ok(Version::of_parts(text))
    }

    /// The version of the numbers between the dots.
    fn of_parts(text: &str) -> Version
        requires numbers { IsTrue (list_all is_number (parts text.now)) }
        requires short { IsTrue (is_short (parts text.now)) }
        ensures { result ≡ map (digits_value 10) (parts text.now) }
    {
        let mut numbers = [0; MAX_NUMBERS];
        let mut count = 0;
        for part in text.split('.') {
            numbers[count] = number_of(part);
            count += 1;
        }
        Version { numbers, count }
    }

    /// The version as text, without leading zeros.
    pub fn to_text(&self, alloc: Global) -> Result<Text, AllocError>
        ensures { IfOk result (λ t. t ≡ version_text self.now) }
    {
        let mut text = String::new(alloc);
        push_numbers(&mut text, self.numbers())?;
        Ok(Text::from_string(text))
    }

    /// Law: the text of a version reads as that version.
    #[tactic(auto, using(crate::proofs::RoundTripLemmas::version_reads))]
    pub fn reads_back(self)
        ensures { read_version (version_text self) ≡ Ok self }
    {
        // For the proof: by the call's clause `valid` these are the numbers of a version.
        let _ = self.numbers();
    }

    /// The version's numbers.
    pub fn numbers(&self) -> &[u32]
        ensures value { result.now ≡ self.now }
        ensures valid { IsVersion result.now }
    {
        &self.numbers[..self.count]
    }
}

impl PartialEq for Version {
    ghost eq = { pointwise nat_eq };

    ghost laws = { partial_equiv_from_equiv nat_list_eq_equiv };

    fn eq(&self, other: &Version) -> bool {
        self.numbers() == other.numbers()
    }
}

impl Eq for Version {
    ghost laws = { nat_list_eq_equiv };
}

/// Versions compare as lists of numbers, a proper prefix being less.
impl Ord for Version {
    ghost cmp = { compare_versions };

    ghost total = { nat_list_cmp_total };

    ghost matches_partial_cmp = { Prim.search (comparing, rules) };

    ghost matches_eq = { texts_ties };

    fn cmp(&self, other: &Version) -> Ordering {
        self.numbers().cmp(other.numbers())
    }
}

impl PartialOrd for Version {
    ghost partial_cmp = { as_partial_cmp compare_versions };

    ghost laws = { texts_po };

    fn partial_cmp(&self, other: &Version) -> Option<Ordering> {
        Some(self.cmp(other))
    }
}

/// Whether the text is numbers with dots between.
fn is_version(text: &str) -> bool
    ensures { result ≡ list_all is_number (parts text.now) }
{
    text.split('.').all(|part| is_number(part.as_bytes()))
}

/// Whether the text keeps within the limits.
pub(crate) fn is_short(text: &str) -> bool
    ensures { result ≡ is_short (parts text.now) }
{
    text.split('.').count() <= MAX_NUMBERS && text.split('.').all(|part| part.len() <= MAX_DIGITS)
}

/// The number that the digits write.
#[tactic(auto, using(crate::proofs::PartLemmas::number_given, crate::proofs::PartLemmas::small_number))]
pub(crate) fn number_of(part: &str) -> u32
    requires number { IsTrue (is_number part.now) }
    requires short { length part.now ≤ 9 }
    ensures value { result ≡ digits_value 10 part.now }
    ensures small { result < 1_000_000_000 }
{
    match number_up_to(MAX_NUMBER, part.as_bytes()) {
        Some(number) => number as u32,
        None => unreachable!(),
    }
}

/// Writes a number without leading zeros.
pub(crate) fn push_number(text: &mut String, number: u32) -> Result<(), AllocError>
    ensures { OnOk result (string_bytes text.new ≡ string_bytes text.old ++ decimal number) }
{
    write!(text, "{number}")
}

/// Writes the numbers with dots between.
fn push_numbers(text: &mut String, numbers: &[u32]) -> Result<(), AllocError>
    ensures { OnOk result (string_bytes text.new ≡ string_bytes text.old ++ version_text numbers.now) }
{
    match numbers {
        [] => Ok(()),
        [last] => push_number(text, *last),
        [number, rest @ ..] => {
            push_number(text, *number)?;
            text.push('.')?;
            push_numbers(text, rest)
        }
    }
}
