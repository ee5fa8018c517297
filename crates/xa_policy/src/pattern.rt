//! Patterns of versions, as references have them.
ghost use Rattle.std.specs.Prelude.{◌≡◌, ◌≤◌, ◌++◌, ◌||◌, map, length, IfOk, OnOk, Ok, IsTrue, string_bytes};
ghost use Rattle.xa_value.specs.Digits.{is_number};
ghost use Rattle.xa_policy.specs.Version.{parts, is_short};
ghost use Rattle.xa_policy.specs.Pattern.{is_star, is_plus, is_pattern, part_of};
ghost use Rattle.xa_policy.specs.Pattern.{read_pattern, part_text, pattern_text, IsPattern};

use crate::version::{MAX_NUMBERS, is_short, number_of, push_number};
use crate::version_error::VersionError;
use std::alloc::{AllocError, Global};
use std::marker::Model;
use xa_value::{Text, is_number};

/// A part of a pattern (XACML 3.0, core, section 5.13).
#[derive(Clone, Copy, Debug, PartialEq, Eq)]
pub enum PatternPart {
    /// A number, which stands for itself.
    Number(u32),
    /// `*`, which stands for any one number.
    AnyNumber,
    /// `+`, which stands for any number and any that follow it.
    AnyNumbers,
}

/// A pattern of versions (XACML 3.0, core, section 5.13): the list of its parts.
#[derive(Clone, Copy, Debug, PartialEq, Eq)]
pub struct Pattern {
    /// The parts, and `*` after them.
    parts: [PatternPart; MAX_NUMBERS],
    /// How many there are.
    count: usize,
}

impl Model for Pattern {
    ghost use Rattle.std.specs.Prelude.{List, ◌-◌, ◌++◌, length, take, replicate, refl};
    ghost use Rattle.xa_policy.specs.declared.pattern.PatternPart.{PatternPart};
    ghost use Rattle.xa_policy.specs.declared.pattern.PatternPart.TheVariants.{AnyNumber};
    ghost use Rattle.xa_policy.specs.Room.{IsRoom, room_given_back};
    ghost use Rattle.xa_policy.specs.Pattern.{IsPattern};

    ghost Value = { List PatternPart };

    ghost view = { λ p. take p.count p.parts };

    ghost invariant = { λ p. IsPattern (take p.count p.parts) × IsRoom AnyNumber p.parts p.count };

    ghost inverse = { λ ps. record { parts = ps ++ replicate (8 - length ps) AnyNumber; count = length ps } };

    ghost inverse_ok = { λ p h.
        let k = room_given_back AnyNumber p.parts p.count h.1 in Prim.rw (k.0, k.1) refl };
}

impl Pattern {
    /// The pattern that the text writes: numbers and `*` with dots between, the last of which may be `+`
    /// (XACML 3.0, core, section 5.13). Leading zeros are dropped. The fault is BadText of any other shape,
    /// and TooLong of more than eight parts, or of a number of more than nine digits.
    pub fn read(text: &str) -> Result<Pattern, VersionError>
        ensures { result ≡ read_pattern text.now }
    {
        if !is_pattern(text) {
            return Err(VersionError::BadText);
        }
        if !is_short(text) {
            return Err(VersionError::TooLong);
        }
        Ok(Pattern::of_parts(text))
    }

    /// The pattern of what stands between the dots.
    fn of_parts(text: &str) -> Pattern
        requires pattern { IsTrue (is_pattern (parts text.now)) }
        requires short { IsTrue (is_short (parts text.now)) }
        ensures { result ≡ map part_of (parts text.now) }
    {
        let mut parts = [PatternPart::AnyNumber; MAX_NUMBERS];
        let mut count = 0;
        for part in text.split('.') {
            parts[count] = part_of(part);
            count += 1;
        }
        Pattern { parts, count }
    }

    /// The pattern as text, without leading zeros.
    pub fn to_text(&self, alloc: Global) -> Result<Text, AllocError>
        ensures { IfOk result (λ t. t ≡ pattern_text self.now) }
    {
        let mut text = String::new(alloc);
        push_parts(&mut text, self.parts())?;
        Ok(Text::from_string(text))
    }

    /// Law: the text of a pattern reads as that pattern.
    #[tactic(auto, using(crate::proofs::PatternRoundTrip::pattern_reads))]
    pub fn reads_back(self)
        ensures { read_pattern (pattern_text self) ≡ Ok self }
    {
        // For the proof: by the call's clause `valid` these are the parts of a pattern.
        let _ = self.parts();
    }

    /// The pattern's parts.
    pub fn parts(&self) -> &[PatternPart]
        ensures value { result.now ≡ self.now }
        ensures valid { IsPattern result.now }
    {
        &self.parts[..self.count]
    }
}

/// Whether the text is `*`.
fn is_star(part: &[u8]) -> bool
    ensures { result ≡ is_star part.now }
{
    part == b"*".as_slice()
}

/// Whether the text is `+`.
fn is_plus(part: &[u8]) -> bool
    ensures { result ≡ is_plus part.now }
{
    part == b"+".as_slice()
}

/// Whether the text is a number, `*` or `+`.
fn is_part(part: &[u8]) -> bool
    ensures { result ≡ (is_number part.now || is_star part.now || is_plus part.now) }
{
    is_number(part) || is_star(part) || is_plus(part)
}

/// Whether the text is numbers and `*` with dots between, the last of which may be `+`.
fn is_pattern(text: &str) -> bool
    ensures { result ≡ is_pattern (parts text.now) }
{
    let mut ended = false;
    for part in text.split('.') {
        if ended || !is_part(part.as_bytes()) {
            return false;
        }
        ended = is_plus(part.as_bytes());
    }
    true
}

/// What the part stands for.
fn part_of(part: &str) -> PatternPart
    requires part { IsTrue (is_number part.now || is_star part.now || is_plus part.now) }
    requires short { length part.now ≤ 9 }
    ensures { result ≡ part_of part.now }
{
    if is_star(part.as_bytes()) {
        PatternPart::AnyNumber
    } else if is_plus(part.as_bytes()) {
        PatternPart::AnyNumbers
    } else {
        PatternPart::Number(number_of(part))
    }
}

/// Writes a number, `*` or `+`.
fn push_part(text: &mut String, part: PatternPart) -> Result<(), AllocError>
    ensures { OnOk result (string_bytes text.new ≡ string_bytes text.old ++ part_text part) }
{
    match part {
        PatternPart::Number(number) => push_number(text, number),
        PatternPart::AnyNumber => text.push('*'),
        PatternPart::AnyNumbers => text.push('+'),
    }
}

/// Writes the parts with dots between.
fn push_parts(text: &mut String, parts: &[PatternPart]) -> Result<(), AllocError>
    ensures { OnOk result (string_bytes text.new ≡ string_bytes text.old ++ pattern_text parts.now) }
{
    match parts {
        [] => Ok(()),
        [last] => push_part(text, *last),
        [part, rest @ ..] => {
            push_part(text, *part)?;
            text.push('.')?;
            push_parts(text, rest)
        }
    }
}
