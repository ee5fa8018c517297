//! What a pattern sees of versions: the numbers that stand where it has a number, and how long they are. It
//! sees one and the same of all versions that match it, and that of no other.
ghost use Rattle.std.specs.Prelude.{◌≡◌, []};
ghost use Rattle.std.specs.Cmp.Lexicographic.{slice_cmp};
ghost use Rattle.std.specs.Ordering.{nat_cmp};
ghost use Rattle.xa_link.specs.placing.Seen.{number_seen, number_wanted, seen, seen_by, wanted, wanted_by};

use std::cmp::Ordering;
use xa_policy::{Pattern, PatternPart, Version};

/// How two numbers compare where a pattern has the part: a wildcard doesn't tell them apart.
fn compare_numbers(part: &PatternPart, first: u32, second: u32) -> Ordering
    ensures { result ≡ nat_cmp (number_seen part.now first) (number_seen part.now second) }
{
    match part {
        PatternPart::Number(_) => first.cmp(&second),
        PatternPart::AnyNumber | PatternPart::AnyNumbers => Ordering::Equal,
    }
}

/// How the number that the part wants compares with one that stands there.
fn compare_with_wanted(part: &PatternPart, number: u32) -> Ordering
    ensures { result ≡ nat_cmp (number_wanted part.now) (number_seen part.now number) }
{
    match part {
        PatternPart::Number(wanted) => wanted.cmp(&number),
        PatternPart::AnyNumber | PatternPart::AnyNumbers => Ordering::Equal,
    }
}

/// How the numbers of two versions compare where one of them, or the pattern, has ended.
fn compare_ends(first: &[u32], second: &[u32]) -> Ordering
    ensures { result ≡ slice_cmp nat_cmp (seen [] first.now) (seen [] second.now) }
{
    match (first, second) {
        ([], []) | ([_, ..], [_, ..]) => Ordering::Equal,
        ([], [_, ..]) => Ordering::Less,
        ([_, ..], []) => Ordering::Greater,
    }
}

/// How what a pattern sees of two versions compares.
fn compare_seen(parts: &[PatternPart], first: &[u32], second: &[u32]) -> Ordering
    ensures { result ≡ slice_cmp nat_cmp (seen parts.now first.now) (seen parts.now second.now) }
{
    let [part, more_parts @ ..] = parts else {
        return compare_ends(first, second);
    };
    let [number, more_numbers @ ..] = first else {
        return compare_ends(first, second);
    };
    let [other, more_others @ ..] = second else {
        return compare_ends(first, second);
    };
    if matches!(part, PatternPart::AnyNumbers) {
        return Ordering::Equal;
    }
    match compare_numbers(part, *number, *other) {
        Ordering::Less => Ordering::Less,
        Ordering::Equal => compare_seen(more_parts, more_numbers, more_others),
        Ordering::Greater => Ordering::Greater,
    }
}

/// How what a pattern sees of the versions that match it compares with what it sees of this one.
fn compare_wanted(parts: &[PatternPart], numbers: &[u32]) -> Ordering
    ensures { result ≡ slice_cmp nat_cmp (wanted parts.now) (seen parts.now numbers.now) }
{
    let [part, more_parts @ ..] = parts else {
        return if numbers.is_empty() {
            Ordering::Equal
        } else {
            Ordering::Less
        };
    };
    let [number, more_numbers @ ..] = numbers else {
        return Ordering::Greater;
    };
    if matches!(part, PatternPart::AnyNumbers) {
        return Ordering::Equal;
    }
    match compare_with_wanted(part, *number) {
        Ordering::Less => Ordering::Less,
        Ordering::Equal => compare_wanted(more_parts, more_numbers),
        Ordering::Greater => Ordering::Greater,
    }
}

/// How what the pattern, if there is one, sees of two versions compares.
pub(crate) fn compare_seen_by(
    pattern: &Option<Pattern>,
    first: &Version,
    second: &Version,
) -> Ordering
    ensures { result ≡ slice_cmp nat_cmp (seen_by pattern.now first.now) (seen_by pattern.now second.now) }
{
    match pattern {
        Some(pattern) => compare_seen(pattern.parts(), first.numbers(), second.numbers()),
        None => Ordering::Equal,
    }
}

/// How what the pattern, if there is one, sees of the versions that match it compares with what it sees of
/// this one.
pub(crate) fn compare_wanted_by(pattern: &Option<Pattern>, version: &Version) -> Ordering
    ensures { result ≡ slice_cmp nat_cmp (wanted_by pattern.now) (seen_by pattern.now version.now) }
{
    match pattern {
        Some(pattern) => compare_wanted(pattern.parts(), version.numbers()),
        None => Ordering::Equal,
    }
}
