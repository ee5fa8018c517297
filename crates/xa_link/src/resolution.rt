//! Which document a reference stands for.
ghost use Rattle.std.specs.Prelude.{◌≡◌, ◌<◌, true, length, slice_index_or, IfSome, MatchOption};
ghost use Rattle.xa_policy.specs.Version.{is_before};
ghost use Rattle.xa_link.specs.Resolution.{OnePlaceForEachVersion, matches, fits_pattern};
ghost use Rattle.xa_link.specs.Resolution.{not_before, not_after, fits, resolve};

use crate::active::Active;
use xa_policy::{Pattern, PatternPart, Reference, Version};

/// Whether the numbers of a version match the parts of a pattern.
fn parts_match(parts: &[PatternPart], numbers: &[u32]) -> bool
    ensures { result ≡ matches parts.now numbers.now }
{
    let [part, more_parts @ ..] = parts else {
        return numbers.is_empty();
    };
    let [number, more_numbers @ ..] = numbers else {
        return false;
    };
    match part {
        PatternPart::Number(wanted) => wanted == number && parts_match(more_parts, more_numbers),
        PatternPart::AnyNumber => parts_match(more_parts, more_numbers),
        PatternPart::AnyNumbers => true,
    }
}

/// Whether the version matches the pattern (XACML 3.0, core, section 5.13).
pub fn matches(pattern: &Pattern, version: &Version) -> bool
    ensures { result ≡ matches pattern.now version.now }
{
    parts_match(pattern.parts(), version.numbers())
}

/// Whether the version matches the pattern, if there is one.
fn fits_pattern(pattern: &Option<Pattern>, version: &Version) -> bool
    ensures { result ≡ fits_pattern pattern.now version.now }
{
    match pattern {
        Some(pattern) => matches(pattern, version),
        None => true,
    }
}

/// Whether the version is no earlier than the earliest that will do, if there is one.
pub(crate) fn not_before(earliest: &Option<Version>, version: &Version) -> bool
    ensures { result ≡ not_before earliest.now version.now }
{
    match earliest {
        Some(earliest) => version >= earliest,
        None => true,
    }
}

/// Whether the version is no later than the latest that will do, if there is one.
pub(crate) fn not_after(latest: &Option<Version>, version: &Version) -> bool
    ensures { result ≡ not_after latest.now version.now }
{
    match latest {
        Some(latest) => latest >= version,
        None => true,
    }
}

/// Whether the document is of that kind and id, and of a version that will do.
pub(crate) fn fits(reference: &Reference, document: &Active) -> bool
    ensures { result ≡ fits reference.now document.now }
{
    reference.kind == document.kind
        && reference.id == document.id
        && fits_pattern(&reference.version, &document.version)
        && not_before(&reference.earliest, &document.version)
        && not_after(&reference.latest, &document.version)
}

/// Whether the document is of a later version than the one at the place, if there is any.
fn is_later(active: &[Active], document: &Active, found: Option<usize>) -> bool
    requires { IfSome found (λ place. place < length active.now) }
    ensures { MatchOption found (result ≡ true) (λ place.
        result ≡ is_before (slice_index_or active.now place document.now).version document.now.version) }
{
    match found {
        Some(place) => active[place].version < document.version,
        None => true,
    }
}

/// The place of the document for which the reference stands: of those that fit the one of the latest
/// version, and the first of several of that version (XACML 3.0, core, sections 5.10 and 5.11).
pub fn resolve(active: &[Active], reference: &Reference) -> Option<usize>
    ensures { result ≡ resolve active.now reference.now }
{
    let mut found = None;
    for (place, document) in active.iter().enumerate() {
        if fits(reference, document) && is_later(active, document, found) {
            found = Some(place);
        }
    }
    found
}

/// Law: documents can be told apart by their places, since `resolve` gives one place alone to each kind,
/// id and version.
pub fn one_place_for_each_version()
    ensures { OnePlaceForEachVersion }
{}
