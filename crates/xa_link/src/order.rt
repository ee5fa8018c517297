//! The orders in which documents are looked for, one for each shape of patterns: by what such a pattern sees
//! of their versions, then by kind and id, then by version. The greatest comes first.
ghost use Rattle.std.specs.Prelude.{◌≡◌, slice_get, None, IfOk};
ghost use Rattle.std.specs.Option.{option_cmp};
ghost use Rattle.xa_link.specs.placing.Order.{IsOrder, by_bounds, compare_documents, compare_names};
ghost use Rattle.xa_link.specs.placing.Order.{compare_places, compare_seen_found, name, standing};
ghost use Rattle.xa_link.specs.placing.Order.{standing_of};
ghost use Rattle.xa_link.specs.Resolution.{resolve};

use crate::active::Active;
use crate::resolution::{not_after, not_before};
use crate::seen::{compare_seen_by, compare_wanted_by};
use std::alloc::{AllocError, Global};
use std::cmp::Ordering;
use xa_policy::{DocumentKind, Pattern, Reference, Version};
use xa_value::Text;

/// How a kind and an id compare with others.
fn compare_names(
    kind: DocumentKind,
    id: &Text,
    other_kind: DocumentKind,
    other_id: &Text,
) -> Ordering
    ensures { result ≡ compare_names (name kind id.now) (name other_kind other_id.now) }
{
    kind.place()
        .cmp(&other_kind.place())
        .then_with(|| id.cmp(other_id))
}

/// How a document compares with another: by kind, id and version.
fn compare_documents(first: &Active, second: &Active) -> Ordering
    ensures { result ≡ compare_documents None first.now second.now }
{
    compare_names(first.kind, &first.id, second.kind, &second.id).then_with(|| first
        .version
        .cmp(&second.version))
}

/// How the documents at two places compare. A place without a document is less than one that has one.
fn compare_found(active: &[Active], first: usize, second: usize) -> Ordering
    ensures { result
        ≡ option_cmp (compare_documents None) (slice_get active.now first) (slice_get active.now second) }
{
    match (active.get(first), active.get(second)) {
        (Some(document), Some(other)) => compare_documents(document, other),
        (Some(_), None) => Ordering::Greater,
        (None, Some(_)) => Ordering::Less,
        (None, None) => Ordering::Equal,
    }
}

/// How the place of a document compares with that of another: the greater document comes first, and of
/// like ones the first.
fn compare_places(active: &[Active], first: usize, second: usize) -> Ordering
    ensures { result ≡ compare_places None active.now first second }
{
    compare_found(active, second, first).then_with(|| first.cmp(&second))
}

/// The places of the documents in that order, which is the one for references without a pattern. Documents
/// that are in it already, or the other way round, take one comparison each, and else n documents some n log
/// n.
pub(crate) fn places_in_order(alloc: Global, active: &[Active]) -> Result<Vec<usize>, AllocError>
    ensures { IfOk result (λ order. IsOrder None active.now order.items) }
{
    let mut order: Vec<usize> = (0..active.len()).collect(alloc)?;
    order.sort_by(|first, second| compare_places(active, *first, *second))?;
    Ok(order)
}

/// How what the pattern sees of the documents at two places compares.
fn compare_seen_found(
    active: &[Active],
    pattern: &Option<Pattern>,
    first: usize,
    second: usize,
) -> Ordering
    ensures { result
        ≡ compare_seen_found pattern.now (slice_get active.now first) (slice_get active.now second) }
{
    match (active.get(first), active.get(second)) {
        (Some(document), Some(other)) => {
            compare_seen_by(pattern, &document.version, &other.version)
        }
        (Some(_), None) => Ordering::Greater,
        (None, Some(_)) => Ordering::Less,
        (None, None) => Ordering::Equal,
    }
}

/// The places in the order for patterns of this one's shape: those that such patterns see alike stay in the
/// order in which they are.
pub(crate) fn reordered(
    active: &[Active],
    pattern: &Option<Pattern>,
    mut order: Vec<usize>,
) -> Result<Vec<usize>, AllocError>
    requires { IsOrder None active.now order.items }
    ensures { IfOk result (λ after. IsOrder pattern.now active.now after.items) }
{
    order.sort_by(|first, second| compare_seen_found(active, pattern, *second, *first))?;
    Ok(order)
}

/// Where the version stands to those within the reference's bounds, the newest being the first: Less before
/// them, Equal among them, Greater after them.
fn by_bounds(reference: &Reference, version: &Version) -> Ordering
    ensures { result ≡ by_bounds reference.now version.now }
{
    if !not_after(&reference.latest, version) {
        Ordering::Less
    } else if !not_before(&reference.earliest, version) {
        Ordering::Greater
    } else {
        Ordering::Equal
    }
}

/// Where the document stands to those that fit the reference, in the order for its pattern: Less before
/// them, Equal if it fits, Greater after them.
fn standing_of(reference: &Reference, document: &Active) -> Ordering
    ensures { result ≡ standing_of reference.now document.now }
{
    compare_wanted_by(&reference.version, &document.version)
        .then_with(|| compare_names(reference.kind, &reference.id, document.kind, &document.id))
        .then_with(|| by_bounds(reference, &document.version))
}

/// Where the document at the place stands to those that fit the reference; Greater if there is none.
fn standing_at(active: &[Active], place: usize, reference: &Reference) -> Ordering
    ensures { result ≡ standing reference.now (slice_get active.now place) }
{
    match active.get(place) {
        Some(document) => standing_of(reference, document),
        None => Ordering::Greater,
    }
}

/// The place of the document for which the reference stands, by the order for its pattern: the first that
/// doesn't stand before those that fit, if it fits. Of n documents some log n are compared.
pub(crate) fn resolve_by_order(
    active: &[Active],
    order: &[usize],
    reference: &Reference,
) -> Option<usize>
    requires { IsOrder reference.now.version active.now order.now }
    ensures { result ≡ resolve active.now reference.now }
{
    let start = order.partition_point(|place| standing_at(active, *place, reference).is_lt());
    let place = *order.get(start)?;
    if standing_at(active, place, reference).is_gt() {
        return None;
    }
    Some(place)
}
