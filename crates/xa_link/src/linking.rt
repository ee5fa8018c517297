//! The tree that a reference leads to.
ghost use Rattle.std.specs.Prelude.{◌≡◌, ◌≤◌, ◌+◌, ◌-◌, ◌∷◌, ℕ, false};
ghost use Rattle.std.specs.Prelude.{true, List, map, None, IfOk, IsTrue};
ghost use Rattle.xa_value.specs.Gives.{Gives, answered};
ghost use Rattle.xa_policy.specs.declared.linked.Linked.TheVariants.{Unresolved};
ghost use Rattle.xa_shelf.specs.Allowance.{IsBeyond};
ghost use Rattle.xa_link.specs.declared.active.Active.{Active as Document};
ghost use Rattle.xa_link.specs.Linking.{document_at, link, replaced_in, tree_within, unless_circular};
ghost use Rattle.xa_link.specs.placing.Placed.{led_within, linked};
ghost use Rattle.xa_link.specs.placing.Progress.{Counted, led_at, led_from, led_from_all, led_to_within};
ghost use Rattle.xa_link.specs.Reading.{OnceAnswered, reading};
ghost use Rattle.xa_link.specs.Resolution.{resolve};
ghost use Rattle.xa_link.specs.placing.Room.{all_fitted, fitted, policy_fitted, set_fitted};

use crate::active::Active;
use crate::link_error::LinkError;
use crate::placed::Placed;
use crate::reach::read_all;
use crate::resolution::resolve;
use crate::resolved::Resolved;
use crate::room::{Fitted, less_one};
use std::alloc::{AllocError, Global};
use xa_policy::{Linked, Policy, PolicySet, Reference};
use xa_shelf::TextReader;
use xa_value::{Boxed, Items, OrMemory, Shared};

/// How many documents may stand on a path, the first one too. The standard sets no bound; linking
/// recurses once for each, and for each policy set inside one.
pub(crate) const MAX_PATH_LEN: usize = 17;

/// How many policies and policy sets a tree may have. The standard sets no bound; 17 sets that each name
/// the next one twice make 2^17.
const MAX_SIZE: usize = 1_000;

/// A path from the root.
#[derive(Drop)]
struct Path<'p> {
    /// The places of the documents on it, the last one first.
    places: &'p [usize],
    /// How many documents may be added to it.
    more: usize,
}

/// The place, if it isn't on the path already.
fn unless_circular(path: &[usize], place: Option<usize>) -> Option<usize>
    ensures { result ≡ unless_circular path.now place }
{
    let place = place?;
    if path.contains(&place) {
        return None;
    }
    Some(place)
}

/// Whether the part of a document is a reference that leads to nothing at the end of the path: to no
/// document, back to one on the path, or one too far. Such a part is a leaf, for which nothing is read.
/// The clauses say so of an answer of true. A part of which the answer is false goes to
/// `linked_document`, which gives the same leaf to one that leads to nothing. It is asked first for speed
/// alone: a tree may have 1,000 times as many such leaves as a document has.
#[tactic(auto, using(crate::proofs::LinkingLemmas::no_further, crate::proofs::LinkingLemmas::nowhere, crate::proofs::LedLemmas::unread_no_further, crate::proofs::LedLemmas::unread_nowhere))]
fn leads_nowhere(path: &Path<'_>, part: &Placed) -> bool
    ensures leaf { IsTrue result → (active : List Document)
        → linked (led_within path.now.more active path.now.places.now) part.now ≡ Unresolved }
    ensures unread { IsTrue result → (active : List Document) (place : ℕ)
        → led_from path.now.more active path.now.places.now part.now place ≡ false }
{
    match part {
        Placed::Reference(place) => {
            path.more == 0 || unless_circular(path.places, *place).is_none()
        }
        Placed::Policy(_) | Placed::PolicySet(_, _) => false,
    }
}

/// The path with one more document.
fn longer_path(alloc: Global, place: usize, path: &[usize]) -> Result<Items<usize>, AllocError>
    ensures { IfOk result (λ longer. longer ≡ place ∷ path.now) }
{
    let mut longer = Items::from_vec(Vec::with_capacity(alloc, path.len().saturating_add(1))?);
    longer.push(place)?;
    for before in path {
        longer.push(*before)?;
    }
    Ok(longer)
}

/// The leaf of a reference that leads to nothing, which takes no room.
fn leaf(room: usize) -> Fitted<Linked>
    ensures { result ≡ record { part = Unresolved; room = room } }
{
    Fitted {
        part: Linked::Unresolved,
        room,
    }
}

/// The policy, shared with its document.
#[tactic(auto, unfolding(crate::specs::placing::Room::policy_fitted))]
fn linked_policy(
    policy: &Shared<Policy>,
    room: usize,
) -> Result<Fitted<Linked>, OrMemory<LinkError>>
    ensures { Gives result (policy_fitted room policy.now) }
{
    let room = less_one(room)?;
    Ok(Fitted {
        part: Linked::Policy(policy.clone()?),
        room,
    })
}

/// The tree of the document at the place, at the end of the path; a leaf if there is none.
#[cycle(linking)]
#[tactic(auto, using(crate::proofs::RoomLemmas::unresolved_fits))]
fn linked_reference(
    resolved: &mut Resolved<'_>,
    reader: &mut TextReader<'_>,
    path: &Path<'_>,
    place: Option<usize>,
    room: usize,
) -> Result<Fitted<Linked>, OrMemory<LinkError>>
    ensures value { Gives result
        (fitted room (led_within path.now.more resolved.old.active path.now.places.now place)) }
    ensures exact { unless_circular path.now.places.now place ≡ None
        → result
        ≡ answered (fitted room (led_within path.now.more resolved.old.active path.now.places.now place)) }
    ensures kept { resolved.new.active ≡ resolved.old.active }
    ensures read { Counted result (led_to_within path.now.more resolved.old.active path.now.places.now place)
        resolved.old resolved.new reader.old reader.new }
{
    if path.more == 0 {
        return Ok(leaf(room));
    }
    match unless_circular(path.places, place) {
        Some(place) => linked_active(resolved, reader, path, place, room),
        None => Ok(leaf(room)),
    }
}

/// The tree of the document at the place, which is one more on the path.
#[cycle(linking)]
fn linked_active(
    resolved: &mut Resolved<'_>,
    reader: &mut TextReader<'_>,
    path: &Path<'_>,
    place: usize,
    room: usize,
) -> Result<Fitted<Linked>, OrMemory<LinkError>>
    requires { 1 ≤ path.now.more }
    ensures value { Gives result (fitted room
        (replaced_in (tree_within (path.now.more - 1) resolved.old.active (place ∷ path.now.places.now))
        (document_at resolved.old.active place))) }
    ensures kept { resolved.new.active ≡ resolved.old.active }
    ensures read { Counted result (led_at (path.now.more - 1) resolved.old.active path.now.places.now place)
        resolved.old resolved.new reader.old reader.new }
{
    let Some(document) = resolved.document_at(reader, place)? else {
        return Ok(leaf(room));
    };
    let places = longer_path(resolved.alloc(), place, path.places)?;
    let longer = Path {
        places: places.as_slice(),
        more: path.more - 1,
    };
    linked_document(resolved, reader, &longer, document.get(), room)
}

/// The document, or a part of one, in which each reference is replaced.
#[cycle(linking)]
fn linked_document(
    resolved: &mut Resolved<'_>,
    reader: &mut TextReader<'_>,
    path: &Path<'_>,
    document: &Placed,
    room: usize,
) -> Result<Fitted<Linked>, OrMemory<LinkError>>
    ensures value { Gives result (fitted room
        (linked (led_within path.now.more resolved.old.active path.now.places.now) document.now)) }
    ensures kept { resolved.new.active ≡ resolved.old.active }
    ensures read { Counted result
        (led_from path.now.more resolved.old.active path.now.places.now document.now)
        resolved.old resolved.new reader.old reader.new }
{
    match document {
        Placed::Policy(policy) => linked_policy(policy, room),
        Placed::PolicySet(set, children) => {
            linked_set(resolved, reader, path, set, children.as_slice(), room)
        }
        Placed::Reference(place) => linked_reference(resolved, reader, path, *place, room),
    }
}

/// The policy set, shared with its document, and its children.
#[cycle(linking)]
#[tactic(auto, unfolding(crate::specs::placing::Room::set_fitted))]
fn linked_set(
    resolved: &mut Resolved<'_>,
    reader: &mut TextReader<'_>,
    path: &Path<'_>,
    set: &Shared<PolicySet>,
    children: &[Placed],
    room: usize,
) -> Result<Fitted<Linked>, OrMemory<LinkError>>
    ensures value { Gives result
        (set_fitted room set.now
        (map (linked (led_within path.now.more resolved.old.active path.now.places.now)) children.now)) }
    ensures kept { resolved.new.active ≡ resolved.old.active }
    ensures read { Counted result
        (led_from_all path.now.more resolved.old.active path.now.places.now children.now)
        resolved.old resolved.new reader.old reader.new }
{
    let room = less_one(room)?;
    let children = linked_children(resolved, reader, path, children, room)?;
    Ok(Fitted {
        part: Linked::PolicySet(set.clone()?, Boxed::new(resolved.alloc(), children.part)?),
        room: children.room,
    })
}

/// The children in which each reference is replaced, one after another.
#[cycle(linking)]
#[tactic(auto, using(crate::proofs::RoomLemmas::part_behind))]
fn linked_children(
    resolved: &mut Resolved<'_>,
    reader: &mut TextReader<'_>,
    path: &Path<'_>,
    children: &[Placed],
    mut room: usize,
) -> Result<Fitted<Items<Linked>>, OrMemory<LinkError>>
    ensures value { Gives result (all_fitted room
        (map (linked (led_within path.now.more resolved.old.active path.now.places.now)) children.now)) }
    ensures kept { resolved.new.active ≡ resolved.old.active }
    ensures read { Counted result
        (led_from_all path.now.more resolved.old.active path.now.places.now children.now)
        resolved.old resolved.new reader.old reader.new }
{
    let mut parts = Items::from_vec(Vec::with_capacity(resolved.alloc(), children.len())?);
    for child in children {
        if leads_nowhere(path, child) {
            parts.push(Linked::Unresolved)?;
        } else {
            let fitted = linked_document(resolved, reader, path, child, room)?;
            parts.push(fitted.part)?;
            room = fitted.room;
        }
    }
    Ok(Fitted { part: parts, room })
}

/// The tree that the reference leads to among the active documents (XACML 3.0, core, sections 5.10, 5.11
/// and 7.15). A reference that leads to no document, back to one on its path, or past 17 documents is
/// left unresolved. Rules are shared with the documents. First all documents to which the root leads are
/// read, and their references resolved, each once, also if the tree is too large then. Once a document is
/// resolved, a reference in it that leads nowhere costs its leaf alone. It fails for want of memory only if
/// an allocation failed, or if the reader's limit is reached.
///
/// Of n active documents a reference compares some log n. Each shape of patterns, of which there are 765,
/// costs once some n log n comparisons more.
#[tactic(auto, using(crate::proofs::LinkingLemmas::link_is_led))]
pub fn link(
    alloc: Global,
    reader: &mut TextReader<'_>,
    active: &[Active],
    root: &Reference,
) -> Result<Linked, OrMemory<LinkError>>
    ensures value { Gives result (link active.now root.now) }
    ensures exact { resolve active.now root.now ≡ None → result ≡ answered (link active.now root.now) }
    ensures read { IfOk result (λ _. reader.old.left ≡ reader.new.left + reading active.now root.now) }
    ensures within { OnceAnswered result (reading active.now root.now ≤ reader.old.left) }
    ensures refused { reader.old.is_spent ≡ false → reader.new.is_spent ≡ true
        → IsBeyond reader.old (reading active.now root.now) }
{
    let mut resolved = Resolved::new(alloc, active);
    let place = resolve(active, root);
    read_all(&mut resolved, reader, place)?;
    let path = Path {
        places: &[],
        more: MAX_PATH_LEN,
    };
    let fitted = linked_reference(&mut resolved, reader, &path, place, MAX_SIZE)?;
    Ok(fitted.part)
}
