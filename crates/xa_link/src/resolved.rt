//! Active documents, each of which is read, and its references resolved, when it is first wanted, and
//! once at most.
ghost use Rattle.std.specs.Prelude.{◌≡◌, ◌≤◌, ◌<◌, ◌==◌, [], length, slice_get};
ghost use Rattle.std.specs.Prelude.{option_map, Some, None, IfOk, OnErr};
ghost use Rattle.std.specs.Result.{result_ok};
ghost use Rattle.xa_notation.specs.Document.{document_of};
ghost use Rattle.xa_shelf.specs.Allowance.{asked};
ghost use Rattle.xa_link.specs.Linking.{document_at};
ghost use Rattle.xa_link.specs.placing.Placed.{AreRight, HasPlaced, SamePlaced, held, placed_at};
ghost use Rattle.xa_link.specs.placing.Progress.{Counted, is_looked, is_read, length_at};
ghost use Rattle.xa_link.specs.Resolution.{resolve};

use crate::active::Active;
use crate::index::Index;
use crate::placed::{Placed, with_places};
use std::alloc::{AllocError, Global};
use std::marker::Model;
use xa_notation::Parsed;
use xa_shelf::TextReader;
use xa_value::{Shared, memory_apart};

/// What is known of a place among active documents.
#[derive(Drop)]
pub(crate) enum Finding {
    /// It wasn't looked at yet.
    NotLooked,
    /// What was found there: the document, its references resolved, or none if the text isn't one.
    Looked(Option<Shared<Placed>>),
}

/// Active documents, and what is known of their places. Clauses see the active documents, and which of
/// them were read.
#[derive(Drop)]
pub(crate) struct Resolved<'a> {
    alloc: Global,
    /// The active documents.
    index: Index<'a>,
    /// What is known of each place; nothing of those past its end.
    documents: Vec<Finding>,
}

impl<'a> Model for Resolved<'a> {
    ghost use Rattle.xa_link.specs.placing.Placed.{AreRight};
    ghost use Rattle.xa_link.specs.placing.Progress.{Progress, marks};

    ghost Value = { Progress };

    ghost view = { λ r. record { active = r.index; read = marks r.documents.items } };

    ghost invariant = { λ r. AreRight r.index r.documents.items };
}

impl<'a> Resolved<'a> {
    /// No reference is resolved yet, and nothing allocated.
    pub(crate) fn new(alloc: Global, active: &'a [Active]) -> Resolved<'a>
        ensures { result ≡ record { active = active.now; read = [] } }
    {
        Resolved {
            alloc,
            index: Index::new(alloc, active),
            documents: Vec::new(alloc),
        }
    }

    /// The document at the place, with places for its references. It is read when it is first wanted,
    /// and once, even if its text isn't a document.
    pub(crate) fn document_at(
        &mut self,
        reader: &mut TextReader<'_>,
        place: usize,
    ) -> Result<Option<Shared<Placed>>, AllocError>
        ensures value { IfOk result (λ document. document ≡ placed_at self.old.active place) }
        ensures kept { self.new.active ≡ self.old.active }
        ensures read { Counted result (λ other. other == place) self.old self.new reader.old reader.new }
    {
        if let Finding::Looked(found) = found_at(self.documents.as_slice(), place)? {
            return Ok(found);
        }
        let found = placed_at(self.alloc, &mut self.index, reader, place)?;
        keep(&mut self.documents, place, share_of(&found)?)?;
        Ok(found)
    }

    /// Whether the document at the place was read.
    pub(crate) fn is_read(&self, place: usize) -> bool
        ensures { result ≡ is_read self.now.read place }
    {
        is_looked_at(self.documents.as_slice(), place)
    }

    /// The allocator.
    pub(crate) fn alloc(&self) -> Global {
        self.alloc
    }
}

/// Puts places that weren't looked at yet to the end, until the place is among them.
fn make_room(documents: &mut Vec<Finding>, place: usize) -> Result<(), AllocError>
    ensures same { SamePlaced documents.old.items documents.new.items }
    ensures room { IfOk result (λ _. place < length documents.new.items) }
{
    while documents.len() <= place {
        documents.push(Finding::NotLooked)?;
    }
    Ok(())
}

/// Keeps what was found at the place.
fn keep(
    documents: &mut Vec<Finding>,
    place: usize,
    found: Option<Shared<Placed>>,
) -> Result<(), AllocError>
    ensures ok { IfOk result (λ _. HasPlaced documents.old.items place found documents.new.items) }
    ensures err { OnErr result (SamePlaced documents.old.items documents.new.items) }
{
    make_room(documents, place)?;
    documents[place] = Finding::Looked(found);
    Ok(())
}

/// A share of the document, if there is one. What a clone of the option gives is stated here once, for
/// both callers.
fn share_of(found: &Option<Shared<Placed>>) -> Result<Option<Shared<Placed>>, AllocError>
    ensures { IfOk result (λ share. share ≡ found.now) }
{
    found.clone()
}

/// Whether the place was looked at.
fn is_looked_at(documents: &[Finding], place: usize) -> bool
    ensures { result ≡ is_looked (held documents.now place) }
{
    matches!(documents.get(place), Some(Finding::Looked(_)))
}

/// What is known of the place.
fn found_at(documents: &[Finding], place: usize) -> Result<Finding, AllocError>
    ensures { IfOk result (λ found. found ≡ held documents.now place) }
{
    match documents.get(place) {
        Some(Finding::Looked(found)) => Ok(Finding::Looked(share_of(found)?)),
        _ => Ok(Finding::NotLooked),
    }
}

/// The document that the text is, if it is one.
fn read_if(reader: &mut TextReader<'_>, text: &[u8]) -> Result<Option<Shared<Parsed>>, AllocError>
    ensures value { IfOk result (λ document. document ≡ result_ok (document_of text.now)) }
    ensures spends { reader.new ≡ asked (length text.now) reader.old }
    ensures within { IfOk result (λ _. length text.now ≤ reader.old.left) }
{
    match memory_apart(reader.read(text))? {
        Ok(document) => Ok(Some(document)),
        Err(_) => Ok(None),
    }
}

/// The document at the place, which is read.
fn read_at(
    active: &[Active],
    reader: &mut TextReader<'_>,
    place: usize,
) -> Result<Option<Shared<Parsed>>, AllocError>
    ensures value { IfOk result (λ document. document ≡ document_at active.now place) }
    ensures spends { reader.new ≡ asked (length_at active.now place) reader.old }
    ensures within { IfOk result (λ _. length_at active.now place ≤ reader.old.left) }
{
    match active.get(place) {
        Some(found) => read_if(reader, found.text.as_slice()),
        None => Ok(None),
    }
}

/// The document at the place, which is read, with places for its references.
#[tactic(auto, using(crate::proofs::PlacedLemmas::placed_is, crate::proofs::PlacedLemmas::none_is))]
fn placed_at(
    alloc: Global,
    index: &mut Index<'_>,
    reader: &mut TextReader<'_>,
    place: usize,
) -> Result<Option<Shared<Placed>>, AllocError>
    ensures value { IfOk result (λ document. document ≡ placed_at index.old place) }
    ensures kept { index.new ≡ index.old }
    ensures spends { reader.new ≡ asked (length_at index.old place) reader.old }
    ensures within { IfOk result (λ _. length_at index.old place ≤ reader.old.left) }
{
    let Some(parsed) = read_at(index.active(), reader, place)? else {
        return Ok(None);
    };
    let document = with_places(alloc, index, parsed.get().document())?;
    Ok(Some(Shared::new(alloc, document)?))
}
