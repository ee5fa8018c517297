//! Documents whose references have given way to the places of the documents for which they stand.
ghost use Rattle.std.specs.Prelude.{◌≡◌, map, IfOk};
ghost use Rattle.xa_link.specs.placing.Placed.{placed};
ghost use Rattle.xa_link.specs.Resolution.{resolve};

use crate::index::Index;
use std::alloc::{AllocError, Global};
use xa_notation::Document;
use xa_policy::{Policy, PolicySet};
use xa_value::{Items, Shared};

/// A document, or a part of one, in which each reference has given way to the place of the document for
/// which it stands.
#[derive(Debug, Drop)]
pub(crate) enum Placed {
    /// A policy.
    Policy(Shared<Policy>),
    /// A policy set, with its children in order.
    PolicySet(Shared<PolicySet>, Items<Placed>),
    /// A reference, with the place of the document for which it stands, if there is one.
    Reference(Option<usize>),
}

/// The document with places for its references: each of them is resolved once.
#[cycle(places)]
pub(crate) fn with_places(
    alloc: Global,
    index: &mut Index<'_>,
    document: &Document,
) -> Result<Placed, AllocError>
    ensures value { IfOk result (λ p. p ≡ placed (resolve index.old) document.now) }
    ensures kept { index.new ≡ index.old }
{
    match document {
        Document::Policy(policy) => Ok(Placed::Policy(policy.clone()?)),
        Document::PolicySet(set, children) => {
            let children = children_with_places(alloc, index, children.as_slice())?;
            Ok(Placed::PolicySet(set.clone()?, children))
        }
        Document::Reference(reference) => Ok(Placed::Reference(index.resolve(alloc, reference)?)),
    }
}

/// The children with places for their references.
#[cycle(places)]
fn children_with_places(
    alloc: Global,
    index: &mut Index<'_>,
    children: &[Document],
) -> Result<Items<Placed>, AllocError>
    ensures value { IfOk result (λ ps. ps ≡ map (placed (resolve index.old)) children.now) }
    ensures kept { index.new ≡ index.old }
{
    index.expect(alloc, children.len())?;
    let mut all = Vec::with_capacity(alloc, children.len())?;
    for child in children {
        all.push(with_places(alloc, index, child)?)?;
    }
    Ok(Items::from_vec(all))
}
