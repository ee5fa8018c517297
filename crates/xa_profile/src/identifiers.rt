//! The policies and policy sets that a result names.
ghost use Rattle.std.specs.Prelude.{◌≡◌, map, IfOk};
ghost use Rattle.xa_profile.specs.Response.{identifier_data, identifiers_data, of_kind};
ghost use Rattle.xa_profile.specs.writing.Tokens.{Appends, tokens, identifiers_if_any_tokens};

use crate::member::Member;
use crate::writing::{ToJson, write_items_if_any, write_text};
use json::Writer;
use std::alloc::{AllocError, Global};
use xa_policy::{DocumentKey, DocumentKind};
use xa_value::Shared;

impl ToJson for &DocumentKey {
    ghost written = { λ k. identifier_data k.now };

    #[tactic(auto, unfolding(crate::specs::Response::identifier_data))]
    fn write(&self, alloc: Global, out: &mut Writer) -> Result<(), AllocError> {
        out.begin_object()?;
        write_text(out, Member::Id, self.id.as_str())?;
        let version = self.version.to_text(alloc)?;
        write_text(out, Member::Version, version.as_str())?;
        out.end_object()
    }
}

/// The keys of the kind.
fn keys_of_kind<'a>(
    alloc: Global,
    kind: DocumentKind,
    keys: &'a [Shared<DocumentKey>],
) -> Result<Vec<&'a DocumentKey>, AllocError>
    ensures { IfOk result (λ found. map (λ k. identifier_data k.now) found.items ≡ of_kind kind keys.now) }
{
    let mut found = Vec::new(alloc);
    for key in keys {
        if kind == key.get().kind {
            found.push(key.get())?;
        }
    }
    Ok(found)
}

/// Writes an object of the policies, and then the policy sets, that are named.
#[tactic(auto, unfolding(crate::specs::Response::identifiers_data), using(crate::proofs::TokenLemmas::items_if_any_first))]
fn write_identifiers(
    alloc: Global,
    out: &mut Writer,
    keys: &[Shared<DocumentKey>],
) -> Result<(), AllocError>
    ensures { Appends result out.old out.new (tokens (identifiers_data keys.now)) }
{
    let policies = keys_of_kind(alloc, DocumentKind::Policy, keys)?;
    let sets = keys_of_kind(alloc, DocumentKind::PolicySet, keys)?;
    out.begin_object()?;
    write_items_if_any(alloc, out, Member::PolicyIdReference, policies.as_slice())?;
    write_items_if_any(alloc, out, Member::PolicySetIdReference, sets.as_slice())?;
    out.end_object()
}

/// Writes the member PolicyIdentifierList; nothing if nothing is named.
#[tactic(auto, using(crate::proofs::TokenLemmas::no_identifiers, crate::proofs::TokenLemmas::some_identifiers))]
pub(crate) fn write_identifiers_if_any(
    alloc: Global,
    out: &mut Writer,
    keys: &[Shared<DocumentKey>],
) -> Result<(), AllocError>
    ensures { Appends result out.old out.new (identifiers_if_any_tokens keys.now) }
{
    if keys.is_empty() {
        return Ok(());
    }
    out.key(Member::PolicyIdentifierList.name())?;
    write_identifiers(alloc, out, keys)
}
