//! The view of a domain, made of what the keeper has for it.
ghost use Rattle.std.specs.Prelude.{◌≡◌, ◌+◌, ◌≤◌, false, map, true, IfOk};
ghost use Rattle.xa_shelf.specs.Allowance.{IsBeyond};
ghost use Rattle.xa_decide.specs.declared.limits.OverLimit.TheVariants.{Reading};
ghost use Rattle.xa_decide.specs.Limits.{IfOver};
ghost use Rattle.xa_decide.specs.Reading.{IsNotTooLarge};
ghost use Rattle.xa_server.specs.View.{viewed};
ghost use Rattle.xa_server.specs.handling.Viewing.{AreKeyed, active_by_key, read_for};

use std::alloc::{AllocError, Global};
use xa_decide::{OverLimit, View};
use xa_link::Active;
use xa_policy::DocumentKey;
use xa_records::{ActiveText, KeptView};
use xa_shelf::TextReader;
use xa_value::{Items, OrMemory};

/// The document as references may resolve to it, under its key.
fn active_by_key(active: ActiveText) -> Active
    ensures { result ≡ active_by_key active }
{
    let ActiveText { key, text } = active;
    let DocumentKey { kind, id, version } = key;
    Active {
        kind,
        id,
        version,
        text,
    }
}

/// The documents of the texts, in order.
fn all_active(alloc: Global, texts: Items<ActiveText>) -> Result<Items<Active>, AllocError>
    ensures { IfOk result (λ active. active ≡ map active_by_key texts) }
{
    let mut active = Items::new(alloc);
    for one in texts.into_vec() {
        active.push(active_by_key(one))?;
    }
    Ok(active)
}

/// The view. A text is read if the root leads to it, by the keys under which the texts are kept, and no
/// other is looked at. What this costs grows with the number of the texts, and with those that are read.
pub(crate) fn view_of_kept(
    alloc: Global,
    reader: &mut TextReader<'_>,
    kept: KeptView,
) -> Result<View, OrMemory<OverLimit>>
    ensures value { AreKeyed kept.texts → IfOk result (λ view. view ≡ viewed kept) }
    ensures read { AreKeyed kept.texts
        → IfOk result (λ view. IsNotTooLarge view.tree → reader.old.left ≡ reader.new.left + read_for kept) }
    ensures within { AreKeyed kept.texts → IfOk result (λ _. read_for kept ≤ reader.old.left) }
    ensures refused { AreKeyed kept.texts → reader.old.is_spent ≡ false → reader.new.is_spent ≡ true
        → IsBeyond reader.old (read_for kept) }
    ensures over { IfOver result (λ over. (over ≡ Reading) × (reader.new.is_spent ≡ true)) }
{
    let KeptView {
        texts,
        root,
        source,
    } = kept;
    let active = all_active(alloc, texts)?;
    View::new(alloc, reader, active.as_slice(), &root, source)
}
