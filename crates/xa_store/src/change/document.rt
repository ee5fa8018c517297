//! The upload of a document, its activation and its deletion.
ghost use Rattle.std.specs.Prelude.{◌≡◌, ℕ, nat_lt, List, bytes_eq, Some, None, IfOk};
ghost use Rattle.sqlite.specs.Held.{state};
ghost use Rattle.sqlite.specs.State.{HasCleanDisk};
ghost use Rattle.sqlite_keyed.specs.Keyed.{IsKeyedBy};
ghost use Rattle.xa_records.specs.Changes.{activity_set, deleted, upload_of, uploaded, within};
ghost use Rattle.xa_records.specs.DomainState.{IsDocumentOf};
ghost use Rattle.xa_records.specs.Kept.{state_of};
ghost use Rattle.xa_store.specs.keeping.Lookup.{FindsDocument, IsDomain};
ghost use Rattle.xa_store.specs.Meaning.{Rows, kept_in};
ghost use Rattle.xa_store.specs.keeping.Plan.{IsUploadPlanned, PlansFound, PlansOver, number_key, upload_by};
ghost use Rattle.xa_store.specs.keeping.Quiet.{OnlyReadsForChangeOver, OverRows};
ghost use Rattle.xa_store.specs.Sound.{AreNumbered, IsKeepersStore};
ghost use Rattle.xa_store.specs.keeping.Turns.{PlansIn, Turns};

use crate::change::found::{document_to_change, domain_to_change};
use crate::change::laws::key_reads_back;
use crate::change::number::raised_epoch;
use crate::change::{carry_out, step_and_epoch};
use crate::query::count::document_count;
use crate::query::document::document_of;
use crate::query::document_row::FoundDocument;
use crate::query::domain::FoundDomain;
use crate::step::Step;
use crate::step::transaction::run;
use sqlite::{Alter, Connection};
use std::alloc::{AllocError, Global};
use xa_policy::DocumentKey;
use xa_records::{ChangeError, MAX_DOCUMENTS, Refusal, Upload, is_same_activity};
use xa_value::{Items, Text};

/// A copy of the text.
fn copy_of_text(alloc: Global, text: &[u8]) -> Result<Items<u8>, AllocError>
    ensures { IfOk result (λ copy. copy ≡ text.now) }
{
    Ok(Items::from_vec(Vec::from_slice(alloc, text)?))
}

/// Whether a domain of so many documents may have one more. For the proof: in a function of its own, the
/// answer is an equation.
fn may_have_one_more_document(count: usize) -> bool
    ensures { result ≡ nat_lt count 1_024 }
{
    count < MAX_DOCUMENTS
}

/// Whether the two texts are one. For the proof: in a function of its own, the answer is an equation.
fn is_same_text(one: &[u8], other: &[u8]) -> bool
    ensures { result ≡ bytes_eq one.now other.now }
{
    one == other
}

/// The plan of an upload, if no document has the key.
fn plan_upload_new<S: Alter>(
    alloc: Global,
    conn: &mut Connection<S>,
    domain: FoundDomain,
    key: DocumentKey,
    text: &[u8],
) -> Result<Items<Step>, ChangeError>
    requires { IsDocumentOf key text.now }
    ensures only_reads { OnlyReadsForChangeOver S.Store conn.old conn.new result }
    ensures plans { OverRows S.Store conn.old conn.new (λ rows. (name : List ℕ) → IsDomain name rows domain
        → FindsDocument domain.number key rows None → IsUploadPlanned key text.now name rows result) }
{
    // For the proof: the key reads back from its row.
    key_reads_back(&key);
    let count = document_count(conn, domain.number)?;
    if !may_have_one_more_document(count) {
        return Err(ChangeError::Refused(Refusal::Quota));
    }
    let raised = raised_epoch(domain)?;
    let copy = copy_of_text(alloc, text)?;
    let step = Step::AddDocument {
        number: domain.number,
        key,
        text: copy,
    };
    Ok(step_and_epoch(alloc, step, raised)?)
}

/// The plan of an upload, if a document has the key: the same text again changes nothing. For the proof: the
/// contract speaks of `domain`.
fn plan_upload_again(
    alloc: Global,
    domain: FoundDomain,
    document: &FoundDocument,
    key: &DocumentKey,
    text: &[u8],
) -> Result<Items<Step>, ChangeError>
    ensures plans { (name : List ℕ) → (rows : Rows) → AreNumbered rows → IsKeyedBy number_key rows.domains
        → IsDomain name rows domain → FindsDocument domain.number key.now rows (Some document.now)
        → IsUploadPlanned key.now text.now name rows result }
{
    // For the proof: the key reads back from its row.
    key_reads_back(key);
    if is_same_text(document.text.as_slice(), text) {
        return Ok(Items::new(alloc));
    }
    Err(ChangeError::Refused(Refusal::SameVersionOtherText))
}

/// The plan of an upload, to the domain that was found.
fn plan_upload_in_domain<S: Alter>(
    alloc: Global,
    conn: &mut Connection<S>,
    domain: FoundDomain,
    key: DocumentKey,
    text: &[u8],
) -> Result<Items<Step>, ChangeError>
    requires { IsDocumentOf key text.now }
    ensures only_reads { OnlyReadsForChangeOver S.Store conn.old conn.new result }
    ensures plans { OverRows S.Store conn.old conn.new (λ rows. (name : List ℕ) → IsDomain name rows domain
        → IsUploadPlanned key text.now name rows result) }
{
    let document = document_of(alloc, conn, domain.number, &key)?;
    match document {
        Some(document) => plan_upload_again(alloc, domain, &document, &key, text),
        None => plan_upload_new(alloc, conn, domain, key, text),
    }
}

/// The plan of an upload, or why there is no plan.
fn plan_upload<S: Alter>(
    alloc: Global,
    conn: &mut Connection<S>,
    name: &Text,
    key: DocumentKey,
    text: &[u8],
) -> Result<Items<Step>, ChangeError>
    requires { IsDocumentOf key text.now }
    ensures only_reads { OnlyReadsForChangeOver S.Store conn.old conn.new result }
    ensures plans { OverRows S.Store conn.old conn.new
        (λ rows. IsUploadPlanned key text.now name.now rows result) }
{
    let domain = domain_to_change(conn, name)?;
    plan_upload_in_domain(alloc, conn, domain, key, text)
}

/// Whether the steps of an upload add a document.
fn upload_by(steps: &[Step]) -> Upload
    ensures { result ≡ upload_by steps.now }
{
    match steps {
        [] => Upload::Same,
        [_, ..] => Upload::New,
    }
}

/// Uploads a document to the domain of that name. It isn't active at first.
pub(crate) fn upload<S: Alter>(
    alloc: Global,
    conn: &mut Connection<S>,
    name: &Text,
    key: DocumentKey,
    text: &[u8],
) -> Result<Upload, ChangeError>
    requires { IsDocumentOf key text.now }
    ensures turns { Turns (within (uploaded key text.now)) name.now
        (state S.Store conn.old) (state S.Store conn.new) result }
    ensures which { HasCleanDisk (state S.Store conn.new) → IsKeepersStore (state S.Store conn.old)
        → IfOk result (λ u.
        u ≡ upload_of key (state_of name.now (kept_in (state S.Store conn.old).now.trees))) }
{
    // Not by `carry_out`: whether the document is new is read off the steps.
    let planned = plan_upload(alloc, conn, name, key, text)?;
    let steps = planned.as_slice();
    let upload = upload_by(steps);
    run(alloc, conn, steps)?;
    Ok(upload)
}

/// The plan of an activation or deactivation, of the document that was found.
fn plan_active_over(
    alloc: Global,
    domain: FoundDomain,
    document: &FoundDocument,
    key: &DocumentKey,
    active: bool,
) -> Result<Items<Step>, ChangeError>
    ensures plans { PlansOver (within (activity_set key.now active)) domain
        (λ rows. FindsDocument domain.number key.now rows (Some document.now)) result }
{
    // For the proof: the key reads back from its row.
    key_reads_back(key);
    if is_same_activity(document.active, active) {
        return Ok(Items::new(alloc));
    }
    let raised = raised_epoch(domain)?;
    let copy = key.clone()?;
    let step = Step::SetActive {
        number: domain.number,
        key: copy,
        active,
    };
    Ok(step_and_epoch(alloc, step, raised)?)
}

/// The plan of an activation or deactivation, in the domain that was found.
fn plan_active_in_domain<S: Alter>(
    alloc: Global,
    conn: &mut Connection<S>,
    domain: FoundDomain,
    key: &DocumentKey,
    active: bool,
) -> Result<Items<Step>, ChangeError>
    ensures only_reads { OnlyReadsForChangeOver S.Store conn.old conn.new result }
    ensures plans { PlansFound S.Store (within (activity_set key.now active)) domain
        conn.old conn.new result }
{
    // For the proof: the key reads back from its row.
    key_reads_back(key);
    let document = document_to_change(alloc, conn, domain.number, key)?;
    plan_active_over(alloc, domain, &document, key, active)
}

/// The plan of an activation or deactivation, or why there is no plan.
fn plan_active<S: Alter>(
    alloc: Global,
    conn: &mut Connection<S>,
    name: &Text,
    key: &DocumentKey,
    active: bool,
) -> Result<Items<Step>, ChangeError>
    ensures only_reads { OnlyReadsForChangeOver S.Store conn.old conn.new result }
    ensures plans { PlansIn S.Store (within (activity_set key.now active)) name.now
        conn.old conn.new result }
{
    let domain = domain_to_change(conn, name)?;
    plan_active_in_domain(alloc, conn, domain, key, active)
}

/// Sets whether references may resolve to the document of that key in the domain of that name.
pub(crate) fn set_active<S: Alter>(
    alloc: Global,
    conn: &mut Connection<S>,
    name: &Text,
    key: &DocumentKey,
    active: bool,
) -> Result<(), ChangeError>
    ensures turns { Turns (within (activity_set key.now active)) name.now
        (state S.Store conn.old) (state S.Store conn.new) result }
{
    let planned = plan_active(alloc, conn, name, key, active);
    carry_out(alloc, conn, planned)
}

/// The plan of a deletion, of the document that was found.
fn plan_delete_over(
    alloc: Global,
    domain: FoundDomain,
    document: &FoundDocument,
    key: &DocumentKey,
) -> Result<Items<Step>, ChangeError>
    ensures plans { PlansOver (within (deleted key.now)) domain
        (λ rows. FindsDocument domain.number key.now rows (Some document.now)) result }
{
    // For the proof: the key reads back from its row.
    key_reads_back(key);
    if document.active {
        return Err(ChangeError::Refused(Refusal::StillActive));
    }
    let raised = raised_epoch(domain)?;
    let copy = key.clone()?;
    let step = Step::DropDocument {
        number: domain.number,
        key: copy,
    };
    Ok(step_and_epoch(alloc, step, raised)?)
}

/// The plan of a deletion, in the domain that was found.
fn plan_delete_in_domain<S: Alter>(
    alloc: Global,
    conn: &mut Connection<S>,
    domain: FoundDomain,
    key: &DocumentKey,
) -> Result<Items<Step>, ChangeError>
    ensures only_reads { OnlyReadsForChangeOver S.Store conn.old conn.new result }
    ensures plans { PlansFound S.Store (within (deleted key.now)) domain conn.old conn.new result }
{
    // For the proof: the key reads back from its row.
    key_reads_back(key);
    let document = document_to_change(alloc, conn, domain.number, key)?;
    plan_delete_over(alloc, domain, &document, key)
}

/// The plan of a deletion, or why there is no plan.
fn plan_delete<S: Alter>(
    alloc: Global,
    conn: &mut Connection<S>,
    name: &Text,
    key: &DocumentKey,
) -> Result<Items<Step>, ChangeError>
    ensures only_reads { OnlyReadsForChangeOver S.Store conn.old conn.new result }
    ensures plans { PlansIn S.Store (within (deleted key.now)) name.now conn.old conn.new result }
{
    let domain = domain_to_change(conn, name)?;
    plan_delete_in_domain(alloc, conn, domain, key)
}

/// Deletes a document of the domain of that name, which must not be active.
pub(crate) fn delete<S: Alter>(
    alloc: Global,
    conn: &mut Connection<S>,
    name: &Text,
    key: &DocumentKey,
) -> Result<(), ChangeError>
    ensures turns { Turns (within (deleted key.now)) name.now
        (state S.Store conn.old) (state S.Store conn.new) result }
{
    let planned = plan_delete(alloc, conn, name, key);
    carry_out(alloc, conn, planned)
}
