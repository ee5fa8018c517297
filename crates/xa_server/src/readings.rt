//! What messages read of a domain. Nothing that is kept changes.
ghost use Rattle.std.specs.Prelude.{◌≡◌, Ok};
ghost use Rattle.xa_http.specs.declared.command.DocumentCommand.TheVariants as document;
ghost use Rattle.xa_decide.specs.Rows.{rows_body};
ghost use Rattle.xa_records.specs.Kept.{names_of};
ghost use Rattle.xa_records.specs.Listing.{listing_body, names_body};
ghost use Rattle.xa_records.specs.Readings.{listing_of_state};
ghost use Rattle.xa_server.specs.handling.Replying.{HandlesReading, OnlyReads, ShowsIfSound};
ghost use Rattle.xa_server.specs.Machine.{by_document_command, told};
ghost use Rattle.xa_server.specs.Replies.{json_reply};

use crate::error_code::ABSENT;
use crate::handling_error::HandlingError;
use crate::replies::json_reply;
use std::alloc::Global;
use xa_decide::write_rows;
use xa_policy::DocumentKey;
use xa_records::{Records, write_listing, write_names};
use xa_value::{Items, Text};

/// The domain's documents. Over tables what this costs grows with all texts of the domain, active or not.
#[tactic(auto, using(crate::proofs::GrowthLemmas::reads))]
pub(crate) fn list_documents<R: Records>(
    alloc: Global,
    records: &mut R,
    name: &Text,
) -> Result<Items<u8>, HandlingError>
    ensures { HandlesReading (R.custody records.old) (R.custody records.new) name.now result
        (told (λ kept. Ok (json_reply (listing_body (listing_of_state kept))))) }
{
    let documents = records.list(alloc, name)?.ok_or(ABSENT)?;
    let body = write_listing(alloc, documents.as_slice())?;
    Ok(json_reply(alloc, &body)?)
}

/// The rows of the domain's source of attributes. The keeper gives them with the whole view: what this
/// costs grows with all active texts of the domain, too, and over tables with the others.
#[tactic(auto, using(crate::proofs::GrowthLemmas::reads))]
pub(crate) fn show_source<R: Records>(
    alloc: Global,
    records: &mut R,
    name: &Text,
) -> Result<Items<u8>, HandlingError>
    ensures { HandlesReading (R.custody records.old) (R.custody records.new) name.now result
        (told (λ kept. Ok (json_reply (rows_body kept.source)))) }
{
    let kept = records.view(alloc, name)?.ok_or(ABSENT)?;
    let body = write_rows(alloc, kept.source.as_slice())?;
    Ok(json_reply(alloc, &body)?)
}

/// The text of a document, as it was uploaded.
#[tactic(auto, using(crate::proofs::GrowthLemmas::reads))]
pub(crate) fn show_document<R: Records>(
    alloc: Global,
    records: &mut R,
    name: &Text,
    key: &DocumentKey,
) -> Result<Items<u8>, HandlingError>
    ensures { HandlesReading (R.custody records.old) (R.custody records.new) name.now result
        (by_document_command document.Show key.now) }
{
    let text = records.document(alloc, name, key)?.ok_or(ABSENT)?;
    Ok(json_reply(alloc, text.as_slice())?)
}

/// The names of all domains. What this costs grows with their number.
pub(crate) fn list_domains<R: Records>(
    alloc: Global,
    records: &mut R,
) -> Result<Items<u8>, HandlingError>
    ensures tells { ShowsIfSound (R.custody records.old) (R.custody records.new) result
        (Ok (json_reply (names_body (names_of (R.custody records.old).kept)))) }
    ensures keeper { OnlyReads (R.custody records.old) (R.custody records.new) result }
{
    let names = records.domains(alloc)?;
    let body = write_names(alloc, names.as_slice())?;
    Ok(json_reply(alloc, &body)?)
}
