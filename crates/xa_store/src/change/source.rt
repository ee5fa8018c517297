//! The source of a domain gets other rows.
ghost use Rattle.std.specs.Prelude.{◌≡◌, ◌≤◌, ◌++◌, true, length, IfOk, OnOk};
ghost use Rattle.sqlite.specs.Held.{state};
ghost use Rattle.xa_records.specs.Changes.{source_set, within};
ghost use Rattle.xa_store.specs.Meaning.{state_at};
ghost use Rattle.xa_store.specs.keeping.Plan.{HaveTexts, PlansOver, RowsRead, SetsSource};
ghost use Rattle.xa_store.specs.keeping.Plan.{row_steps, source_steps};
ghost use Rattle.xa_store.specs.Opened.{holds_value};
ghost use Rattle.xa_store.specs.keeping.Quiet.{OnlyReadsForChangeOver};
ghost use Rattle.xa_store.specs.Rows.{type_number, value_text};
ghost use Rattle.xa_store.specs.Sound.{AreSourceTexts};
ghost use Rattle.xa_store.specs.keeping.Steps.{ReadsBack};
ghost use Rattle.xa_store.specs.keeping.Turns.{PlansIn, Turns};

use crate::change::found::domain_to_change;
use crate::change::laws::{bytes_are_utf8, bytes_are_utf8_if_any};
use crate::change::number::raised_epoch;
use crate::change::{carry_out, with_epoch};
use crate::query::domain::FoundDomain;
use crate::query::source::source_of;
use crate::step::{RaisedEpoch, Step};
use sqlite::{Alter, Connection};
use std::alloc::{AllocError, Global};
use xa_decide::SourceRow;
use xa_records::{ChangeError, Failure, Refusal, is_same_source, is_same_value, may_be_kept};
use xa_value::{Items, Text, Value};

/// Succeeds if the value reads back from its text. One that doesn't, a URI with white space around it for
/// one, can't be kept.
fn check_value(alloc: Global, value: &Value) -> Result<(), Failure>
    ensures reads { OnOk result (ReadsBack value.now) }
    ensures text { OnOk result (holds_value (type_number value.now) (value_text value.now) ≡ true) }
{
    let text = value.to_text(alloc)?;
    let read = Value::read(alloc, value.data_type(), text.as_str())?;
    if is_same_value(&read, value) {
        return Ok(());
    }
    Err(Failure::Store)
}

/// Succeeds if the value of the row reads back.
fn check_row(alloc: Global, row: &SourceRow) -> Result<(), Failure>
    ensures reads { OnOk result (ReadsBack row.now.value) }
    ensures texts { OnOk result (AreSourceTexts row.now) }
{
    // For the proof: the names and the issuer are UTF-8.
    bytes_are_utf8(&row.category);
    bytes_are_utf8(&row.entity);
    bytes_are_utf8(&row.attribute_id);
    bytes_are_utf8_if_any(&row.issuer);

    check_value(alloc, &row.value)
}

/// Succeeds if the values of all the rows read back. In time in proportion to their texts.
fn check_rows(alloc: Global, rows: &[SourceRow]) -> Result<(), Failure>
    ensures reads { OnOk result (RowsRead rows.now) }
    ensures texts { OnOk result (HaveTexts rows.now) }
{
    for row in rows {
        check_row(alloc, row)?;
    }
    Ok(())
}

/// The steps, and then those that add the rows.
fn row_steps(
    mut steps: Items<Step>,
    number: i64,
    rows: Items<SourceRow>,
) -> Result<Items<Step>, AllocError>
    requires { length rows ≤ 4_096 }
    ensures { IfOk result (λ all. all ≡ steps ++ row_steps number 0 rows) }
{
    let mut place: u32 = 0;
    for row in rows.into_vec() {
        steps.push(Step::AddSourceRow {
            number,
            place: i64::from(place),
            row,
        })?;
        place += 1;
    }
    Ok(steps)
}

/// The steps that set the source.
fn source_steps(
    alloc: Global,
    raised: RaisedEpoch,
    rows: Items<SourceRow>,
) -> Result<Items<Step>, AllocError>
    requires { length rows ≤ 4_096 }
    ensures { IfOk result (λ steps. steps ≡ source_steps raised.number raised.epoch rows) }
{
    let mut steps = Items::new(alloc);
    steps.push(Step::DropSource(raised.number))?;
    let steps = with_epoch(steps, raised)?;
    row_steps(steps, raised.number, rows)
}

/// The plan of other source rows, by those that the domain has.
fn plan_source_over(
    alloc: Global,
    domain: FoundDomain,
    source_before: &Items<SourceRow>,
    rows: Items<SourceRow>,
) -> Result<Items<Step>, ChangeError>
    ensures plans { PlansOver (within (source_set rows)) domain
        (λ kept. source_before.now ≡ (state_at kept domain.number).source) result }
    ensures steps { IfOk result (SetsSource domain.number rows) }
{
    if !may_be_kept(&rows) {
        return Err(ChangeError::Refused(Refusal::Quota));
    }
    if is_same_source(source_before, &rows) {
        return Ok(Items::new(alloc));
    }
    check_rows(alloc, rows.as_slice())?;
    let raised = raised_epoch(domain)?;
    Ok(source_steps(alloc, raised, rows)?)
}

/// The plan of other source rows, or why there is no plan.
fn plan_source<S: Alter>(
    alloc: Global,
    conn: &mut Connection<S>,
    name: &Text,
    rows: Items<SourceRow>,
) -> Result<Items<Step>, ChangeError>
    ensures only_reads { OnlyReadsForChangeOver S.Store conn.old conn.new result }
    ensures plans { PlansIn S.Store (within (source_set rows)) name.now conn.old conn.new result }
{
    let domain = domain_to_change(conn, name)?;
    let source_before = source_of(alloc, conn, domain.number)?;
    plan_source_over(alloc, domain, &source_before, rows)
}

/// Puts these rows into the source of the domain of that name, in place of all that were there.
/// It fails with `Store`, too, if a value doesn't read back from its printed text, as a URI with white space
/// around it; no value that was read is such a one.
pub(crate) fn set<S: Alter>(
    alloc: Global,
    conn: &mut Connection<S>,
    name: &Text,
    rows: Items<SourceRow>,
) -> Result<(), ChangeError>
    ensures turns { Turns (within (source_set rows)) name.now
        (state S.Store conn.old) (state S.Store conn.new) result }
{
    let planned = plan_source(alloc, conn, name, rows);
    carry_out(alloc, conn, planned)
}
