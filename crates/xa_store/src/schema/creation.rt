//! The creation of the tables, in one transaction.
ghost use Rattle.std.specs.Prelude.{◌≡◌, [], ◌∷◌, IsTrue, OnOk};
ghost use Rattle.sqlite.specs.Held.{state};
ghost use Rattle.sqlite.specs.State.{HasCleanDisk};
ghost use Rattle.xa_store.specs.keeping.Check.{MakesTables};
ghost use Rattle.xa_store.specs.keeping.Creation.{creation_statement, AreMade, IsAfter, IsBefore};
ghost use Rattle.xa_store.specs.keeping.Execution.{StaysInside};
ghost use Rattle.xa_store.specs.declared.schema.creation.CreationStep.TheVariants as steps;

use crate::error::OpenError;
use crate::failure::error_of_statement;
use crate::sql;
use crate::step::execution::execute_in;
use sqlite::{Alter, Connection, Transaction};
use xa_records::Failure;

/// A step of the creation: one statement.
#[derive(Clone, Copy, Debug)]
pub(super) enum CreationStep {
    /// The table of the schema's number and the next domain's.
    Meta,
    /// The table of domains.
    Domains,
    /// The table of their tokens.
    Tokens,
    /// The table of their documents.
    Policies,
    /// The table of their roots.
    Roots,
    /// The table of the rows of their sources in schema 1, which stays empty.
    Attributes,
    /// The table of the rows of their sources.
    Sources,
    /// The one row of `meta`.
    FirstRow,
}

impl CreationStep {
    /// All steps, in the order in which they are taken.
    fn all() -> [CreationStep; 8]
        ensures { result ≡ steps.Meta ∷ steps.Domains ∷ steps.Tokens ∷ steps.Policies ∷ steps.Roots
            ∷ steps.Attributes ∷ steps.Sources ∷ steps.FirstRow ∷ [] }
    {
        [
            CreationStep::Meta,
            CreationStep::Domains,
            CreationStep::Tokens,
            CreationStep::Policies,
            CreationStep::Roots,
            CreationStep::Attributes,
            CreationStep::Sources,
            CreationStep::FirstRow,
        ]
    }

    /// Its SQL.
    pub(super) fn statement(self) -> &'static str
        ensures { result.now ≡ creation_statement self }
    {
        match self {
            CreationStep::Meta => sql::CREATE_META,
            CreationStep::Domains => sql::CREATE_DOMAINS,
            CreationStep::Tokens => sql::CREATE_TOKENS,
            CreationStep::Policies => sql::CREATE_POLICIES,
            CreationStep::Roots => sql::CREATE_ROOTS,
            CreationStep::Attributes => sql::CREATE_ATTRIBUTES,
            CreationStep::Sources => sql::CREATE_SOURCES,
            CreationStep::FirstRow => sql::ADD_META_ROW,
        }
    }
}

/// Takes the step.
fn take_creation_step<S: Alter>(
    tx: &mut Transaction<'_, S>,
    step: CreationStep,
) -> Result<(), Failure>
    ensures same_reference { tx.new.conn.ghost_name ≡ tx.old.conn.ghost_name }
    ensures stays { StaysInside (state S.Store tx.old.conn.now) (state S.Store tx.new.conn.now) result }
    ensures makes { HasCleanDisk (state S.Store tx.new.conn.now)
        → IsTrue (state S.Store tx.old.conn.now).in_transaction
        → IsBefore step (state S.Store tx.old.conn.now).now
        → OnOk result (IsAfter step (state S.Store tx.new.conn.now).now) }
{
    execute_in(tx, step.statement(), &[])
}

/// Takes all steps, one after another.
fn take_creation_steps<S: Alter>(tx: &mut Transaction<'_, S>) -> Result<(), Failure>
    ensures same_reference { tx.new.conn.ghost_name ≡ tx.old.conn.ghost_name }
    ensures stays { StaysInside (state S.Store tx.old.conn.now) (state S.Store tx.new.conn.now) result }
    ensures makes { HasCleanDisk (state S.Store tx.new.conn.now)
        → IsTrue (state S.Store tx.old.conn.now).in_transaction
        → IsBefore steps.Meta (state S.Store tx.old.conn.now).now
        → OnOk result (AreMade (state S.Store tx.new.conn.now).now) }
{
    for step in CreationStep::all() {
        take_creation_step(tx, step)?;
    }
    Ok(())
}

/// Makes the tables, all or none.
pub(crate) fn make<S: Alter>(conn: &mut Connection<S>) -> Result<(), OpenError>
    ensures { MakesTables (state S.Store conn.old) (state S.Store conn.new) result }
{
    // For the proof: `transaction` requires that none is under way, which no clause tells here.
    if !conn.is_autocommit() {
        return Err(OpenError::Store);
    }
    let mut tx = conn.transaction();
    take_creation_steps(&mut tx)?;
    tx.commit().map_err(error_of_statement)
}
