//! Whether the keeper can go on. If a call fails, the store is looked at: one that failed for want of memory
//! may have shut the store, too. A look that fails shuts the keeper, whatever its store is.
ghost use Rattle.std.specs.Prelude.{◌≡◌, true, false, Err, IsTrue};
ghost use Rattle.sqlite.specs.Held.{state};
ghost use Rattle.sqlite.specs.declared.error.Error.TheVariants.{SqliteFailure};
ghost use Rattle.sqlite.specs.declared.error.ErrorCode.{ErrorCode};
ghost use Rattle.xa_records.specs.Keeper.{IsOneMore};
ghost use Rattle.xa_store.specs.keeping.Health.{CountsFailure, Looks, Sees, TellsChange, TellsFailure};
ghost use Rattle.xa_store.specs.keeping.Health.{TellsReading};

use crate::sql;
use sqlite::{Alter, Connection, Error, Statement};
use xa_records::{ChangeError, Failure};

/// What is known of a keeper's store.
#[derive(Clone, Copy, Debug)]
pub(crate) struct Health {
    /// Whether the keeper can go on: no look at the store has failed.
    pub(crate) is_open: bool,
    /// How many calls have failed with `Store`.
    pub(crate) faults: u64,
}

impl Health {
    /// What is known of a store of which no call has failed.
    pub(crate) fn fresh() -> Health
        ensures { result ≡ record { is_open = true; faults = 0 } }
    {
        Health {
            is_open: true,
            faults: 0,
        }
    }

    /// Counts one more failure.
    fn count_failure(&mut self)
        ensures counts { IsOneMore self.old.faults self.new.faults }
        ensures keeps { self.new.is_open ≡ self.old.is_open }
    {
        self.faults = self.faults.saturating_add(1);
    }

    /// Counts the failure if it is one of the store.
    fn note(&mut self, failure: Failure) -> Failure
        ensures same { result ≡ failure }
        ensures counts { CountsFailure self.old.faults self.new.faults result }
        ensures keeps { self.new.is_open ≡ self.old.is_open }
    {
        match failure {
            Failure::Memory => Failure::Memory,
            Failure::Store => {
                self.count_failure();
                Failure::Store
            }
        }
    }

    /// What is told of a failure, once the store was looked at: what it was, if the store is open. If the
    /// look fails, the keeper is shut, and the store is told to have failed.
    fn after_failure<S: Alter>(&mut self, conn: &mut Connection<S>, failure: Failure) -> Failure
        requires { IsTrue self.old.is_open }
        ensures looks { Looks (state S.Store conn.old) (state S.Store conn.new) }
        ensures tells { TellsFailure (state S.Store conn.old) (state S.Store conn.new) self.new.is_open
            self.old.faults self.new.faults failure result }
    {
        if look(conn) {
            return self.note(failure);
        }
        self.is_open = false;
        self.note(Failure::Store)
    }

    /// What is told of a reading. If it failed, the store is looked at first. Each call of a shut keeper
    /// fails with `Store`, and is counted. The reading was made all the same: a shut store answers its first
    /// query by `Closed`, at once, and does nothing.
    #[tactic(auto, using(crate::proofs::StandingLemmas::failed_reading))]
    pub(crate) fn after_reading<S: Alter, X: Drop>(
        &mut self,
        conn: &mut Connection<S>,
        read: Result<X, Failure>,
    ) -> Result<X, Failure>
        ensures { TellsReading (state S.Store conn.old) (state S.Store conn.new) self.old.is_open
            self.new.is_open self.old.faults self.new.faults read result }
    {
        if !self.is_open {
            self.count_failure();
            return Err(Failure::Store);
        }
        match read {
            Ok(x) => Ok(x),
            Err(failure) => Err(self.after_failure(conn, failure)),
        }
    }

    /// What is told of a change, as of a reading. A change of a shut keeper ends at its first query, too.
    #[tactic(auto, using(crate::proofs::StandingLemmas::failed_change))]
    pub(crate) fn after_change<S: Alter, X: Drop>(
        &mut self,
        conn: &mut Connection<S>,
        done: Result<X, ChangeError>,
    ) -> Result<X, ChangeError>
        ensures { TellsChange (state S.Store conn.old) (state S.Store conn.new) self.old.is_open
            self.new.is_open self.old.faults self.new.faults done result }
    {
        if !self.is_open {
            self.count_failure();
            return Err(ChangeError::Failed(Failure::Store));
        }
        match done {
            Ok(x) => Ok(x),
            Err(ChangeError::Refused(refusal)) => Err(ChangeError::Refused(refusal)),
            Err(ChangeError::Failed(failure)) => {
                Err(ChangeError::Failed(self.after_failure(conn, failure)))
            }
        }
    }
}

/// Whether a store is open, by its answer to a text that was to be prepared. A shut one answers `Closed`,
/// before it reads the text, and an open one tells what the text is.
fn is_open_by(prepared: Result<Statement, Error>) -> bool
    ensures opened { IsTrue result → (code : ErrorCode) → ¬ (prepared ≡ Err (SqliteFailure code)) }
    ensures failed { result ≡ false → (code : ErrorCode) × (prepared ≡ Err (SqliteFailure code)) }
{
    match prepared {
        Ok(_) => true,
        Err(Error::SqliteFailure(_)) => false,
        Err(_) => true,
    }
}

/// Looks whether the store is open. It isn't, or the look has failed, if the answer is no. The text is no
/// statement, and so no memory is taken for it.
fn look<S: Alter>(conn: &mut Connection<S>) -> bool
    ensures looks { Looks (state S.Store conn.old) (state S.Store conn.new) }
    ensures sees { Sees (state S.Store conn.old) (state S.Store conn.new) result }
{
    let prepared = conn.prepare(sql::NO_STATEMENT);
    is_open_by(prepared)
}
