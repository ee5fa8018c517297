//! A keeper around another, one of whose calls fails.
ghost use Rattle.std.specs.Prelude.{◌≡◌, IfErr, IfOk};
ghost use Rattle.xa_records.specs.declared.refusal.ChangeError.TheVariants.{Failed};
ghost use Rattle.xa_records.specs.declared.refusal.Failure.TheVariants.{Store};
ghost use Rattle.xa_records.specs.Keeper.{Custody, CountsReading, IsOneMore};

use crate::calls::Call;
use crate::keepers::Reopen;
use crate::no_answer::NoAnswer;
use std::alloc::Global;
use xa_decide::SourceRow;
use xa_notation::Role;
use xa_policy::{DocumentKey, Reference};
use xa_records::{
    ChangeError, Digest, Failure, Gate, KeptView, Listed, Records, Upload, count_failure,
};
use xa_value::{Items, Text};

/// The failure, with `Store`, of a call that isn't made.
#[derive(Clone, Copy)]
struct CallFailed;

impl From<CallFailed> for Failure {
    ghost from_gives = { λ _ e. e ≡ Store };

    fn from(_failed: CallFailed) -> Failure {
        Failure::Store
    }
}

impl From<CallFailed> for ChangeError {
    ghost from_gives = { λ _ e. e ≡ Failed Store };

    fn from(_failed: CallFailed) -> ChangeError {
        ChangeError::Failed(Failure::Store)
    }
}

/// Which call fails: the one that comes after so many others.
#[derive(Drop)]
struct FailurePlan {
    /// How many calls are still made before it.
    left: u64,
    /// The call that failed, once it has come.
    failed: Option<Call>,
}

impl FailurePlan {
    /// Fails if this call, which comes next, is the one that fails. Then its failure is counted.
    fn check(&mut self, call: Call, faults: &mut u64) -> Result<(), CallFailed>
        ensures left { IfOk result (λ _. faults.new ≡ faults.old) }
        ensures counted { IfErr result (λ _. IsOneMore faults.old faults.new) }
    {
        if self.left > 0 {
            self.left -= 1;
            return Ok(());
        }
        if self.failed.is_some() {
            return Ok(());
        }
        self.failed = Some(call);
        count_one(faults);
        Err(CallFailed)
    }
}

/// A keeper around another. The call after so many others isn't made, but fails with `Store`; those after
/// it are made. `faults` isn't counted as a call.
#[derive(Drop)]
pub struct Tripping<R: Records> {
    /// The keeper that makes the calls.
    inner: R,
    /// Which call fails.
    plan: FailurePlan,
    /// How many failures of the storage there were.
    faults: u64,
}

impl<R: Records> Tripping<R> {
    /// The keeper around that one.
    pub fn new(inner: R, left: u64) -> Tripping<R> {
        let plan = FailurePlan { left, failed: None };
        let faults = 0;
        Tripping {
            inner,
            plan,
            faults,
        }
    }

    /// The call that has failed, if it has come.
    pub fn failed_call(&self) -> Option<Call> {
        self.plan.failed
    }
}

impl<R: Records> Records for Tripping<R> {
    ghost custody = { λ t. record {
      kept = (R.custody t.inner).kept;
      sound = (R.custody t.inner).sound;
      clean = (R.custody t.inner).clean;
      may_leave = (R.custody t.inner).may_leave;
      faults = t.faults;
      is_open = (R.custody t.inner).is_open;
    } };

    fn faults(&self) -> u64 {
        self.faults
    }

    fn is_open(&self) -> bool {
        self.inner.is_open()
    }

    fn gate(&mut self, alloc: Global, name: &Text) -> Result<Option<Gate>, Failure> {
        self.plan.check(Call::Gate, &mut self.faults)?;
        let done = self.inner.gate(alloc, name);
        count_reading(&mut self.faults, &done);
        done
    }

    fn view(&mut self, alloc: Global, name: &Text) -> Result<Option<KeptView>, Failure> {
        self.plan.check(Call::View, &mut self.faults)?;
        let done = self.inner.view(alloc, name);
        count_reading(&mut self.faults, &done);
        done
    }

    fn document(
        &mut self,
        alloc: Global,
        name: &Text,
        key: &DocumentKey,
    ) -> Result<Option<Items<u8>>, Failure> {
        self.plan.check(Call::Document, &mut self.faults)?;
        let done = self.inner.document(alloc, name, key);
        count_reading(&mut self.faults, &done);
        done
    }

    fn list(&mut self, alloc: Global, name: &Text) -> Result<Option<Items<Listed>>, Failure> {
        self.plan.check(Call::List, &mut self.faults)?;
        let done = self.inner.list(alloc, name);
        count_reading(&mut self.faults, &done);
        done
    }

    fn domains(&mut self, alloc: Global) -> Result<Items<Text>, Failure> {
        self.plan.check(Call::Domains, &mut self.faults)?;
        let done = self.inner.domains(alloc);
        count_reading(&mut self.faults, &done);
        done
    }

    fn create(&mut self, alloc: Global, name: &Text) -> Result<(), ChangeError> {
        self.plan.check(Call::Create, &mut self.faults)?;
        let done = self.inner.create(alloc, name);
        count_failure(&mut self.faults, &done);
        done
    }

    fn remove(&mut self, alloc: Global, name: &Text) -> Result<(), ChangeError> {
        self.plan.check(Call::Remove, &mut self.faults)?;
        let done = self.inner.remove(alloc, name);
        count_failure(&mut self.faults, &done);
        done
    }

    fn put_token(
        &mut self,
        alloc: Global,
        name: &Text,
        digest: Digest,
        role: Role,
    ) -> Result<(), ChangeError> {
        self.plan.check(Call::PutToken, &mut self.faults)?;
        let done = self.inner.put_token(alloc, name, digest, role);
        count_failure(&mut self.faults, &done);
        done
    }

    fn drop_token(
        &mut self,
        alloc: Global,
        name: &Text,
        digest: Digest,
    ) -> Result<(), ChangeError> {
        self.plan.check(Call::DropToken, &mut self.faults)?;
        let done = self.inner.drop_token(alloc, name, digest);
        count_failure(&mut self.faults, &done);
        done
    }

    fn upload(
        &mut self,
        alloc: Global,
        name: &Text,
        key: DocumentKey,
        text: &[u8],
    ) -> Result<Upload, ChangeError> {
        self.plan.check(Call::Upload, &mut self.faults)?;
        let done = self.inner.upload(alloc, name, key, text);
        count_failure(&mut self.faults, &done);
        done
    }

    fn set_active(
        &mut self,
        alloc: Global,
        name: &Text,
        key: &DocumentKey,
        active: bool,
    ) -> Result<(), ChangeError> {
        self.plan.check(Call::SetActive, &mut self.faults)?;
        let done = self.inner.set_active(alloc, name, key, active);
        count_failure(&mut self.faults, &done);
        done
    }

    fn delete(&mut self, alloc: Global, name: &Text, key: &DocumentKey) -> Result<(), ChangeError> {
        self.plan.check(Call::Delete, &mut self.faults)?;
        let done = self.inner.delete(alloc, name, key);
        count_failure(&mut self.faults, &done);
        done
    }

    fn set_root(
        &mut self,
        alloc: Global,
        name: &Text,
        root: Option<Reference>,
    ) -> Result<(), ChangeError> {
        self.plan.check(Call::SetRoot, &mut self.faults)?;
        let done = self.inner.set_root(alloc, name, root);
        count_failure(&mut self.faults, &done);
        done
    }

    fn set_source(
        &mut self,
        alloc: Global,
        name: &Text,
        rows: Items<SourceRow>,
    ) -> Result<(), ChangeError> {
        self.plan.check(Call::SetSource, &mut self.faults)?;
        let done = self.inner.set_source(alloc, name, rows);
        count_failure(&mut self.faults, &done);
        done
    }

    fn keeps_documents(&self) {
        self.inner.keeps_documents();
    }

    ghost numbered = { λ t. R.numbered t.inner };

    ghost open_if_sound = { λ t. R.open_if_sound t.inner };

    ghost settled = { λ t. R.settled t.inner };
}

impl<R: Reopen> Reopen for Tripping<R> {
    fn keeper_after_stop(self, alloc: Global) -> Result<Tripping<R>, NoAnswer> {
        let Tripping {
            inner,
            plan,
            faults,
        } = self;
        let inner = inner.keeper_after_stop(alloc)?;
        Ok(Tripping {
            inner,
            plan,
            faults,
        })
    }
}

/// Counts one more failure.
fn count_one(faults: &mut u64)
    ensures { IsOneMore faults.old faults.new }
{
    *faults = faults.saturating_add(1);
}

/// Counts the reading if the storage failed.
fn count_reading<X>(faults: &mut u64, done: &Result<X, Failure>)
    ensures { CountsReading faults.old faults.new done.now }
{
    match done {
        Ok(_) | Err(Failure::Memory) => {}
        Err(Failure::Store) => count_one(faults),
    }
}
