//! The number after another: numbers of domains and epochs rise by one.
ghost use Rattle.std.specs.Prelude.{◌≡◌, Ok, Err, IfErr, IfOk};
ghost use Rattle.xa_store.specs.keeping.Plan.{RaisesTo};

use crate::query::domain::FoundDomain;
use crate::step::RaisedEpoch;
use xa_records::Failure;

/// The number after this one; there is none after the greatest that a column holds.
pub(crate) fn next_after(number: i64) -> Result<i64, Failure>
    ensures { RaisesTo number result }
{
    if number >= i64::MAX {
        return Err(Failure::Store);
    }
    Ok(number + 1)
}

/// The epoch to which a change raises that of the domain: the next one, with the domain's number.
pub(crate) fn raised_epoch(domain: FoundDomain) -> Result<RaisedEpoch, Failure>
    ensures number { IfOk result (λ raised. raised.number ≡ domain.number) }
    ensures epoch { IfOk result (λ raised. RaisesTo domain.epoch (Ok raised.epoch)) }
    ensures fails { IfErr result (λ failure. RaisesTo domain.epoch (Err failure)) }
{
    let epoch = next_after(domain.epoch)?;
    Ok(RaisedEpoch {
        number: domain.number,
        epoch,
    })
}
