//! A state of a domain, without its content.
ghost use Rattle.std.specs.Prelude.{◌≡◌};
ghost use Rattle.xa_server.specs.handling.Gates.{revision_by};

use xa_records::Gate;

/// A domain's revision: which domain it is, and in which state. No two domains ever have one number, and
/// the epoch of a domain rises with each change of what decides there. So while a domain is at one
/// revision, what decides there is the same.
#[derive(Clone, Copy)]
pub(crate) struct Revision {
    /// The domain's number.
    pub(crate) number: u64,
    /// Its epoch.
    pub(crate) epoch: u64,
}

impl Revision {
    /// The revision of the domain that has this gate.
    pub(crate) fn of(gate: &Gate) -> Revision
        ensures { result ≡ revision_by gate.now }
    {
        Revision {
            number: gate.number,
            epoch: gate.epoch,
        }
    }
}
