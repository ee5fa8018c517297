//! What the decision on one request may cost, and the error of a call that would have cost more.
ghost use Rattle.std.specs.Prelude.{◌≡◌, IfErr, IfOk, Some};
ghost use Rattle.xa_value.specs.declared.or_memory.OrMemory.TheVariants.{Error as Over};
ghost use Rattle.xa_decide.specs.declared.limits.OverLimit.TheVariants.{Reply, Results};
ghost use Rattle.xa_decide.specs.Limits.{IsLonger, IsOver, IsWithin, no_limits};

use thiserror::Error;
use xa_value::OrMemory;

/// What the decision on one request may cost; none is no limit. Nothing is used up: each request begins
/// anew.
#[derive(Clone, Copy, Debug)]
pub struct Limits {
    /// The work, in units.
    pub work: Option<u64>,
    /// The bytes of the response's body.
    pub reply: Option<u64>,
}

impl Limits {
    /// No limits.
    pub fn none() -> Limits
        ensures { result ≡ no_limits }
    {
        Limits {
            work: None,
            reply: None,
        }
    }

    /// Whether a response may have this body; if not, the limit that it is over.
    pub fn check_reply(&self, body: &[u8]) -> Result<(), OverLimit>
        ensures within { IfOk result (λ _. IsWithin self.now.reply body.now) }
        ensures over { IfErr result (λ over. (over ≡ Reply) × IsLonger self.now.reply (Some body.now)) }
    {
        match self.reply {
            Some(most) if body.len() as u64 > most => Err(OverLimit::Reply),
            _ => Ok(()),
        }
    }

    /// Whether a response may have results of so many bytes; if not, the limit that they are over.
    pub(crate) fn check_results(&self, bytes: u64) -> Result<(), OverLimit>
        ensures { IfErr result (λ over. (over ≡ Results) × IsOver self.now.reply bytes) }
    {
        match self.reply {
            Some(most) if bytes > most => Err(OverLimit::Results),
            _ => Ok(()),
        }
    }
}

/// The limit that a call has reached, which therefore has given nothing. No call answers this under no limit.
#[derive(Clone, Copy, Debug, PartialEq, Eq, Error)]
pub enum OverLimit {
    /// That of work: more units were asked for.
    #[error("more work than the limit")]
    Work,
    /// That of the response: its body has more bytes.
    #[error("a longer response than the limit")]
    Reply,
    /// That of the response, before all its results were there: these alone have more bytes.
    #[error("a longer response than the limit")]
    Results,
    /// That of reading: the texts of the policies have more bytes.
    #[error("more policies to read than the limit")]
    Reading,
}

impl From<OverLimit> for OrMemory<OverLimit> {
    ghost from_gives = { λ over e. e ≡ Over over };

    fn from(over: OverLimit) -> OrMemory<OverLimit> {
        OrMemory::Error(over)
    }
}
