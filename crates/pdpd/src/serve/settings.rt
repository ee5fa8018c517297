//! What an operator has set of a server, and the front of such a server.
ghost use Rattle.std.specs.Prelude.{◌≡◌, IfErr, IfOk};
ghost use Rattle.xa_server.specs.Decisions.{nothing_cached};
ghost use Rattle.xa_server.specs.Lines.{none_open};
ghost use Rattle.pdpd.specs.declared.fault.Fault.TheVariants.{Memory};
ghost use Rattle.pdpd.specs.running.Serving.{IsOfSettings};
ghost use Rattle.pdpd.specs.Setting.{limit_of};

use crate::fault::Fault;
use crate::serve::setting::Setting;
use crate::serve::unknown::tell_of_unknown;
use sqlite::Alter;
use std::alloc::Global;
use xa_records::{Digest, Records};
use xa_server::{Front, Server};
use xa_store::SqlRecords;

/// What an operator has set: the limits of a message, each 0 for none; the room for cached views; how long a
/// connection is waited for; and whether a new file has sums.
#[derive(Clone, Copy)]
pub struct Settings {
    /// The units of work of a decision.
    pub work: usize,
    /// The bytes of a response.
    pub reply: usize,
    /// The bytes of policies that may be read.
    pub reading: usize,
    /// The bytes of memory that cached views of domains may take; with 0 none is cached.
    pub views: usize,
    /// For how many seconds a connection may give nothing, or take nothing; 0 for ever.
    pub idle: usize,
    /// Whether a new file of a store has sums.
    pub sums: bool,
}

impl Settings {
    /// What the environment sets, or the fault of the first variable that is set to no number. A line on
    /// standard error tells of each that is named as they are, and is none.
    pub fn read(rt: &HostRuntime) -> Result<Settings, Fault>
        ensures { IfErr result IsOfSettings }
    {
        tell_of_unknown(rt);
        Ok(Settings {
            work: Setting::Work.value(rt)?,
            reply: Setting::Reply.value(rt)?,
            reading: Setting::Reading.value(rt)?,
            views: Setting::Views.value(rt)?,
            idle: Setting::Idle.value(rt)?,
            sums: Setting::Sums.value(rt)? != 0,
        })
    }
}

/// The limit that an operator has set: 0 is none.
fn limit_of(set: usize) -> Option<u64>
    ensures { result ≡ limit_of set }
{
    match set {
        0 => None,
        _ => Some(set as u64),
    }
}

/// The front of a server over the keeper, for that operator and by these settings. No connection is open.
fn front_over<R: Records + Drop>(
    alloc: Global,
    records: R,
    operator: Digest,
    settings: Settings,
) -> Result<Front<R>, Fault>
    ensures operator { IfOk result (λ front. front.server.operator ≡ operator) }
    ensures records { IfOk result (λ front. front.server.records ≡ records) }
    ensures decisions { IfOk result (λ front. front.server.decisions ≡ nothing_cached) }
    ensures closed { IfOk result (λ front. front.lines ≡ none_open) }
    ensures err { IfErr result (λ fault. fault ≡ Memory) }
{
    let server = Server::new(alloc, records, operator)?;
    let server = server
        .with_work_limit(limit_of(settings.work))
        .with_reply_limit(limit_of(settings.reply))
        .with_reading_limit(limit_of(settings.reading))
        .with_view_bytes(settings.views);
    Ok(Front::new(alloc, server)?)
}

/// `front_over` a keeper of tables in any store. That a server may be over such a keeper is proved here, of
/// every store at once: of a certain store that proof is long.
pub fn front_of_tables<S: Alter + Drop>(
    alloc: Global,
    records: SqlRecords<S>,
    operator: Digest,
    settings: Settings,
) -> Result<Front<SqlRecords<S>>, Fault>
    ensures operator { IfOk result (λ front. front.server.operator ≡ operator) }
    ensures records { IfOk result (λ front. front.server.records ≡ records) }
    ensures decisions { IfOk result (λ front. front.server.decisions ≡ nothing_cached) }
    ensures closed { IfOk result (λ front. front.lines ≡ none_open) }
    ensures err { IfErr result (λ fault. fault ≡ Memory) }
{
    front_over(alloc, records, operator, settings)
}
