//! The server: a keeper of all domains, one message after another.
ghost use Rattle.std.specs.Prelude.{◌≡◌, IfOk, IsTrue, OnErr, MatchResult};
ghost use Rattle.xa_records.specs.declared.refusal.Failure.TheVariants.{Store};
ghost use Rattle.xa_server.specs.Isolation.{TwoWorldsAgree, TwoWorldsAgreeBesideRefusals};
ghost use Rattle.xa_server.specs.declared.replies.Reply.TheVariants.{Refused};
ghost use Rattle.xa_server.specs.handling.Replying.{IsReplyOf};

use crate::cause::{Cause, RefusedMessage, Unanswered};
use crate::dispatch::{domain_of, reply_to_message};
use crate::handling_error::HandlingError;
use crate::received_message::ReceivedMessage;
use crate::replies::Reply;
use crate::resources::Resources;
use std::alloc::{AllocError, AllocFailed, Global};
use std::marker::Model;
use xa_decide::{Limits, OverLimit};
use xa_http::{Message, Routes};
use xa_records::{Digest, Failure, Records};
use xa_value::{Items, Moment};

/// A server over a keeper.
#[derive(Drop)]
pub struct Server<R: Records> {
    /// Where memory comes from.
    pub(crate) alloc: Global,
    /// The routes of the messages.
    routes: Routes,
    /// The digest of the operator's token.
    operator: Digest,
    /// The keeper.
    records: R,
    /// What all domains share.
    resources: Resources,
    /// The last message that was refused, until it is taken. No clause speaks of it.
    refused: Option<RefusedMessage>,
}

impl<R: Records> Model for Server<R> {
    ghost use Rattle.std.specs.Coded.{codes};
    ghost use Rattle.xa_server.specs.Resources.{AllStand};
    ghost use Rattle.xa_server.specs.World.{ServerModel};
    ghost use Rattle.xa_server.specs.contracts.resources.Resources as shared;

    ghost Value = { ServerModel R };

    ghost coded = { Prim.hlevel (codes, R.code, shared.the_row.coded) };

    ghost view = { λ s.
        record { operator = s.operator; records = s.records; decisions = s.resources.decisions } };

    ghost invariant = { λ s. (R.custody s.records).sound → AllStand (R.custody s.records).kept s.resources };
}

impl<R: Records> Server<R> {
    ghost use Rattle.xa_server.specs.Crash.{LeavesStep};
    ghost use Rattle.xa_server.specs.Decisions.{nothing_cached};
    ghost use Rattle.xa_server.specs.Isolation.{IsIsolated, IsIsolatedBesideRefusals};
    ghost use Rattle.xa_server.specs.Served.{CountsReply, IsRun, IsServed};
    ghost use Rattle.xa_server.specs.Serving.{AreServed};
    ghost use Rattle.xa_server.specs.Work.{IsWork, IsWorkOfRun};
    ghost use Rattle.xa_server.specs.World.{world};

    /// A server over the keeper, with the digest of the operator's token. Without memory the keeper is
    /// handed back.
    pub fn new(alloc: Global, records: R, operator: Digest) -> Result<Server<R>, AllocFailed<R>>
        ensures { MatchResult result
            (λ server.
            (server.records ≡ records) × (server.operator ≡ operator) × (server.decisions ≡ nothing_cached))
            (λ failed. failed.value ≡ records) }
    {
        let Ok(routes) = Routes::new(alloc) else {
            return Err(AllocFailed { value: records });
        };
        let Ok(resources) = Resources::new(alloc, operator) else {
            return Err(AllocFailed { value: records });
        };
        Ok(Server {
            alloc,
            routes,
            operator,
            records,
            resources,
            refused: None,
        })
    }

    /// Answers one message, by the machine of the domain that its path names. No other domain's state
    /// changes; after a refusal none has. It is refused for storage only if the keeper has counted a
    /// failure. If the keeper was sound before and the disk gave back what was written, a crash afterwards
    /// leaves what a crash before could leave, or all with this one step made; and the keeper is sound
    /// still, unless it can't go on. Only a refusal for want of storage leaves it so.
    pub fn serve(&mut self, moment: Moment, message: &Message) -> Reply
        ensures served { (R.custody self.new.records).sound
            → IsServed (world R.custody self.old) (world R.custody self.new) moment message.now result }
        ensures sound { (R.custody self.new.records).sound → (R.custody self.old.records).sound }
        ensures clean { (R.custody self.new.records).clean → (R.custody self.old.records).clean }
        ensures stays { (R.custody self.new.records).clean → (R.custody self.old.records).sound
            → IsTrue (R.custody self.new.records).is_open → (R.custody self.new.records).sound }
        ensures was_open { IsTrue (R.custody self.new.records).is_open
            → IsTrue (R.custody self.old.records).is_open }
        ensures stays_open { ¬ (result ≡ Refused Store) → IsTrue (R.custody self.old.records).is_open
            → IsTrue (R.custody self.new.records).is_open }
        ensures crash { (R.custody self.new.records).clean → (R.custody self.old.records).sound
            → LeavesStep (R.custody self.old.records).may_leave (R.custody self.new.records).may_leave
            (world R.custody self.old) moment message.now }
        ensures counts { CountsReply
            (R.custody self.old.records).faults (R.custody self.new.records).faults result }
        ensures work { (R.custody self.new.records).sound
            → IsWork (R.custody self.old.records).kept moment message.now result
            self.old.decisions self.new.decisions }
    {
        let received = ReceivedMessage {
            operator: self.operator,
            message,
            moment,
        };
        let answered = reply_to_message(
            self.alloc,
            &self.routes,
            &mut self.resources,
            &mut self.records,
            &received,
        );
        let over = over_limit_of(&answered);
        let reply = reply_of(self.alloc, answered);
        note_refused(
            self.alloc,
            &self.routes,
            &mut self.refused,
            &reply,
            over,
            message,
        );
        reply
    }

    /// Answers the messages one after another, each at its moment. Whatever the other domains do, each
    /// domain's replies are those of its own machine, used by it alone; with refusals, as if the refused
    /// messages had never come. If the keeper ends shut, this holds of the messages up to the one after
    /// which it was, if it was sound before them and the disk gave back what was written. Room for all
    /// replies is taken first, and without it nothing is answered.
    pub fn run(&mut self, events: &[(Moment, Message)]) -> Result<Vec<Reply>, AllocError>
        ensures headline { IfOk result (λ replies. (R.custody self.new.records).sound
            → IsIsolated (world R.custody self.old) (world R.custody self.new) events.now replies.items) }
        ensures beside_refusals { IfOk result (λ replies. (R.custody self.new.records).sound
            → IsIsolatedBesideRefusals (world R.custody self.old) (world R.custody self.new)
            events.now replies.items) }
        ensures run { IfOk result (λ replies. (R.custody self.new.records).sound
            → IsRun (world R.custody self.old) events.now replies.items (world R.custody self.new)) }
        ensures work { IfOk result (λ replies. (R.custody self.new.records).sound
            → IsWorkOfRun (world R.custody self.old) self.old.decisions events.now replies.items
            (world R.custody self.new) self.new.decisions) }
        ensures sound { (R.custody self.new.records).sound → (R.custody self.old.records).sound }
        ensures served { IfOk result (λ replies.
            AreServed R.custody self.old self.new events.now replies.items) }
        ensures err { OnErr result (self.new ≡ self.old) }
    {
        let mut replies = Vec::with_capacity(self.alloc, events.len())?;
        for (moment, message) in events {
            let reply = self.serve(*moment, message);
            replies.push(reply).unwrap();
        }
        Ok(replies)
    }

    /// The keeper, as the messages so far have left it.
    pub fn into_records(self) -> R
        ensures { result ≡ self.records }
    {
        self.records
    }

    /// Whether the keeper can go on: one that can't answers `Store` to every call, so that every message
    /// that wants it is refused.
    pub fn is_open(&self) -> bool
        ensures { result ≡ (R.custody self.now.records).is_open }
    {
        self.records.is_open()
    }

    /// How many decisions were evaluated; it stops at `u64::MAX`.
    pub fn evaluations(&self) -> u64
        ensures { result ≡ self.now.decisions.evaluations }
    {
        self.resources.decisions.evaluations()
    }

    /// How many decisions were to be cached, and weren't for want of memory; it stops at `u64::MAX`.
    pub fn unkept(&self) -> u64
        ensures { result ≡ self.now.decisions.unkept }
    {
        self.resources.decisions.unkept()
    }

    /// How many texts of policies were read that weren't on the shelf; it stops at `u64::MAX`. No clause
    /// speaks of it.
    pub fn readings(&self) -> u64 {
        self.resources.texts.shelf.readings()
    }

    /// The last message that was refused or turned away, if one was since this was asked: why, and of which
    /// domain it was. A reply tells neither, so that it tells nobody how the machine fares.
    pub fn take_refused(&mut self) -> Option<RefusedMessage>
        ensures { self.new ≡ self.old }
    {
        self.refused.take()
    }

    /// The routes of the messages.
    pub(crate) fn routes(&self) -> &Routes {
        &self.routes
    }

    /// Notes that a message was turned away.
    pub(crate) fn note_turned_away(&mut self, message: &Message)
        ensures { self.new ≡ self.old }
    {
        note_turned_away(self.alloc, &self.routes, &mut self.refused, message);
    }

    /// The same server, which from now on refuses each message whose decision asks for more than `units` of
    /// work; with none it may ask for any. A unit is a byte of a text or of a value that is made, copied or
    /// compared; a step, such as an expression or a match, is 32, and a rule that is looked at 80. Work is
    /// counted and not timed, and each message begins anew. So the same message on the same state is refused,
    /// or is not, on every machine, whatever other domains ask. Reading (`with_reading_limit`) and linking
    /// policies, administration, and cached decisions aren't counted. A refusal is `Reply::Refused` as for
    /// want of memory: nothing has changed, and the reply is the fixed 503; `take_refused` tells them apart.
    /// A server that is new has no limit.
    pub fn with_work_limit(self, units: Option<u64>) -> Server<R>
        ensures { result ≡ self }
    {
        let limits = Limits {
            work: units,
            ..self.resources.limits.deciding
        };
        self.with_limits(limits)
    }

    /// The same server, which from now on refuses each message whose decision has a response of more than
    /// `bytes`. These are the bytes of the body, with the escapes of its JSON: results that are too many are
    /// refused before the last is made, and never a body that is short enough. The body follows from the
    /// domain's state, the message's body and the moment, and so does the refusal, whatever is cached and
    /// whatever other domains ask; it is that of `with_work_limit`. Documents and lists are shown whatever
    /// this is: how large they are is bounded by what a domain may be given. A server that is new has no
    /// limit.
    pub fn with_reply_limit(self, bytes: Option<u64>) -> Server<R>
        ensures { result ≡ self }
    {
        let limits = Limits {
            reply: bytes,
            ..self.resources.limits.deciding
        };
        self.with_limits(limits)
    }

    /// The same server, which from now on refuses each message that asks policies whose texts have more
    /// than `bytes` together. These are the policies to which the domain's root leads, each once.
    /// Their texts are counted whether their documents are on the shelf or not, and each message begins
    /// anew. So whether it is refused depends on the domain's documents and its root alone. A body that
    /// doesn't ask the policies, a domain without a root, and a cached decision have nothing read. No view is
    /// cached any longer. A refusal is that of `with_work_limit`. A server that is new has no limit.
    pub fn with_reading_limit(mut self, bytes: Option<u64>) -> Server<R>
        ensures { result ≡ self }
    {
        self.resources.set_reading_limit(bytes);
        self
    }

    /// The same server, whose decisions are under these limits from now on.
    fn with_limits(mut self, limits: Limits) -> Server<R>
        ensures { result ≡ self }
    {
        self.resources.set_limits(limits);
        self
    }

    /// The same server with room for at most `most` cached views, or for 128, whichever is less; none is
    /// cached yet. What it answers doesn't depend on them.
    pub fn with_max_views(mut self, most: usize) -> Server<R>
        ensures { result ≡ self }
    {
        self.resources.views.limit_count(most);
        self
    }

    /// The same server with room for cached views of at most `bytes` together, by an estimate of the memory
    /// that each takes. None is cached yet. One of them may take all. A server that is new has room for
    /// 256 MiB. What it answers doesn't depend on them.
    pub fn with_view_bytes(mut self, bytes: usize) -> Server<R>
        ensures { result ≡ self }
    {
        self.resources.views.limit_bytes(bytes);
        self
    }
}

/// What goes back for a message that was answered, or wasn't.
fn reply_of(alloc: Global, answered: Result<Items<u8>, HandlingError>) -> Reply
    ensures { IsReplyOf answered result }
{
    match answered {
        Ok(bytes) => Reply::Sent(bytes),
        Err(HandlingError::Failed(Cause::Wanting(failure))) => Reply::Refused(failure),
        Err(HandlingError::Failed(Cause::OverLimit(_))) => Reply::Refused(Failure::Memory),
        Err(HandlingError::Error(code)) => match code.reply(alloc) {
            Ok(bytes) => Reply::Sent(bytes),
            Err(_) => Reply::Refused(Failure::Memory),
        },
    }
}

/// The limit by which a message wasn't answered, if it was one.
fn over_limit_of(answered: &Result<Items<u8>, HandlingError>) -> Option<OverLimit> {
    match answered {
        Err(HandlingError::Failed(Cause::OverLimit(over))) => Some(*over),
        _ => None,
    }
}

/// Notes the message, if it was refused.
fn note_refused(
    alloc: Global,
    routes: &Routes,
    refused: &mut Option<RefusedMessage>,
    reply: &Reply,
    over: Option<OverLimit>,
    message: &Message,
) {
    let Reply::Refused(failure) = reply else {
        return;
    };
    let cause = match over {
        Some(over) => Cause::OverLimit(over),
        None => Cause::Wanting(*failure),
    };
    note(alloc, routes, refused, Unanswered::Refused(cause), message);
}

/// Notes the message as the last one that was refused or turned away, for that cause.
fn note(
    alloc: Global,
    routes: &Routes,
    refused: &mut Option<RefusedMessage>,
    cause: Unanswered,
    message: &Message,
) {
    let others = match refused {
        Some(before) => before.others.saturating_add(1),
        None => 0,
    };
    let domain = domain_of(alloc, routes, message);
    *refused = Some(RefusedMessage {
        cause,
        domain,
        others,
    });
}

/// Notes a message that was turned away. If another is noted that was refused, it is one of the others: who
/// sends what is turned away hides no want of memory or storage.
fn note_turned_away(
    alloc: Global,
    routes: &Routes,
    refused: &mut Option<RefusedMessage>,
    message: &Message,
) {
    if let Some(before) = refused {
        if matches!(before.cause, Unanswered::Refused(_)) {
            before.others = before.others.saturating_add(1);
            return;
        }
    }
    note(alloc, routes, refused, Unanswered::TurnedAway, message);
}

/// The headline in two worlds: two runs with one operator, one beginning state of a domain and the same
/// messages of its own give it the same replies, however the other domains differ. With refusals, that is so
/// of the messages that were answered.
pub fn two_worlds_agree()
    ensures all_sent { TwoWorldsAgree }
    ensures beside_refusals { TwoWorldsAgreeBesideRefusals }
{}
