//! The reply to an ask: a request for a decision that a domain has let in. A cached decision is given
//! again. Any other is evaluated by the domain's view, which is cached for the next ask; the decision is
//! counted, and cached if it is the same at every moment. A body that doesn't ask the policies is answered
//! without a view, if none is cached.
//!
//! The steps, in this order. Each has a function of its own, whose clauses settle one question:
//! 1. `reply_to_ask`: is the decision cached? Its clauses tell the machine's answer. Those of steps 2 to 4
//!    tell that of an evaluation (`FreshReply`).
//! 2. `evaluated_reply`: the body is read. The key that it was looked up under is that of these bytes.
//! 3. `reply_to_read`: by which view? A cached one that stands decides as its domain does. If none is cached
//!    and the body doesn't ask the policies, a view of nothing decides alike (`reply_without_policies`).
//! 4. `reply_by_new_view`: what does the keeper have? No other step asks it. `new_view_within_limit` counts
//!    what is read, and `new_view` is the view that decides in the domain (`MakesReady`).
//! 5. `reply_by_view`: the decision. Its clauses know the view alone, neither a domain nor a keeper.
ghost use Rattle.std.specs.Prelude.{◌≡◌, ◌-◌, length, Some, IfOk, IfSome, OnErr};
ghost use Rattle.std.specs.Option.{ok_or};
ghost use Rattle.xa_decide.specs.Asked.{asks_policies};
ghost use Rattle.xa_records.specs.declared.refusal.Refusal.TheVariants.{Absent};
ghost use Rattle.xa_records.specs.Kept.{state_of};
ghost use Rattle.xa_records.specs.Readings.{kept_view_of};
ghost use Rattle.xa_server.specs.declared.error_code.ErrorCode.TheVariants.{Keeper};
ghost use Rattle.xa_server.specs.handling.Asking.{FreshReply, HasItsKey, IfLetIn, IsAsked, IsFresh};
ghost use Rattle.xa_server.specs.handling.Asking.{IsResponseReply, MakesReady, evaluated_asked, key_asked};
ghost use Rattle.xa_server.specs.handling.Asking.{key_within, reply_asked, response_asked};
ghost use Rattle.xa_server.specs.handling.Replying.{Answers, OnlyReads, ShowsIfSound};
ghost use Rattle.xa_server.specs.Machine.{response_to, told};
ghost use Rattle.xa_server.specs.Resources.{AllStand};
ghost use Rattle.xa_server.specs.handling.Viewing.{AreKeyed, nothing_viewed};
ghost use Rattle.xa_server.specs.handling.Views.{added, bytes_of_tree, bytes_of_view};
ghost use Rattle.xa_server.specs.Work.{cached_body};

use crate::cached_view::CachedView;
use crate::cause::Cause;
use crate::decisions::{Decisions, key_within};
use crate::error_code::{ABSENT, ErrorCode};
use crate::handling_error::HandlingError;
use crate::replies::decision_reply;
use crate::resources::{PolicyTexts, Resources};
use crate::revision::Revision;
use crate::view::view_of_kept;
use std::alloc::Global;
use xa_cache::Key;
use xa_decide::{Limits, OverLimit, RequestBody, View, asks_policies, respond};
use xa_notation::NotationError;
use xa_records::{KeptView, Records};
use xa_shelf::TextReader;
use xa_value::{Items, Moment, Text};

/// Why a body that is no JSON has no response.
const NOT_JSON: ErrorCode = ErrorCode::Body(NotationError::NotJson);

/// A request for a decision, but for its body: the domain that has let it in, and when it was asked.
#[derive(Drop)]
pub(crate) struct Ask<'a> {
    /// The domain's name.
    pub(crate) name: &'a Text,
    /// The domain's revision at which it was let in.
    pub(crate) revision: Revision,
    /// The moment at which it is decided.
    pub(crate) moment: Moment,
}

/// A request for a decision whose body is read, with the key under which its decision is cached.
#[derive(Drop)]
struct ReadAsk<'a> {
    /// The request, but for its body.
    ask: &'a Ask<'a>,
    /// The key; none if the body is too large for one.
    key: Option<Key>,
    /// The body.
    body: RequestBody<'a>,
}

/// What the keeper has for the domain's view: its root, its rows, and texts that are documents of their
/// keys.
fn kept_view<R: Records>(
    alloc: Global,
    records: &mut R,
    name: &Text,
) -> Result<KeptView, HandlingError>
    ensures tells { ShowsIfSound (R.custody records.old) (R.custody records.new) result
        (ok_or (kept_view_of name.now (R.custody records.old).kept) (Keeper Absent)) }
    ensures keyed { (R.custody records.new).sound → IfOk result (λ kept. AreKeyed kept.texts) }
    ensures keeper { OnlyReads (R.custody records.old) (R.custody records.new) result }
{
    let kept = records.view(alloc, name)?.ok_or(ABSENT)?;
    // For the proof: each text is a document of its key.
    records.keeps_documents();
    Ok(kept)
}

/// The domain's view, made of what the keeper has. What this costs grows with the texts
/// of the active documents, which the keeper copies; a keeper in tables reads those of the others, too. It
/// grows with the rows of attributes, which are put in order. It grows also with the texts of the documents
/// to which the root leads, each of which is looked up on the shelf or read.
#[tactic(auto, using(crate::proofs::ReadyLemmas::estimated))]
fn new_view<R: Records>(
    alloc: Global,
    reader: &mut TextReader<'_>,
    records: &mut R,
    ask: &Ask<'_>,
) -> Result<CachedView, HandlingError>
    ensures tells { MakesReady (R.custody records.old) (R.custody records.new) ask.now result }
    ensures estimate { (R.custody records.new).sound
        → IfOk result (λ ready. IfSome (kept_view_of ask.now.name.now (R.custody records.old).kept)
        (λ kept. ready.bytes ≡ added (bytes_of_view (reader.old.left - reader.new.left) (length kept.source))
        (bytes_of_tree ready.view))) }
    ensures keeper { OnlyReads (R.custody records.old) (R.custody records.new) result }
{
    let kept = kept_view(alloc, records, ask.name)?;
    let rows = kept.source.len();
    let left = reader.left();
    let view = view_of_kept(alloc, reader, kept)?;
    let bytes_read = left.saturating_sub(reader.left()) as usize;
    Ok(CachedView::new(ask.revision, view, bytes_read, rows))
}

/// The domain's view, made of no more text than may be read for a message. A domain whose policies have
/// more is remembered.
fn new_view_within_limit<R: Records>(
    alloc: Global,
    texts: &mut PolicyTexts,
    most: Option<u64>,
    records: &mut R,
    ask: &Ask<'_>,
) -> Result<CachedView, HandlingError>
    ensures tells { MakesReady (R.custody records.old) (R.custody records.new) ask.now result }
    ensures keeper { OnlyReads (R.custody records.old) (R.custody records.new) result }
{
    let mut reader = TextReader::new(&mut texts.shelf, most);
    let ready = new_view(alloc, &mut reader, records, ask);
    if reader.is_spent() {
        texts.oversized.remember(ask.revision);
    }
    ready
}

/// The reply by the view: the decision is evaluated, counted, and cached if it may be.
fn reply_by_view(
    alloc: Global,
    decisions: &mut Decisions,
    view: &View,
    limits: Limits,
    read: ReadAsk<'_>,
) -> Result<Items<u8>, HandlingError>
    requires { HasItsKey read }
    ensures tells { IsResponseReply (response_asked view.now read.entry.ask.now read.entry.body) result }
    ensures works { IsFresh (key_asked read.entry.ask.now read.entry.body)
        (response_asked view.now read.entry.ask.now read.entry.body) result decisions.old decisions.new }
{
    let ReadAsk { ask, key, body } = read;
    let responded = respond(alloc, view, &body, ask.moment, limits)?.ok_or(NOT_JSON)?;
    let reply = decision_reply(alloc, responded.body.as_slice())?;
    decisions.note(key, responded);
    Ok(reply)
}

/// The reply by a view that is made of what the keeper has. The view is cached once the reply is made, and
/// without success it isn't. If it is known that the domain's policies take too much to read, they aren't
/// read again.
#[tactic(auto, using(crate::proofs::AskLemmas::replied, crate::proofs::AskLemmas::works_by, crate::proofs::AskLemmas::absent_reply, crate::proofs::AskLemmas::absent_worked))]
fn reply_by_new_view<R: Records>(
    alloc: Global,
    resources: &mut Resources,
    records: &mut R,
    read: ReadAsk<'_>,
) -> Result<Items<u8>, HandlingError>
    requires { HasItsKey read }
    ensures tells { ShowsIfSound (R.custody records.old) (R.custody records.new) result
        (reply_asked (R.custody records.old).kept read.entry.ask.now read.entry.body) }
    ensures works { (R.custody records.new).sound
        → IsFresh (key_asked read.entry.ask.now read.entry.body)
        (evaluated_asked (R.custody records.old).kept read.entry.ask.now read.entry.body)
        result resources.old.decisions resources.new.decisions }
    ensures stands { IfLetIn (R.custody records.old) (R.custody records.new) read.entry.ask.now resources.old
        (AllStand (R.custody records.old).kept resources.new) }
    ensures views { OnErr result (resources.new.views ≡ resources.old.views) }
    ensures keeper { OnlyReads (R.custody records.old) (R.custody records.new) result }
{
    if resources.texts.oversized.has(read.ask.revision) {
        return Err(HandlingError::Failed(Cause::OverLimit(OverLimit::Reading)));
    }
    let limits = resources.limits;
    let most = limits.reading;
    let ready = new_view_within_limit(alloc, &mut resources.texts, most, records, read.ask)?;
    let decisions = &mut resources.decisions;
    let reply = reply_by_view(alloc, decisions, &ready.view, limits.deciding, read)?;
    resources.views.keep(ready);
    Ok(reply)
}

/// The reply to a body that doesn't ask the policies: it is the same by any view, and nothing of the
/// domain is read for it.
fn reply_without_policies(
    alloc: Global,
    decisions: &mut Decisions,
    limits: Limits,
    read: ReadAsk<'_>,
) -> Result<Items<u8>, HandlingError>
    requires { HasItsKey read }
    ensures tells { IsResponseReply
        (response_asked nothing_viewed read.entry.ask.now read.entry.body) result }
    ensures works { IsFresh (key_asked read.entry.ask.now read.entry.body)
        (response_asked nothing_viewed read.entry.ask.now read.entry.body)
        result decisions.old decisions.new }
{
    let nothing = View::of_nothing(alloc)?;
    reply_by_view(alloc, decisions, &nothing, limits, read)
}

/// The reply by a decision that is evaluated: by the cached view, if there is one, for which no text is
/// asked. Else the body's own questions come first, and the keeper is asked only for a body that asks the
/// policies.
fn reply_to_read<R: Records>(
    alloc: Global,
    resources: &mut Resources,
    records: &mut R,
    read: ReadAsk<'_>,
) -> Result<Items<u8>, HandlingError>
    requires { HasItsKey read }
    ensures { FreshReply (R.custody records.old) (R.custody records.new) read.entry.ask.now read.entry.body
        resources.old resources.new result }
{
    let ask = read.ask;
    let limits = resources.limits.deciding;
    if let Some(view) = resources.views.find(ask.revision) {
        let reply = reply_by_view(alloc, &mut resources.decisions, view, limits, read)?;
        resources.views.touch(ask.revision.number);
        return Ok(reply);
    }
    if asks_policies(alloc, &read.body)? {
        return reply_by_new_view(alloc, resources, records, read);
    }
    reply_without_policies(alloc, &mut resources.decisions, limits, read)
}

/// The reply by a decision that is evaluated, for a body that isn't read yet: it is read once, whatever is
/// asked of it.
fn evaluated_reply<R: Records>(
    alloc: Global,
    resources: &mut Resources,
    records: &mut R,
    ask: &Ask<'_>,
    key: Option<Key>,
    body: &[u8],
) -> Result<Items<u8>, HandlingError>
    requires { key ≡ key_within (key_asked ask.now body.now) }
    ensures { FreshReply (R.custody records.old) (R.custody records.new) ask.now body.now
        resources.old resources.new result }
{
    let body = RequestBody::read(alloc, body)?;
    reply_to_read(alloc, resources, records, ReadAsk { ask, key, body })
}

/// The reply to the request of the body by the domain's policies: by the cached decision, if there is one,
/// and else by one that is evaluated.
#[tactic(auto, using(crate::proofs::AskLemmas::answers, crate::proofs::AskLemmas::told_same))]
pub(crate) fn reply_to_ask<R: Records>(
    alloc: Global,
    resources: &mut Resources,
    records: &mut R,
    ask: &Ask<'_>,
    body: &[u8],
) -> Result<Items<u8>, HandlingError>
    ensures answers { IfLetIn (R.custody records.old) (R.custody records.new) ask.now resources.old
        (Answers (R.custody records.old).kept (R.custody records.new).kept ask.now.name.now result
        (told (response_to body.now ask.now.moment)
        (state_of ask.now.name.now (R.custody records.old).kept))) }
    ensures same { IfLetIn (R.custody records.old) (R.custody records.new) ask.now resources.old
        ((R.custody records.new).kept ≡ (R.custody records.old).kept) }
    ensures works { IfLetIn (R.custody records.old) (R.custody records.new) ask.now resources.old
        (IsAsked (key_asked ask.now body.now)
        (cached_body (key_asked ask.now body.now) body.now resources.old.decisions)
        (evaluated_asked (R.custody records.old).kept ask.now body.now) result
        resources.old.decisions resources.new.decisions) }
    ensures stands { IfLetIn (R.custody records.old) (R.custody records.new) ask.now resources.old
        (AllStand (R.custody records.old).kept resources.new) }
    ensures views { OnErr result (resources.new.views ≡ resources.old.views) }
    ensures keeper { OnlyReads (R.custody records.old) (R.custody records.new) result }
{
    let Some(key) = key_within(alloc, ask.revision, body)? else {
        return evaluated_reply(alloc, resources, records, ask, None, body);
    };
    let limits = resources.limits.deciding;
    if let Some(reply) = resources.decisions.cached_reply(alloc, &key, limits)? {
        return Ok(reply);
    }
    evaluated_reply(alloc, resources, records, ask, Some(key), body)
}
