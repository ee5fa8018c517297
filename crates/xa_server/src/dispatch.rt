//! The reply to one message: the questions in their order, and then what is done on the route that it
//! takes. Changes, readings and asks are in files of their own.
//!
//! These functions aren't methods of `Server`: each takes what it may touch, memory, resources or the keeper,
//! and so its contract needn't say that the rest stays. `Resources` and the keeper stand apart, since most
//! functions are given one of them alone.
ghost use Rattle.std.specs.Prelude.{◌≡◌, IfSome, IsTrue, Some};
ghost use Rattle.xa_http.specs.declared.route.Route.TheVariants as to;
ghost use Rattle.xa_http.specs.Routes.{named_by};
ghost use Rattle.xa_records.specs.DomainName.{is_domain_name};
ghost use Rattle.xa_server.specs.handling.Asking.{SharesMessage, SharesRoute};
ghost use Rattle.xa_server.specs.handling.Replying.{AnswersMessageIfSound, AnswersRouteIfSound, ChangesRoute};
ghost use Rattle.xa_server.specs.handling.Replying.{HandlesChange, KeepsMessage, KeepsRoute, OnlyForgets};
ghost use Rattle.xa_server.specs.handling.Replying.{OnlyReads, domain_named};
ghost use Rattle.xa_server.specs.Machine.{by_document_command, by_domain_command, by_operator_command};
ghost use Rattle.xa_server.specs.Owner.{name_if, owner};

use crate::admission::{admit, admit_ask, admit_operator};
use crate::asks::{Ask, reply_to_ask};
use crate::changes::{
    create_domain, delete_document, drop_token, put_token, remove_domain, set_active, set_root,
    set_source, upload,
};
use crate::document_key::key_of_parts;
use crate::domain_name::name_if;
use crate::error_code::{ABSENT, ErrorCode};
use crate::handling_error::HandlingError;
use crate::readings::{list_documents, list_domains, show_document, show_source};
use crate::received_message::ReceivedMessage;
use crate::resources::Resources;
use std::alloc::Global;
use xa_http::{
    DocumentCommand, DocumentParts, DomainCommand, Message, OperatorCommand, Route, Routes,
};
use xa_policy::DocumentKey;
use xa_records::Records;
use xa_value::{Items, Text};

/// Does what the operator asks for of a domain.
fn by_operator_command<R: Records>(
    alloc: Global,
    records: &mut R,
    name: &Text,
    command: OperatorCommand,
    body: &[u8],
) -> Result<Items<u8>, HandlingError>
    requires { IsTrue (is_domain_name name.now) }
    ensures { HandlesChange (R.custody records.old) (R.custody records.new) name.now result
        (by_operator_command command body.now) }
{
    match command {
        OperatorCommand::Create => create_domain(alloc, records, name),
        OperatorCommand::Remove => remove_domain(alloc, records, name),
        OperatorCommand::PutToken => put_token(alloc, records, name, body),
        OperatorCommand::DropToken => drop_token(alloc, records, name, body),
    }
}

/// Does what a message that administers a domain asks for, of its documents, its root or its source rows.
fn by_domain_command<R: Records>(
    alloc: Global,
    records: &mut R,
    name: &Text,
    command: DomainCommand,
    body: &[u8],
) -> Result<Items<u8>, HandlingError>
    ensures { HandlesChange (R.custody records.old) (R.custody records.new) name.now result
        (by_domain_command command body.now) }
{
    match command {
        DomainCommand::Upload => upload(alloc, records, name, body),
        DomainCommand::List => list_documents(alloc, records, name),
        DomainCommand::SetRoot => set_root(alloc, records, name, body),
        DomainCommand::SetSource => set_source(alloc, records, name, body),
        DomainCommand::ShowSource => show_source(alloc, records, name),
    }
}

/// Does what a message to the path of a document asks for of it.
fn by_document_command<R: Records>(
    alloc: Global,
    records: &mut R,
    name: &Text,
    command: DocumentCommand,
    key: &DocumentKey,
) -> Result<Items<u8>, HandlingError>
    ensures { HandlesChange (R.custody records.old) (R.custody records.new) name.now result
        (by_document_command command key.now) }
{
    match command {
        DocumentCommand::Show => show_document(alloc, records, name, key),
        DocumentCommand::Delete => delete_document(alloc, records, name, key),
        DocumentCommand::Activate => set_active(alloc, records, name, key, true),
        DocumentCommand::Deactivate => set_active(alloc, records, name, key, false),
    }
}

/// The reply to a message to one of the operator's paths of a domain. Once it is let in and names a domain,
/// that domain's gate is forgotten: the change may make it wrong.
#[tactic(auto, using(crate::proofs::GateLemmas::changed_stands))]
fn reply_on_operator_route<R: Records>(
    alloc: Global,
    resources: &mut Resources,
    records: &mut R,
    received: &ReceivedMessage<'_>,
    domain: Items<u8>,
    command: OperatorCommand,
) -> Result<Items<u8>, HandlingError>
    ensures handled { ChangesRoute (R.custody records.old) (R.custody records.new) received.now
        (to.Operator domain command) result }
    ensures shared { OnlyForgets (R.custody records.old) (R.custody records.new) resources.old resources.new }
{
    admit_operator(received.operator, received.message)?;
    let name = name_if(domain).ok_or(ErrorCode::BadDomain)?;
    resources.forget(&name);
    by_operator_command(alloc, records, &name, command, received.body())
}

/// The reply to a message that asks for a decision in a domain.
#[tactic(auto, using(crate::proofs::GateLemmas::same_stands))]
fn reply_on_decision_route<R: Records>(
    alloc: Global,
    resources: &mut Resources,
    records: &mut R,
    received: &ReceivedMessage<'_>,
    domain: Items<u8>,
) -> Result<Items<u8>, HandlingError>
    ensures answers { AnswersRouteIfSound (R.custody records.old) (R.custody records.new) received.now
        resources.old (name_if domain) (to.Decide domain) result }
    ensures shared { SharesRoute (R.custody records.old) (R.custody records.new) received.now
        (to.Decide domain) resources.old resources.new result }
    ensures keeper { OnlyReads (R.custody records.old) (R.custody records.new) result }
{
    let name = name_if(domain).ok_or(ErrorCode::Unauthorized)?;
    let revision = admit_ask(alloc, resources, records, &name, received.message)?;
    let ask = Ask {
        name: &name,
        revision,
        moment: received.moment,
    };
    reply_to_ask(alloc, resources, records, &ask, received.body())
}

/// The reply to a message that administers a domain: its documents, its root or its source rows. Once it is
/// let in the domain's gate is forgotten: a change may make it wrong. A reading isn't told apart from a
/// change: both are rare beside decisions, and one contract does for both.
#[tactic(auto, using(crate::proofs::GateLemmas::changed_stands))]
fn reply_on_domain_route<R: Records>(
    alloc: Global,
    resources: &mut Resources,
    records: &mut R,
    received: &ReceivedMessage<'_>,
    domain: Items<u8>,
    command: DomainCommand,
) -> Result<Items<u8>, HandlingError>
    ensures handled { ChangesRoute (R.custody records.old) (R.custody records.new) received.now
        (to.Domain domain command) result }
    ensures shared { OnlyForgets (R.custody records.old) (R.custody records.new) resources.old resources.new }
{
    let name = name_if(domain).ok_or(ErrorCode::Unauthorized)?;
    admit(alloc, records, &name, received.message)?;
    resources.forget(&name);
    by_domain_command(alloc, records, &name, command, received.body())
}

/// The reply to a message to the path of a document. Once it is let in and names a key, the domain's gate
/// is forgotten: a change may make it wrong. As in `reply_on_domain_route`, a reading isn't told apart from
/// a change.
#[tactic(auto, using(crate::proofs::GateLemmas::changed_stands))]
fn reply_on_document_route<R: Records>(
    alloc: Global,
    resources: &mut Resources,
    records: &mut R,
    received: &ReceivedMessage<'_>,
    domain: Items<u8>,
    parts: DocumentParts,
    command: DocumentCommand,
) -> Result<Items<u8>, HandlingError>
    ensures handled { ChangesRoute (R.custody records.old) (R.custody records.new) received.now
        (to.Document domain parts command) result }
    ensures shared { OnlyForgets (R.custody records.old) (R.custody records.new) resources.old resources.new }
{
    let name = name_if(domain).ok_or(ErrorCode::Unauthorized)?;
    admit(alloc, records, &name, received.message)?;
    let key = key_of_parts(parts).ok_or(ABSENT)?;
    resources.forget(&name);
    by_document_command(alloc, records, &name, command, &key)
}

/// The reply to a message that takes this route.
fn reply_to_route<R: Records>(
    alloc: Global,
    resources: &mut Resources,
    records: &mut R,
    received: &ReceivedMessage<'_>,
    route: Route,
) -> Result<Items<u8>, HandlingError>
    ensures answers { AnswersRouteIfSound (R.custody records.old) (R.custody records.new) received.now
        resources.old (domain_named route) route result }
    ensures shared { SharesRoute (R.custody records.old) (R.custody records.new) received.now route
        resources.old resources.new result }
    ensures keeper { KeepsRoute (R.custody records.old) (R.custody records.new) received.now route result }
{
    match route {
        Route::Domains => {
            admit_operator(received.operator, received.message)?;
            list_domains(alloc, records)
        }
        Route::Operator { domain, command } => {
            reply_on_operator_route(alloc, resources, records, received, domain, command)
        }
        Route::Decide { domain } => {
            reply_on_decision_route(alloc, resources, records, received, domain)
        }
        Route::Domain { domain, command } => {
            reply_on_domain_route(alloc, resources, records, received, domain, command)
        }
        Route::Document {
            domain,
            parts,
            command,
        } => reply_on_document_route(alloc, resources, records, received, domain, parts, command),
    }
}

/// The reply to a message, by the first question that it doesn't pass.
pub(crate) fn reply_to_message<R: Records>(
    alloc: Global,
    routes: &Routes,
    resources: &mut Resources,
    records: &mut R,
    received: &ReceivedMessage<'_>,
) -> Result<Items<u8>, HandlingError>
    ensures answers { AnswersMessageIfSound (R.custody records.old) (R.custody records.new) received.now
        resources.old result }
    ensures shared { SharesMessage (R.custody records.old) (R.custody records.new) received.now
        resources.old resources.new result }
    ensures keeper { KeepsMessage (R.custody records.old) (R.custody records.new) received.now result }
{
    let route = routes.route(alloc, received.message)?;
    reply_to_route(alloc, resources, records, received, route)
}

/// The part of the path that names a domain, if the route has one.
fn part_of(route: Route) -> Option<Items<u8>>
    ensures { result ≡ named_by route }
{
    match route {
        Route::Domains => None,
        Route::Operator {
            domain,
            command: _command,
        } => Some(domain),
        Route::Decide { domain } => Some(domain),
        Route::Domain {
            domain,
            command: _command,
        } => Some(domain),
        Route::Document {
            domain,
            parts: _parts,
            command: _command,
        } => Some(domain),
    }
}

/// The domain that the message's path names; none if it names none, or if there is no memory to tell it.
#[tactic(auto, unfolding(crate::specs::Owner::owner))]
pub(crate) fn domain_of(alloc: Global, routes: &Routes, message: &Message) -> Option<Text>
    ensures { IfSome result (λ name. owner message.now ≡ Some name) }
{
    let Ok(route) = routes.route(alloc, message) else {
        return None;
    };
    name_if(part_of(route)?)
}
