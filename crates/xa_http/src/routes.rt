//! The route of a message, by its target, its method and the media type of its body.
ghost use Rattle.std.specs.Prelude.{◌≡◌, Some, codes, IfOk, IsErr, option_and_then, option_map};
ghost use Rattle.xa_value.specs.Gives.{Gives, answered};
ghost use Rattle.xa_http.specs.Changing.{asks_for_change};
ghost use Rattle.xa_http.specs.Routes.{address_of, decoded_part, document_parts, named_by, named_part};
ghost use Rattle.xa_http.specs.Routes.{path_of_plain, path_of, place_at, route_of, route_to, takes_body};
ghost use Rattle.xa_http.specs.Table.{table};

use crate::command::Command;
use crate::content_type::allows_json;
use crate::message::Message;
use crate::parts::{before, from_first, has_empty_part, part_at};
use crate::route::{DocumentParts, Route, RouteFault};
use crate::table::{Place, router};
use matchit::Router;
use percent_encoding::percent_decode;
use std::alloc::{AllocError, Global};
use std::{fmt, str};
use xa_value::{Items, OrMemory};

/// The part of a path that names the domain: part 0 is what stands before the first slash.
const DOMAIN_PART: usize = 2;

/// The part of an operator's path that names the domain.
const OPERATOR_DOMAIN_PART: usize = 3;

/// The part of a document's path that names its kind.
const KIND_PART: usize = 4;

/// The part of a document's path that names its id.
const ID_PART: usize = 5;

/// The part of a document's path that names its version.
const VERSION_PART: usize = 6;

/// The routes of all that is served. They are made once, for all messages.
#[derive(Drop)]
pub struct Routes {
    /// Where each path leads.
    router: Router<Place>,
    ghost whole: { router ≡ table },
}

impl fmt::Debug for Routes {
    ghost debug_output = { λ _. Some (codes "Routes") };

    fn fmt<W: fmt::Write>(&self, f: &mut fmt::Formatter<W>) -> fmt::Result {
        f.write_str("Routes")
    }
}

impl Routes {
    /// The routes of all that is served.
    pub fn new(alloc: Global) -> Result<Routes, AllocError> {
        Ok(Routes {
            router: router(alloc)?,
        })
    }

    /// What the message asks for: where its target leads, what its method asks for there, and then
    /// the media type of its body. The parts of the path are percent-decoded once (RFC 3986,
    /// section 2.4). The faults are, in that order, NoRoute, BadMethod and BadMediaType.
    #[tactic(auto, unfolding(crate::specs::Routes::route_of))]
    pub fn route(&self, alloc: Global, message: &Message) -> Result<Route, OrMemory<RouteFault>>
        ensures route { Gives result (route_of message.now) }
        ensures exact { IsErr (route_of message.now) → result ≡ answered (route_of message.now) }
        ensures named { IfOk result (λ route.
            named_by route ≡ option_and_then named_part (address_of message.now.target)) }
    {
        let Some((place, path)) = self.address_of(message.target.as_slice()) else {
            return Err(RouteFault::NoRoute.into());
        };
        let Some(command) = place.command(message.method.as_slice()) else {
            return Err(RouteFault::BadMethod(place).into());
        };
        if !takes_body(message, command) {
            return Err(RouteFault::BadMediaType.into());
        }
        Ok(route_to(alloc, path, command)?)
    }

    /// Whether the message asks for a change: what its route asks for changes what is kept. It depends on
    /// the message's head alone, and takes no memory.
    #[tactic(auto, using(crate::proofs::ChangingLemmas::changes_to), unfolding(crate::specs::Routes::route_of, crate::specs::Changing::asks_for_change))]
    pub fn asks_for_change(&self, message: &Message) -> bool
        ensures { result ≡ asks_for_change message.now }
    {
        let Some((place, _path)) = self.address_of(message.target.as_slice()) else {
            return false;
        };
        let Some(command) = place.command(message.method.as_slice()) else {
            return false;
        };
        takes_body(message, command) && command.changes()
    }

    /// The place where the target leads, and the path that leads there.
    #[tactic(auto, unfolding(crate::specs::Routes::address_of))]
    fn address_of<'a>(&self, target: &'a [u8]) -> Option<(Place, &'a [u8])>
        ensures { option_map (λ found. record { place = found.0; path = found.1.now }) result
            ≡ address_of target.now }
    {
        let path = path_of(target)?;
        let place = self.place_at(path)?;
        Some((place, path))
    }

    /// The place at the path.
    #[tactic(auto, using(xa_value::proofs::TextLemmas::is_text, xa_value::proofs::TextLemmas::is_no_text), unfolding(crate::specs::Routes::place_at))]
    fn place_at(&self, path: &[u8]) -> Option<Place>
        ensures { result ≡ place_at path.now }
    {
        if has_empty_part(path) {
            return None;
        }
        let Ok(text) = str::from_utf8(path) else {
            return None;
        };
        match self.router.at(text) {
            Ok(found) => Some(*found.value),
            Err(_) => None,
        }
    }
}

/// The path of a target without its query.
#[tactic(auto, unfolding(crate::specs::Routes::path_of_plain))]
fn path_of_plain(target: &[u8]) -> Option<&[u8]>
    ensures { option_map (λ path. path.now) result ≡ path_of_plain target.now }
{
    match target.strip_prefix(b"http://") {
        Some(rest) => from_first(rest, b'/'),
        None => Some(target),
    }
}

/// The path of a target.
#[tactic(auto, using(xa_value::proofs::TextLemmas::is_text, xa_value::proofs::TextLemmas::is_no_text), unfolding(crate::specs::Routes::path_of))]
fn path_of(target: &[u8]) -> Option<&[u8]>
    ensures { option_map (λ path. path.now) result ≡ path_of target.now }
{
    let Ok(_) = str::from_utf8(target) else {
        return None;
    };
    path_of_plain(before(target, b'?'))
}

/// Whether the body isn't read, or has a media type that is read.
fn takes_body(message: &Message, command: Command) -> bool
    ensures { result ≡ takes_body message.now command }
{
    !command.reads_body() || allows_json(message.fields.as_slice())
}

/// A part of the path, percent-decoded.
#[tactic(auto, unfolding(crate::specs::Routes::decoded_part))]
fn decoded_part(alloc: Global, path: &[u8], part: usize) -> Result<Items<u8>, AllocError>
    ensures { IfOk result (λ bytes. bytes ≡ decoded_part path.now part) }
{
    let mut bytes = Vec::new(alloc);
    percent_decode(part_at(path, part)).append_to(&mut bytes)?;
    Ok(Items::from_vec(bytes))
}

/// The parts of the path that name a document.
fn document_parts(alloc: Global, path: &[u8]) -> Result<DocumentParts, AllocError>
    ensures { IfOk result (λ parts. parts ≡ document_parts path.now) }
{
    Ok(DocumentParts {
        kind: decoded_part(alloc, path, KIND_PART)?,
        id: decoded_part(alloc, path, ID_PART)?,
        version: decoded_part(alloc, path, VERSION_PART)?,
    })
}

/// What is asked for, with the parts of the path.
fn route_to(alloc: Global, path: &[u8], command: Command) -> Result<Route, AllocError>
    ensures { IfOk result (λ route. route ≡ route_to path.now command) }
{
    Ok(match command {
        Command::Domains => Route::Domains,
        Command::Operator(command) => Route::Operator {
            domain: decoded_part(alloc, path, OPERATOR_DOMAIN_PART)?,
            command,
        },
        Command::Decide => Route::Decide {
            domain: decoded_part(alloc, path, DOMAIN_PART)?,
        },
        Command::Domain(command) => Route::Domain {
            domain: decoded_part(alloc, path, DOMAIN_PART)?,
            command,
        },
        Command::Document(command) => Route::Document {
            domain: decoded_part(alloc, path, DOMAIN_PART)?,
            parts: document_parts(alloc, path)?,
            command,
        },
    })
}
