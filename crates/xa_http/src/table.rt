//! What is served: the pattern of each path, the place there, and what each method asks for there.
ghost use Rattle.std.specs.Prelude.{◌≡◌, ◌++◌, IfOk, IsTrue, OnOk};
ghost use Rattle.matchit.specs.Route.{parse_route};
ghost use Rattle.xa_http.specs.Table.{command_at, command_in, commands, methods_text};
ghost use Rattle.xa_http.specs.Table.{names_in, table, takes, with_read};

use crate::command::{Command, DocumentCommand, DomainCommand, OperatorCommand};
use crate::method::Method;
use matchit::{InsertError, Router};
use std::alloc::{AllocError, Global};

/// What stands at a path.
#[derive(Clone, Copy, Debug, PartialEq, Eq)]
pub enum Place {
    /// All domains.
    Domains,
    /// A domain, as the operator has it.
    OneDomain,
    /// The tokens of a domain.
    Tokens,
    /// The decisions of a domain.
    Decisions,
    /// The documents of a domain.
    Documents,
    /// The root of a domain.
    Root,
    /// The attribute source of a domain.
    Source,
    /// A document of a domain.
    OneDocument,
    /// Whether a document is active: references may resolve to it.
    Activity,
}

impl Place {
    /// What each method asks for there, in the order of the methods' names.
    fn commands(self) -> &'static [(Method, Command)]
        ensures { result.now ≡ commands self }
    {
        match self {
            Place::Domains => &[(Method::Get, Command::Domains)],
            Place::OneDomain => &[
                (Method::Delete, Command::Operator(OperatorCommand::Remove)),
                (Method::Put, Command::Operator(OperatorCommand::Create)),
            ],
            Place::Tokens => &[
                (
                    Method::Delete,
                    Command::Operator(OperatorCommand::DropToken),
                ),
                (Method::Post, Command::Operator(OperatorCommand::PutToken)),
            ],
            Place::Decisions => &[(Method::Post, Command::Decide)],
            Place::Documents => &[
                (Method::Get, Command::Domain(DomainCommand::List)),
                (Method::Post, Command::Domain(DomainCommand::Upload)),
            ],
            Place::Root => &[(Method::Put, Command::Domain(DomainCommand::SetRoot))],
            Place::Source => &[
                (Method::Get, Command::Domain(DomainCommand::ShowSource)),
                (Method::Put, Command::Domain(DomainCommand::SetSource)),
            ],
            Place::OneDocument => &[
                (Method::Delete, Command::Document(DocumentCommand::Delete)),
                (Method::Get, Command::Document(DocumentCommand::Show)),
            ],
            Place::Activity => &[
                (
                    Method::Delete,
                    Command::Document(DocumentCommand::Deactivate),
                ),
                (Method::Put, Command::Document(DocumentCommand::Activate)),
            ],
        }
    }

    /// Adds the names of the methods that are served there, in their order, with a comma and a
    /// space between two.
    pub(crate) fn push_methods(self, bytes: &mut Vec<u8>) -> Result<(), AllocError>
        ensures { OnOk result (bytes.new.items ≡ bytes.old.items ++ methods_text self) }
    {
        push_names(bytes, self.commands())
    }

    /// What the method of that name asks for there.
    pub(crate) fn command(self, name: &[u8]) -> Option<Command>
        ensures { result ≡ command_at name.now self }
    {
        command_in(name, self.commands())
    }
}

/// What the method of that name asks for, by these rows.
fn command_in(name: &[u8], rows: &[(Method, Command)]) -> Option<Command>
    ensures { result ≡ command_in name.now rows.now }
{
    rows.iter()
        .find(|row| row.0.is_named(name))
        .map(|row| row.1)
}

/// Adds the names of the methods, with a comma and a space between two.
#[tactic(auto, using(crate::proofs::TableLemmas::first_pushed))]
fn push_names(bytes: &mut Vec<u8>, rows: &[(Method, Command)]) -> Result<(), AllocError>
    ensures { OnOk result (bytes.new.items ≡ bytes.old.items ++ names_in rows.now) }
{
    let Some((first, others)) = rows.split_first() else {
        return Ok(());
    };
    bytes.extend_from_slice(first.0.name().as_bytes())?;
    for (method, _) in others {
        bytes.extend_from_slice(b", ")?;
        bytes.extend_from_slice(method.name().as_bytes())?;
    }
    Ok(())
}

/// Adds a pattern with its place to the router.
fn add(router: &mut Router<Place>, pattern: &str, place: Place) -> Result<(), AllocError>
    requires { IsTrue (takes (parse_route pattern.now) router.old) }
    ensures { OnOk result (router.new ≡ with_read (parse_route pattern.now) place router.old) }
{
    match router.insert(pattern, place) {
        Ok(()) => Ok(()),
        Err(InsertError::OutOfMemory) => Err(AllocError),
        Err(_) => unreachable!(),
    }
}

/// The router of all patterns.
pub(crate) fn router(alloc: Global) -> Result<Router<Place>, AllocError>
    ensures { IfOk result (λ router. router ≡ table) }
{
    let mut router = Router::new(alloc);
    add(&mut router, "/operator/domains", Place::Domains)?;
    add(&mut router, "/operator/domains/{domain}", Place::OneDomain)?;
    add(
        &mut router,
        "/operator/domains/{domain}/tokens",
        Place::Tokens,
    )?;
    add(&mut router, "/domains/{domain}/pdp", Place::Decisions)?;
    add(
        &mut router,
        "/domains/{domain}/pap/policies",
        Place::Documents,
    )?;
    add(&mut router, "/domains/{domain}/pap/root", Place::Root)?;
    add(&mut router, "/domains/{domain}/pip", Place::Source)?;
    add(
        &mut router,
        "/domains/{domain}/pap/{kind}/{id}/{version}",
        Place::OneDocument,
    )?;
    add(
        &mut router,
        "/domains/{domain}/pap/{kind}/{id}/{version}/active",
        Place::Activity,
    )?;
    Ok(router)
}
