//! What a message can ask for.
ghost use Rattle.std.specs.Prelude.{◌≡◌};
ghost use Rattle.xa_value.specs.declared.or_memory.OrMemory.TheVariants.{Error};

use crate::command::{DocumentCommand, DomainCommand, OperatorCommand};
use crate::table::Place;
use thiserror::Error;
use xa_value::{Items, OrMemory};

/// The parts of a path that name a document, percent-decoded. They needn't be texts.
#[derive(Debug, Drop)]
pub struct DocumentParts {
    /// Whether it is a policy or a policy set.
    pub kind: Items<u8>,
    /// Its id.
    pub id: Items<u8>,
    /// Its version.
    pub version: Items<u8>,
}

/// What a message asks for. The part of the path that names the domain, percent-decoded, needn't be
/// a domain name, nor a text.
#[derive(Debug, Drop)]
pub enum Route {
    /// The names of all domains, for the operator.
    Domains,
    /// What the operator asks for of one domain.
    Operator {
        /// The domain, as the path names it.
        domain: Items<u8>,
        /// What is asked for.
        command: OperatorCommand,
    },
    /// Decisions of a domain on a request.
    Decide {
        /// The domain, as the path names it.
        domain: Items<u8>,
    },
    /// What else is asked for in a domain.
    Domain {
        /// The domain, as the path names it.
        domain: Items<u8>,
        /// What is asked for.
        command: DomainCommand,
    },
    /// What is asked for of one document of a domain.
    Document {
        /// The domain, as the path names it.
        domain: Items<u8>,
        /// The parts of the path that name the document.
        parts: DocumentParts,
        /// What is asked for.
        command: DocumentCommand,
    },
}

/// Why a message asks for nothing that is served (RFC 9110, sections 15.5.5, 15.5.6 and 15.5.16).
#[derive(Clone, Copy, Debug, Error, PartialEq, Eq)]
pub enum RouteFault {
    /// Nothing is served at the message's target: 404.
    #[error("nothing is served there")]
    NoRoute,
    /// Something is served at the message's target, but not for its method: 405.
    #[error("the method isn't allowed there")]
    BadMethod(Place),
    /// The body would be read, and has another media type than JSON: 415.
    #[error("the body isn't JSON by its media type")]
    BadMediaType,
}

impl From<RouteFault> for OrMemory<RouteFault> {
    ghost from_gives = { λ fault e. e ≡ Error fault };

    fn from(fault: RouteFault) -> OrMemory<RouteFault> {
        OrMemory::Error(fault)
    }
}
