//! References to documents: policies and policy sets.
ghost use Rattle.std.specs.Prelude.{◌≡◌};
ghost use Rattle.xa_policy.specs.DocumentKey.{kind_named, name_of_kind, place_of_kind};

use crate::pattern::Pattern;
use crate::version::Version;
use xa_value::Text;

/// What a document is: a policy or a policy set.
#[derive(Clone, Copy, Debug, PartialEq, Eq, PartialOrd, Ord)]
pub enum DocumentKind {
    /// A policy (XACML 3.0, core, section 5.14).
    Policy,
    /// A policy set (XACML 3.0, core, section 5.1).
    PolicySet,
}

impl DocumentKind {
    /// The kind's place in the order of kinds: policies stand before policy sets.
    pub fn place(self) -> u8
        ensures { result ≡ place_of_kind self }
    {
        match self {
            DocumentKind::Policy => 0,
            DocumentKind::PolicySet => 1,
        }
    }

    /// The kind's name, in listings and in paths: `policy` or `policyset`.
    #[tactic(auto, unfolding(crate::specs::DocumentKey::name_of_kind))]
    pub fn name(self) -> &'static str
        ensures { result.now ≡ name_of_kind self }
    {
        match self {
            DocumentKind::Policy => "policy",
            DocumentKind::PolicySet => "policyset",
        }
    }

    /// The kind of that name, if there is one.
    pub fn named(name: &[u8]) -> Option<DocumentKind>
        ensures { result ≡ kind_named name.now }
    {
        if name == DocumentKind::Policy.name().as_bytes() {
            Some(DocumentKind::Policy)
        } else if name == DocumentKind::PolicySet.name().as_bytes() {
            Some(DocumentKind::PolicySet)
        } else {
            None
        }
    }
}

/// A reference to a policy or a policy set (XACML 3.0, core, sections 5.10 and 5.11).
#[derive(Clone, Debug, Drop, PartialEq, Eq)]
pub struct Reference {
    /// To what kind of document it refers.
    pub kind: DocumentKind,
    /// The document's id.
    pub id: Text,
    /// A pattern that the document's version matches.
    pub version: Option<Pattern>,
    /// The earliest version that will do.
    pub earliest: Option<Version>,
    /// The latest version that will do.
    pub latest: Option<Version>,
}
