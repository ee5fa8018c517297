//! The status codes that a decision carries.
ghost use Rattle.std.specs.Prelude.{◌≡◌};
ghost use Rattle.xa_func.specs.Status.{uri_of};

/// A status code (XACML 3.0, core, appendix B.8).
#[derive(Clone, Copy, Debug, PartialEq, Eq)]
pub enum Status {
    /// Success.
    Ok,
    /// Attributes that the decision needs were not available.
    MissingAttribute,
    /// Some value was not well formed.
    SyntaxError,
    /// An error came up while the policy was evaluated.
    ProcessingError,
}

impl Status {
    /// The URI of the code.
    pub fn uri(self) -> &'static str
        ensures { result.now ≡ uri_of self }
    {
        match self {
            Status::Ok => "urn:oasis:names:tc:xacml:1.0:status:ok",
            Status::MissingAttribute => "urn:oasis:names:tc:xacml:1.0:status:missing-attribute",
            Status::SyntaxError => "urn:oasis:names:tc:xacml:1.0:status:syntax-error",
            Status::ProcessingError => "urn:oasis:names:tc:xacml:1.0:status:processing-error",
        }
    }
}
