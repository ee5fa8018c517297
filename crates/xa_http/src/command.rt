//! What is asked for at a place.
ghost use Rattle.std.specs.Prelude.{◌≡◌};
ghost use Rattle.xa_http.specs.Table.{changes, reads_body};

/// What the operator asks for of one domain.
#[derive(Clone, Copy, Debug, PartialEq, Eq)]
pub enum OperatorCommand {
    /// To make the domain.
    Create,
    /// To remove it with all that is in it.
    Remove,
    /// To add a token, or to replace the role of one.
    PutToken,
    /// To drop a token.
    DropToken,
}

/// What is asked for in a domain, but for decisions.
#[derive(Clone, Copy, Debug, PartialEq, Eq)]
pub enum DomainCommand {
    /// To upload a policy or a policy set, which isn't active yet.
    Upload,
    /// To list the keys of all documents, and whether each is active.
    List,
    /// To set or to remove the root.
    SetRoot,
    /// To replace the rows of the attribute source.
    SetSource,
    /// To show the rows of the attribute source.
    ShowSource,
}

/// What is asked for of one document.
#[derive(Clone, Copy, Debug, PartialEq, Eq)]
pub enum DocumentCommand {
    /// To show its text.
    Show,
    /// To delete it.
    Delete,
    /// To make it active.
    Activate,
    /// To make it inactive.
    Deactivate,
}

/// What is asked for, and of what.
#[derive(Clone, Copy, Debug, PartialEq, Eq)]
pub(crate) enum Command {
    /// The names of all domains.
    Domains,
    /// What the operator asks for of one domain.
    Operator(OperatorCommand),
    /// Decisions of a domain on a request.
    Decide,
    /// What else is asked for in a domain.
    Domain(DomainCommand),
    /// What is asked for of one document of a domain.
    Document(DocumentCommand),
}

impl Command {
    /// Whether what is asked for reads the body.
    pub(crate) fn reads_body(self) -> bool
        ensures { result ≡ reads_body self }
    {
        matches!(
            self,
            Command::Operator(OperatorCommand::PutToken | OperatorCommand::DropToken)
                | Command::Decide
                | Command::Domain(
                    DomainCommand::Upload | DomainCommand::SetRoot | DomainCommand::SetSource
                )
        )
    }

    /// Whether what is asked for changes what is kept.
    pub(crate) fn changes(self) -> bool
        ensures { result ≡ changes self }
    {
        match self {
            Command::Domains | Command::Decide => false,
            Command::Operator(_) => true,
            Command::Domain(command) => !matches!(
                command,
                DomainCommand::List | DomainCommand::ShowSource
            ),
            Command::Document(command) => !matches!(command, DocumentCommand::Show),
        }
    }
}
