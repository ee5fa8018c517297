//! The attribute categories that have a shorthand.
ghost use Rattle.std.specs.Prelude.{◌≡◌, find, bytes_eq};
ghost use Rattle.std.specs.Option.{option_copied};
ghost use Rattle.xa_value.specs.Category.{shorthand_of, uri_of, is_subject, of_shorthand, category_uri};

/// An attribute category that has a shorthand (XACML 3.0, core, appendix B.2; JSON Profile, section 4.2).
#[derive(Clone, Copy, Debug, PartialEq, Eq)]
pub enum Category {
    /// Who asks for access.
    AccessSubject,
    /// Who will receive what is asked for.
    RecipientSubject,
    /// Whom the request passed through.
    IntermediarySubject,
    /// The code that asks.
    Codebase,
    /// The machine that asks.
    RequestingMachine,
    /// What access is asked to.
    Resource,
    /// What is to be done with it.
    Action,
    /// What holds apart from all of these.
    Environment,
}

impl Category {
    /// All of these categories.
    pub const ALL: [Category; 8] = [
        Category::AccessSubject,
        Category::RecipientSubject,
        Category::IntermediarySubject,
        Category::Codebase,
        Category::RequestingMachine,
        Category::Resource,
        Category::Action,
        Category::Environment,
    ];

    /// The category whose shorthand the text is (JSON Profile, section 4.2).
    #[tactic(auto, unfolding(crate::specs::Category::of_shorthand))]
    pub fn from_shorthand(text: &str) -> Option<Category>
        ensures { result ≡ of_shorthand text.now }
    {
        first_with_shorthand(&Category::ALL, text).copied()
    }

    /// The category's shorthand (JSON Profile, section 4.2).
    pub fn shorthand(self) -> &'static str
        ensures { result.now ≡ shorthand_of self }
    {
        match self {
            Category::AccessSubject => "AccessSubject",
            Category::RecipientSubject => "RecipientSubject",
            Category::IntermediarySubject => "IntermediarySubject",
            Category::Codebase => "Codebase",
            Category::RequestingMachine => "RequestingMachine",
            Category::Resource => "Resource",
            Category::Action => "Action",
            Category::Environment => "Environment",
        }
    }

    /// Whether the text is the category's shorthand.
    fn has_shorthand(&self, text: &str) -> bool
        ensures { result ≡ bytes_eq text.now (shorthand_of self.now) }
    {
        text == self.shorthand()
    }

    /// The category's URI (XACML 3.0, core, appendix B.2).
    pub fn uri(self) -> &'static str
        ensures { result.now ≡ uri_of self }
    {
        match self {
            Category::AccessSubject => {
                "urn:oasis:names:tc:xacml:1.0:subject-category:access-subject"
            },
            Category::RecipientSubject => {
                "urn:oasis:names:tc:xacml:1.0:subject-category:recipient-subject"
            },
            Category::IntermediarySubject => {
                "urn:oasis:names:tc:xacml:1.0:subject-category:intermediary-subject"
            },
            Category::Codebase => "urn:oasis:names:tc:xacml:1.0:subject-category:codebase",
            Category::RequestingMachine => {
                "urn:oasis:names:tc:xacml:1.0:subject-category:requesting-machine"
            },
            Category::Resource => "urn:oasis:names:tc:xacml:3.0:attribute-category:resource",
            Category::Action => "urn:oasis:names:tc:xacml:3.0:attribute-category:action",
            Category::Environment => "urn:oasis:names:tc:xacml:3.0:attribute-category:environment",
        }
    }

    /// Whether the category is one of subjects.
    pub fn is_subject(self) -> bool
        ensures { result ≡ is_subject self }
    {
        match self {
            Category::AccessSubject
            | Category::RecipientSubject
            | Category::IntermediarySubject
            | Category::Codebase
            | Category::RequestingMachine => true,
            Category::Resource | Category::Action | Category::Environment => false,
        }
    }
}

/// The first of the categories whose shorthand the text is.
fn first_with_shorthand<'a>(categories: &'a [Category], text: &str) -> Option<&'a Category>
    ensures { option_copied result
        ≡ find (λ category. bytes_eq text.now (shorthand_of category)) categories.now }
{
    categories
        .iter()
        .find(|category| category.has_shorthand(text))
}

/// The URI that a category's name stands for: a shorthand for its URI, any other text for itself (JSON
/// Profile, section 4.2).
pub fn category_uri(name: &str) -> &str
    ensures { result.now ≡ category_uri name.now }
{
    match Category::from_shorthand(name) {
        Some(category) => category.uri(),
        None => name,
    }
}
