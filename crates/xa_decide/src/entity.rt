//! Entities: by what the source of attributes knows the subject, the resource or the action of a request.
ghost use Rattle.std.specs.Prelude.{◌≡◌, find, bytes_eq, option_map};
ghost use Rattle.xa_value.specs.Category.{uri_of};
ghost use Rattle.xa_decide.specs.Context.{category_of, naming_id, naming_id_of};

use xa_value::Category;

/// Whether the text is the category's URI.
fn is_uri(text: &str, category: Category) -> bool
    ensures { result ≡ bytes_eq text.now (uri_of category) }
{
    text == category.uri()
}

/// The first of the categories that has the URI.
fn first_with_uri(categories: &[Category], uri: &str) -> Option<Category>
    ensures { result ≡ find (λ category. bytes_eq uri.now (uri_of category)) categories.now }
{
    categories
        .iter()
        .copied()
        .find(|category| is_uri(uri, *category))
}

/// The category of a URI.
#[tactic(auto, unfolding(crate::specs::Context::category_of))]
fn category_of(uri: &str) -> Option<Category>
    ensures { result ≡ category_of uri.now }
{
    first_with_uri(&Category::ALL, uri)
}

/// The id of the attribute that names an entity of the category, if one does.
fn naming_id(category: Category) -> Option<&'static str>
    ensures { option_map (λ id. id.now) result ≡ naming_id category }
{
    match category {
        Category::Resource => Some("urn:oasis:names:tc:xacml:1.0:resource:resource-id"),
        Category::Action => Some("urn:oasis:names:tc:xacml:1.0:action:action-id"),
        category if category.is_subject() => Some(
            "urn:oasis:names:tc:xacml:1.0:subject:subject-id",
        ),
        _ => None,
    }
}

/// The id of the attribute that names an entity of the category with that URI, if one does.
pub(crate) fn naming_id_of(category: &str) -> Option<&'static str>
    ensures { option_map (λ id. id.now) result ≡ naming_id_of (category_of category.now) }
{
    naming_id(category_of(category)?)
}
