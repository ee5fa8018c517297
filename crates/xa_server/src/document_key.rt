//! The key of a document, by the parts of a path.
ghost use Rattle.std.specs.Prelude.{◌≡◌};
ghost use Rattle.xa_server.specs.DocumentKey.{key_of_parts};

use xa_http::DocumentParts;
use xa_policy::{DocumentKey, DocumentKind, Version};
use xa_value::Text;

/// The key that these parts write; nothing if the kind is another, the id is no text or the version
/// doesn't read.
#[tactic(auto, unfolding(crate::specs::DocumentKey::key_of_parts))]
pub(crate) fn key_of_parts(parts: DocumentParts) -> Option<DocumentKey>
    ensures { result ≡ key_of_parts parts }
{
    let DocumentParts { kind, id, version } = parts;
    let kind = DocumentKind::named(kind.as_slice())?;
    let id = Text::from_utf8(id)?;
    let text = Text::from_utf8(version)?;
    let version = Version::read(text.as_str()).ok()?;
    Some(DocumentKey { kind, id, version })
}
