//! The bodies that list what is kept.
ghost use Rattle.std.specs.Prelude.{◌≡◌, ◌∷◌, [], IfOk, map};
ghost use Rattle.json.specs.Token.{key, string};
ghost use Rattle.serde_json.specs.Data.{string as string_data};
ghost use Rattle.xa_profile.specs.Response.{listing};
ghost use Rattle.xa_profile.specs.writing.Tokens.{Appends, tokens};
ghost use Rattle.xa_records.specs.Listing.{listed_data, listing_body, names_body};

use crate::listed::Listed;
use json::Writer;
use std::alloc::{AllocError, Global};
use xa_profile::{ToJson, write_items};
use xa_value::Text;

impl ToJson for Listed {
    ghost written = { λ listed. listed_data listed };

    fn write(&self, alloc: Global, out: &mut Writer) -> Result<(), AllocError> {
        let version = self.key.version.to_text(alloc)?;
        out.begin_object()?;
        out.key("Active")?;
        out.boolean(self.active)?;
        write_named_text(out, "Id", self.key.id.as_str())?;
        write_named_text(out, "Kind", self.key.kind.name())?;
        write_named_text(out, "Version", version.as_str())?;
        out.end_object()
    }
}

/// Writes a text as a member.
fn write_named_text(out: &mut Writer, name: &str, text: &str) -> Result<(), AllocError>
    ensures { Appends result out.old out.new (key name.now ∷ string text.now ∷ []) }
{
    out.key(name)?;
    out.string(text)
}

/// Writes an array of texts.
fn write_texts(out: &mut Writer, texts: &[Text]) -> Result<(), AllocError>
    ensures { Appends result out.old out.new (tokens (listing (map string_data texts.now))) }
{
    out.begin_array()?;
    for text in texts {
        out.string(text.as_str())?;
    }
    out.end_array()
}

/// The body that lists documents: `{"Policy":[{"Active","Id","Kind","Version"}]}`, compact JSON, in the
/// order in which they are given.
pub fn write_listing(alloc: Global, documents: &[Listed]) -> Result<Vec<u8>, AllocError>
    ensures { IfOk result (λ body. body.items ≡ listing_body documents.now) }
{
    let mut out = Writer::new(Vec::new(alloc));
    out.begin_object()?;
    out.key("Policy")?;
    write_items(alloc, &mut out, documents)?;
    out.end_object()?;
    Ok(out.into_inner())
}

/// The body that lists the names of domains: `{"Domain":[..]}`, compact JSON, in the order in which they
/// are given.
pub fn write_names(alloc: Global, names: &[Text]) -> Result<Vec<u8>, AllocError>
    ensures { IfOk result (λ body. body.items ≡ names_body names.now) }
{
    let mut out = Writer::new(Vec::new(alloc));
    out.begin_object()?;
    out.key("Domain")?;
    write_texts(&mut out, names)?;
    out.end_object()?;
    Ok(out.into_inner())
}
