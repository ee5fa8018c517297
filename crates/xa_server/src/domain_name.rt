//! The domain that a part of a path names.
ghost use Rattle.std.specs.Prelude.{◌≡◌};
ghost use Rattle.xa_server.specs.Owner.{name_if};

use xa_records::is_domain_name;
use xa_value::{Items, Text};

/// The part itself, if it is a domain name.
#[tactic(auto, using(crate::proofs::NameLemmas::name_is_text))]
pub(crate) fn name_if(part: Items<u8>) -> Option<Text>
    ensures { result ≡ name_if part }
{
    if is_domain_name(part.as_slice()) {
        Text::from_utf8(part)
    } else {
        None
    }
}
