//! Which texts are names of domains.
ghost use Rattle.std.specs.Prelude.{◌≡◌};
ghost use Rattle.std.specs.List.{list_all};
ghost use Rattle.xa_records.specs.DomainName.{begins_name, continues_name, is_domain_name};

/// The most bytes that may follow the first of a domain's name, which each path of the domain repeats.
const MAX_LATER_BYTES: usize = 31;

/// Whether the byte is a small letter or a digit.
fn begins_name(byte: u8) -> bool
    ensures { result ≡ begins_name byte }
{
    byte.is_ascii_lowercase() || byte.is_ascii_digit()
}

/// Whether the byte is a small letter, a digit or a dash.
fn continues_name(byte: u8) -> bool
    ensures { result ≡ continues_name byte }
{
    begins_name(byte) || byte == b'-'
}

/// Whether all bytes are small letters, digits and dashes.
fn all_continue(bytes: &[u8]) -> bool
    ensures { result ≡ list_all continues_name bytes.now }
{
    bytes.iter().all(|byte| continues_name(*byte))
}

/// Whether the bytes are a domain name: one to 32 small letters, digits and dashes, of which the first is
/// no dash.
#[tactic(auto, unfolding(crate::specs::DomainName::is_domain_name))]
pub fn is_domain_name(name: &[u8]) -> bool
    ensures { result ≡ is_domain_name name.now }
{
    let [first, later @ ..] = name else {
        return false;
    };
    later.len() <= MAX_LATER_BYTES && begins_name(*first) && all_continue(later)
}
