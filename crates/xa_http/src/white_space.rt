//! White space around a value (RFC 9110, section 5.6.3).
ghost use Rattle.std.specs.Prelude.{◌≡◌, reverse};
ghost use Rattle.httparse.specs.Grammar.{is_ows, skip_ows, trim_ows};

/// Whether the byte is white space in a field's value: a space or a tab.
fn is_ows(byte: u8) -> bool
    ensures { result ≡ is_ows byte }
{
    byte == b' ' || byte == b'\t'
}

/// The bytes without the white space that they begin with.
fn skip_ows(bytes: &[u8]) -> &[u8]
    ensures { result.now ≡ skip_ows bytes.now }
{
    let mut rest = bytes;
    while let [first, others @ ..] = rest {
        if !is_ows(*first) {
            return rest;
        }
        rest = others;
    }
    rest
}

/// The bytes without the white space that they end with.
#[tactic(auto, using(crate::proofs::TrimLemmas::last_blank, crate::proofs::TrimLemmas::last_other, crate::proofs::TrimLemmas::trimmed_none))]
fn skip_last_ows(bytes: &[u8]) -> &[u8]
    ensures { result.now ≡ reverse (skip_ows (reverse bytes.now)) }
{
    let mut rest = bytes;
    while let [others @ .., last] = rest {
        if !is_ows(*last) {
            return rest;
        }
        rest = others;
    }
    rest
}

/// The bytes without the white space around them.
#[tactic(auto, unfolding(httparse::specs::Grammar::trim_ows))]
pub(crate) fn trim_ows(bytes: &[u8]) -> &[u8]
    ensures { result.now ≡ trim_ows bytes.now }
{
    skip_last_ows(skip_ows(bytes))
}
