//! Tokens as they are written, and what they may do.
ghost use Rattle.std.specs.Prelude.{◌≡◌};
ghost use Rattle.std.specs.List.{list_all};
ghost use Rattle.xa_notation.specs.Tokens.{is_token, is_visible};

/// A token has at least this many bytes: a shorter one is too easily guessed.
const MIN_TOKEN_BYTES: usize = 8;

/// A token has at most this many bytes, enough for 256 bits in hexadecimal.
const MAX_TOKEN_BYTES: usize = 64;

/// What a token may do in its domain.
#[derive(Clone, Copy, Debug, PartialEq, Eq)]
pub enum Role {
    /// Ask for decisions.
    Ask,
    /// Ask for decisions, and administer the domain.
    Admin,
}

/// Whether all characters are visible ASCII.
fn all_visible(text: &[u8]) -> bool
    ensures { result ≡ list_all is_visible text.now }
{
    text.iter().all(|byte| byte.is_ascii_graphic())
}

/// Whether the text is a token: 8 to 64 visible ASCII characters.
#[tactic(auto, unfolding(crate::specs::Tokens::is_token))]
pub fn is_token(text: &[u8]) -> bool
    ensures { result ≡ is_token text.now }
{
    if text.len() < MIN_TOKEN_BYTES || MAX_TOKEN_BYTES < text.len() {
        return false;
    }
    all_visible(text)
}
