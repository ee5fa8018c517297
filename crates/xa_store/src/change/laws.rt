//! Laws of what a change writes: it reads back from the texts of its row. A law does nothing when it runs; a
//! call of it tells the proof what its clause says.
ghost use Rattle.std.specs.Prelude.{◌≡◌, ℤ, true, option_and_then, option_map};
ghost use Rattle.std.specs.Str.{is_utf8};
ghost use Rattle.std.specs.Result.{result_ok};
ghost use Rattle.xa_policy.specs.Pattern.{pattern_text, read_pattern};
ghost use Rattle.xa_policy.specs.Version.{read_version, version_text};
ghost use Rattle.xa_store.specs.Opened.{is_digest, is_pattern, is_version};
ghost use Rattle.xa_store.specs.keeping.Plan.{HasRootTexts, RootReads};
ghost use Rattle.xa_store.specs.Rows.{reference_of, root_of};
ghost use Rattle.xa_store.specs.Sound.{AreRootTexts, is_if_any};
ghost use Rattle.xa_store.specs.keeping.Steps.{KeyReads};

use xa_policy::{DocumentKey, Pattern, Reference, Version};
use xa_records::Digest;
use xa_value::Text;

/// Law: a text is UTF-8.
pub(crate) fn bytes_are_utf8(text: &Text)
    ensures { is_utf8 text.now ≡ true }
{
    // For the proof: a `str` is UTF-8.
    let _text = text.as_str();
}

/// Law: a text that may be absent is UTF-8, if it is there.
pub(crate) fn bytes_are_utf8_if_any(text: &Option<Text>)
    ensures { is_if_any is_utf8 text.now ≡ true }
{
    if let Some(text) = text {
        bytes_are_utf8(text);
    }
}

/// Law: a digest has 32 bytes.
pub(crate) fn has_all_bytes(digest: &Digest)
    ensures { is_digest digest.now ≡ true }
{
    // For the proof: an array of 32 bytes has 32.
    let _bytes = digest.as_bytes();
}

/// Law: a key reads back from the texts of its row.
pub(crate) fn key_reads_back(key: &DocumentKey)
    ensures { KeyReads key.now }
{
    key.version.reads_back();
}

/// Law: a pattern reads back from its text.
fn pattern_reads_back(pattern: &Option<Pattern>)
    ensures back { option_and_then (λ text. result_ok (read_pattern text))
        (option_map pattern_text pattern.now) ≡ pattern.now }
    ensures reads { is_if_any is_pattern (option_map pattern_text pattern.now) ≡ true }
{
    match pattern {
        Some(pattern) => {
            // For the proof: the parts of a pattern are valid.
            let _parts = pattern.parts();
            pattern.reads_back()
        }
        None => (),
    }
}

/// Law: a version reads back from its text.
fn version_reads_back(version: &Option<Version>)
    ensures back { option_and_then (λ text. result_ok (read_version text))
        (option_map version_text version.now) ≡ version.now }
    ensures reads { is_if_any is_version (option_map version_text version.now) ≡ true }
{
    match version {
        Some(version) => {
            // For the proof: the numbers of a version are valid.
            let _numbers = version.numbers();
            version.reads_back()
        }
        None => (),
    }
}

/// Law: a reference reads back from the texts of its row.
fn reference_reads_back(root: &Reference)
    ensures reads { (number : ℤ) → reference_of (root_of number root.now) ≡ root.now }
    ensures texts { (number : ℤ) → AreRootTexts (root_of number root.now) }
{
    bytes_are_utf8(&root.id);
    pattern_reads_back(&root.version);
    version_reads_back(&root.earliest);
    version_reads_back(&root.latest);
}

/// Law: a root that may be absent reads back, too.
pub(crate) fn root_reads_back(root: &Option<Reference>)
    ensures reads { (number : ℤ) → RootReads number root.now }
    ensures texts { (number : ℤ) → HasRootTexts number root.now }
{
    match root {
        Some(root) => reference_reads_back(root),
        None => (),
    }
}
