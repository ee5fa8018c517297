//! A head that isn't whole yet, followed byte by byte: what was read of it isn't read again.
ghost use Rattle.std.specs.Prelude.{◌≡◌, ◌+◌, ◌<◌, ◌≤◌, length, take, IfSome, IsTrue, IsUtf8};
ghost use Rattle.xa_http.specs.Messages.{IsUnfinished};
ghost use Rattle.xa_http.specs.parsing.OpenHead.{EndsIn, IsOpenHead, IsVersionEnd};
ghost use Rattle.xa_http.specs.declared.open_head.HeadPart.TheVariants.{Blank, Target};

use crate::limits::MAX_HEAD_BYTES;
use httparse::{is_header_name_token, is_header_value_token, is_method_token, is_uri_token};

/// In which part of a head its bytes end, while more may follow.
#[derive(Clone, Copy, Debug)]
pub(crate) enum HeadPart {
    /// The empty lines before it.
    Blank,
    /// Such a line, after its CR.
    BlankReturn,
    /// The method.
    Method,
    /// The target, which begins at that place.
    Target(usize),
    /// The beginning of a line after the request line.
    Line,
    /// A field's name.
    Name,
    /// A field's value.
    Value,
    /// The end of a field line, after its CR.
    ValueReturn,
}

/// The beginning of a head, as far as it was followed.
#[derive(Clone, Copy, Debug)]
pub(crate) struct OpenHead {
    /// How many bytes were followed.
    pub(crate) len: usize,
    /// Where they end.
    pub(crate) part: HeadPart,
}

impl OpenHead {
    /// The beginning of a head of which nothing was followed.
    pub(crate) fn new() -> OpenHead
        ensures { result ≡ record { len = 0; part = Blank } }
    {
        OpenHead {
            len: 0,
            part: HeadPart::Blank,
        }
    }

    /// Follows the bytes held as far as it is certain that a head may go on so. Each byte is looked
    /// at once, but for the end of the request line and the empty line at the end.
    pub(crate) fn follow(self, held: &[u8]) -> OpenHead
        requires { IsOpenHead held.now self }
        ensures { IsOpenHead held.now result }
    {
        let mut head = self;
        while let Some(next) = head.next(held) {
            head = next;
        }
        head
    }

    /// Whether all that is held was followed, and isn't more than a head may have: then more bytes
    /// may make a message of it.
    #[tactic(auto, using(crate::proofs::OpenHeadLemmas::unfinished))]
    pub(crate) fn is_unfinished(self, held: &[u8]) -> bool
        requires { IsOpenHead held.now self }
        ensures { IsTrue result → IsUnfinished held.now }
    {
        if self.len < held.len() {
            return false;
        }
        held.len() < MAX_HEAD_BYTES
    }

    /// The head with the next byte held, or with the rest of its request line.
    fn next(self, held: &[u8]) -> Option<OpenHead>
        requires { IsOpenHead held.now self }
        ensures open { IfSome result (IsOpenHead held.now) }
        ensures further { IfSome result (λ next. self.len < next.len) }
    {
        if self.len == held.len() {
            return None;
        }
        if let Some(part) = part_after(self.part, held, self.len) {
            return Some(OpenHead {
                len: self.len + 1,
                part,
            });
        }
        match self.part {
            HeadPart::Target(start) => after_target(held, start, self.len),
            _ => None,
        }
    }
}

/// The part in which a head goes on with the next byte. There is none if the byte is no longer in
/// a head, nor if the byte alone doesn't tell: at the end of the target and of the head.
fn part_after(part: HeadPart, held: &[u8], at: usize) -> Option<HeadPart>
    requires within { at < length held.now }
    requires open { EndsIn part (take at held.now) }
    ensures { IfSome result (λ next. EndsIn next (take (at + 1) held.now)) }
{
    let byte = held[at];
    match part {
        HeadPart::Blank if byte == b'\n' => Some(HeadPart::Blank),
        HeadPart::Blank if byte == b'\r' => Some(HeadPart::BlankReturn),
        HeadPart::Blank if is_method_token(byte) => Some(HeadPart::Method),
        HeadPart::BlankReturn if byte == b'\n' => Some(HeadPart::Blank),
        HeadPart::Method if is_method_token(byte) => Some(HeadPart::Method),
        HeadPart::Method if byte == b' ' => Some(HeadPart::Target(at + 1)),
        HeadPart::Target(start) if is_uri_token(byte) => Some(HeadPart::Target(start)),
        HeadPart::Line if is_header_name_token(byte) => Some(HeadPart::Name),
        HeadPart::Name if is_header_name_token(byte) => Some(HeadPart::Name),
        HeadPart::Name if byte == b':' => Some(HeadPart::Value),
        HeadPart::Value if is_header_value_token(byte) => Some(HeadPart::Value),
        HeadPart::Value if byte == b'\r' => Some(HeadPart::ValueReturn),
        HeadPart::Value if byte == b'\n' => Some(HeadPart::Line),
        HeadPart::ValueReturn if byte == b'\n' => Some(HeadPart::Line),
        _ => None,
    }
}

/// Whether these bytes are a whole target.
fn is_target(bytes: &[u8]) -> bool
    ensures { IsTrue result → (0 < length bytes.now) × IsUtf8 bytes.now }
{
    !bytes.is_empty() && std::str::from_utf8(bytes).is_ok()
}

/// How many bytes the rest of a request line has after the target, if the bytes begin with all of it.
fn version_len(bytes: &[u8]) -> Option<usize>
    ensures read { IfSome result (λ n. IsVersionEnd (take n bytes.now)) }
    ensures within { IfSome result (λ n. (0 < n) × (n ≤ length bytes.now)) }
{
    if bytes.starts_with(b" HTTP/1.1\r\n") {
        return Some(11);
    }
    if bytes.starts_with(b" HTTP/1.0\r\n") {
        return Some(11);
    }
    if bytes.starts_with(b" HTTP/1.1\n") {
        return Some(10);
    }
    if bytes.starts_with(b" HTTP/1.0\n") {
        return Some(10);
    }
    None
}

/// The head after its request line, if the rest of that has come whole.
#[tactic(auto, using(crate::proofs::OpenHeadLemmas::target_within, crate::proofs::OpenHeadLemmas::line_first))]
fn after_target(held: &[u8], start: usize, at: usize) -> Option<OpenHead>
    requires within { at ≤ length held.now }
    requires open { EndsIn (Target start) (take at held.now) }
    ensures open { IfSome result (IsOpenHead held.now) }
    ensures further { IfSome result (λ next. at < next.len) }
{
    let len = version_len(&held[at..])?;
    if !is_target(&held[start..at]) {
        return None;
    }
    Some(OpenHead {
        len: at + len,
        part: HeadPart::Line,
    })
}
