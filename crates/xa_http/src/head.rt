//! The head of a message, copied from where the parser's offsets point.
ghost use Rattle.std.specs.Prelude.{◌≡◌, ◌≤◌, length, map, All, IfOk};
ghost use Rattle.httparse.specs.Spans.{IsWithin, IsHeaderWithin, IsRequestWithin, IsRequestOf, span_bytes};
ghost use Rattle.xa_http.specs.parsing.Front.{field_at, IsHeadOf};

use crate::closing::closes;
use crate::message::{Field, Message};
use httparse::spans::{HeaderSpan, RequestSpans, Span};
use std::alloc::{AllocError, Global};
use xa_value::Items;

/// The bytes that the span covers.
fn read_bytes(alloc: Global, bytes: &[u8], span: Span) -> Result<Items<u8>, AllocError>
    requires { IsWithin (length bytes.now) span }
    ensures { IfOk result (λ read. read ≡ span_bytes bytes.now span) }
{
    Ok(Items::from_vec(Vec::from_slice(alloc, span.of(bytes))?))
}

/// The field line that the spans cover.
fn read_field(alloc: Global, bytes: &[u8], header: HeaderSpan) -> Result<Field, AllocError>
    requires { IsHeaderWithin (length bytes.now) header }
    ensures { IfOk result (λ field. field ≡ field_at bytes.now header) }
{
    Ok(Field {
        name: read_bytes(alloc, bytes, header.name)?,
        value: read_bytes(alloc, bytes, header.value)?,
    })
}

/// The field lines that the spans cover.
fn read_fields(
    alloc: Global,
    bytes: &[u8],
    headers: &[HeaderSpan],
) -> Result<Items<Field>, AllocError>
    requires { All (IsHeaderWithin (length bytes.now)) headers.now }
    ensures { IfOk result (λ fields. fields ≡ map (field_at bytes.now) headers.now) }
{
    let mut fields = Vec::with_capacity(alloc, headers.len())?;
    for header in headers {
        fields.push(read_field(alloc, bytes, *header)?)?;
    }
    Ok(Items::from_vec(fields))
}

/// The head that the spans cover, as a message without a body.
pub(crate) fn read_head(
    alloc: Global,
    window: &[u8],
    spans: &RequestSpans,
    headers: &[HeaderSpan],
) -> Result<Message, AllocError>
    requires within { IsRequestWithin window.now headers.now spans.now }
    requires found { IsRequestOf window.now headers.now spans.now }
    ensures { IfOk result (λ head. IsHeadOf window.now head spans.now.len) }
{
    let fields = read_fields(alloc, window, &headers[..spans.headers])?;
    let close = closes(spans.version, fields.as_slice());
    Ok(Message {
        method: read_bytes(alloc, window, spans.method)?,
        target: read_bytes(alloc, window, spans.path)?,
        fields,
        body: Items::new(alloc),
        close,
    })
}
