ghost use Rattle.std.specs.Prelude.{◌≡◌, ◌≤◌, IfOk, IsUtf8, All, length, map};
ghost use Rattle.std.specs.List.{count_by};
ghost use Rattle.httparse.specs.Spans.{IsWithin, IsHeaderWithin, IsRequestWithin, IsRequestOf, span_bytes};
ghost use Rattle.ch_requests.specs.Heads.{IsHeading, is_line_end, whole};
ghost use Rattle.ch_http.specs.Headings.{IsHeadingOf, HasTextName, field_at};

use crate::place::ends_in_target;
use ch_base::{Bytes, Items, Memory, Text};
use ch_requests::{FieldList, Head, HeadField, MOST_LINES};
use httparse::spans::{EMPTY_HEADER_SPAN, HeaderSpan, RequestSpans, Span, parse_request};
use httparse::{Error, Status};
use std::alloc::Global;

/// What the first bytes hold of a head.
#[derive(Debug, Drop)]
pub(crate) enum Heading {
    /// They can't begin a head.
    Hopeless,
    /// They may begin a head that isn't whole yet.
    Unfinished,
    /// They begin with this head.
    Whole(Head),
}

/// Reads the head with which the bytes begin. They have at most [`MOST_LINES`] line ends.
pub(crate) fn read_heading(alloc: Global, first: &[u8]) -> Result<Heading, Memory>
    requires { count_by is_line_end first.now ≤ MOST_LINES }
    ensures { IfOk result (IsHeadingOf first.now) }
{
    let mut headers = [EMPTY_HEADER_SPAN; MOST_LINES];
    match parse_request(first, &mut headers) {
        Ok(Status::Complete(spans)) => {
            let head = head_at(alloc, first, &spans, &headers)?;
            Ok(Heading::Whole(head))
        }
        Ok(Status::Partial) => Ok(Heading::Unfinished),
        // Each field has a line end of its own, so there is room for all of them.
        Err(Error::TooManyHeaders) => unreachable!(),
        // A target is judged once its end is there.
        Err(_) if ends_in_target(first) => Ok(Heading::Unfinished),
        Err(_) => Ok(Heading::Hopeless),
    }
}

/// The head whose parts lie there.
fn head_at(
    alloc: Global,
    first: &[u8],
    spans: &RequestSpans,
    headers: &[HeaderSpan],
) -> Result<Head, Memory>
    requires within { IsRequestWithin first.now headers.now spans.now }
    requires head { IsRequestOf first.now headers.now spans.now }
    ensures { IfOk result (λ head. IsHeading first.now (whole head)) }
{
    Ok(Head {
        method: text_at(alloc, first, spans.method)?,
        target: text_at(alloc, first, spans.path)?,
        minor: spans.version,
        fields: fields_at(alloc, first, &headers[..spans.headers])?,
        used: spans.len as u64,
    })
}

/// The fields that lie there, in order.
fn fields_at(alloc: Global, first: &[u8], headers: &[HeaderSpan]) -> Result<FieldList, Memory>
    requires within { All (IsHeaderWithin (length first.now)) headers.now }
    requires names { All (HasTextName first.now) headers.now }
    ensures { IfOk result (λ fields. fields ≡ map (field_at first.now) headers.now) }
{
    let mut fields = Items::new(alloc);
    'headers: for header in headers {
        fields.push(field_at(alloc, first, *header)?)?;
    }
    Ok(fields)
}

fn field_at(alloc: Global, first: &[u8], header: HeaderSpan) -> Result<HeadField, Memory>
    requires within { IsHeaderWithin (length first.now) header }
    requires name { HasTextName first.now header }
    ensures { IfOk result (λ field. field ≡ field_at first.now header) }
{
    let name = text_at(alloc, first, header.name)?;
    let value = header.value.of(first).to_vec(alloc)?;
    Ok(HeadField {
        name,
        value: Bytes::from_vec(value),
    })
}

/// The text that lies there.
fn text_at(alloc: Global, first: &[u8], span: Span) -> Result<Text, Memory>
    requires within { IsWithin (length first.now) span }
    requires text { IsUtf8 (span_bytes first.now span) }
    ensures { IfOk result (λ text. text ≡ span_bytes first.now span) }
{
    match str::from_utf8(span.of(first)) {
        Ok(text) => Text::of(alloc, text),
        Err(_) => unreachable!(),
    }
}
