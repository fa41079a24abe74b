ghost use Rattle.std.specs.Prelude.{◌≡◌, ◌≤◌, IfOk, drop, length, Some, bytes_eq, false, if◌then◌else◌};
ghost use Rattle.ch_requests.specs.Fields.{is};
ghost use Rattle.ch_requests.specs.Heads.{IsHeading, first_bytes, is_full, whole};
ghost use Rattle.ch_requests.specs.Routes.{get_method};
ghost use Rattle.ch_requests.specs.Verdict.{IsVerdict, look_behind, with_route, with_body, with_length, request_of, is_upgrade};

use crate::field::field_lists;
use crate::first_bytes::{first_bytes, is_full};
use crate::heading::{Heading, read_heading};
use crate::length::{BodyLength, body_length};
use crate::query::read_query;
use crate::route::{decoded_route, route_of};
use crate::target::{path_of, query_of};
use ch_base::{Bytes, Memory, Text};
use ch_requests::{Head, LONGEST_CONTENT, Look, Request, Route};
use std::alloc::Global;

/// The verdict on these bytes, on the server of the app with this id, while there is time.
pub(crate) fn judge(alloc: Global, app_id: &str, bytes: &[u8]) -> Result<Look, Memory>
    ensures { IfOk result (IsVerdict app_id.now bytes.now false) }
{
    let first = first_bytes(bytes);
    match read_heading(alloc, first)? {
        Heading::Hopeless => Ok(Look::Refuse(400)),
        Heading::Unfinished => Ok(unfinished(first)),
        Heading::Whole(head) => judge_whole(alloc, app_id, head, bytes),
    }
}

/// The verdict on bytes that begin with this head.
fn judge_whole(alloc: Global, app_id: &str, head: Head, bytes: &[u8]) -> Result<Look, Memory>
    requires { IsHeading (first_bytes bytes.now) (whole head) }
    ensures { IfOk result (IsVerdict app_id.now bytes.now false) }
{
    let behind = bytes_behind(bytes, head.used);
    look_behind(alloc, app_id, head, behind)
}

/// The bytes behind the first so many.
fn bytes_behind(bytes: &[u8], used: u64) -> &[u8]
    requires { used ≤ length bytes.now }
    ensures { result.now ≡ drop used bytes.now }
{
    &bytes[used as usize..]
}

/// What first bytes are whose head isn't whole yet.
fn unfinished(first: &[u8]) -> Look
    ensures { result ≡ (if is_full first.now then Look.Refuse 431 else Look.Need) }
{
    if is_full(first) {
        Look::Refuse(431)
    } else {
        Look::Need
    }
}

/// What a whole head is, with the bytes behind it. A handshake is judged before the path.
fn look_behind(alloc: Global, app_id: &str, head: Head, behind: &[u8]) -> Result<Look, Memory>
    ensures { IfOk result (λ look. look ≡ look_behind app_id.now head behind.now) }
{
    if is_upgrade(&head) {
        return Ok(Look::Upgrade(head));
    }
    match route_of(alloc, app_id, path_of(head.target.as_str()))? {
        Some(route) => with_route(alloc, &head, route, behind),
        None => Ok(Look::Refuse(404)),
    }
}

/// Whether it is a GET that asks for a WebSocket (RFC 6455, section 4.2.1).
fn is_upgrade(head: &Head) -> bool
    ensures { result ≡ is_upgrade head.now }
{
    is_get(head) && field_lists(head.fields.as_slice(), "upgrade", b"websocket")
}

fn is_get(head: &Head) -> bool
    ensures { result ≡ bytes_eq head.now.method get_method }
{
    head.method.as_str() == "GET"
}

/// What a request of this route is, whose method has to be the route's.
fn with_route(alloc: Global, head: &Head, route: Route, behind: &[u8]) -> Result<Look, Memory>
    ensures { IfOk result (λ look. look ≡ with_route head.now behind.now (Some route)) }
{
    if head.method.as_str() != route.method() {
        return Ok(Look::Refuse(405));
    }
    match decoded_route(alloc, route)? {
        Some(route) => with_body(alloc, head, route, behind),
        None => Ok(Look::Refuse(400)),
    }
}

/// The request with its body. A GET has none, whatever its length says.
fn with_body(alloc: Global, head: &Head, route: Route, behind: &[u8]) -> Result<Look, Memory>
    ensures { IfOk result (λ look. look ≡ with_body head.now route behind.now) }
{
    if is_get(head) {
        return ready(alloc, head, route, &[]);
    }
    match body_length(head.fields.as_slice()) {
        BodyLength::Missing => Ok(Look::Refuse(411)),
        BodyLength::Bad => Ok(Look::Refuse(400)),
        BodyLength::Is(length) => with_length(alloc, head, route, behind, length),
    }
}

/// The request with a body of so many bytes, once they are there.
fn with_length(
    alloc: Global,
    head: &Head,
    route: Route,
    behind: &[u8],
    length: u64,
) -> Result<Look, Memory>
    ensures { IfOk result (λ look. look ≡ with_length head.now route behind.now (is length)) }
{
    if length > LONGEST_CONTENT {
        Ok(Look::Refuse(413))
    } else if (behind.len() as u64) < length {
        Ok(Look::Need)
    } else {
        ready(alloc, head, route, &behind[..length as usize])
    }
}

/// The whole request.
fn ready(alloc: Global, head: &Head, route: Route, body: &[u8]) -> Result<Look, Memory>
    ensures { IfOk result (λ look. look ≡ Look.Ready (request_of head.now route body.now)) }
{
    let target = head.target.as_str();
    let query = read_query(alloc, query_of(target))?;
    Ok(Look::Ready(Request {
        route,
        path: Text::of(alloc, path_of(target))?,
        params: query.params,
        doubled: query.doubled,
        body: Bytes::from_vec(body.to_vec(alloc)?),
    }))
}
