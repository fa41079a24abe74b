//! The body of a request.
ghost use Rattle.std.specs.Prelude.{◌≡◌, [], ◌∷◌, Some, IfOk, IfSome};
ghost use Rattle.ch_requests.specs.Fit.{AreFit};
ghost use Rattle.ch_requests.specs.Triggers.{ReadsBody, TellsEvent, TellsBatch};
ghost use Rattle.ch_members.specs.Readings.{Gives};
ghost use Rattle.ch_triggers.specs.Bodies.{IsDocument, IsOnly};

use crate::batch::batch_member;
use crate::event::either_event;
use ch_base::Memory;
use ch_json::Doc;
use ch_members::{document_of, object_at};
use ch_requests::{Route, Trigger, TriggerList};
use std::alloc::Global;

/// The events that the body of a request of this route triggers; none where it has a fault. The bodies of other routes than
/// `Events` and `BatchEvents` aren't read, and trigger nothing.
pub fn read_triggers(
    alloc: Global,
    route: &Route,
    body: &[u8],
) -> Result<Option<TriggerList>, Memory>
    ensures read { IfOk result (ReadsBody route.now body.now) }
    ensures fit { IfOk result (λ triggers. IfSome triggers AreFit) }
{
    match route {
        Route::Events => only_event(alloc, body),
        Route::BatchEvents => batch_in_body(alloc, body),
        _ => Ok(Some(TriggerList::new(alloc))),
    }
}

/// The event of a body, as a list.
fn only_event(alloc: Global, body: &[u8]) -> Result<Option<TriggerList>, Memory>
    ensures { IfOk result (Gives (IsOnly (TellsEvent body.now))) }
{
    match event_in_body(alloc, body)? {
        Some(trigger) => only(alloc, trigger),
        None => Ok(None),
    }
}

fn only(alloc: Global, trigger: Trigger) -> Result<Option<TriggerList>, Memory>
    ensures { IfOk result (λ list. list ≡ Some (trigger ∷ [])) }
{
    let mut list = TriggerList::new(alloc);
    list.push(trigger)?;
    Ok(Some(list))
}

/// The event of a body that is the object of one.
fn event_in_body(alloc: Global, body: &[u8]) -> Result<Option<Trigger>, Memory>
    ensures { IfOk result (Gives (TellsEvent body.now)) }
{
    match str::from_utf8(body) {
        Ok(text) => event_in_text(alloc, text),
        Err(_) => Ok(None),
    }
}

fn event_in_text(alloc: Global, text: &str) -> Result<Option<Trigger>, Memory>
    ensures { IfOk result (Gives (TellsEvent text.now)) }
{
    match document_of(alloc, text)? {
        Some(doc) => event_of(alloc, text, &doc),
        None => Ok(None),
    }
}

fn event_of(alloc: Global, text: &str, doc: &Doc) -> Result<Option<Trigger>, Memory>
    requires { IsDocument text.now doc.now }
    ensures { IfOk result (Gives (TellsEvent text.now)) }
{
    match object_at(doc, doc.top()) {
        Some(object) => either_event(alloc, text, doc, object),
        None => Ok(None),
    }
}

/// The events of a body that is a batch.
fn batch_in_body(alloc: Global, body: &[u8]) -> Result<Option<TriggerList>, Memory>
    ensures { IfOk result (Gives (TellsBatch body.now)) }
{
    match str::from_utf8(body) {
        Ok(text) => batch_in_text(alloc, text),
        Err(_) => Ok(None),
    }
}

fn batch_in_text(alloc: Global, text: &str) -> Result<Option<TriggerList>, Memory>
    ensures { IfOk result (Gives (TellsBatch text.now)) }
{
    match document_of(alloc, text)? {
        Some(doc) => batch_of(alloc, text, &doc),
        None => Ok(None),
    }
}

fn batch_of(alloc: Global, text: &str, doc: &Doc) -> Result<Option<TriggerList>, Memory>
    requires { IsDocument text.now doc.now }
    ensures { IfOk result (Gives (TellsBatch text.now)) }
{
    match object_at(doc, doc.top()) {
        Some(object) => batch_member(alloc, text, doc, object),
        None => Ok(None),
    }
}
