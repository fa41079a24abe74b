ghost use Rattle.std.specs.Prelude.{◌≡◌, IfOk, string_bytes, codes};
ghost use Rattle.std.specs.List.{join_by};
ghost use Rattle.ch_webhooks.specs.Events.{body_text, event_text};

use crate::events::event_text;
use ch_base::{Hook, Memory};
use std::alloc::Global;

/// The body of a batch that is cut at the moment `moment`, in milliseconds, of a server that started at the second
/// `start` (Pusher Channels documentation, Webhooks, "Webhook format").
pub fn body_text(alloc: Global, start: u64, moment: u64, events: &[Hook]) -> Result<String, Memory>
    ensures { IfOk result (λ t. string_bytes t ≡ body_text start moment events.now) }
{
    let events = event_texts(alloc, start, events)?;
    let events = events.as_str();
    let text = format!(in alloc; "{{\"time_ms\":{moment},\"events\":[{events}]}}")?;
    Ok(text)
}

fn event_texts(alloc: Global, start: u64, events: &[Hook]) -> Result<String, Memory>
    ensures { IfOk result (λ t. string_bytes t ≡ join_by (event_text start) (codes ",") events.now) }
{
    let mut texts = Vec::new(alloc);
    for hook in events {
        texts.push(event_text(alloc, start, hook)?)?;
    }
    let text = texts.join(alloc, ",")?;
    Ok(text)
}
