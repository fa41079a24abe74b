ghost use Rattle.std.specs.Prelude.{◌≡◌, ◌+◌, ◌<◌, ◌≤◌, IfOk, map};
ghost use Rattle.ch_webhooks.specs.Batches.{batch_of, contents, piece, piece_count};
ghost use Rattle.ch_webhooks.specs.Batching.{new_batch};
ghost use Rattle.ch_webhooks.specs.declared.limits.TheConstants.{GREATEST_NUMBER};

use crate::bodies::body_text;
use ch_base::{Bytes, Hook, Memory};
use ch_sig::body_sig;
use ch_webhooks::{BATCH_EVENTS, Batch, Sender, Waiting};
use std::alloc::Global;

/// The batch with this number, cut at this moment, of these events.
fn batch_of(
    alloc: Global,
    sender: &Sender,
    number: u64,
    moment: u64,
    events: &[Hook],
) -> Result<Batch, Memory>
    ensures { IfOk result (λ b. b ≡ batch_of sender.now (record { number = number; moment = moment; events = events.now })) }
{
    let body = body_text(alloc, sender.start, moment, events)?;
    let signature = body_sig(sender.secret.as_str().as_bytes(), body.as_bytes());
    let body = Bytes::from_vec(body.into_bytes());
    Ok(Batch {
        number,
        moment,
        body,
        signature,
    })
}

/// How many batches are made of the events.
pub fn piece_count(events: &[Hook]) -> usize
    ensures { result ≡ piece_count events.now }
{
    events.len().div_ceil(BATCH_EVENTS)
}

/// The piece `k` of the events.
fn piece(events: &[Hook], k: usize) -> &[Hook]
    requires { k < piece_count events.now }
    ensures { result.now ≡ piece events.now k }
{
    let from = k * BATCH_EVENTS;
    let to = events.len().min(from + BATCH_EVENTS);
    &events[from..to]
}

/// The batches that a cut at this moment makes of the events, numbered from `next` on.
pub fn new_batches(
    alloc: Global,
    sender: &Sender,
    moment: u64,
    next: u64,
    events: &[Hook],
) -> Result<Vec<Waiting>, Memory>
    requires { next + piece_count events.now ≤ GREATEST_NUMBER + 1 }
    ensures { IfOk result (λ v. v.items ≡ map (λ c. new_batch (batch_of sender.now c)) (contents moment next events.now)) }
{
    let mut batches = Vec::new(alloc);
    for k in 0..piece_count(events) {
        let batch = batch_of(alloc, sender, next + k as u64, moment, piece(events, k))?;
        batches.push(Waiting {
            batch,
            tries: 0,
            due: 0,
        })?;
    }
    Ok(batches)
}
