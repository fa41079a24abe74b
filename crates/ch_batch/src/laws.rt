ghost use Rattle.ch_batch.specs.Laws.{BatchesLaw, CollectsChain, WebhooksLaw};

/// Whatever is done to a batcher, each event that it accepts is in one batch or waits to be cut, in order; batches
/// are numbered from 1 and have 1 to `BATCH_EVENTS` events; and each is gone or waits, in the order of their numbers.
pub fn each_event_is_in_one_batch()
    ensures { BatchesLaw }
{}

/// What a batcher does at its caller's desk, one call after another, is joined.
pub fn gathers_chain()
    ensures { CollectsChain }
{}

/// Where a batcher alone takes the webhook events of the shards, the events of all its batches are those of the
/// shards' histories, each once; and `channel_occupied` and `channel_vacated` of each channel alternate over them.
pub fn webhooks_alternate()
    ensures { WebhooksLaw }
{}
