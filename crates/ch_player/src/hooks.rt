ghost use Rattle.std.specs.Prelude.{◌≡◌, ◌≤◌, ◌++◌, length, OnOk};
ghost use Rattle.ch_config.specs.declared.config.Config.{Config};
ghost use Rattle.ch_desk.specs.AloneCalls.{IsAlone};
ghost use Rattle.ch_desk.specs.Bench.{view_of};
ghost use Rattle.ch_protocol.specs.Shards.{Shards};
ghost use Rattle.ch_base.specs.declared.limits.TheConstants.{LATEST_MOMENT};
ghost use Rattle.ch_transcript.specs.Gathering.{batch_line, events_waiting};
ghost use Rattle.ch_webhooks.specs.Batching.{with_events};
ghost use Rattle.ch_player.specs.Benches.{HasShards, IsAtShards};
ghost use Rattle.ch_player.specs.Hooks.{Gathers, Prints};

use ch_base::Memory;
use ch_batch::{Batch, Batcher};
use ch_desk::{Bench, calls_alone};
use std::alloc::Global;

/// Takes the webhook events that are pending on the channel shards at the moment `at`, cuts them into batches, and prints these.
/// Each counts as sent then.
pub fn gather_hooks(
    alloc: Global,
    bench: &mut Bench,
    batcher: &mut Batcher,
    at: u64,
    out: &mut Vec<u8>,
) -> Result<(), Memory>
    requires { at ≤ LATEST_MOMENT }
    ensures gathers { (shards : Shards) → IsAtShards bench.old shards → IsAlone (view_of bench.new) → OnOk result
        (Gathers at (with_events batcher.old.state (events_waiting at shards (length bench.old.shards))) bench.new batcher.new.state out.old.items out.new.items shards) }
    ensures shards { (config : Config) → HasShards config bench.old → HasShards config bench.new }
{
    calls_alone();
    match batcher.gather(&(), bench, at) {
        Ok(_) => print_batches(alloc, batcher, out),
        Err(memory) => Err(memory),
    }
}

/// Prints the batches that wait, the lowest number first; none waits then.
fn print_batches(alloc: Global, batcher: &mut Batcher, out: &mut Vec<u8>) -> Result<(), Memory>
    ensures { OnOk result (Prints batcher.old.state batcher.new.state out.old.items out.new.items) }
{
    while let Some(batch) = batcher.take_lowest() {
        put_batch(alloc, out, &batch)?;
    }
    Ok(())
}

/// Adds the line of a batch: `hook <number> <signature> <body>`.
fn put_batch(alloc: Global, out: &mut Vec<u8>, batch: &Batch) -> Result<(), Memory>
    ensures { OnOk result (out.new.items ≡ out.old.items ++ batch_line batch.now) }
{
    let number = batch.number;
    let front = format!(in alloc; "hook {number} ")?;
    out.extend_from_slice(front.as_bytes())?;
    out.extend_from_slice(&batch.signature)?;
    out.extend_from_slice(b" ")?;
    out.extend_from_slice(batch.body.as_slice())?;
    out.extend_from_slice(b"\n")?;
    Ok(())
}
