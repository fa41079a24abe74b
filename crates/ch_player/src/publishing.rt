ghost use Rattle.std.specs.Prelude.{◌≡◌, IfOk};
ghost use Rattle.ch_config.specs.Config.{IsConfig};
ghost use Rattle.ch_history.specs.Placement.{shard_of, named_channel};
ghost use Rattle.ch_history.specs.WellFormed.{IsWellFormed};
ghost use Rattle.ch_player.specs.Benches.{HasShards, IsAtShards};
ghost use Rattle.ch_protocol.specs.Shards.{Shards};
ghost use Rattle.ch_player.specs.Steps.{Asked};
ghost use Rattle.std.specs.Prelude.{Some};
ghost use Rattle.ch_base.specs.declared.channel.ChanCall.{ChanCall};

use ch_base::{ChanAnswer, ChanCall, Memory, Text};
use ch_config::Config;
use ch_desk::Bench;
use ch_names::shard_of;
use std::alloc::Global;

/// The call of a Publish, with copies of its texts.
pub fn publish_call(
    alloc: Global,
    channel: &Text,
    event: &Text,
    body: &Text,
    except: Option<u64>,
    at: u64,
) -> Result<ChanCall, Memory>
    ensures { IfOk result (λ call. call ≡ ChanCall.Publish channel.now event.now body.now except at) }
{
    Ok(ChanCall::Publish {
        channel: channel.copy(alloc)?,
        event: event.copy(alloc)?,
        body: body.copy(alloc)?,
        except,
        at,
    })
}

/// Makes a call that names this channel, on the channel's shard.
pub fn ask_publish(
    config: &Config,
    bench: &mut Bench,
    channel: &Text,
    call: &ChanCall,
) -> Result<ChanAnswer, Memory>
    requires config { IsConfig config.now }
    requires shards { HasShards config.now bench.old }
    requires formed { IsWellFormed call.now }
    requires named { named_channel call.now ≡ Some channel.now }
    ensures asked { (shards : Shards) → IsAtShards bench.old shards →
        IfOk result (Asked (shard_of channel.now config.now.chan_shards) call.now bench.new shards) }
    ensures shards { HasShards config.now bench.new }
{
    let shard = shard_of(channel.as_str(), config.chan_shards);
    bench.chan(shard, call)
}
