//! How many entries the shards have after a drill.
ghost use Rattle.std.specs.Prelude.{◌≡◌, ◌<◌, ◌≤◌, ◌^◌, IfOk, string_bytes};
ghost use Rattle.ch_drill.specs.DrillCounts.{IsCounted, IsSmall, channel_of, rounds_on, chan_entries, drill_counts, turns_of};

use crate::words::Drill;
use ch_base::Memory;
use ch_names::shard_of;
use std::alloc::Global;

/// How many shards of each kind the house has.
pub(crate) const SHARDS: u64 = 2;

/// How many entries each shard has at the end: the channel shards 0 and 1, and then each of the two user shards.
#[derive(Clone, Copy, Debug, PartialEq, Eq)]
pub struct DrillCounts {
    pub first_chan: u64,
    pub second_chan: u64,
    pub each_user: u64,
}

/// How many entries each shard has after the drill. Nothing is left open.
pub fn drill_counts(alloc: Global, drill: &Drill) -> Result<DrillCounts, Memory>
    requires { IsSmall drill.now }
    ensures counts { IfOk result (λ counts. counts ≡ drill_counts drill.now) }
    ensures few { IfOk result IsCounted }
{
    Ok(DrillCounts {
        first_chan: chan_entries(alloc, drill, 0)?,
        second_chan: chan_entries(alloc, drill, 1)?,
        each_user: drill.workers * turns_of(drill),
    })
}

/// How many turns each worker makes: one for its handshake, one for each message, one to hear that the other side is
/// gone, and one for the losses.
pub(crate) fn turns_of(drill: &Drill) -> u64
    requires { IsSmall drill.now }
    ensures { result ≡ turns_of drill.now }
{
    2 * drill.rounds + 3
}

/// How many entries a channel shard has: of each worker a Take in each turn, a Join and a Leave in each round there,
/// and one Lost where it had any.
fn chan_entries(alloc: Global, drill: &Drill, shard: u64) -> Result<u64, Memory>
    requires small { IsSmall drill.now }
    ensures entries { IfOk result (λ n. n ≡ chan_entries drill.now shard) }
    ensures few { IfOk result (λ n. n < 2 ^ 32) }
{
    let rounds = rounds_on(alloc, drill.rounds, shard)?;
    Ok(drill.workers * (turns_of(drill) + 2 * rounds + rounds.min(1)))
}

/// How many of so many rounds are on a channel shard.
fn rounds_on(alloc: Global, rounds: u64, shard: u64) -> Result<u64, Memory>
    ensures count { IfOk result (λ n. n ≡ rounds_on rounds shard) }
    ensures few { IfOk result (λ n. n ≤ rounds) }
{
    let mut count = 0;
    for round in 0..rounds {
        let channel = channel_of(alloc, round)?;
        if shard_of(channel.as_str(), SHARDS) == shard {
            count += 1;
        }
    }
    Ok(count)
}

/// The channel of a round.
pub(crate) fn channel_of(alloc: Global, round: u64) -> Result<String, Memory>
    ensures { IfOk result (λ name. string_bytes name ≡ channel_of round) }
{
    let number = round % 8;
    let name = format!(in alloc; "drill-{number}")?;
    Ok(name)
}
