//! The workers of a drill, on threads.
ghost use Rattle.std.specs.Prelude.{◌≡◌, ◌≤◌, ℕ, All, Some, length, map, slice_get, IfOk};
ghost use Rattle.ch_config.specs.Config.{IsConfig};
ghost use Rattle.ch_house.specs.Houses.{ArePassesOf, chan_count, user_count};
ghost use Rattle.ch_pool.specs.AllPasses.{AreAllOf};
ghost use Rattle.ch_drill.specs.declared.limits.TheConstants.{MOST_WORKERS};
ghost use Rattle.ch_drill.specs.DrillCounts.{IsSmall};
ghost use Rattle.ch_drill.specs.Seats.{HasTwoShards, MayWork};
ghost use Rattle.ch_drill.specs.declared.seat.Seat.{Seat as seat};

use crate::counts::{SHARDS, turns_of};
use crate::seat::Seat;
use crate::words::Drill;
use ch_base::{Items, Memory};
use ch_config::Config;
use ch_house::{House, HouseClosed, Passes};
use ch_net::MemLink;
use ch_pool::{WorkerList, give_passes, take_passes};
use std::alloc::Global;
use std::sync::Wait;
use std::thread::{Threads, for_each_mut};

/// The closed house after all workers are done, and these workers.
pub(crate) fn work_all<R: Threads + Wait + Sync>(
    rt: &R,
    alloc: Global,
    drill: &Drill,
) -> Result<(HouseClosed, WorkerList<MemLink>), Memory>
    requires { IsSmall drill.now }
    ensures chans { IfOk result (λ left. length left.0.chans ≡ 2) }
    ensures users { IfOk result (λ left. length left.0.users ≡ 2) }
    ensures workers { IfOk result (λ left. length left.1 ≡ drill.now.workers) }
{
    let config = config_of(alloc)?;
    let (house, mut passes) = House::new(alloc, SHARDS, SHARDS, drill.workers)?;
    let taken = take_passes(alloc, &mut passes, drill.workers)?;
    let mut seats = sit_down(alloc, &house, &config, taken, drill.rounds)?;
    work_in_threads(rt, &mut seats, turns_of(drill));
    let (taken, workers) = get_up(alloc, seats)?;
    give_passes(&mut passes, taken);
    Ok((house.close(passes), workers))
}

/// The configuration of a drill: the built-in one, with two shards of each kind.
fn config_of(alloc: Global) -> Result<Config, Memory>
    ensures good { IfOk result IsConfig }
    ensures shards { IfOk result HasTwoShards }
{
    let mut config = Config::built_in(alloc)?;
    config.chan_shards = SHARDS;
    config.user_shards = SHARDS;
    Ok(config)
}

/// A worker at a desk of the house for each caller.
fn sit_down<'a>(
    alloc: Global,
    house: &'a House,
    config: &Config,
    taken: Vec<Passes>,
    rounds: u64,
) -> Result<Vec<Seat<'a>>, Memory>
    requires passes { AreAllOf house.now taken.items }
    requires few { house.now.chans.callers ≤ MOST_WORKERS }
    requires shards { (chan_count house.now ≡ 2) × (user_count house.now ≡ 2) }
    requires config { IsConfig config.now × HasTwoShards config.now }
    ensures desks { IfOk result (λ seats. map (λ s. s.desk) seats.items ≡ taken.items) }
    ensures may { IfOk result (λ seats. All MayWork seats.items) }
{
    let mut seats = Vec::new(alloc);
    for passes in taken {
        seats.push(Seat::new(alloc, house, config, passes, rounds)?)?;
    }
    Ok(seats)
}

/// Each worker works on a thread of its own, at most so many turns.
fn work_in_threads<R: Threads + Wait + Sync>(rt: &R, seats: &mut Vec<Seat<'_>>, most: u64)
    requires { All MayWork seats.old.items }
    ensures count { length seats.new.items ≡ length seats.old.items }
    ensures same { (i : ℕ) (old new : seat)
        → slice_get seats.old.items i ≡ Some old → slice_get seats.new.items i ≡ Some new
        → ArePassesOf old.desk.house old.desk.caller new.desk }
{
    let threads = seats.len().max(1);
    let job = |_: usize, seat: &mut Seat<'_>|
        requires { MayWork seat.now }
        ensures { ArePassesOf seat.entry.now.desk.house seat.entry.now.desk.caller seat.exit.now.desk }
    {
        seat.work(rt, most);
    };
    for_each_mut(rt, seats.as_mut_slice(), threads, &job);
}

/// The passes of all desks, and the workers.
fn get_up(alloc: Global, seats: Vec<Seat<'_>>) -> Result<(Vec<Passes>, WorkerList<MemLink>), Memory>
    ensures passes { IfOk result (λ left. left.0.items ≡ map (λ s. s.desk) seats.entry.items) }
    ensures workers { IfOk result (λ left. left.1 ≡ map (λ s. s.worker) seats.entry.items) }
{
    let mut taken = Vec::new(alloc);
    let mut workers = Vec::new(alloc);
    for seat in seats {
        let Seat {
            desk,
            worker,
            arrivals: _,
        } = seat;
        taken.push(desk.into_passes())?;
        workers.push(worker)?;
    }
    Ok((taken, Items::from_vec(workers)))
}
