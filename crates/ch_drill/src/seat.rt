//! A worker of a drill at its desk.
ghost use Rattle.std.specs.Prelude.{◌≡◌, ◌≤◌, ◌+◌, IfOk};
ghost use Rattle.ch_config.specs.Config.{IsConfig};
ghost use Rattle.ch_house.specs.Houses.{ArePassesOf, chan_count, user_count};
ghost use Rattle.ch_worker.specs.Workers.{new_worker};
ghost use Rattle.ch_drill.specs.declared.limits.TheConstants.{MOST_WORKERS};
ghost use Rattle.ch_drill.specs.DrillLinks.{HasOneLink};
ghost use Rattle.ch_drill.specs.Seats.{HasTwoShards, MayWork};

use crate::arrivals::arrivals_of;
use ch_base::Memory;
use ch_config::Config;
use ch_house::{House, HouseDesk, Passes, names_tell_houses};
use ch_net::{MemArrivals, MemLink};
use ch_worker::{NoGate, Worker, WorkerTurn};
use std::alloc::Global;
use std::sync::Wait;

/// The second at which the server of a drill started.
const START: u64 = 1;

/// The moment of every turn of a drill.
const MOMENT: u64 = 0;

/// A worker, its desk, and the connection that comes in for it.
#[derive(Drop)]
pub(crate) struct Seat<'a> {
    pub desk: HouseDesk<'a>,
    pub worker: Worker<MemLink, NoGate>,
    pub arrivals: MemArrivals<MemLink>,
}

impl<'a> Seat<'a> {
    /// A worker that took no turn yet, at the desk of the caller with these passes. Its connection has the number of the
    /// caller, counted from 1, and says its messages for so many rounds.
    pub(crate) fn new(
        alloc: Global,
        house: &'a House,
        config: &Config,
        passes: Passes,
        rounds: u64,
    ) -> Result<Seat<'a>, Memory>
        requires own { passes.house ≡ house.now }
        requires few { house.now.chans.callers ≤ MOST_WORKERS }
        requires shards { (chan_count house.now ≡ 2) × (user_count house.now ≡ 2) }
        requires config { IsConfig config.now × HasTwoShards config.now }
        ensures desk { IfOk result (λ seat. seat.desk ≡ passes) }
        ensures worker { IfOk result (λ seat. seat.worker ≡ new_worker config.now 1) }
        ensures may { IfOk result MayWork }
        ensures arrivals { IfOk result (λ seat. HasOneLink (passes.caller + 1) rounds seat.arrivals) }
    {
        let arrivals = arrivals_of(alloc, passes.caller() + 1, rounds)?;
        let worker = Worker::new(alloc, config, START, NoGate)?;
        Ok(Seat {
            desk: HouseDesk::new(house, passes),
            worker,
            arrivals,
        })
    }

    /// Takes turns until the connection has come and all is done, at most so many. It stops where a turn runs out of
    /// memory.
    pub(crate) fn work<R: Wait>(&mut self, rt: &R, most: u64)
        requires may { MayWork self.old }
        ensures passes { ArePassesOf self.old.desk.house self.old.desk.caller self.new.desk }
    {
        for _ in 0..most {
            if self.is_done() || self.turn(rt) == WorkerTurn::Memory {
                break;
            }
        }
    }

    /// Whether the connection has come, and neither it nor anything of it is left.
    fn is_done(&self) -> bool {
        self.worker.taken() > 0 && self.worker.idle()
    }

    /// One turn.
    fn turn<R: Wait>(&mut self, rt: &R) -> WorkerTurn
        requires may { MayWork self.old }
        ensures may { MayWork self.new }
        ensures passes { ArePassesOf self.old.desk.house self.old.desk.caller self.new.desk }
    {
        names_tell_houses();
        self.worker
            .turn(rt, &mut self.desk, &mut self.arrivals, MOMENT)
    }
}
