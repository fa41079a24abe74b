//! A worker's thread.
ghost use Rattle.ch_serve.specs.Served.{IsSeated, Turned};

use crate::arrivals::IntakeArrivals;
use crate::bells::Bells;
use crate::desk::NotedDesk;
use crate::resting::pause_after;
use ch_desk::Desk;
use ch_edge::Park;
use ch_house::names_tell_houses;
use ch_net::Link;
use ch_worker::{NoGate, Worker, turns_chain};
use std::marker::Model;
use std::sync::Wait;

/// A worker with its desk in the house and the connections that it is given. Contracts see the worker and the desk's passes.
#[derive(Drop)]
pub struct WorkerThread<'a, L: Link, P: Park<L>> {
    pub(crate) desk: NotedDesk<'a>,
    pub(crate) worker: Worker<L, NoGate>,
    pub(crate) arrivals: IntakeArrivals<'a, L, P>,
}

impl<'a, L: Link, P: Park<L>> Model for WorkerThread<'a, L, P> {
    ghost use Rattle.ch_serve.specs.Served.{Seat, seat};

    ghost Value = { Seat };

    ghost view = { λ t. seat t.worker t.desk };
}

impl<'a, L: Link, P: Park<L>> WorkerThread<'a, L, P> {
    /// So many turns of the worker, one after another, with a rest after each that moved nothing. Where a turn may have
    /// put something out for others, it wakes them.
    pub fn run<R: Wait>(&mut self, rt: &R, bells: &Bells<P::Waker>, turns: u64)
        requires { IsSeated self.old }
        ensures turned { Turned turns self.old self.new }
        ensures seated { IsSeated self.new }
    {
        turns_chain();
        for _turn in 0..turns {
            self.turn(rt, bells);
        }
    }

    /// One turn, and the rest after it.
    pub fn turn<R: Wait>(&mut self, rt: &R, bells: &Bells<P::Waker>)
        requires { IsSeated self.old }
        ensures turned { Turned 1 self.old self.new }
        ensures seated { IsSeated self.new }
    {
        names_tell_houses();
        let now = self.arrivals.now();
        let turn = self
            .worker
            .turn(rt, &mut self.desk, &mut self.arrivals, now);
        if self.desk.take_left() {
            let number = <NotedDesk<'_> as Desk<R>>::caller(&self.desk);
            bells.ring_others(number);
        }
        self.arrivals.rest(pause_after(turn));
    }
}
