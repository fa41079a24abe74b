ghost use Rattle.std.specs.Prelude.{◌≡◌, ◌↔◌, Option, IfOk, IsTrue};
ghost use Rattle.ch_clients.specs.Clients.{AreNone, Client as ClientView, has_room};
ghost use Rattle.ch_config.specs.Config.{IsConfig};
ghost use Rattle.ch_desk.specs.Views.{IsDeskOf};
ghost use Rattle.ch_history.specs.Limits.{IsMoment};
ghost use Rattle.ch_worker.specs.Turns.{Course, LetsClientIn, LetsIn, TakesCourse, part_of_newcomer, room_left};
ghost use Rattle.ch_worker.specs.Workers.{new_worker};

use crate::gate::Gate;
use crate::taking::take_all;
use ch_base::Memory;
use ch_clients::{Clients, WorkerTurn};
use ch_config::Config;
use ch_desk::Desk;
use ch_net::{Arrivals, Link};
use std::alloc::Global;
use std::marker::Model;
use std::sync::Wait;

/// A worker: its clients, and how far it is. A moment is a number of milliseconds, at most `LATEST_MOMENT`.
#[derive(Drop)]
pub struct Worker<L: Link, G> {
    clients: Clients<L>,
    gate: G,
    turns: u64,
    taken: u64,
}

impl<L: Link, G> Model for Worker<L, G> {
    ghost use Rattle.ch_worker.specs.Workers.{WorkerView};

    ghost Value = { WorkerView };

    ghost view = { λ w. record { clients = w.clients; turns = w.turns; taken = w.taken } };
}

impl<L: Link, G: Drop> Worker<L, G> {
    /// A worker with room for `MOST_CLIENTS` clients, on a server that started at the second `start`.
    pub fn new(alloc: Global, config: &Config, start: u64, gate: G) -> Result<Worker<L, G>, Memory>
        requires { IsConfig config.now }
        ensures { IfOk result (λ w. w ≡ new_worker config.now start) }
    {
        Ok(Worker {
            clients: Clients::new(alloc, config, start)?,
            gate,
            turns: 0,
            taken: 0,
        })
    }

    /// Whether it has no client, and nobody leaves.
    pub fn idle(&self) -> bool
        ensures { IsTrue result ↔ AreNone self.now.clients }
    {
        self.clients.is_empty()
    }

    /// How many turns it took. The number stands still at its type's end.
    pub fn turns(&self) -> u64
        ensures { result ≡ self.now.turns }
    {
        self.turns
    }

    /// How many clients it let in. The number stands still at its type's end.
    pub fn taken(&self) -> u64
        ensures { result ≡ self.now.taken }
    {
        self.taken
    }
}

impl<L: Link, G: Gate> Worker<L, G> {
    /// One turn at the moment `now`. The frames that wait for the caller are taken from each shard and handed
    /// to the clients; the losses of those who leave are made; one client is let in, where there is room; and
    /// each client has its turn, ascending by number. It may wait.
    pub fn turn<R: Wait, D: Desk<R>, A: Arrivals<Conn = L>>(
        &mut self,
        rt: &R,
        desk: &mut D,
        arrivals: &mut A,
        now: u64,
    ) -> WorkerTurn
        requires desk { IsDeskOf self.old.clients.config (D.view desk.old) }
        requires now { IsMoment now }
        ensures turn { (course : Course)
            × TakesCourse (record { now = now; messages = L.messages }) course
            (record { worker = self.old; desk = D.view desk.old })
            (record { worker = self.new; desk = D.view desk.new }) result
            × LetsIn L.told now (room_left course self.old) course.newcomer
            (A.told arrivals.old) (A.told arrivals.new) }
        ensures shards { IsDeskOf self.new.clients.config (D.view desk.new) }
    {
        self.gate.turn(self.turns);
        self.turns = self.turns.saturating_add(1);
        let taken = take_all(rt, desk, &mut self.clients);
        let left = self.clients.lose(rt, desk, now);
        let arrived = self.let_in(rt, arrivals, now);
        let served = self.clients.serve(rt, desk, now);
        taken.and(left).and(arrived).and(served)
    }

    /// Lets the next client in, where there is room.
    fn let_in<R: Wait, A: Arrivals<Conn = L>>(
        &mut self,
        rt: &R,
        arrivals: &mut A,
        now: u64,
    ) -> WorkerTurn
        ensures { (client : Option ClientView)
            × LetsIn L.told now (has_room self.old.clients) client
            (A.told arrivals.old) (A.told arrivals.new)
            × LetsClientIn client self.old self.new
            × (result ≡ part_of_newcomer client) }
    {
        if !self.clients.has_room() {
            return WorkerTurn::Idle;
        }
        match arrivals.next(rt) {
            Some(arrival) => {
                self.clients.let_in(arrival, now);
                self.taken = self.taken.saturating_add(1);
                WorkerTurn::Moved
            }
            None => WorkerTurn::Idle,
        }
    }
}
