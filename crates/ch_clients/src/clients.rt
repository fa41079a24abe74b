ghost use Rattle.std.specs.Prelude.{◌≡◌, ◌↔◌, List, true, IfOk, IsTrue};
ghost use Rattle.ch_clients.specs.Clients.{AreNone, has_room, handed_to, newcomer, no_clients, placed};
ghost use Rattle.ch_clients.specs.Leaving.{Left, LosesEach};
ghost use Rattle.ch_clients.specs.Serving.{ServesEach, Turned, setting_of};
ghost use Rattle.ch_config.specs.Config.{IsConfig};
ghost use Rattle.ch_desk.specs.Views.{IsDeskOf};
ghost use Rattle.ch_history.specs.Limits.{IsMoment, IsSocket};

use crate::answer::WorkerTurn;
use crate::client::Client;
use crate::connected::Connected;
use crate::leaving::Leaving;
use crate::limits::MOST_CLIENTS;
use crate::lists::Lists;
use crate::server::Server;
use ch_base::{Memory, Shared};
use ch_config::Config;
use ch_desk::Desk;
use ch_net::{Arrival, Link};
use std::alloc::Global;
use std::marker::Model;

/// The clients of a worker, with all the room that there will be: those that are connected, in ascending
/// order of their numbers, and those who leave. A moment is a number of milliseconds, at most `LATEST_MOMENT`.
#[derive(Drop)]
pub struct Clients<L: Link> {
    server: Server,
    lists: Lists<L>,
}

impl<L: Link> Model for Clients<L> {
    ghost use Rattle.ch_clients.specs.Clients.{ClientsView, AreSound};

    ghost Value = { ClientsView };

    ghost view = { λ c. record { config = c.server.config; start = c.server.start; connected = c.lists.connected; leaving = c.lists.leaving } };

    ghost invariant = { λ c. AreSound (record { config = c.server.config; start = c.server.start; connected = c.lists.connected; leaving = c.lists.leaving }) };
}

impl<L: Link> Clients<L> {
    /// Room for `MOST_CLIENTS` clients, of which none is there, on a server that started at the second `start`.
    pub fn new(alloc: Global, config: &Config, start: u64) -> Result<Clients<L>, Memory>
        requires { IsConfig config.now }
        ensures { IfOk result (λ c. c ≡ no_clients config.now start) }
    {
        Ok(Clients {
            server: Server::new(alloc, config, start)?,
            lists: Lists {
                connected: Connected::new(alloc)?,
                leaving: Leaving::new(alloc)?,
            },
        })
    }

    /// Whether none is connected and nobody leaves.
    pub fn is_empty(&self) -> bool
        ensures { IsTrue result ↔ AreNone self.now }
    {
        self.lists.connected.len() == 0 && self.lists.leaving.len() == 0
    }

    /// Whether there is room for one more client: fewer than `MOST_CLIENTS` are connected or leave.
    pub fn has_room(&self) -> bool
        ensures { result ≡ has_room self.now }
    {
        self.lists.connected.len() + self.lists.leaving.len() < MOST_CLIENTS
    }

    /// Hands a frame to the first client with its socket's number, which is found in logarithmic time. The
    /// frame is dropped where there is none, or where the client is no live socket. It takes no memory.
    pub fn hand(&mut self, frame: Shared)
        ensures { self.new ≡ record self.old { connected = handed_to self.old.connected frame } }
    {
        self.lists.connected.hand(frame);
    }

    /// Lets in the client of a connection that came in at the moment `now`, behind those whose numbers aren't
    /// above its own. There is room for it, and its number is at least 1 and at most 2^62. It takes no memory.
    pub fn let_in(&mut self, arrival: Arrival<L>, now: u64)
        requires room { has_room self.old ≡ true }
        requires number { IsSocket arrival.number }
        ensures { self.new
            ≡ record self.old { connected = placed (newcomer L.told now arrival) self.old.connected } }
    {
        let client = Client::new(self.server.alloc, arrival, now);
        self.lists.connected.place(client);
    }

    /// Makes the losses of each who leaves, in order, at the moment `now`. Those whose losses are all made are
    /// gone. It may wait where the desk does.
    pub fn lose<R, D: Desk<R>>(&mut self, rt: &R, desk: &mut D, now: u64) -> WorkerTurn
        requires desk { IsDeskOf self.old.config (D.view desk.old) }
        requires now { IsMoment now }
        ensures losses { (lefts : List Left)
            × LosesEach now lefts self.old.leaving self.new.leaving
            (D.view desk.old) (D.view desk.new) result }
        ensures same { self.new ≡ record self.old { leaving = self.new.leaving } }
        ensures shards { IsDeskOf self.new.config (D.view desk.new) }
    {
        self.lists.leaving.lose(rt, desk, &self.server, now)
    }

    /// Gives each client its turn at the moment `now`, ascending by number. After a handshake a client speaks
    /// WebSocket; one that ended leaves where its session owes losses, and is dropped otherwise. It may wait
    /// where the desk does.
    pub fn serve<R, D: Desk<R>>(&mut self, rt: &R, desk: &mut D, now: u64) -> WorkerTurn
        requires desk { IsDeskOf self.old.config (D.view desk.old) }
        requires now { IsMoment now }
        ensures turns { (turns : List Turned)
            × ServesEach (setting_of self.old now L.messages) turns self.old self.new
            (D.view desk.old) (D.view desk.new) result }
        ensures shards { IsDeskOf self.new.config (D.view desk.new) }
    {
        self.lists.connected.ascend();
        let mut part = WorkerTurn::Idle;
        let mut place = 0;
        while place < self.lists.connected.len() {
            let next = self.lists.serve(rt, desk, &self.server, place, now);
            part = part.and(next.part);
            place = next.place;
        }
        part
    }
}
