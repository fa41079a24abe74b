ghost use Rattle.std.specs.Prelude.{◌≡◌, ◌<◌, ◌≤◌, [], Some, length, slice_get, IfOk, All};
ghost use Rattle.std.specs.List.{remove, insert};
ghost use Rattle.ch_clients.specs.Clients.{handed_to, placed, AreAscending, MayTurn};
ghost use Rattle.ch_clients.specs.declared.limits.TheConstants.{MOST_CLIENTS};
ghost use Rattle.ch_clients.specs.Steps.{IsStepAt, setting_with};
ghost use Rattle.ch_config.specs.Config.{IsConfig};
ghost use Rattle.ch_desk.specs.Views.{IsDeskOf};
ghost use Rattle.ch_history.specs.Limits.{IsMoment};

use crate::client::{Client, Step};
use crate::limits::MOST_CLIENTS;
use crate::room::insert_reserved;
use crate::server::Server;
use ch_base::{Memory, Shared};
use ch_desk::Desk;
use ch_net::Link;
use std::alloc::Global;
use std::marker::Model;

/// The clients that are connected, ascending by their numbers, with all the room that there will be. One is
/// found by its number in logarithmic time.
#[derive(Drop)]
pub(crate) struct Connected<L: Link> {
    rows: Vec<Client<L>>,
}

impl<L: Link> Model for Connected<L> {
    ghost use Rattle.std.specs.Prelude.{◌≤◌, List, vec_capacity};
    ghost use Rattle.ch_clients.specs.Clients.{Client, AreAscending};
    ghost use Rattle.ch_clients.specs.declared.limits.TheConstants.{MOST_CLIENTS};

    ghost Value = { List Client };

    ghost view = { λ c. c.rows.items };

    ghost invariant = { λ c. (MOST_CLIENTS ≤ vec_capacity c.rows) × AreAscending c.rows.items };
}

impl<L: Link> Connected<L> {
    /// Room for `MOST_CLIENTS` clients, of which none is there.
    pub(crate) fn new(alloc: Global) -> Result<Connected<L>, Memory>
        ensures { IfOk result (λ c. c ≡ []) }
    {
        Ok(Connected {
            rows: Vec::with_capacity(alloc, MOST_CLIENTS)?,
        })
    }

    /// How many clients there are.
    pub(crate) fn len(&self) -> usize
        ensures { result ≡ length self.now }
    {
        self.rows.len()
    }

    /// The numbers of the clients ascend.
    pub(crate) fn ascend(&self)
        ensures { AreAscending self.now }
    {
        let _ = &self.rows;
    }

    /// Hands a frame to the first client with its socket's number. Where there is none, it is dropped.
    pub(crate) fn hand(&mut self, frame: Shared)
        ensures { self.new ≡ handed_to self.old frame }
    {
        let socket = frame.socket();
        let at = self.rows.partition_point(|client| client.number() < socket);
        if at < self.rows.len() {
            self.rows[at].hand(frame);
        } else {
            let_go(frame);
        }
    }

    /// Lets a client in, behind those whose numbers aren't above its own. There is room for it.
    pub(crate) fn place(&mut self, client: Client<L>)
        requires { length self.old < MOST_CLIENTS }
        ensures { self.new ≡ placed client self.old }
    {
        let number = client.number();
        let at = self.rows.partition_point(|other| other.number() <= number);
        insert_reserved(&mut self.rows, at, client);
    }

    /// One turn of the client at a place.
    pub(crate) fn turn<R, D: Desk<R>>(
        &mut self,
        rt: &R,
        desk: &mut D,
        server: &Server,
        place: usize,
        now: u64,
    ) -> Step
        requires place { place < length self.old }
        requires config { IsConfig server.now.config }
        requires desk { IsDeskOf server.now.config (D.view desk.old) }
        requires may { All (MayTurn server.now.config) self.old }
        requires now { IsMoment now }
        ensures turn { IsStepAt (setting_with server.now now L.messages)
            place self.old self.new (D.view desk.old) (D.view desk.new) result }
        ensures shards { IsDeskOf server.now.config (D.view desk.new) }
    {
        self.rows[place].turn(rt, desk, server, now)
    }

    /// Takes out the client at a place.
    pub(crate) fn take_out(&mut self, place: usize) -> Client<L>
        requires { place < length self.old }
        ensures left { self.new ≡ remove self.old place }
        ensures client { slice_get self.old place ≡ Some result }
        ensures ascending { AreAscending self.old }
    {
        self.rows.remove(place)
    }

    /// Puts a client back at the place at which it was taken out.
    pub(crate) fn put_back(&mut self, place: usize, client: Client<L>)
        requires room { length self.old < MOST_CLIENTS }
        requires place { place ≤ length self.old }
        requires ascending { AreAscending (insert self.old place client) }
        ensures { self.new ≡ insert self.old place client }
    {
        insert_reserved(&mut self.rows, place, client);
    }
}

/// Drops a frame that is for nobody.
fn let_go(_frame: Shared) {}
