ghost use Rattle.std.specs.Prelude.{◌≡◌, ◌<◌, ◌++◌, ◌∷◌, List, [], length, IfOk, All};
ghost use Rattle.ch_clients.specs.declared.limits.TheConstants.{MOST_CLIENTS};
ghost use Rattle.ch_clients.specs.Leaving.{IsLeft, Left, LosesEach, part_of_left, still_there};
ghost use Rattle.ch_clients.specs.Passes.{HasTurn};
ghost use Rattle.ch_desk.specs.Views.{IsDeskOf};
ghost use Rattle.ch_history.specs.Limits.{IsMoment};
ghost use Rattle.ch_live.specs.Peers.{IsPeerOver};

use crate::answer::WorkerTurn;
use crate::limits::MOST_CLIENTS;
use crate::next::Next;
use crate::room::insert_reserved;
use crate::server::Server;
use ch_base::Memory;
use ch_desk::Desk;
use ch_live::Live;
use std::alloc::Global;
use std::marker::Model;

/// The live sockets that ended and owe losses to the shards, with all the room that there will be.
#[derive(Drop)]
pub(crate) struct Leaving<W> {
    rows: Vec<Live<W>>,
}

impl<W> Model for Leaving<W> {
    ghost use Rattle.std.specs.Prelude.{◌≤◌, List, map, vec_capacity};
    ghost use Rattle.ch_clients.specs.declared.limits.TheConstants.{MOST_CLIENTS};
    ghost use Rattle.ch_live.specs.declared.peer.Peer.{Peer};

    ghost Value = { List Peer };

    ghost view = { λ l. map (λ x. x.peer) l.rows.items };

    ghost invariant = { λ l. MOST_CLIENTS ≤ vec_capacity l.rows };
}

impl<W: Drop> Leaving<W> {
    /// Room for `MOST_CLIENTS` of them, of which none is there.
    pub(crate) fn new(alloc: Global) -> Result<Leaving<W>, Memory>
        ensures { IfOk result (λ l. l ≡ []) }
    {
        Ok(Leaving {
            rows: Vec::with_capacity(alloc, MOST_CLIENTS)?,
        })
    }

    /// How many leave.
    pub(crate) fn len(&self) -> usize
        ensures { result ≡ length self.now }
    {
        self.rows.len()
    }

    /// One more leaves. There is room for it.
    pub(crate) fn add(&mut self, live: Live<W>)
        requires { length self.old < MOST_CLIENTS }
        ensures { self.new ≡ self.old ++ live.peer ∷ [] }
    {
        let at = self.rows.len();
        insert_reserved(&mut self.rows, at, live);
    }

    /// Makes the losses of each, in order. Those whose losses are all made are gone.
    pub(crate) fn lose<R, D: Desk<R>>(
        &mut self,
        rt: &R,
        desk: &mut D,
        server: &Server,
        now: u64,
    ) -> WorkerTurn
        requires now { IsMoment now }
        requires desk { IsDeskOf server.now.config (D.view desk.old) }
        requires over { All (IsPeerOver server.now.config) self.old }
        ensures visits { (lefts : List Left)
            × LosesEach now lefts self.old self.new (D.view desk.old) (D.view desk.new) result }
        ensures over { All (IsPeerOver server.now.config) self.new }
        ensures shards { IsDeskOf server.now.config (D.view desk.new) }
    {
        let mut part = WorkerTurn::Idle;
        let mut place = 0;
        while place < self.len() {
            let next = self.lose_at(rt, desk, server, place, now);
            part = part.and(next.part);
            place = next.place;
        }
        part
    }

    /// Makes the losses of the one at a place, who is gone then, unless there was no memory for all.
    fn lose_at<R, D: Desk<R>>(
        &mut self,
        rt: &R,
        desk: &mut D,
        server: &Server,
        place: usize,
        now: u64,
    ) -> Next
        requires place { place < length self.old }
        requires now { IsMoment now }
        requires desk { IsDeskOf server.now.config (D.view desk.old) }
        requires over { All (IsPeerOver server.now.config) self.old }
        ensures visit { (left : Left)
            × HasTurn (IsLeft now) still_there part_of_left place self.old self.new
            (D.view desk.old) (D.view desk.new) left result }
        ensures over { All (IsPeerOver server.now.config) self.new }
        ensures shards { IsDeskOf server.now.config (D.view desk.new) }
    {
        match self.rows[place].lose(rt, desk, now) {
            Ok(()) => {
                let_go(self.rows.remove(place));
                Next {
                    part: WorkerTurn::Moved,
                    place,
                }
            }
            Err(Memory) => Next {
                part: WorkerTurn::Memory,
                place: place + 1,
            },
        }
    }
}

/// Drops one whose losses are all made.
fn let_go<W: Drop>(_live: Live<W>) {}
