ghost use Rattle.std.specs.Prelude.{◌≡◌, ◌↔◌, List, if◌then◌else◌, IsTrue, IfOk, IfErr, OnOk};
ghost use Rattle.std.specs.Arc.{arc_value};
ghost use Rattle.ch_config.specs.Config.{IsConfig};
ghost use Rattle.ch_config.specs.declared.config.Config.{Config};
ghost use Rattle.ch_desk.specs.Views.{IsDeskOf};
ghost use Rattle.ch_history.specs.Limits.{IsMoment};
ghost use Rattle.ch_live.specs.Answers.{TurnHasCause};
ghost use Rattle.ch_live.specs.Courses.{Course};
ghost use Rattle.ch_live.specs.Losses.{MayLose, Loses, Owes};
ghost use Rattle.ch_live.specs.Peers.{delivered_to, finds_no_room, IsPeerOver, connection_of};
ghost use Rattle.ch_live.specs.Turns.{IsTurn};
ghost use Rattle.ch_live.specs.declared.peer.Peer.TheVariants as peer;
ghost use Rattle.ch_protocol.specs.Asks.{Asked};
ghost use Rattle.ch_session.specs.declared.waiting.Waiting.TheVariants.{Nothing};

use crate::connection::Connection;
use crate::farewell::end_with;
use crate::peer::Peer;
use crate::turn::{Delivered, Turn};
use crate::waiting::Waiting;
use ch_base::{Frame, Memory, Printed};
use ch_config::Config;
use ch_desk::Desk;
use ch_net::Wire;
use ch_session::Session;
use std::alloc::Global;
use std::sync::Arc;

/// A live socket: its wire, and who it is. A moment is a number of milliseconds, at most `LATEST_MOMENT`.
#[derive(Drop)]
pub struct Live<W> {
    alloc: Global,
    pub wire: W,
    pub peer: Peer,
}

/// There was no room for the frames of a live socket. Its parts are given back.
#[derive(Drop)]
pub struct Unlive<W> {
    pub session: Session,
    pub wire: W,
}

impl<W> Live<W> {
    /// The live socket of a session that was just opened, with room for 1,024 frames. The first frame that
    /// waits tells the socket's id (Pusher Channels protocol, "Connection events").
    pub fn new(alloc: Global, session: Session, wire: W) -> Result<Live<W>, Unlive<W>>
        requires idle { session.waits ≡ Nothing }
        ensures opened { IfOk result (λ live. live.peer ≡ peer.Open (connection_of session)) }
        ensures wire { IfOk result (λ live. live.wire ≡ wire) }
        ensures memory { IfErr result (λ given. (given.session ≡ session) × (given.wire ≡ wire)) }
    {
        match Connection::new(alloc, session) {
            Ok(connection) => Ok(Live {
                alloc,
                wire,
                peer: Peer::Open(connection),
            }),
            Err(session) => Err(Unlive { session, wire }),
        }
    }

    /// The live socket of a target that was refused with this code. Its first turn tells it so.
    pub fn refused(alloc: Global, code: u16, wire: W) -> Live<W>
        ensures peer { result.peer ≡ peer.Refused code }
        ensures wire { result.wire ≡ wire }
    {
        Live {
            alloc,
            wire,
            peer: Peer::Refused(code),
        }
    }

    /// Delivers a frame. It waits where a session was opened and fewer than 1,024 frames wait. One that finds
    /// no room ends the connection at the next turn, with `OVER_CAPACITY`. A Kill doesn't wait, and ends it so
    /// too, with `UNAUTHORIZED`. It takes no memory.
    pub fn deliver(&mut self, frame: Frame) -> Delivered
        ensures peer { self.new.peer ≡ delivered_to self.old.peer frame }
        ensures cut { result ≡ (if finds_no_room self.old.peer frame then Delivered.Cut else Delivered.Kept) }
        ensures wire { self.new.wire ≡ self.old.wire }
        ensures over { (config : Config) → IsPeerOver config self.old.peer → IsPeerOver config self.new.peer }
    {
        deliver_to(&mut self.peer, Waiting::alone(frame))
    }

    /// Delivers a frame that other sockets may get too, as `deliver` does. It waits with its text, and is sent
    /// by that. It takes no memory.
    pub fn deliver_shared(&mut self, printed: Arc<Printed>) -> Delivered
        ensures peer { self.new.peer ≡ delivered_to self.old.peer (arc_value printed) }
        ensures cut { result
            ≡ (if finds_no_room self.old.peer (arc_value printed) then Delivered.Cut else Delivered.Kept) }
        ensures wire { self.new.wire ≡ self.old.wire }
        ensures over { (config : Config) → IsPeerOver config self.old.peer → IsPeerOver config self.new.peer }
    {
        deliver_to(&mut self.peer, Waiting::shared(printed))
    }

    /// Whether the socket's session has a loss that is still to be made.
    pub fn owes(&self) -> bool
        ensures { IsTrue result ↔ Owes self.now.peer }
    {
        match &self.peer {
            Peer::Open(connection) => connection.owes(),
            Peer::Refused(_) => false,
        }
    }

    /// Makes the losses that the socket owes to the shards, in order. Where there was no memory, those that
    /// were made stay made, and a later call goes on from there.
    pub fn lose<R, D: Desk<R>>(&mut self, rt: &R, desk: &mut D, now: u64) -> Result<(), Memory>
        requires now { IsMoment now }
        requires desk { MayLose self.old.peer (D.view desk.old) }
        ensures loses { (asked : List Asked)
            × Loses now asked self.old.peer self.new.peer (D.view desk.old) (D.view desk.new) result }
        ensures all { OnOk result (Owes self.new.peer → ⊥) }
        ensures desk { MayLose self.new.peer (D.view desk.new) }
        ensures wire { self.new.wire ≡ self.old.wire }
    {
        match &mut self.peer {
            Peer::Open(connection) => connection.lose(rt, desk, now),
            Peer::Refused(_) => Ok(()),
        }
    }
}

impl<W: Wire> Live<W> {
    /// One turn at the moment `now`. A marked connection ends. Otherwise the frames that wait are sent, as far
    /// as the wire takes them, a ping that is due with them; and where none waits any more, at most one
    /// message is received and heard, and its asks are made at the desk.
    ///
    /// Where a turn ends with a code, the socket is told the error, where there is memory for its text, and
    /// the wire is closed with the code. It may wait where the desk does.
    pub fn turn<R, D: Desk<R>>(&mut self, rt: &R, desk: &mut D, config: &Config, now: u64) -> Turn
        requires config { IsConfig config.now }
        requires desk { IsDeskOf config.now (D.view desk.old) }
        requires over { IsPeerOver config.now self.old.peer }
        requires now { IsMoment now }
        ensures turn { (course : Course) × IsTurn config.now now course self.old.peer self.new.peer
            (W.told self.old.wire) (W.told self.new.wire) (D.view desk.old) (D.view desk.new) result }
        ensures over { IsPeerOver config.now self.new.peer }
        ensures shards { IsDeskOf config.now (D.view desk.new) }
        ensures cause { TurnHasCause result (W.told self.old.wire).counts (W.told self.new.wire).counts }
    {
        match &mut self.peer {
            Peer::Open(connection) => connection.turn(rt, &mut self.wire, desk, config, now),
            Peer::Refused(code) => end_with(self.alloc, &mut self.wire, *code),
        }
    }
}

fn deliver_to(peer: &mut Peer, frame: Waiting) -> Delivered
    ensures peer { peer.new ≡ delivered_to peer.old frame }
    ensures cut { result ≡ (if finds_no_room peer.old frame then Delivered.Cut else Delivered.Kept) }
{
    match peer {
        Peer::Open(connection) => connection.deliver(frame),
        Peer::Refused(_) => match frame.frame() {
            Frame::Kill => Delivered::Kept,
            _ => Delivered::Cut,
        },
    }
}
