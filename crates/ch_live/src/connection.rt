ghost use Rattle.std.specs.Prelude.{◌≡◌, ◌↔◌, List, IsTrue, IfOk, IfErr, OnOk, if◌then◌else◌};
ghost use Rattle.ch_config.specs.Config.{IsConfig};
ghost use Rattle.ch_desk.specs.Views.{IsDeskOf};
ghost use Rattle.ch_dispatch.specs.Losses.{IsOverDesk, OwesLoss, MakesLosses, AreAllLosses};
ghost use Rattle.ch_history.specs.Limits.{IsMoment};
ghost use Rattle.ch_live.specs.Backlogs.{delivered, is_cut};
ghost use Rattle.ch_live.specs.Connections.{ends_at_once, looked_at};
ghost use Rattle.ch_live.specs.Courses.{Course};
ghost use Rattle.ch_live.specs.Peers.{connection_of};
ghost use Rattle.ch_live.specs.Turns.{TakesCourse};
ghost use Rattle.ch_protocol.specs.Asks.{Asked};
ghost use Rattle.ch_session.specs.Kept.{HasShardsOf};
ghost use Rattle.ch_session.specs.declared.waiting.Waiting.TheVariants.{Nothing};

use crate::backlog::Backlog;
use crate::farewell::end_with;
use crate::receiving::moved_or_idle;
use crate::sending::{Sending, send_on};
use crate::turn::{Delivered, End, Turn};
use crate::waiting::Waiting;
use ch_base::{Frame, Memory, NO_PONG};
use ch_config::Config;
use ch_desk::Desk;
use ch_dispatch::lose;
use ch_net::Wire;
use ch_rate::Due;
use ch_session::Session;
use std::alloc::Global;
use std::marker::Model;

/// An open connection: its session, of which no ask waits to be settled, and what waits for its socket.
#[derive(Drop)]
pub struct Connection {
    pub(crate) alloc: Global,
    pub(crate) session: Session,
    pub(crate) backlog: Backlog,
}

impl Model for Connection {
    ghost use Rattle.std.specs.Prelude.{◌≡◌};
    ghost use Rattle.ch_session.specs.declared.waiting.Waiting.TheVariants.{Nothing};
    ghost use Rattle.ch_live.specs.Connections.{Connected};

    ghost Value = { Connected };

    ghost view = { λ c. record { session = c.session; backlog = c.backlog } };

    ghost invariant = { λ c. c.session.waits ≡ Nothing };
}

impl Connection {
    /// The connection of a session that was just opened, which it gives back where there is no room for
    /// frames.
    pub(crate) fn new(alloc: Global, session: Session) -> Result<Connection, Session>
        requires idle { session.waits ≡ Nothing }
        ensures opened { IfOk result (λ c. c ≡ connection_of session) }
        ensures memory { IfErr result (λ given. given ≡ session) }
    {
        let Ok(mut backlog) = Backlog::new(alloc) else {
            return Err(session);
        };
        backlog.deliver(Waiting::alone(Frame::Opened {
            number: session.number(),
        }));
        Ok(Connection {
            alloc,
            session,
            backlog,
        })
    }

    /// Delivers a frame.
    pub fn deliver(&mut self, frame: Waiting) -> Delivered
        ensures held { self.new ≡ record self.old { backlog = delivered self.old.backlog frame } }
        ensures cut { result ≡ (if is_cut self.old.backlog frame then Delivered.Cut else Delivered.Kept) }
    {
        self.backlog.deliver(frame)
    }

    /// One turn.
    pub(crate) fn turn<R, W: Wire, D: Desk<R>>(
        &mut self,
        rt: &R,
        wire: &mut W,
        desk: &mut D,
        config: &Config,
        now: u64,
    ) -> Turn
        requires config { IsConfig config.now }
        requires desk { IsDeskOf config.now (D.view desk.old) }
        requires over { HasShardsOf self.old.session config.now }
        requires now { IsMoment now }
        ensures course { (course : Course) × TakesCourse config.now now course
            (record { connection = self.old; wire = W.told wire.old; desk = D.view desk.old })
            (record { connection = self.new; wire = W.told wire.new; desk = D.view desk.new }) result }
        ensures over { HasShardsOf self.new.session config.now }
    {
        if let Some(code) = self.look(now) {
            return end_with(self.alloc, wire, code);
        }
        let waiting = self.backlog.len();
        let start = self.session.start_second();
        let sending = send_on(self.alloc, start, &mut self.backlog, wire);
        let moved = self.backlog.len() < waiting;
        match sending {
            Sending::All => self.receive(rt, wire, desk, config, now, moved),
            Sending::Waiting => moved_or_idle(moved),
            Sending::Memory => Turn::Memory,
            Sending::Failed => Turn::Ended(End::Fault),
        }
    }

    /// Looks at the marks of the connection and then at its silence, and answers the code with which the
    /// connection ends at once. A ping that is due is delivered.
    fn look(&mut self, now: u64) -> Option<u16>
        requires { IsMoment now }
        ensures code { result ≡ ends_at_once now self.old }
        ensures looked { self.new ≡ looked_at now self.old }
    {
        if let Some(code) = self.backlog.marked() {
            return Some(code);
        }
        match self.session.tick(now) {
            Due::Nothing => None,
            Due::Ping => {
                self.backlog.deliver(Waiting::alone(Frame::Ping));
                None
            }
            Due::Expired => Some(NO_PONG),
        }
    }

    /// Whether the session has a loss that is still to be made.
    pub fn owes(&self) -> bool
        ensures { IsTrue result ↔ OwesLoss self.now.session }
    {
        self.session.next_loss(0).is_some()
    }

    /// Makes the losses that are left, in order.
    pub(crate) fn lose<R, D: Desk<R>>(
        &mut self,
        rt: &R,
        desk: &mut D,
        now: u64,
    ) -> Result<(), Memory>
        requires now { IsMoment now }
        requires over { IsOverDesk self.old.session (D.view desk.old) }
        ensures losses { (asked : List Asked)
            × MakesLosses now asked self.old.session self.new.session (D.view desk.old) (D.view desk.new)
            × OnOk result (AreAllLosses now asked self.old.session) }
        ensures backlog { self.new.backlog ≡ self.old.backlog }
        ensures all { OnOk result (OwesLoss self.new.session → ⊥) }
        ensures over { IsOverDesk self.new.session (D.view desk.new) }
    {
        lose(rt, desk, &mut self.session, now)
    }
}
