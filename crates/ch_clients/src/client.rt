ghost use Rattle.std.specs.Prelude.{◌≡◌, ◌==◌, if◌then◌else◌};
ghost use Rattle.std.specs.Arc.{arc_value};
ghost use Rattle.ch_clients.specs.Clients.{handed, newcomer, MaySpeak, MayTurn, WebSocket, with_frame};
ghost use Rattle.ch_clients.specs.Spoken.{spoken};
ghost use Rattle.ch_clients.specs.Steps.{IsStep, IsSpeechStep, MayFollow, step_of_live, step_of_exchange, setting_with};
ghost use Rattle.ch_config.specs.Config.{IsConfig};
ghost use Rattle.ch_desk.specs.Views.{IsDeskOf};
ghost use Rattle.ch_history.specs.Limits.{IsMoment, IsSocket};

use crate::answer::WorkerTurn;
use crate::server::Server;
use ch_base::{Printed, Shared, Text};
use ch_desk::Desk;
use ch_exchange::{ExTurn, Exchange};
use ch_live::{Live, Turn};
use ch_net::{Arrival, Link};
use std::alloc::Global;
use std::marker::Model;
use std::sync::Arc;

/// How a client speaks.
#[derive(Drop)]
pub(crate) enum Protocol<L: Link> {
    /// One HTTP exchange, which may be a handshake.
    Http(Exchange<L>),
    /// WebSocket, after a handshake.
    WebSocket(Live<L::Wire>),
}

/// A client, with the number of its connection, at least 1 and at most 2^62.
#[derive(Drop)]
pub(crate) struct Client<L: Link> {
    number: u64,
    protocol: Protocol<L>,
}

impl<L: Link> Model for Client<L> {
    ghost use Rattle.ch_clients.specs.Clients.{Client};
    ghost use Rattle.ch_clients.specs.Spoken.{spoken};
    ghost use Rattle.ch_history.specs.Limits.{IsSocket};

    ghost Value = { Client };

    ghost view = { λ c. record { number = c.number; speech = spoken L.told L.Wire.told c.protocol } };

    ghost invariant = { λ c. IsSocket c.number };
}

/// What a client's turn comes to.
#[derive(Debug, PartialEq, Eq, Drop)]
pub(crate) enum Step {
    /// It stays, and its turn came to this.
    Stays(WorkerTurn),
    /// The reply to its handshake was written. This is the target.
    Upgrades(Text),
    /// It ended.
    Ends,
}

impl<L: Link> Client<L> {
    /// The client of a connection that came in. It speaks HTTP first.
    pub(crate) fn new(alloc: Global, arrival: Arrival<L>, now: u64) -> Client<L>
        requires { IsSocket arrival.number }
        ensures { result ≡ newcomer L.told now arrival }
    {
        let Arrival { number, link } = arrival;
        Client {
            number,
            protocol: Protocol::Http(Exchange::new(alloc, link, now)),
        }
    }

    /// The client of this number that speaks WebSocket.
    pub(crate) fn live(number: u64, live: Live<L::Wire>) -> Client<L>
        requires { IsSocket number }
        ensures { result ≡ record { number = number; speech = WebSocket live.peer (L.Wire.told live.wire) } }
    {
        Client {
            number,
            protocol: Protocol::WebSocket(live),
        }
    }

    /// The number of its connection.
    pub(crate) fn number(&self) -> u64
        ensures number { result ≡ self.now.number }
        ensures socket { IsSocket result }
    {
        self.number
    }

    /// Delivers a frame to a live socket, if it is for this number. An exchange takes none, and the frame is
    /// dropped.
    pub(crate) fn hand(&mut self, frame: Shared)
        ensures { self.new
            ≡ (if self.old.number == frame.socket then with_frame self.old frame else self.old) }
    {
        if self.number == frame.socket() {
            deliver(&mut self.protocol, frame.into_printed());
        }
    }

    /// One turn of its exchange or of its live socket.
    pub(crate) fn turn<R, D: Desk<R>>(
        &mut self,
        rt: &R,
        desk: &mut D,
        server: &Server,
        now: u64,
    ) -> Step
        requires config { IsConfig server.now.config }
        requires desk { IsDeskOf server.now.config (D.view desk.old) }
        requires may { MayTurn server.now.config self.old }
        requires now { IsMoment now }
        ensures turn { IsStep (setting_with server.now now L.messages)
            self.old self.new (D.view desk.old) (D.view desk.new) result }
        ensures follows { MayFollow server.now.config result self.new.speech }
        ensures shards { IsDeskOf server.now.config (D.view desk.new) }
    {
        take_step(rt, desk, &mut self.protocol, server, now)
    }

    /// Its exchange, where it speaks HTTP, and its live socket, where it speaks WebSocket.
    pub(crate) fn into_protocol(self) -> Protocol<L>
        ensures { spoken L.told L.Wire.told result ≡ self.speech }
    {
        let Client {
            number: _,
            protocol,
        } = self;
        protocol
    }
}

fn deliver<L: Link>(protocol: &mut Protocol<L>, printed: Arc<Printed>)
    ensures { spoken L.told L.Wire.told protocol.new
        ≡ handed (arc_value printed) (spoken L.told L.Wire.told protocol.old) }
{
    match protocol {
        Protocol::WebSocket(live) => {
            live.deliver_shared(printed);
        }
        Protocol::Http(_) => let_go(printed),
    }
}

fn take_step<R, L: Link, D: Desk<R>>(
    rt: &R,
    desk: &mut D,
    protocol: &mut Protocol<L>,
    server: &Server,
    now: u64,
) -> Step
    requires config { IsConfig server.now.config }
    requires desk { IsDeskOf server.now.config (D.view desk.old) }
    requires may { MaySpeak server.now.config (spoken L.told L.Wire.told protocol.old) }
    requires now { IsMoment now }
    ensures turn { IsSpeechStep (setting_with server.now now L.messages)
        (spoken L.told L.Wire.told protocol.old) (spoken L.told L.Wire.told protocol.new)
        (D.view desk.old) (D.view desk.new) result }
    ensures follows { MayFollow server.now.config result (spoken L.told L.Wire.told protocol.new) }
    ensures shards { IsDeskOf server.now.config (D.view desk.new) }
{
    match protocol {
        Protocol::WebSocket(live) => step_of_live(live.turn(rt, desk, &server.config, now)),
        Protocol::Http(exchange) => {
            step_of_exchange(exchange.turn(rt, desk, &server.config, server.start, now))
        }
    }
}

fn step_of_live(turn: Turn) -> Step
    ensures { result ≡ step_of_live turn }
{
    match turn {
        Turn::Moved => Step::Stays(WorkerTurn::Moved),
        Turn::Idle => Step::Stays(WorkerTurn::Idle),
        Turn::Memory => Step::Stays(WorkerTurn::Memory),
        Turn::Ended(_) => Step::Ends,
    }
}

fn step_of_exchange(turn: ExTurn) -> Step
    ensures { result ≡ step_of_exchange turn }
{
    match turn {
        ExTurn::Moved => Step::Stays(WorkerTurn::Moved),
        ExTurn::Idle => Step::Stays(WorkerTurn::Idle),
        ExTurn::Upgrade(target) => Step::Upgrades(target),
        ExTurn::Done | ExTurn::Peer | ExTurn::Fault => Step::Ends,
    }
}

/// Drops a frame that nobody takes.
fn let_go(_printed: Arc<Printed>) {}
