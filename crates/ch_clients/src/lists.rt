ghost use Rattle.std.specs.Prelude.{◌≡◌, ◌<◌, ◌≤◌, ◌+◌, ◌++◌, [], Some, length, slice_get, All};
ghost use Rattle.ch_clients.specs.Clients.{Client as ClientView, MayTurn};
ghost use Rattle.ch_clients.specs.declared.limits.TheConstants.{MOST_CLIENTS};
ghost use Rattle.ch_clients.specs.Passes.{HasTurn};
ghost use Rattle.ch_clients.specs.Serving.{Fate, IsFateOfEnded, IsServed, Turned, client_of, leaver_of};
ghost use Rattle.ch_clients.specs.Spoken.{spoken};
ghost use Rattle.ch_clients.specs.Steps.{Becomes, HasFate, IsFateOfEnd, IsFateOfHandshake, MayGoOn, setting_with};
ghost use Rattle.ch_config.specs.Config.{IsConfig};
ghost use Rattle.ch_desk.specs.Views.{IsDeskOf};
ghost use Rattle.ch_history.specs.Limits.{IsMoment};
ghost use Rattle.ch_live.specs.Peers.{IsPeerOver};

use crate::answer::WorkerTurn;
use crate::client::{Client, Protocol, Step};
use crate::connected::Connected;
use crate::leaving::Leaving;
use crate::next::Next;
use crate::server::Server;
use crate::upgrade::upgrade;
use ch_base::Text;
use ch_desk::Desk;
use ch_exchange::Exchange;
use ch_live::Live;
use ch_net::Link;

/// The clients that are connected, and those who leave.
#[derive(Drop)]
pub(crate) struct Lists<L: Link> {
    pub connected: Connected<L>,
    pub leaving: Leaving<L::Wire>,
}

impl<L: Link> Lists<L> {
    /// Gives the client at a place its turn, and does what becomes of it then.
    pub(crate) fn serve<R, D: Desk<R>>(
        &mut self,
        rt: &R,
        desk: &mut D,
        server: &Server,
        place: usize,
        now: u64,
    ) -> Next
        requires place { place < length self.old.connected }
        requires config { IsConfig server.now.config }
        requires desk { IsDeskOf server.now.config (D.view desk.old) }
        requires may { All (MayTurn server.now.config) self.old.connected }
        requires over { All (IsPeerOver server.now.config) self.old.leaving }
        requires room { length self.old.connected + length self.old.leaving ≤ MOST_CLIENTS }
        requires now { IsMoment now }
        ensures turn { (turned : Turned)
            × HasTurn (IsServed (setting_with server.now now L.messages)) (λ t. client_of t.fate) (λ t. t.part) place
            self.old.connected self.new.connected (D.view desk.old) (D.view desk.new) turned result
            × (self.new.leaving ≡ self.old.leaving ++ leaver_of turned.fate) }
        ensures may { All (MayTurn server.now.config) self.new.connected }
        ensures over { All (IsPeerOver server.now.config) self.new.leaving }
        ensures shards { IsDeskOf server.now.config (D.view desk.new) }
    {
        let step = self.connected.turn(rt, desk, server, place, now);
        self.go_on(server, place, step, now)
    }

    /// What becomes of the client at a place after its turn.
    fn go_on(&mut self, server: &Server, place: usize, step: Step, now: u64) -> Next
        requires place { place < length self.old.connected }
        requires config { IsConfig server.now.config }
        requires may { MayGoOn server.now.config place step self.old.connected }
        requires over { All (IsPeerOver server.now.config) self.old.leaving }
        requires room { length self.old.connected + length self.old.leaving ≤ MOST_CLIENTS }
        requires now { IsMoment now }
        ensures becomes { (client : ClientView) → slice_get self.old.connected place ≡ Some client
            → (fate : Fate)
            × Becomes (setting_with server.now now L.messages) client step result.part fate
            × HasFate place fate self.old.connected self.new.connected
            self.old.leaving self.new.leaving result.place }
        ensures may { All (MayTurn server.now.config) self.new.connected }
        ensures over { All (IsPeerOver server.now.config) self.new.leaving }
    {
        match step {
            Step::Stays(part) => Next {
                part,
                place: place + 1,
            },
            Step::Upgrades(target) => self.upgrade(server, place, &target, now),
            Step::Ends => self.end(server, place),
        }
    }

    /// The client at a place, whose handshake was answered, speaks WebSocket from now on. It is dropped where
    /// there was no memory.
    fn upgrade(&mut self, server: &Server, place: usize, target: &Text, now: u64) -> Next
        requires place { place < length self.old.connected }
        requires config { IsConfig server.now.config }
        requires may { MayGoOn server.now.config place (Step.Upgrades target.now) self.old.connected }
        requires room { length self.old.connected ≤ MOST_CLIENTS }
        requires now { IsMoment now }
        ensures becomes { (client : ClientView) → slice_get self.old.connected place ≡ Some client
            → (fate : Fate)
            × IsFateOfHandshake (setting_with server.now now L.messages)
            client.number target.now client.speech result.part fate
            × HasFate place fate self.old.connected self.new.connected
            self.old.leaving self.new.leaving result.place }
        ensures may { All (MayTurn server.now.config) self.new.connected }
        ensures leaving { self.new.leaving ≡ self.old.leaving }
    {
        let client = self.connected.take_out(place);
        let number = client.number();
        let Protocol::Http(exchange) = client.into_protocol() else {
            unreachable!();
        };
        match upgrade(server, number, exchange, target, now) {
            Some(live) => {
                self.connected.put_back(place, Client::live(number, live));
                Next {
                    part: WorkerTurn::Moved,
                    place: place + 1,
                }
            }
            None => Next {
                part: WorkerTurn::Memory,
                place,
            },
        }
    }

    /// The client at a place is gone. It leaves, where its session owes losses.
    fn end(&mut self, server: &Server, place: usize) -> Next
        requires place { place < length self.old.connected }
        requires may { MayGoOn server.now.config place Step.Ends self.old.connected }
        requires over { All (IsPeerOver server.now.config) self.old.leaving }
        requires room { length self.old.connected + length self.old.leaving ≤ MOST_CLIENTS }
        ensures becomes { (client : ClientView) → slice_get self.old.connected place ≡ Some client
            → (fate : Fate)
            × (result.part ≡ WorkerTurn.Moved) × IsFateOfEnd client.speech fate
            × HasFate place fate self.old.connected self.new.connected
            self.old.leaving self.new.leaving result.place }
        ensures may { All (MayTurn server.now.config) self.new.connected }
        ensures over { All (IsPeerOver server.now.config) self.new.leaving }
    {
        let client = self.connected.take_out(place);
        leave(&mut self.leaving, client.into_protocol());
        Next {
            part: WorkerTurn::Moved,
            place,
        }
    }
}

/// A client that ended leaves, where its session owes losses.
fn leave<L: Link>(leaving: &mut Leaving<L::Wire>, protocol: Protocol<L>)
    requires room { length leaving.old < MOST_CLIENTS }
    ensures { (fate : Fate) × IsFateOfEnd (spoken L.told L.Wire.told protocol) fate
        × (client_of fate ≡ []) × (leaving.new ≡ leaving.old ++ leaver_of fate) }
{
    match protocol {
        Protocol::WebSocket(live) => leave_live(leaving, live),
        Protocol::Http(exchange) => let_go(exchange),
    }
}

fn leave_live<W: Drop>(leaving: &mut Leaving<W>, live: Live<W>)
    requires room { length leaving.old < MOST_CLIENTS }
    ensures { (fate : Fate) × IsFateOfEnded live.peer fate
        × (client_of fate ≡ []) × (leaving.new ≡ leaving.old ++ leaver_of fate) }
{
    if live.owes() {
        leaving.add(live);
    } else {
        let_live_go(live);
    }
}

/// Drops an exchange that ended.
fn let_go<L: Link>(_exchange: Exchange<L>) {}

/// Drops a live socket that owes nothing.
fn let_live_go<W: Drop>(_live: Live<W>) {}
