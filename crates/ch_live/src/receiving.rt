ghost use Rattle.std.specs.Prelude.{◌≡◌, ℕ, [], Option, if◌then◌else◌};
ghost use Rattle.std.specs.Option.{option_to_list};
ghost use Rattle.ch_config.specs.Config.{IsConfig};
ghost use Rattle.ch_desk.specs.Views.{IsDeskOf};
ghost use Rattle.ch_history.specs.Limits.{IsMoment};
ghost use Rattle.ch_live.specs.Backlogs.{all_delivered};
ghost use Rattle.ch_live.specs.Answers.{last_texts, closing_codes, LastHasCause};
ghost use Rattle.ch_live.specs.Listening.{Listens, HearsMessage, IsTurnBy};
ghost use Rattle.ch_net.specs.Wires.{WireMoves};
ghost use Rattle.ch_session.specs.Kept.{HasShardsOf};
ghost use Rattle.ch_session.specs.declared.waiting.Waiting.TheVariants.{Nothing};

use crate::backlog::Backlog;
use crate::connection::Connection;
use crate::farewell::end_with;
use crate::turn::{End, Turn};
use crate::waiting::Waiting;
use ch_base::Frame;
use ch_config::Config;
use ch_desk::Desk;
use ch_dispatch::{Response, hear, hear_binary};
use ch_net::{Message, Recv, Wire};
use ch_session::Session;
use std::alloc::Global;

impl Connection {
    /// Receives a message and hears it. `moved` says whether the turn has sent a frame.
    pub(crate) fn receive<R, W: Wire, D: Desk<R>>(
        &mut self,
        rt: &R,
        wire: &mut W,
        desk: &mut D,
        config: &Config,
        now: u64,
        moved: bool,
    ) -> Turn
        requires config { IsConfig config.now }
        requires desk { IsDeskOf config.now (D.view desk.old) }
        requires over { HasShardsOf self.old.session config.now }
        requires now { IsMoment now }
        ensures { Listens config.now now moved
            (record { connection = self.old; wire = W.told wire.old; desk = D.view desk.old })
            (record { connection = self.new; wire = W.told wire.new; desk = D.view desk.new }) result }
    {
        match wire.recv() {
            Recv::Said(text) => self.heed(rt, wire, desk, config, Message::Text(text), now),
            Recv::Binary => self.heed(rt, wire, desk, config, Message::Binary, now),
            Recv::Quiet => moved_or_idle(moved),
            Recv::Gone => Turn::Ended(End::Peer),
            Recv::Failed => Turn::Ended(End::Fault),
            Recv::Memory => Turn::Ended(End::Memory),
        }
    }

    /// Hears a message and does what it asks, to the end of the turn.
    fn heed<R, W: Wire, D: Desk<R>>(
        &mut self,
        rt: &R,
        wire: &mut W,
        desk: &mut D,
        config: &Config,
        message: Message,
        now: u64,
    ) -> Turn
        requires config { IsConfig config.now }
        requires desk { IsDeskOf config.now (D.view desk.old) }
        requires over { HasShardsOf self.old.session config.now }
        requires now { IsMoment now }
        ensures heard { (code : Option ℕ) × IsTurnBy code result
            × HearsMessage config.now now message self.old self.new (D.view desk.old) (D.view desk.new) code }
        ensures moves { WireMoves (W.told wire.old) (W.told wire.new) [] (last_texts result) (closing_codes result) }
        ensures last { LastHasCause result (W.told wire.old).counts (W.told wire.new).counts }
    {
        let session = &mut self.session;
        let code = hear_message(rt, desk, config, session, &mut self.backlog, message, now);
        end_if(self.alloc, wire, code)
    }
}

/// Hears a message and does what it asks. It answers the code with which the connection ends, if it does.
fn hear_message<R, D: Desk<R>>(
    rt: &R,
    desk: &mut D,
    config: &Config,
    session: &mut Session,
    backlog: &mut Backlog,
    message: Message,
    now: u64,
) -> Option<u16>
    requires config { IsConfig config.now }
    requires desk { IsDeskOf config.now (D.view desk.old) }
    requires over { HasShardsOf session.old config.now }
    requires idle { session.old.waits ≡ Nothing }
    requires now { IsMoment now }
    ensures heard { HearsMessage config.now now message (record { session = session.old; backlog = backlog.old })
        (record { session = session.new; backlog = backlog.new }) (D.view desk.old) (D.view desk.new) result }
    ensures idle { session.new.waits ≡ Nothing }
{
    match message {
        Message::Text(text) => {
            let response = hear(rt, desk, config, session, &text, now);
            tell(backlog, response)
        }
        Message::Binary => {
            let response = hear_binary(session, now);
            tell(backlog, response)
        }
    }
}

/// Lets the frame of a response wait, and answers the code of its end.
fn tell(backlog: &mut Backlog, response: Response) -> Option<u16>
    ensures tells { backlog.new ≡ all_delivered backlog.old (option_to_list response.reply) }
    ensures ends { result ≡ response.end }
{
    let Response { reply, end } = response;
    deliver_reply(backlog, reply);
    end
}

fn deliver_reply(backlog: &mut Backlog, reply: Option<Frame>)
    ensures { backlog.new ≡ all_delivered backlog.old (option_to_list reply) }
{
    match reply {
        Some(frame) => {
            backlog.deliver(Waiting::alone(frame));
        }
        None => {}
    }
}

/// The turn of a connection that heard a message and ends with this code, if it ends.
fn end_if<W: Wire>(alloc: Global, wire: &mut W, code: Option<u16>) -> Turn
    ensures by { IsTurnBy code result }
    ensures moves { WireMoves (W.told wire.old) (W.told wire.new) [] (last_texts result) (closing_codes result) }
    ensures last { LastHasCause result (W.told wire.old).counts (W.told wire.new).counts }
{
    match code {
        Some(code) => end_with(alloc, wire, code),
        None => Turn::Moved,
    }
}

/// The answer of a turn in which no message was received and the wire asked for patience.
pub(crate) fn moved_or_idle(moved: bool) -> Turn
    ensures { result ≡ (if moved then Turn.Moved else Turn.Idle) }
{
    if moved { Turn::Moved } else { Turn::Idle }
}
