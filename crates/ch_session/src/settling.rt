ghost use Rattle.std.specs.Prelude.{◌≡◌, ◌∷◌, ℕ, List, length};
ghost use Rattle.ch_history.specs.Limits.{IsMoment};
ghost use Rattle.ch_protocol.specs.Sessions.{chan_outcome, user_outcome, memory_outcome};
ghost use Rattle.ch_protocol.specs.declared.ask.Ask.{Ask};
ghost use Rattle.ch_protocol.specs.declared.ask.Made.TheVariants.{Chan, User};
ghost use Rattle.ch_session.specs.Kept.{MaySettle, IsSettled};
ghost use Rattle.ch_protocol.specs.Asks.{ComesOf};
ghost use Rattle.ch_session.specs.Waits.{Awaits, HoldsData};

use crate::session::Session;
use crate::waiting::Waiting;
use ch_base::{
    ALREADY_SUBSCRIBED, CHANNEL_FULL, ChanAnswer, Frame, NOT_SUBSCRIBED, OUT_OF_MEMORY, RECONNECT,
    Text, UserAnswer,
};
use ch_protocol::{Made, Settled};
use std::mem;

impl Session {
    /// Settles the ask at this place of the last message, counted from 0, by what came of it at the moment
    /// `now`, and answers what that means for the socket. After a refusal or an end the asks behind it
    /// aren't to be made. It takes no memory.
    pub fn settle(&mut self, place: u64, made: &Made, now: u64) -> Settled
        requires next { MaySettle self.old.waits place made.now }
        requires now { IsMoment now }
        ensures settled { (ask : Ask) (asks : List Ask) → Awaits self.old.waits place (ask ∷ asks) → ComesOf ask made.now → IsSettled self.old self.new place ask asks made.now now result }
        ensures data { (user_data : List ℕ) → HoldsData self.old.waits user_data → HoldsData self.new.waits user_data }
        ensures same { self.new ≡ record self.old { told = self.new.told; waits = self.new.waits } }
        ensures shards { length self.new.told.used ≡ length self.old.told.used }
    {
        match made {
            Made::Memory => self.give_up(place),
            Made::Chan(answer) => self.settle_chan(answer, now),
            Made::User(answer) => self.settle_user(answer),
        }
    }

    /// There was no memory for the ask at this place.
    fn give_up(&mut self, place: u64) -> Settled
        ensures outcome { result ≡ memory_outcome place }
        ensures same { self.new ≡ record self.old { waits = Waiting.Nothing } }
    {
        self.waits = Waiting::Nothing;
        if place == 0 {
            Settled::Refuse(OUT_OF_MEMORY)
        } else {
            Settled::End(RECONNECT)
        }
    }

    /// Settles a call on a channel shard.
    fn settle_chan(&mut self, answer: &ChanAnswer, now: u64) -> Settled
        requires next { (place : ℕ) × MaySettle self.old.waits place (Chan answer.now) }
        requires now { IsMoment now }
        ensures settled { (place : ℕ) (ask : Ask) (asks : List Ask) → Awaits self.old.waits place (ask ∷ asks) → ComesOf ask (Chan answer.now) → IsSettled self.old self.new place ask asks (Chan answer.now) now result }
        ensures same { self.new ≡ record self.old { told = self.new.told; waits = Waiting.Nothing } }
        ensures shards { length self.new.told.used ≡ length self.old.told.used }
    {
        let shard = self.waits.chan_shard();
        self.waits = Waiting::Nothing;
        self.told.answered(shard, answer, now);
        chan_outcome(answer)
    }

    /// Settles a call on a user shard.
    fn settle_user(&mut self, answer: &UserAnswer) -> Settled
        requires { (place : ℕ) × MaySettle self.old.waits place (User answer.now) }
        ensures settled { (place now : ℕ) (ask : Ask) (asks : List Ask) → Awaits self.old.waits place (ask ∷ asks) → ComesOf ask (User answer.now) → IsSettled self.old self.new place ask asks (User answer.now) now result }
        ensures data { (user_data : List ℕ) → HoldsData self.old.waits user_data → HoldsData self.new.waits user_data }
        ensures same { self.new ≡ record self.old { told = self.new.told; waits = self.new.waits } }
        ensures shards { length self.new.told.used ≡ length self.old.told.used }
    {
        match mem::replace(&mut self.waits, Waiting::Nothing) {
            Waiting::SignIn {
                shard,
                user,
                user_data,
                watches,
            } => {
                self.told.signed_in(self.chans + shard, user);
                self.waits = Waiting::on(watches);
                sign_in_outcome(answer, user_data)
            }
            Waiting::Watches(mut shards) => {
                let Some(shard) = shards.take_first() else {
                    return Settled::Nothing;
                };
                self.told.uses(self.chans + shard);
                self.waits = Waiting::on(shards);
                Settled::Nothing
            }
            _ => Settled::Nothing,
        }
    }
}

/// What an answer of a channel shard means for the socket.
fn chan_outcome(answer: &ChanAnswer) -> Settled
    ensures { result ≡ chan_outcome answer.now }
{
    match answer {
        ChanAnswer::Already => Settled::Refuse(ALREADY_SUBSCRIBED),
        ChanAnswer::Crowded => Settled::Refuse(CHANNEL_FULL),
        ChanAnswer::NotOn => Settled::Refuse(NOT_SUBSCRIBED),
        _ => Settled::Nothing,
    }
}

/// What the answer to a sign-in with these data means for the socket.
fn sign_in_outcome(answer: &UserAnswer, user_data: Text) -> Settled
    ensures { result ≡ user_outcome user_data 0 answer.now }
{
    match answer {
        UserAnswer::SignedIn => Settled::Reply(Frame::SignedIn { user_data }),
        _ => Settled::Nothing,
    }
}
