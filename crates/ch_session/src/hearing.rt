ghost use Rattle.std.specs.Prelude.{◌≡◌, ◌⊎◌, ℕ, List, [], IfOk, IfSome, IsTrue, Ok, Some, None, All, option_map, if◌then◌else◌};
ghost use Rattle.ch_config.specs.Config.{IsConfig};
ghost use Rattle.ch_frames.specs.Checked.{IsGoodMessage, IsGoodUser};
ghost use Rattle.ch_history.specs.Limits.{IsMoment};
ghost use Rattle.ch_rate.specs.Quiet.{quiet_from};
ghost use Rattle.ch_protocol.specs.Settling.{SettledAsk};
ghost use Rattle.ch_protocol.specs.Sessions.{judged, judged_as, subscribes, unsubscribes, is_given};
ghost use Rattle.ch_history.specs.UserChannels.{channel_user, is_user_channel, is_subscribable};
ghost use Rattle.ch_session.specs.Judging.{known, asks_of, user_data_in, user_data_of, IsSoundAsk, IsJoinerBy, IsJoiner, IsGoodReading, IsReady, EndsAsUnauthorized, Hears};
ghost use Rattle.ch_session.specs.Kept.{IsSession, HasShardsOf};
ghost use Rattle.ch_session.specs.ReadTexts.{reading_of};
ghost use Rattle.ch_session.specs.Waits.{Awaits};
ghost use Rattle.ch_session.specs.declared.waiting.Waiting.{Waiting};
ghost use Rattle.ch_base.specs.declared.frame.Frame.TheVariants.{Succeeded};

use crate::judged::Judged;
use crate::reading::{Read, read_text};
use crate::session::Session;
use ch_base::{Frame, INVALID_SIGNATURE, Member, Memory, OUT_OF_MEMORY, Text};
use ch_config::Config;
use ch_names::{is_user_channel, user_channel};
use ch_protocol::{ClientMessage, Heard, UserData};

impl Session {
    /// Hears a text at the moment `now`, while nothing waits to be settled.
    ///
    /// The answer is exactly the one that the protocol judges, or a refusal with `OUT_OF_MEMORY`
    /// where there is none. Nothing else changes but the heard moment and what waits to be settled.
    pub fn hear(&mut self, config: &Config, text: &Text, now: u64) -> Heard
        requires idle { self.old.waits ≡ Waiting.Nothing }
        requires config { IsConfig config.now }
        requires over { HasShardsOf self.old config.now }
        requires now { IsMoment now }
        ensures judged { (start number : ℕ) (asks : List SettledAsk) → IsSession self.old start number asks →
            (result ≡ Heard.Refuse OUT_OF_MEMORY) ⊎ Hears (known config.now start number asks now) text.now self.new.waits result }
        ensures stands { (start number : ℕ) (asks : List SettledAsk) → IsSession self.old start number asks → IsSession self.new start number asks }
        ensures awaits { Awaits self.new.waits 0 (asks_of result) }
        ensures sound { All (IsSoundAsk config.now) (asks_of result) }
        ensures ends { EndsAsUnauthorized result }
        ensures same { self.new ≡ record self.old { waits = self.new.waits; quiet = quiet_from now } }
    {
        let judged = self.judge_text(config, text, now);
        self.hears(now);
        match judged {
            Ok(judged) => {
                self.waits = judged.waits;
                judged.heard
            }
            Err(Memory) => Heard::Refuse(OUT_OF_MEMORY),
        }
    }

    /// What the text comes to.
    fn judge_text(&self, config: &Config, text: &Text, now: u64) -> Result<Judged, Memory>
        requires config { IsConfig config.now }
        requires over { HasShardsOf self.now config.now }
        requires now { IsMoment now }
        ensures hears { (start number : ℕ) (asks : List SettledAsk) → IsSession self.now start number asks →
            IfOk result (λ j. Hears (known config.now start number asks now) text.now j.waits j.heard) }
        ensures ready { IfOk result (λ j. (user_data : List ℕ) × IsReady self.now config.now user_data j) }
    {
        let read = read_text(self.alloc, text.as_str())?;
        self.judge(config, read, now)
    }

    /// What a text that is read so comes to.
    fn judge(&self, config: &Config, read: Read, now: u64) -> Result<Judged, Memory>
        requires config { IsConfig config.now }
        requires over { HasShardsOf self.now config.now }
        requires now { IsMoment now }
        requires good { IsGoodReading read.verdict read.member read.user }
        ensures judged { (start number : ℕ) (asks : List SettledAsk) → IsSession self.now start number asks →
            IfOk result (λ j. j.heard ≡ judged (known config.now start number asks now) (reading_of read)) }
        ensures ready { IfOk result (IsReady self.now config.now (user_data_of read.verdict)) }
    {
        let Read {
            verdict,
            member,
            user,
        } = read;
        match verdict {
            Ok(message) => self.judge_message(config, message, member, user, now),
            Err(code) => Ok(self.refuse(code)),
        }
    }

    /// A refusal.
    fn refuse(&self, code: u16) -> Judged
        ensures heard { result.heard ≡ Heard.Refuse code }
        ensures ready { (config : Config) (user_data : List ℕ) → IsReady self.now config user_data result }
    {
        let _ = &self.alloc;
        Judged::plain(Heard::Refuse(code))
    }

    /// No answer.
    fn ignore(&self) -> Judged
        ensures heard { result.heard ≡ Heard.Nothing }
        ensures ready { (config : Config) (user_data : List ℕ) → IsReady self.now config user_data result }
    {
        let _ = &self.alloc;
        Judged::plain(Heard::Nothing)
    }

    /// What the message comes to, and who joins or signs in by it.
    fn judge_message(
        &self,
        config: &Config,
        message: ClientMessage,
        member: Option<Member>,
        user: Option<UserData>,
        now: u64,
    ) -> Result<Judged, Memory>
        requires config { IsConfig config.now }
        requires over { HasShardsOf self.now config.now }
        requires now { IsMoment now }
        requires good { IsGoodMessage message }
        requires joiner { IsJoinerBy message member }
        requires user { IfSome user IsGoodUser }
        ensures judged { (start number : ℕ) (asks : List SettledAsk) → IsSession self.now start number asks →
            IfOk result (λ j. j.heard ≡ judged_as (known config.now start number asks now) member user (Ok message)) }
        ensures ready { IfOk result (IsReady self.now config.now (user_data_in message)) }
    {
        let _ = &self.alloc;
        match message {
            ClientMessage::Ping => Ok(Judged::plain(Heard::Reply(Frame::Pong))),
            ClientMessage::Pong => Ok(Judged::plain(Heard::Nothing)),
            ClientMessage::Subscribe {
                channel,
                auth,
                channel_data,
            } => self.hear_subscribe(config, channel, auth, channel_data, member, now),
            ClientMessage::Unsubscribe { channel } => self.hear_unsubscribe(config, channel, now),
            ClientMessage::SignIn { auth, user_data } => {
                self.sign_in(config, auth, user_data, user, now)
            }
            ClientMessage::Say {
                channel,
                event,
                body,
            } => self.say(config, channel, event, body, now),
        }
    }

    /// A subscribe. A user's own channel is for the sockets that are signed in as this user.
    fn hear_subscribe(
        &self,
        config: &Config,
        channel: Text,
        auth: Option<Text>,
        channel_data: Option<Text>,
        member: Option<Member>,
        now: u64,
    ) -> Result<Judged, Memory>
        requires config { IsConfig config.now }
        requires over { HasShardsOf self.now config.now }
        requires now { IsMoment now }
        requires channel { IsTrue (is_subscribable channel) }
        requires member { IsJoiner channel member }
        ensures judged { (start number : ℕ) (asks : List SettledAsk) → IsSession self.now start number asks →
            IfOk result (λ j. j.heard ≡ subscribes (known config.now start number asks now) channel auth channel_data member (channel_user channel)) }
        ensures ready { IfOk result (IsReady self.now config.now []) }
    {
        match self.owns(channel.as_str()) {
            Some(owns) => Ok(self.subscribe_own(channel, owns)),
            None => self.subscribe(config, channel, auth, channel_data, member, now),
        }
    }

    /// A subscribe to a user's own channel, by a socket that is signed in as this user or not.
    fn subscribe_own(&self, channel: Text, owns: bool) -> Judged
        ensures heard { result.heard ≡ (if owns then Heard.Reply (Succeeded channel) else Heard.Refuse INVALID_SIGNATURE) }
        ensures ready { (config : Config) → IsReady self.now config [] result }
    {
        let _ = &self.alloc;
        if owns {
            Judged::plain(Heard::Reply(Frame::Succeeded { channel }))
        } else {
            Judged::plain(Heard::Refuse(INVALID_SIGNATURE))
        }
    }

    /// An unsubscribe. From a user's own channel it does nothing.
    fn hear_unsubscribe(&self, config: &Config, channel: Text, now: u64) -> Result<Judged, Memory>
        requires config { IsConfig config.now }
        requires over { HasShardsOf self.now config.now }
        requires now { IsMoment now }
        requires channel { IsTrue (is_subscribable channel) }
        ensures judged { (start number : ℕ) (asks : List SettledAsk) → IsSession self.now start number asks →
            IfOk result (λ j. j.heard ≡ unsubscribes (known config.now start number asks now) channel) }
        ensures ready { IfOk result (IsReady self.now config.now []) }
    {
        if is_user_channel(channel.as_str()) {
            return Ok(self.ignore());
        }
        self.unsubscribe(config, channel, now)
    }

    /// Whether the socket is signed in as the user whose own channel this is; none where it is no user's.
    fn owns(&self, channel: &str) -> Option<bool>
        ensures { result ≡ option_map (is_given self.now.told.user) (channel_user channel.now) }
    {
        let id = user_channel(channel)?;
        Some(self.is_signed_in_as(id))
    }

    fn is_signed_in_as(&self, id: &str) -> bool
        ensures { result ≡ is_given self.now.told.user id.now }
    {
        match self.told.user() {
            Some(user) => user.as_str() == id,
            None => false,
        }
    }
}
