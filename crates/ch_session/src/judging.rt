ghost use Rattle.std.specs.Prelude.{◌≡◌, ◌&&◌, not, [], ℕ, List, IfOk, IsTrue, is_none};
ghost use Rattle.std.specs.Option.{option_copied};
ghost use Rattle.ch_config.specs.Config.{IsConfig};
ghost use Rattle.ch_history.specs.ChannelName.{is_good_name, needs_auth, has_members, may_say};
ghost use Rattle.ch_history.specs.Limits.{IsMoment, is_event_name};
ghost use Rattle.ch_base.specs.JsonText.{IsJsonText};
ghost use Rattle.ch_names.specs.KindMeaning.{meaning};
ghost use Rattle.ch_protocol.specs.Settling.{SettledAsk};
ghost use Rattle.ch_protocol.specs.Sessions.{channel_auth, is_given, subscribes_to, ask_on, says};
ghost use Rattle.ch_base.specs.declared.channel.ChanCall.TheVariants.{Leave};
ghost use Rattle.ch_session.specs.Kept.{IsSession, HasShardsOf};
ghost use Rattle.ch_session.specs.Judging.{known, IsJoiner, IsReady};

use crate::authorization::{authorizes_channel, socket_id};
use crate::judged::Judged;
use crate::session::Session;
use crate::waiting::Waiting;
use ch_base::{
    CLIENT_EVENT_REFUSED, ChanCall, INVALID_CHANNEL_DATA, INVALID_SIGNATURE, Member, Memory,
    RATE_LIMIT_REACHED, TOO_MANY_SUBSCRIPTIONS, Text,
};
use ch_config::Config;
use ch_names::{Kind, kind_of, shard_of};
use ch_protocol::Heard;

impl Session {
    /// A subscribe to a channel that is no user's own.
    pub(crate) fn subscribe(
        &self,
        config: &Config,
        channel: Text,
        auth: Option<Text>,
        channel_data: Option<Text>,
        member: Option<Member>,
        now: u64,
    ) -> Result<Judged, Memory>
        requires config { IsConfig config.now }
        requires over { HasShardsOf self.now config.now }
        requires now { IsMoment now }
        requires channel { IsTrue (is_good_name channel) }
        requires member { IsJoiner channel member }
        ensures judged { (start number : ℕ) (asks : List SettledAsk) → IsSession self.now start number asks →
            IfOk result (λ j. j.heard ≡ subscribes_to (known config.now start number asks now) channel auth channel_data member) }
        ensures ready { IfOk result (IsReady self.now config.now []) }
    {
        if self.told.is_full() {
            return Ok(Judged::plain(Heard::Refuse(TOO_MANY_SUBSCRIPTIONS)));
        }
        let kind = kind_of(channel.as_str());
        if lacks_member(kind, member.as_ref()) {
            return Ok(Judged::plain(Heard::Refuse(INVALID_CHANNEL_DATA)));
        }
        if self.lacks_auth(config, kind, &channel, auth.as_ref(), channel_data.as_ref())? {
            return Ok(Judged::plain(Heard::Refuse(INVALID_SIGNATURE)));
        }
        let shard = shard_of(channel.as_str(), self.chans);
        let call = ChanCall::Join {
            socket: self.number,
            channel,
            member,
            at: now,
        };
        Judged::call(self.alloc, shard, call, Waiting::Join { shard })
    }

    /// Whether a channel of this kind needs an authorization, and this isn't one.
    fn lacks_auth(
        &self,
        config: &Config,
        kind: Kind,
        channel: &Text,
        auth: Option<&Text>,
        channel_data: Option<&Text>,
    ) -> Result<bool, Memory>
        ensures { IfOk result (λ lacks. lacks ≡ (needs_auth (meaning kind) && not (is_given (option_copied auth.entry) (channel_auth config.now self.now.start self.now.number channel.now (option_copied channel_data.entry))))) }
    {
        if !kind.needs_auth() {
            return Ok(false);
        }
        let id = socket_id(self.alloc, self.start, self.number)?;
        let given = authorizes_channel(config, id.as_str(), channel, auth, channel_data);
        Ok(!given)
    }

    /// An unsubscribe from a channel that is no user's own.
    pub(crate) fn unsubscribe(
        &self,
        config: &Config,
        channel: Text,
        now: u64,
    ) -> Result<Judged, Memory>
        requires config { IsConfig config.now }
        requires over { HasShardsOf self.now config.now }
        requires now { IsMoment now }
        requires channel { IsTrue (is_good_name channel) }
        ensures judged { (start number : ℕ) (asks : List SettledAsk) → IsSession self.now start number asks →
            IfOk result (λ j. j.heard ≡ ask_on (known config.now start number asks now) channel (Leave number channel now)) }
        ensures ready { IfOk result (IsReady self.now config.now []) }
    {
        let shard = shard_of(channel.as_str(), self.chans);
        let call = ChanCall::Leave {
            socket: self.number,
            channel,
            at: now,
        };
        Judged::call(self.alloc, shard, call, Waiting::Call { shard })
    }

    /// A client event.
    pub(crate) fn say(
        &self,
        config: &Config,
        channel: Text,
        event: Text,
        body: Text,
        now: u64,
    ) -> Result<Judged, Memory>
        requires config { IsConfig config.now }
        requires over { HasShardsOf self.now config.now }
        requires now { IsMoment now }
        requires channel { IsTrue (is_good_name channel) }
        requires event { IsTrue (is_event_name event) }
        requires body { IsJsonText body }
        ensures judged { (start number : ℕ) (asks : List SettledAsk) → IsSession self.now start number asks →
            IfOk result (λ j. j.heard ≡ says (known config.now start number asks now) channel event body) }
        ensures ready { IfOk result (IsReady self.now config.now []) }
    {
        let allowed = self.told.allows(now);
        let kind = kind_of(channel.as_str());
        if !permits_events(config, kind) {
            return Ok(Judged::plain(Heard::Refuse(CLIENT_EVENT_REFUSED)));
        }
        if !allowed {
            return Ok(Judged::plain(Heard::Refuse(RATE_LIMIT_REACHED)));
        }
        let shard = shard_of(channel.as_str(), self.chans);
        let call = ChanCall::Say {
            socket: self.number,
            channel,
            event,
            body,
            at: now,
        };
        Judged::call(self.alloc, shard, call, Waiting::Call { shard })
    }
}

/// Whether a channel of this kind has members, and nobody joins.
fn lacks_member(kind: Kind, member: Option<&Member>) -> bool
    ensures { result ≡ (has_members (meaning kind) && is_none (option_copied member.entry)) }
{
    kind.presence() && member.is_none()
}

/// Whether sockets may send client events on a channel of this kind.
fn permits_events(config: &Config, kind: Kind) -> bool
    ensures { result ≡ (may_say (meaning kind) && config.now.client_events) }
{
    kind.may_say() && config.client_events
}
