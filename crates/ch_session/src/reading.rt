ghost use Rattle.std.specs.Prelude.{◌≡◌, IfOk, IfSome, IsTrue, MatchBool, None, Ok};
ghost use Rattle.std.specs.Option.{option_copied};
ghost use Rattle.ch_frames.specs.Checked.{IsGoodMessage, IsGoodUser};
ghost use Rattle.ch_history.specs.ChannelName.{is_presence};
ghost use Rattle.ch_history.specs.WellFormed.{IsMember};
ghost use Rattle.ch_history.specs.UserChannels.{is_subscribable};
ghost use Rattle.ch_protocol.specs.ChannelData.{TellsMember};
ghost use Rattle.ch_protocol.specs.Readings.{Reads, Joins, SignsIn, TellsJoiner};
ghost use Rattle.ch_protocol.specs.UserDataText.{TellsUser};
ghost use Rattle.ch_session.specs.Judging.{IsJoiner, IsJoinerBy, IsGoodReading};
ghost use Rattle.ch_session.specs.ReadTexts.{reading_of};

use ch_base::{Member, Memory, Text};
use ch_frames::{Refused, Unread, member_of, parse, user_of};
use ch_names::is_presence;
use ch_protocol::{ClientMessage, UserData};
use std::alloc::Global;

/// What a text says, or the code of its first fault, and who joins or signs in by it.
#[derive(Drop)]
pub struct Read {
    pub verdict: Result<ClientMessage, u16>,
    pub member: Option<Member>,
    pub user: Option<UserData>,
}

/// Reads a client's text.
pub fn read_text(alloc: Global, text: &str) -> Result<Read, Memory>
    ensures reads { IfOk result (λ r. Reads text.now (reading_of r)) }
    ensures good { IfOk result (λ r. IsGoodReading r.verdict r.member r.user) }
{
    match parse(alloc, text) {
        Ok(message) => read_message(alloc, message),
        Err(Refused::Code(code)) => Ok(Read {
            verdict: Err(code),
            member: None,
            user: None,
        }),
        Err(Refused::Memory) => Err(Memory),
    }
}

/// Reads who joins or signs in by the message.
fn read_message(alloc: Global, message: ClientMessage) -> Result<Read, Memory>
    requires { IsGoodMessage message }
    ensures verdict { IfOk result (λ r. r.verdict ≡ Ok message) }
    ensures member { IfOk result (λ r. Joins (Ok message) r.member) }
    ensures user { IfOk result (λ r. SignsIn (Ok message) r.user) }
    ensures joiner { IfOk result (λ r. IsJoinerBy message r.member) }
    ensures good_user { IfOk result (λ r. IfSome r.user IsGoodUser) }
{
    let member = joiner(alloc, &message)?;
    let user = signer(alloc, &message)?;
    Ok(Read {
        verdict: Ok(message),
        member,
        user,
    })
}

/// Who joins by the message.
fn joiner(alloc: Global, message: &ClientMessage) -> Result<Option<Member>, Memory>
    requires { IsGoodMessage message.now }
    ensures joins { IfOk result (Joins (Ok message.now)) }
    ensures good { IfOk result (IsJoinerBy message.now) }
{
    match message {
        ClientMessage::Subscribe {
            channel,
            channel_data,
            ..
        } => joiner_of(alloc, channel, channel_data.as_ref()),
        _ => Ok(None),
    }
}

/// Who joins the channel with these data.
fn joiner_of(
    alloc: Global,
    channel: &Text,
    channel_data: Option<&Text>,
) -> Result<Option<Member>, Memory>
    requires { IsTrue (is_subscribable channel.now) }
    ensures joins { IfOk result (λ m. MatchBool (is_presence channel.now) (TellsJoiner (option_copied channel_data.entry) m) (m ≡ None)) }
    ensures good { IfOk result (IsJoiner channel.now) }
{
    if !is_presence(channel.as_str()) {
        return Ok(None);
    }
    let Some(channel_data) = channel_data else {
        return Ok(None);
    };
    member_told(alloc, channel_data.as_str())
}

/// The member whom these data tell; none where they are nobody's.
fn member_told(alloc: Global, channel_data: &str) -> Result<Option<Member>, Memory>
    ensures tells { IfOk result (TellsMember channel_data.now) }
    ensures good { IfOk result (λ m. IfSome m IsMember) }
{
    match member_of(alloc, channel_data) {
        Ok(member) => Ok(Some(member)),
        Err(Unread::Bad) => Ok(None),
        Err(Unread::Memory) => Err(Memory),
    }
}

/// Who signs in by the message.
fn signer(alloc: Global, message: &ClientMessage) -> Result<Option<UserData>, Memory>
    ensures signs { IfOk result (SignsIn (Ok message.now)) }
    ensures good { IfOk result (λ u. IfSome u IsGoodUser) }
{
    match message {
        ClientMessage::SignIn { user_data, .. } => user_told(alloc, user_data.as_str()),
        _ => Ok(None),
    }
}

/// The user whom these data tell; none where they are nobody's.
fn user_told(alloc: Global, user_data: &str) -> Result<Option<UserData>, Memory>
    ensures tells { IfOk result (TellsUser user_data.now) }
    ensures good { IfOk result (λ u. IfSome u IsGoodUser) }
{
    match user_of(alloc, user_data) {
        Ok(user) => Ok(Some(user)),
        Err(Unread::Bad) => Ok(None),
        Err(Unread::Memory) => Err(Memory),
    }
}
