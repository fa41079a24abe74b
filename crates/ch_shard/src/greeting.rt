ghost use Rattle.std.specs.Prelude.{◌≡◌, false, ◌∷◌, [], ◌++◌, IfOk, OnOk};
ghost use Rattle.std.specs.Option.{option_copied};
ghost use Rattle.ch_base.specs.Printed.{is_opened};
ghost use Rattle.ch_history.specs.Deliveries.{delivery};
ghost use Rattle.ch_history.specs.Frames.{latest_frame};
ghost use Rattle.ch_history.specs.Subscriptions.{on_channel};
ghost use Rattle.ch_history.specs.Webhooks.{missed};
ghost use Rattle.ch_presence.specs.Members.{rows_on};
ghost use Rattle.ch_shard.specs.Greeting.{first_frame, latest_news, new_user, arrived, arrived_hook, occupied_hook};

use crate::news::event_frame;
use crate::telling::tell;
use ch_base::{Frame, Hook, Member, MemberList, Memory, Shared, Text};
use ch_history::{Cached, Delivery};
use ch_names::is_cache;
use ch_presence::{Presence, Present};
use ch_print::Press;
use ch_subs::Subs;
use std::alloc::Global;

/// The frame that a newcomer gets first; on a presence channel it has the users with the newcomer.
pub fn first_frame(
    alloc: Global,
    presence: &Presence,
    channel: &Text,
    newcomer: Option<&Present>,
) -> Result<Frame, Memory>
    ensures is { IfOk result (λ f. f ≡ first_frame presence.now.rows channel.now (option_copied newcomer.entry)) }
    ensures timeless { IfOk result (λ f. is_opened f ≡ false) }
{
    let channel = channel.copy(alloc)?;
    match newcomer {
        None => Ok(Frame::Succeeded { channel }),
        Some(newcomer) => Ok(Frame::Present {
            channel,
            rows: member_rows(alloc, presence, newcomer)?,
        }),
    }
}

/// The users of the newcomer's channel once it is there too.
fn member_rows(alloc: Global, presence: &Presence, newcomer: &Present) -> Result<MemberList, Memory>
    ensures { IfOk result (λ rows. rows ≡ rows_on (presence.now.rows ++ newcomer.now ∷ []) newcomer.now.channel) }
{
    let mut rows = MemberList::new(alloc);
    while let Some(member) = presence.row_with(newcomer, rows.len() as u64) {
        let copy = member.copy(alloc)?;
        rows.push(copy)?;
    }
    Ok(rows)
}

/// Adds what a newcomer gets of a cache channel's latest event.
pub fn tell_latest(
    press: &mut Press,
    latest: Option<&Cached>,
    owner: u64,
    socket: u64,
    channel: &Text,
    frames: &mut Vec<Delivery>,
) -> Result<(), Memory>
    ensures { OnOk result (frames.new.items ≡ frames.old.items ++ latest_news channel.now (option_copied latest.entry) owner socket) }
{
    if is_cache(channel.as_str()) {
        let frame = latest_frame(press.alloc(), latest, channel)?;
        greet(press, owner, socket, frame, frames)?;
    }
    Ok(())
}

/// Prints a frame that the newcomer alone gets, and adds it.
pub fn greet(
    press: &mut Press,
    owner: u64,
    socket: u64,
    frame: Frame,
    frames: &mut Vec<Delivery>,
) -> Result<(), Memory>
    requires { is_opened frame ≡ false }
    ensures { OnOk result (frames.new.items ≡ frames.old.items ++ delivery owner socket frame ∷ []) }
{
    let printed = press.print(frame)?;
    let item = Shared::new(socket, printed);
    frames.push(Delivery { owner, item })?;
    Ok(())
}

/// The channel's latest event, or that there is none.
fn latest_frame(alloc: Global, latest: Option<&Cached>, channel: &Text) -> Result<Frame, Memory>
    ensures is { IfOk result (λ f. f ≡ latest_frame channel.now (option_copied latest.entry)) }
    ensures timeless { IfOk result (λ f. is_opened f ≡ false) }
{
    match latest {
        None => Ok(Frame::Miss {
            channel: channel.copy(alloc)?,
        }),
        Some(cached) => event_frame(alloc, channel, &cached.event, &cached.body, None),
    }
}

/// The member, where it is a new user of the channel.
pub fn new_user<'a>(
    presence: &Presence,
    channel: &Text,
    member: Option<&'a Member>,
) -> Option<&'a Member>
    ensures { option_copied result ≡ new_user presence.now.rows channel.now (option_copied member.entry) }
{
    let member = member?;
    if presence.has(channel, &member.user_id) {
        None
    } else {
        Some(member)
    }
}

/// Adds the frames that tell the channel's subscriptions of a new user, where there is one.
pub fn tell_arrival(
    press: &mut Press,
    subs: &Subs,
    channel: &Text,
    member: Option<&Member>,
    frames: &mut Vec<Delivery>,
) -> Result<(), Memory>
    ensures { OnOk result (frames.new.items ≡ frames.old.items ++ arrived channel.now (option_copied member.entry) (on_channel subs.now channel.now)) }
{
    match member {
        None => Ok(()),
        Some(member) => {
            let alloc = press.alloc();
            let printed = press.print(Frame::Added {
                channel: channel.copy(alloc)?,
                member: member.copy(alloc)?,
            })?;
            tell(subs, channel, &printed, None, frames)
        }
    }
}

/// Adds the webhook event that the channel is occupied, where it had no subscription.
pub fn log_occupied(
    alloc: Global,
    subs: u64,
    channel: &Text,
    hooks: &mut Vec<Hook>,
) -> Result<(), Memory>
    ensures { OnOk result (hooks.new.items ≡ hooks.old.items ++ occupied_hook channel.now subs) }
{
    if subs == 0 {
        let channel = channel.copy(alloc)?;
        hooks.push(Hook::Occupied { channel })?;
    }
    Ok(())
}

/// Adds the webhook event of a new user, where there is one.
pub fn log_arrival(
    alloc: Global,
    channel: &Text,
    member: Option<&Member>,
    hooks: &mut Vec<Hook>,
) -> Result<(), Memory>
    ensures { OnOk result (hooks.new.items ≡ hooks.old.items ++ arrived_hook channel.now (option_copied member.entry)) }
{
    match member {
        None => Ok(()),
        Some(member) => {
            let hook = Hook::Added {
                channel: channel.copy(alloc)?,
                user_id: member.user_id.copy(alloc)?,
            };
            hooks.push(hook)?;
            Ok(())
        }
    }
}

/// Adds the webhook event that the newcomer was told of no latest event.
pub fn log_missed(
    alloc: Global,
    latest: Option<&Cached>,
    channel: &Text,
    hooks: &mut Vec<Hook>,
) -> Result<(), Memory>
    ensures { OnOk result (hooks.new.items ≡ hooks.old.items ++ missed channel.now (option_copied latest.entry)) }
{
    if is_cache(channel.as_str()) && latest.is_none() {
        let channel = channel.copy(alloc)?;
        hooks.push(Hook::Miss { channel })?;
    }
    Ok(())
}
