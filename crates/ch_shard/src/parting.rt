ghost use Rattle.std.specs.Prelude.{◌≡◌, ◌++◌, ◌==◌, ◌&&◌, not, All, IfOk, OnOk, flat_map};
ghost use Rattle.std.specs.List.{list_any};
ghost use Rattle.std.specs.Option.{option_copied};
ghost use Rattle.ch_history.specs.Presence.{user_in};
ghost use Rattle.ch_history.specs.Subscriptions.{on_channel, channels_in};
ghost use Rattle.ch_presence.specs.Subscribed.{HasMember};
ghost use Rattle.ch_shard.specs.Parting.{is_user, others, gone_user, farewell, farewell_hook, vacated_hook, leave_frames, leave_hooks};

use crate::effects::Effects;
use crate::telling::tell;
use ch_base::{Frame, Hook, Member, Memory, Text};
use ch_history::{Delivery, Subscription};
use ch_print::Press;
use ch_subs::Subs;
use std::alloc::Global;

/// What the loss of the socket makes: the ends of its subscriptions, ascending by channel.
pub fn partings(press: &mut Press, subs: &Subs, socket: u64) -> Result<Effects, Memory>
    requires { All HasMember subs.now }
    ensures frames { IfOk result (λ made. made.frames.items ≡ flat_map (λ c. leave_frames subs.now c socket) (channels_in subs.now socket)) }
    ensures hooks { IfOk result (λ made. made.hooks.items ≡ flat_map (λ c. leave_hooks subs.now c socket) (channels_in subs.now socket)) }
{
    let mut made = Effects::new(press.alloc());
    for i in 0..subs.channels(socket) {
        let channel = subs.channel(socket, i);
        part(press, subs, channel, socket, &mut made)?;
    }
    Ok(made)
}

/// Adds what the end of the socket's subscription to the channel makes: where its user is gone from
/// there, the others hear of it, and where there are no others, the channel is vacated.
pub fn part(
    press: &mut Press,
    subs: &Subs,
    channel: &Text,
    socket: u64,
    made: &mut Effects,
) -> Result<(), Memory>
    requires { All HasMember subs.now }
    ensures frames { OnOk result (made.new.frames.items ≡ made.old.frames.items ++ leave_frames subs.now channel.now socket) }
    ensures hooks { OnOk result (made.new.hooks.items ≡ made.old.hooks.items ++ leave_hooks subs.now channel.now socket) }
{
    let alloc = press.alloc();
    let gone = gone_user(subs, channel, socket);
    say_farewell(press, subs, channel, socket, gone, &mut made.frames)?;
    log_farewell(alloc, channel, gone, &mut made.hooks)?;
    let has_other = has_other(subs, channel, socket);
    log_vacated(alloc, channel, has_other, &mut made.hooks)?;
    Ok(())
}

/// The user of the socket, where none of its other sockets is on the channel.
fn gone_user<'a>(subs: &'a Subs, channel: &Text, socket: u64) -> Option<&'a Text>
    requires { All HasMember subs.now }
    ensures { option_copied result ≡ gone_user channel.now (on_channel subs.now channel.now) socket }
{
    let user_id = user_of(subs, channel, socket)?;
    if has_other_of(subs, channel, socket, user_id) {
        None
    } else {
        Some(user_id)
    }
}

/// The user as which the socket is on the channel.
pub fn user_of<'a>(subs: &'a Subs, channel: &Text, socket: u64) -> Option<&'a Text>
    ensures { option_copied result ≡ user_in (on_channel subs.now channel.now) socket }
{
    let subscription = subs.find(socket, channel)?;
    let member = subscription.member.as_ref()?;
    Some(&member.user_id)
}

/// Whether another socket of the user is on the channel.
fn has_other_of(subs: &Subs, channel: &Text, socket: u64, user_id: &Text) -> bool
    ensures { result ≡ list_any (λ s. not (s.socket == socket) && is_user user_id.now s.member) (on_channel subs.now channel.now) }
{
    let mut walk = subs.walk(channel);
    'walk: while let Some(subscription) = walk.next() {
        if is_other_of(subscription, socket, user_id) {
            return true;
        }
    }
    false
}

/// Whether the subscription is another socket's of the user.
fn is_other_of(subscription: &Subscription, socket: u64, user_id: &Text) -> bool
    ensures { result ≡ (not (subscription.now.socket == socket) && is_user user_id.now subscription.now.member) }
{
    subscription.socket != socket && is_user(user_id, &subscription.member)
}

/// Whether the member is the user.
fn is_user(user_id: &Text, member: &Option<Member>) -> bool
    ensures { result ≡ is_user user_id.now member.now }
{
    match member {
        None => false,
        Some(member) => member.user_id == *user_id,
    }
}

/// Whether another socket is on the channel.
fn has_other(subs: &Subs, channel: &Text, socket: u64) -> bool
    ensures { result ≡ list_any (λ s. not (s.socket == socket)) (on_channel subs.now channel.now) }
{
    let mut walk = subs.walk(channel);
    'walk: while let Some(subscription) = walk.next() {
        if subscription.socket != socket {
            return true;
        }
    }
    false
}

/// Adds the frames that tell the others that the user is gone, where one is.
fn say_farewell(
    press: &mut Press,
    subs: &Subs,
    channel: &Text,
    socket: u64,
    gone: Option<&Text>,
    made: &mut Vec<Delivery>,
) -> Result<(), Memory>
    ensures { OnOk result (made.new.items ≡ made.old.items ++ farewell channel.now (option_copied gone.entry) (others (on_channel subs.now channel.now) socket)) }
{
    match gone {
        None => Ok(()),
        Some(user_id) => {
            let alloc = press.alloc();
            let printed = press.print(Frame::Removed {
                channel: channel.copy(alloc)?,
                user_id: user_id.copy(alloc)?,
            })?;
            tell(subs, channel, &printed, Some(socket), made)
        }
    }
}

/// Adds the webhook event that the user is gone, where one is.
fn log_farewell(
    alloc: Global,
    channel: &Text,
    gone: Option<&Text>,
    hooks: &mut Vec<Hook>,
) -> Result<(), Memory>
    ensures { OnOk result (hooks.new.items ≡ hooks.old.items ++ farewell_hook channel.now (option_copied gone.entry)) }
{
    match gone {
        None => Ok(()),
        Some(user_id) => {
            let hook = Hook::Removed {
                channel: channel.copy(alloc)?,
                user_id: user_id.copy(alloc)?,
            };
            hooks.push(hook)?;
            Ok(())
        }
    }
}

/// Adds the webhook event that the channel is vacated, unless another socket is on it.
fn log_vacated(
    alloc: Global,
    channel: &Text,
    has_other: bool,
    hooks: &mut Vec<Hook>,
) -> Result<(), Memory>
    ensures { OnOk result (hooks.new.items ≡ hooks.old.items ++ vacated_hook channel.now has_other) }
{
    if !has_other {
        let channel = channel.copy(alloc)?;
        hooks.push(Hook::Vacated { channel })?;
    }
    Ok(())
}
