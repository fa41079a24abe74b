//! The lines of the transcript.
ghost use Rattle.std.specs.Prelude.{◌≡◌, ◌++◌, IfOk, string_bytes};
ghost use Rattle.ch_transcript.specs.Printing.{line_end};
ghost use Rattle.ch_soak.specs.Generator as spec;

use crate::draws::{Action, Draws, draws_from, stirred};
use ch_base::Memory;
use std::alloc::Global;

/// How many connections are opened.
const OPENED: u64 = 8;

/// Line `number`, with its line end, as it is drawn from a state.
pub(crate) fn line_at(alloc: Global, number: u64, state: u64) -> Result<String, Memory>
    ensures { IfOk result (λ line. string_bytes line ≡ spec.line_at number state ++ line_end) }
{
    if number < OPENED {
        let line = String::from_str(alloc, "0 open /app/k?protocol=7\n")?;
        return Ok(line);
    }
    let command = command_of(alloc, number, &draws_from(state))?;
    let line = format!(in alloc; "{number} {command}\n")?;
    Ok(line)
}

/// The state after line `number`.
pub(crate) fn state_after(number: u64, state: u64) -> u64
    ensures { result ≡ spec.state_after number state }
{
    if number < OPENED {
        return state;
    }
    let third = stirred(stirred(stirred(state)));
    if names_user(&draws_from(state)) {
        stirred(third)
    } else {
        third
    }
}

/// Whether the line names the user that is drawn.
fn names_user(draws: &Draws) -> bool
    ensures { result ≡ spec.names_user draws.now draws.now.action }
{
    match draws.action {
        Action::Join => has_members(draws.channel),
        Action::SignIn => true,
        Action::Unsubscribe | Action::Publish | Action::Say | Action::Hooks => false,
    }
}

/// The name of a channel.
fn channel_of(channel: u64) -> &'static str
    ensures { result.now ≡ spec.channel_of channel }
{
    match channel {
        0 => "a",
        1 => "b",
        2 => "cache-c",
        3 => "private-p",
        4 => "presence-q",
        _ => "presence-cache-z",
    }
}

/// Whether the channel is of a presence kind.
fn has_members(channel: u64) -> bool
    ensures { result ≡ spec.has_members channel }
{
    channel >= 4
}

/// What the line says after its moment.
fn command_of(alloc: Global, number: u64, draws: &Draws) -> Result<String, Memory>
    ensures { IfOk result (λ text. string_bytes text ≡ spec.command_of number draws.now draws.now.action) }
{
    match draws.action {
        Action::Join => join_command(alloc, draws),
        Action::Unsubscribe => unsubscribe_command(alloc, draws),
        Action::Publish => publish_command(alloc, number, draws),
        Action::Say => say_command(alloc, number, draws),
        Action::SignIn => sign_in_command(alloc, draws),
        Action::Hooks => {
            let text = String::from_str(alloc, "hooks")?;
            Ok(text)
        }
    }
}

fn join_command(alloc: Global, draws: &Draws) -> Result<String, Memory>
    ensures { IfOk result (λ text. string_bytes text ≡ spec.join_command draws.now) }
{
    let socket = draws.socket;
    let channel = channel_of(draws.channel);
    let member = member_of(alloc, draws)?;
    let text = format!(in alloc; "join {socket} {channel}{member}")?;
    Ok(text)
}

/// The data of a member, on a channel that has members.
fn member_of(alloc: Global, draws: &Draws) -> Result<String, Memory>
    ensures { IfOk result (λ text. string_bytes text ≡ spec.member_of draws.now) }
{
    if !has_members(draws.channel) {
        return Ok(String::new(alloc));
    }
    let user = draws.user;
    let text = format!(in alloc; " {{\"user_id\":\"u{user}\"}}")?;
    Ok(text)
}

fn unsubscribe_command(alloc: Global, draws: &Draws) -> Result<String, Memory>
    ensures { IfOk result (λ text. string_bytes text ≡ spec.unsubscribe_command draws.now) }
{
    let socket = draws.socket;
    let channel = channel_of(draws.channel);
    let text = format!(in alloc;
        "say {socket} {{\"event\":\"pusher:unsubscribe\",\"data\":{{\"channel\":\"{channel}\"}}}}"
    )?;
    Ok(text)
}

fn publish_command(alloc: Global, number: u64, draws: &Draws) -> Result<String, Memory>
    ensures { IfOk result (λ text. string_bytes text ≡ spec.publish_command number draws.now) }
{
    let channel = channel_of(draws.channel);
    let text = format!(in alloc; "publish {channel} e \"{number}\"")?;
    Ok(text)
}

fn say_command(alloc: Global, number: u64, draws: &Draws) -> Result<String, Memory>
    ensures { IfOk result (λ text. string_bytes text ≡ spec.say_command number draws.now) }
{
    let socket = draws.socket;
    let channel = channel_of(draws.channel);
    let text = format!(in alloc;
        "say {socket} {{\"event\":\"client-m\",\"channel\":\"{channel}\",\"data\":{number}}}"
    )?;
    Ok(text)
}

fn sign_in_command(alloc: Global, draws: &Draws) -> Result<String, Memory>
    ensures { IfOk result (λ text. string_bytes text ≡ spec.sign_in_command draws.now) }
{
    let socket = draws.socket;
    let user = draws.user;
    let text = format!(in alloc;
        "signin {socket} {{\"id\":\"u{user}\",\"watchlist\":[\"u0\",\"u1\"]}}"
    )?;
    Ok(text)
}
