ghost use Rattle.std.specs.Prelude.{◌≡◌, IfOk, None, Option};
ghost use Rattle.std.specs.Option.{option_copied};
ghost use Rattle.ch_transcript.specs.Commands.{first_part, more_parts, number_in, open_in, say_in, join_of, join_in, sign_in_in, lose_in, tick_in, tail_in, publish_of, publish_in, except_in, command_by, command_in};

use crate::parts::{first_part, more_parts, read_number};
use crate::requests::{read_api, read_http};
use ch_base::{Memory, Text};
use ch_names::{is_event_name, is_good_name};
use ch_transcript::Command;
use std::alloc::Global;

/// The command of a word and what follows it.
pub fn read_command(
    alloc: Global,
    word: &str,
    rest: Option<&str>,
) -> Result<Option<Command>, Memory>
    ensures { IfOk result (λ command. command ≡ command_in word.now (option_copied rest.entry)) }
{
    match rest {
        Some(rest) => read_by(alloc, word, rest),
        None => Ok(read_word(word)),
    }
}

/// The command of a word alone.
fn read_word(word: &str) -> Option<Command>
    ensures { result ≡ command_in word.now None }
{
    match word {
        "hooks" => Some(Command::Hooks),
        _ => None,
    }
}

fn read_by(alloc: Global, word: &str, rest: &str) -> Result<Option<Command>, Memory>
    ensures { IfOk result (λ command. command ≡ command_by word.now rest.now) }
{
    match word {
        "open" => read_open(alloc, rest),
        "say" => read_say(alloc, rest),
        "join" => read_join(alloc, rest),
        "signin" => read_sign_in(alloc, rest),
        "lose" => read_lose(alloc, rest),
        "tick" => read_tick(alloc, rest),
        "publish" => read_publish(alloc, None, rest),
        "except" => read_except(alloc, rest),
        "tail" => read_tail(alloc, rest),
        "api" => read_api(alloc, rest),
        "http" => read_http(alloc, rest),
        _ => Ok(None),
    }
}

fn read_open(alloc: Global, target: &str) -> Result<Option<Command>, Memory>
    ensures { IfOk result (λ command. command ≡ open_in target.now (more_parts target.now)) }
{
    if more_parts(target).is_some() {
        return Ok(None);
    }
    let target = Text::of(alloc, target)?;
    Ok(Some(Command::Open { target }))
}

fn read_say(alloc: Global, rest: &str) -> Result<Option<Command>, Memory>
    ensures { IfOk result (λ command. command ≡ say_in (number_in (first_part rest.now)) (more_parts rest.now)) }
{
    let Some(number) = read_number(alloc, first_part(rest))? else {
        return Ok(None);
    };
    let Some(text) = more_parts(rest) else {
        return Ok(None);
    };
    let text = Text::of(alloc, text)?;
    Ok(Some(Command::Say { number, text }))
}

fn read_join(alloc: Global, rest: &str) -> Result<Option<Command>, Memory>
    ensures { IfOk result (λ command. command ≡ join_in (number_in (first_part rest.now)) (more_parts rest.now)) }
{
    let Some(number) = read_number(alloc, first_part(rest))? else {
        return Ok(None);
    };
    match more_parts(rest) {
        Some(more) => join_of(alloc, number, more),
        None => Ok(None),
    }
}

fn join_of(alloc: Global, number: u64, more: &str) -> Result<Option<Command>, Memory>
    ensures { IfOk result (λ command. command ≡ join_of number more.now) }
{
    let channel = first_part(more);
    if !is_good_name(channel) {
        return Ok(None);
    }
    let channel = Text::of(alloc, channel)?;
    let channel_data = copied(alloc, more_parts(more))?;
    Ok(Some(Command::Join {
        number,
        channel,
        channel_data,
    }))
}

fn copied(alloc: Global, text: Option<&str>) -> Result<Option<Text>, Memory>
    ensures { IfOk result (λ copy. copy ≡ option_copied text.entry) }
{
    match text {
        Some(text) => Ok(Some(Text::of(alloc, text)?)),
        None => Ok(None),
    }
}

fn read_sign_in(alloc: Global, rest: &str) -> Result<Option<Command>, Memory>
    ensures { IfOk result (λ command. command ≡ sign_in_in (number_in (first_part rest.now)) (more_parts rest.now)) }
{
    let Some(number) = read_number(alloc, first_part(rest))? else {
        return Ok(None);
    };
    let Some(user_data) = more_parts(rest) else {
        return Ok(None);
    };
    let user_data = Text::of(alloc, user_data)?;
    Ok(Some(Command::SignIn { number, user_data }))
}

fn read_lose(alloc: Global, rest: &str) -> Result<Option<Command>, Memory>
    ensures { IfOk result (λ command. command ≡ lose_in (number_in rest.now)) }
{
    match read_number(alloc, rest)? {
        Some(number) => Ok(Some(Command::Lose { number })),
        None => Ok(None),
    }
}

fn read_tick(alloc: Global, rest: &str) -> Result<Option<Command>, Memory>
    ensures { IfOk result (λ command. command ≡ tick_in (number_in rest.now)) }
{
    match read_number(alloc, rest)? {
        Some(number) => Ok(Some(Command::Tick { number })),
        None => Ok(None),
    }
}

fn read_tail(alloc: Global, rest: &str) -> Result<Option<Command>, Memory>
    ensures { IfOk result (λ command. command ≡ tail_in (number_in rest.now)) }
{
    match read_number(alloc, rest)? {
        Some(shard) => Ok(Some(Command::Tail { shard })),
        None => Ok(None),
    }
}

fn read_publish(alloc: Global, except: Option<u64>, rest: &str) -> Result<Option<Command>, Memory>
    ensures { IfOk result (λ command. command ≡ publish_in except rest.now) }
{
    let channel = first_part(rest);
    match more_parts(rest) {
        Some(more) => publish_of(alloc, except, channel, first_part(more), more_parts(more)),
        None => Ok(None),
    }
}

fn publish_of(
    alloc: Global,
    except: Option<u64>,
    channel: &str,
    event: &str,
    body: Option<&str>,
) -> Result<Option<Command>, Memory>
    ensures { IfOk result (λ command. command ≡ publish_of except channel.now event.now (option_copied body.entry)) }
{
    let Some(body) = body else {
        return Ok(None);
    };
    let is_good = is_good_name(channel) && is_event_name(event);
    if !is_good {
        return Ok(None);
    }
    let channel = Text::of(alloc, channel)?;
    let event = Text::of(alloc, event)?;
    let body = Text::of(alloc, body)?;
    Ok(Some(Command::Publish {
        channel,
        event,
        body,
        except,
    }))
}

fn read_except(alloc: Global, rest: &str) -> Result<Option<Command>, Memory>
    ensures { IfOk result (λ command. command ≡ except_in (number_in (first_part rest.now)) (more_parts rest.now)) }
{
    let Some(number) = read_number(alloc, first_part(rest))? else {
        return Ok(None);
    };
    match more_parts(rest) {
        Some(more) => read_publish(alloc, Some(number), more),
        None => Ok(None),
    }
}
