ghost use Rattle.std.specs.Prelude.{◌≡◌, IfOk, option_copied, string_bytes};
ghost use Rattle.ch_history.specs.ChannelName.{kind_of, needs_auth};
ghost use Rattle.ch_transcript.specs.Joining.{auth_member, data_member, join_text};

use crate::authorization::channel_auth;
use ch_base::{Memory, Text};
use ch_config::Config;
use ch_json::quoted;
use ch_names::kind_of;
use std::alloc::Global;

/// The message by which the socket with this number subscribes to a channel, authorized where the
/// channel's kind needs it (Pusher Channels protocol, `pusher:subscribe`).
pub fn join_text(
    alloc: Global,
    config: &Config,
    number: u64,
    channel: &Text,
    channel_data: Option<&Text>,
) -> Result<Text, Memory>
    ensures { IfOk result (λ t. t ≡ join_text config.now number channel.now (option_copied channel_data.entry)) }
{
    let data = match channel_data {
        Some(data) => Some(data.as_str()),
        None => None,
    };
    let text = subscribe_text(alloc, config, number, channel.as_str(), data)?;
    Ok(Text::from_string(text))
}

fn subscribe_text(
    alloc: Global,
    config: &Config,
    number: u64,
    channel: &str,
    channel_data: Option<&str>,
) -> Result<String, Memory>
    ensures { IfOk result (λ t. string_bytes t ≡ join_text config.now number channel.now (option_copied channel_data.entry)) }
{
    let auth = auth_member(alloc, config, number, channel, channel_data)?;
    let auth = auth.as_str();
    let data = data_member(alloc, channel_data)?;
    let data = data.as_str();
    let channel = quoted(alloc, channel)?;
    let channel = channel.as_str();
    let text = format!(in alloc;
        "{{\"event\":\"pusher:subscribe\",\"data\":{{\"channel\":{channel}{auth}{data}}}}}"
    )?;
    Ok(text)
}

/// The member `auth`, or nothing where none is needed.
fn auth_member(
    alloc: Global,
    config: &Config,
    number: u64,
    channel: &str,
    channel_data: Option<&str>,
) -> Result<String, Memory>
    ensures { IfOk result (λ t. string_bytes t ≡ auth_member config.now number channel.now (option_copied channel_data.entry)) }
{
    if !needs_auth(channel) {
        return Ok(String::new(alloc));
    }
    let auth = channel_auth(alloc, config, number, channel, channel_data)?;
    let auth = quoted(alloc, auth.as_str())?;
    let auth = auth.as_str();
    let text = format!(in alloc; ",\"auth\":{auth}")?;
    Ok(text)
}

/// Whether a subscription to the channel has to be authorized.
fn needs_auth(channel: &str) -> bool
    ensures { result ≡ needs_auth (kind_of channel.now) }
{
    kind_of(channel).needs_auth()
}

/// The member `channel_data`, or nothing where there are no data.
fn data_member(alloc: Global, channel_data: Option<&str>) -> Result<String, Memory>
    ensures { IfOk result (λ t. string_bytes t ≡ data_member (option_copied channel_data.entry)) }
{
    match channel_data {
        Some(data) => {
            let data = quoted(alloc, data)?;
            let data = data.as_str();
            let text = format!(in alloc; ",\"channel_data\":{data}")?;
            Ok(text)
        }
        None => Ok(String::new(alloc)),
    }
}
