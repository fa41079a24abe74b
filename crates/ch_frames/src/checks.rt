//! The names and lengths of a message.
ghost use Rattle.std.specs.Prelude.{◌≡◌};
ghost use Rattle.ch_protocol.specs.ClientMessages.{checked};
ghost use Rattle.ch_frames.specs.Verdicts.{verdict_of, say_fault, subscribable_fault};

use ch_base::{INVALID_CHANNEL_NAME, MESSAGE_TOO_LONG, Text};
use ch_names::{is_good_name, is_subscribable};
use ch_protocol::{ClientMessage, LONGEST_BODY, LONGEST_EVENT};

/// The code of a message's first fault: that its channel's name isn't good, or that its event or its body
/// is too long.
pub fn fault_of(message: &ClientMessage) -> Option<u16>
    ensures { verdict_of message.now result ≡ checked message.now }
{
    match message {
        ClientMessage::Subscribe { channel, .. } => subscribable_fault(channel),
        ClientMessage::Unsubscribe { channel } => subscribable_fault(channel),
        ClientMessage::Say {
            channel,
            event,
            body,
        } => say_fault(channel, event, body),
        _ => None,
    }
}

fn subscribable_fault(channel: &Text) -> Option<u16>
    ensures { result ≡ subscribable_fault channel.now }
{
    if is_subscribable(channel.as_str()) {
        None
    } else {
        Some(INVALID_CHANNEL_NAME)
    }
}

fn say_fault(channel: &Text, event: &Text, body: &Text) -> Option<u16>
    ensures { result ≡ say_fault channel.now event.now body.now }
{
    if !is_good_name(channel.as_str()) {
        Some(INVALID_CHANNEL_NAME)
    } else if event.len() > LONGEST_EVENT || body.len() > LONGEST_BODY {
        Some(MESSAGE_TOO_LONG)
    } else {
        None
    }
}
