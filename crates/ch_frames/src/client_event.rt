//! The events that clients send.
ghost use Rattle.std.specs.Prelude.{◌≡◌};
ghost use Rattle.ch_protocol.specs.ClientMessages.{event_of};
ghost use Rattle.ch_frames.specs.Verdicts.{as_client_event};

/// What the name of an event says of it.
#[derive(Clone, Copy, Debug, PartialEq, Eq)]
pub enum Event {
    Ping,
    Pong,
    Subscribe,
    Unsubscribe,
    SignIn,
    Client,
    Unknown,
}

/// The event of this name.
pub fn event_of(name: &str) -> Event
    ensures { as_client_event result ≡ event_of name.now }
{
    if name == "pusher:ping" {
        Event::Ping
    } else if name == "pusher:pong" {
        Event::Pong
    } else if name == "pusher:subscribe" {
        Event::Subscribe
    } else if name == "pusher:unsubscribe" {
        Event::Unsubscribe
    } else if name == "pusher:signin" {
        Event::SignIn
    } else if name.as_bytes().starts_with(b"client-") {
        Event::Client
    } else {
        Event::Unknown
    }
}
