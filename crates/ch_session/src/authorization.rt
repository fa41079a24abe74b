ghost use Rattle.std.specs.Prelude.{◌≡◌, IfOk, bytes_eq, string_bytes};
ghost use Rattle.std.specs.Option.{option_copied};
ghost use Rattle.ch_protocol.specs.Sessions.{socket_id, is_given};
ghost use Rattle.ch_session.specs.Signed.{signed_for_channel, signed_for_user};
ghost use Rattle.ch_sig.specs.SignedText.{authorization_text};

use ch_base::{Memory, Text};
use ch_config::Config;
use ch_sig::{matches, socket_sig, user_sig};
use std::alloc::Global;

/// Whether this is given as what authorizes the socket to subscribe to the channel (Pusher Channels
/// documentation, "Auth signatures").
pub(crate) fn authorizes_channel(
    config: &Config,
    socket_id: &str,
    channel: &Text,
    auth: Option<&Text>,
    channel_data: Option<&Text>,
) -> bool
    ensures { result ≡ is_given (option_copied auth.entry) (signed_for_channel config.now socket_id.now channel.now (option_copied channel_data.entry)) }
{
    let Some(auth) = auth else {
        return false;
    };
    let sig = socket_sig(
        config.secret.as_str().as_bytes(),
        socket_id,
        channel.as_str(),
        text_of(channel_data),
    );
    is_authorization(auth.as_str(), config.key.as_str(), &sig)
}

/// Whether this is what authorizes the socket to sign in with these data (Pusher Channels documentation,
/// "User authentication").
pub(crate) fn authorizes_user(
    config: &Config,
    socket_id: &str,
    auth: &Text,
    user_data: &Text,
) -> bool
    ensures { result ≡ bytes_eq auth.now (signed_for_user config.now socket_id.now user_data.now) }
{
    let sig = user_sig(
        config.secret.as_str().as_bytes(),
        socket_id,
        user_data.as_str(),
    );
    is_authorization(auth.as_str(), config.key.as_str(), &sig)
}

/// The id of the socket with this number, on a server that started at this second.
pub(crate) fn socket_id(alloc: Global, start: u64, number: u64) -> Result<String, Memory>
    ensures { IfOk result (λ id. string_bytes id ≡ socket_id start number) }
{
    let id = format!(in alloc; "{start}.{number}")?;
    Ok(id)
}

fn is_authorization(given: &str, key: &str, sig: &[u8; 64]) -> bool
    ensures { result ≡ bytes_eq given.now (authorization_text key.now sig.now) }
{
    matches(given, key, sig)
}

fn text_of(text: Option<&Text>) -> Option<&str>
    ensures { option_copied result ≡ option_copied text.entry }
{
    text.map(|text| text.as_str())
}
