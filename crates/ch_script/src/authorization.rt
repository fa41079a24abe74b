//! What authorizes a socket of the player: the key, a colon and the signature.
ghost use Rattle.std.specs.Prelude.{◌≡◌, IfOk, IsUtf8, option_copied, string_bytes};
ghost use Rattle.ch_protocol.specs.Sessions.{channel_auth, socket_id, user_auth};
ghost use Rattle.ch_sig.specs.SignedText.{authorization_text};
ghost use Rattle.ch_transcript.specs.declared.start.TheConstants.{START_SECOND};

use ch_base::Memory;
use ch_config::Config;
use ch_sig::{socket_sig, user_sig};
use ch_transcript::START_SECOND;
use std::alloc::Global;

/// What authorizes the socket with this number to subscribe (Pusher Channels, "Auth signatures").
pub fn channel_auth(
    alloc: Global,
    config: &Config,
    number: u64,
    channel: &str,
    channel_data: Option<&str>,
) -> Result<String, Memory>
    ensures { IfOk result (λ t. string_bytes t ≡ channel_auth config.now START_SECOND number channel.now (option_copied channel_data.entry)) }
{
    let id = socket_id(alloc, number)?;
    let secret = config.secret.as_str().as_bytes();
    let signature = socket_sig(secret, id.as_str(), channel, channel_data);
    authorization(alloc, config.key.as_str(), &signature)
}

/// What authorizes the socket with this number to sign a user in (Pusher Channels, "User
/// authentication").
pub fn user_auth(
    alloc: Global,
    config: &Config,
    number: u64,
    user_data: &str,
) -> Result<String, Memory>
    ensures { IfOk result (λ t. string_bytes t ≡ user_auth config.now START_SECOND number user_data.now) }
{
    let id = socket_id(alloc, number)?;
    let secret = config.secret.as_str().as_bytes();
    let signature = user_sig(secret, id.as_str(), user_data);
    authorization(alloc, config.key.as_str(), &signature)
}

/// The id of the socket with this number.
fn socket_id(alloc: Global, number: u64) -> Result<String, Memory>
    ensures { IfOk result (λ t. string_bytes t ≡ socket_id START_SECOND number) }
{
    let start = START_SECOND;
    let id = format!(in alloc; "{start}.{number}")?;
    Ok(id)
}

fn authorization(alloc: Global, key: &str, signature: &[u8; 64]) -> Result<String, Memory>
    requires { IsUtf8 signature.now }
    ensures { IfOk result (λ t. string_bytes t ≡ authorization_text key.now signature.now) }
{
    let signature = text_of(signature);
    let text = format!(in alloc; "{key}:{signature}")?;
    Ok(text)
}

fn text_of(signature: &[u8; 64]) -> &str
    requires { IsUtf8 signature.now }
    ensures { result.now ≡ signature.now }
{
    match str::from_utf8(signature) {
        Ok(text) => text,
        Err(_) => unreachable!(),
    }
}
