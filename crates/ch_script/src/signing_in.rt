ghost use Rattle.std.specs.Prelude.{◌≡◌, ◌++◌, IfOk, codes, string_bytes};
ghost use Rattle.ch_base.specs.Escape.{quoted};
ghost use Rattle.ch_transcript.specs.Joining.{sign_in_text};

use crate::authorization::user_auth;
use ch_base::{Memory, Text};
use ch_config::Config;
use ch_json::quoted;
use std::alloc::Global;

/// The message by which the socket with this number signs in the user of these data, rightly authorized
/// (Pusher Channels protocol, `pusher:signin`).
pub fn sign_in_text(
    alloc: Global,
    config: &Config,
    number: u64,
    user_data: &Text,
) -> Result<Text, Memory>
    ensures { IfOk result (λ t. t ≡ sign_in_text config.now number user_data.now) }
{
    let user_data = user_data.as_str();
    let auth = user_auth(alloc, config, number, user_data)?;
    let text = authorized(alloc, auth.as_str(), user_data)?;
    Ok(Text::from_string(text))
}

fn authorized(alloc: Global, auth: &str, user_data: &str) -> Result<String, Memory>
    ensures { IfOk result (λ t. string_bytes t ≡
        codes "{\"event\":\"pusher:signin\",\"data\":{\"auth\":" ++ quoted auth.now
        ++ codes ",\"user_data\":" ++ quoted user_data.now ++ codes "}}") }
{
    let auth = quoted(alloc, auth)?;
    let auth = auth.as_str();
    let user_data = quoted(alloc, user_data)?;
    let user_data = user_data.as_str();
    let text = format!(in alloc;
        "{{\"event\":\"pusher:signin\",\"data\":{{\"auth\":{auth},\"user_data\":{user_data}}}}}"
    )?;
    Ok(text)
}
