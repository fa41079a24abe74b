ghost use Rattle.std.specs.Prelude.{◌≡◌, ◌++◌, ℕ, List, option_copied};
ghost use Rattle.ch_sig.specs.Hmac.{hmac_hex};
ghost use Rattle.ch_sig.specs.MacState.{MacHolds};
ghost use Rattle.ch_sig.specs.SignedText.{socket_text, user_text, request_text, query_text, param_text};

use crate::hmac::Mac;
use crate::query::{Param, Params};

/// The signature that lets a socket subscribe to a private or presence channel (Pusher Channels,
/// "Auth signatures"): of `<socket_id>:<channel>`, and `:<channel_data>` where that is given.
pub fn socket_sig(
    secret: &[u8],
    socket_id: &str,
    channel: &str,
    channel_data: Option<&str>,
) -> [u8; 64]
    ensures { result ≡ hmac_hex secret.now (socket_text socket_id.now channel.now (option_copied channel_data.entry)) }
{
    let mut mac = Mac::new(secret);
    mac.add(socket_id.as_bytes());
    mac.add(b":");
    mac.add(channel.as_bytes());
    if let Some(channel_data) = channel_data {
        mac.add(b":");
        mac.add(channel_data.as_bytes());
    }
    mac.finish()
}

/// The signature by which a socket signs a user in (Pusher Channels, "User authentication"): of
/// `<socket_id>::user::<user_data>`.
pub fn user_sig(secret: &[u8], socket_id: &str, user_data: &str) -> [u8; 64]
    ensures { result ≡ hmac_hex secret.now (user_text socket_id.now user_data.now) }
{
    let mut mac = Mac::new(secret);
    mac.add(socket_id.as_bytes());
    mac.add(b"::user::");
    mac.add(user_data.as_bytes());
    mac.finish()
}

/// The signature of an HTTP request (Pusher Channels, "HTTP API", "Generating authentication
/// signatures"): of the method, the path and the query, a line each. The query has the parameters
/// ascending by name, without `auth_signature`.
pub fn request_sig(secret: &[u8], method: &str, path: &str, params: &Params) -> [u8; 64]
    ensures { result ≡ hmac_hex secret.now (request_text method.now path.now params.now) }
{
    let mut mac = Mac::new(secret);
    mac.add(method.as_bytes());
    mac.add(b"\n");
    mac.add(path.as_bytes());
    mac.add(b"\n");
    add_query(&mut mac, params.as_slice());
    mac.finish()
}

/// The signature of a webhook's body (Pusher Channels, "Webhooks", "Authentication").
pub fn body_sig(secret: &[u8], body: &[u8]) -> [u8; 64]
    ensures { result ≡ hmac_hex secret.now body.now }
{
    let mut mac = Mac::new(secret);
    mac.add(body);
    mac.finish()
}

/// Adds the signed parameters, joined by `&`.
fn add_query(mac: &mut Mac, params: &[Param])
    ensures { (secret message : List ℕ) → MacHolds mac.old secret message → MacHolds mac.new secret (message ++ query_text params.now) }
{
    let mut separator: &[u8] = b"";
    'params: for param in params {
        if param.name.as_str() != "auth_signature" {
            mac.add(separator);
            add_param(mac, param);
            separator = b"&";
        }
    }
}

/// Adds `<name>=<value>`.
fn add_param(mac: &mut Mac, param: &Param)
    ensures { (secret message : List ℕ) → MacHolds mac.old secret message → MacHolds mac.new secret (message ++ param_text param.now) }
{
    mac.add(param.name.as_str().as_bytes());
    mac.add(b"=");
    mac.add(param.value.as_str().as_bytes());
}
