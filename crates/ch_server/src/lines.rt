//! What a server says of itself.
ghost use Rattle.std.specs.Prelude.{◌≡◌, IfOk, string_bytes};
ghost use Rattle.ch_server.specs.Lines.{listening_line};

use ch_base::Memory;
use ch_config::Address;
use std::alloc::Global;

/// The line that tells where the server listens.
pub(crate) fn listening_line(alloc: Global, address: &Address) -> Result<String, Memory>
    ensures { IfOk result (λ line. string_bytes line ≡ listening_line address.now) }
{
    let [a, b, c, d] = address.host;
    let port = address.port;
    Ok(format!(in alloc; "listening {a}.{b}.{c}.{d}:{port}\n")?)
}
