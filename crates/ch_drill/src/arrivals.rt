//! The connection of each worker.
ghost use Rattle.std.specs.Prelude.{◌≡◌, ◌≤◌, ◌++◌, IfOk, Some, string_bytes};
ghost use Rattle.ch_drill.specs.declared.limits.TheConstants.{MOST_WORKERS};
ghost use Rattle.ch_drill.specs.DrillLinks.{handshake, round_text, rounds_text, HasOneLink};

use crate::counts::channel_of;
use ch_base::Memory;
use ch_net::{Arrival, MemArrivals, MemLink, OtherSide, Script};
use std::alloc::Global;

/// The head of the handshake (RFC 6455, section 4.1), for the app with the key `k`.
const HANDSHAKE: &str =
    "GET /app/k?protocol=7 HTTP/1.1\r\nHost: localhost\r\nUpgrade: websocket\r\nConnection: Upgrade\r\nSec-WebSocket-Key: dGhlIHNhbXBsZSBub25jZQ==\r\nSec-WebSocket-Version: 13\r\n\r\n";

/// The arrivals of a worker: one connection of this number. Its link gives the head of a handshake in one read; its
/// wire then says a subscription and its end for each of so many rounds, and is gone.
pub fn arrivals_of(alloc: Global, number: u64, rounds: u64) -> Result<MemArrivals<MemLink>, Memory>
    requires { (1 ≤ number) × (number ≤ MOST_WORKERS) }
    ensures { IfOk result (HasOneLink number rounds) }
{
    let link = link_of(alloc, rounds)?;
    let mut arrivals = Vec::new(alloc);
    arrivals.push(Arrival { number, link })?;
    Ok(MemArrivals::new(arrivals, Vec::new(alloc)))
}

/// The link of a connection, which hangs up after so many rounds.
fn link_of(alloc: Global, rounds: u64) -> Result<MemLink, Memory>
    ensures { IfOk result (λ link. link.left ≡ Some (handshake ++ rounds_text rounds)) }
{
    let head = handshake_bytes(alloc)?;
    let mut pieces = Vec::new(alloc);
    pieces.push(head.len())?;
    let bytes = with_rounds(alloc, head, rounds)?;
    let script = Script::new(Vec::new(alloc), Vec::new(alloc));
    Ok(MemLink::new(alloc, bytes, pieces, OtherSide::HangsUp, script))
}

/// The head of the handshake.
#[tactic(auto, unfolding(crate::specs::DrillLinks::handshake))]
fn handshake_bytes(alloc: Global) -> Result<Vec<u8>, Memory>
    ensures { IfOk result (λ head. head.items ≡ handshake) }
{
    let mut head = Vec::new(alloc);
    head.extend_from_slice(HANDSHAKE.as_bytes())?;
    Ok(head)
}

/// The bytes, and then the messages of so many rounds.
fn with_rounds(alloc: Global, mut bytes: Vec<u8>, rounds: u64) -> Result<Vec<u8>, Memory>
    ensures { IfOk result (λ all. all.items ≡ bytes.items ++ rounds_text rounds) }
{
    for round in 0..rounds {
        let text = round_text(alloc, round)?;
        bytes.extend_from_slice(text.as_str().as_bytes())?;
    }
    Ok(bytes)
}

/// The two messages of a round, each in a line.
fn round_text(alloc: Global, round: u64) -> Result<String, Memory>
    ensures { IfOk result (λ text. string_bytes text ≡ round_text round) }
{
    let channel = channel_of(alloc, round)?;
    let name = channel.as_str();
    let subscribe = format!(in alloc;
        "{{\"event\":\"pusher:subscribe\",\"data\":{{\"channel\":\"{name}\"}}}}\n"
    )?;
    let unsubscribe = format!(in alloc;
        "{{\"event\":\"pusher:unsubscribe\",\"data\":{{\"channel\":\"{name}\"}}}}\n"
    )?;
    let mut text = subscribe;
    text.push_str(unsubscribe.as_str())?;
    Ok(text)
}
