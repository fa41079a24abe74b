ghost use Rattle.std.specs.Prelude.{◌≡◌, ◌+◌, ◌≤◌, [], ◌++◌, nat_le, length, drop, IfOk, OnOk, OnErr};
ghost use Rattle.ch_requests.specs.Verdict.{IsVerdict, in_time};

use crate::verdict::judge;
use ch_base::{Bytes, Memory, Text};
use ch_requests::{LONGEST_WAIT, Look};
use std::alloc::Global;
use std::marker::Model;

/// Gathers the bytes of one request.
///
/// Contracts see all bytes that came, and the moment in milliseconds at which the connection began.
#[derive(Debug, Drop)]
pub struct RequestReader {
    bytes: Vec<u8>,
    since: u64,
}

impl Model for RequestReader {
    ghost use Rattle.ch_http.specs.Fed.{Fed};

    ghost Value = { Fed };

    ghost view = { λ r. record { bytes = r.bytes.items; since = r.since } };
}

impl RequestReader {
    /// No byte came yet, at this moment. This takes no memory.
    pub fn new(alloc: Global, now: u64) -> RequestReader
        ensures { result ≡ record { bytes = []; since = now } }
    {
        RequestReader {
            bytes: Vec::new(alloc),
            since: now,
        }
    }

    /// These bytes came. After `Memory` the reader is as before.
    pub fn feed(&mut self, bytes: &[u8]) -> Result<(), Memory>
        ensures ok { OnOk result (self.new ≡ record { bytes = self.old.bytes ++ bytes.now; since = self.old.since }) }
        ensures err { OnErr result (self.new ≡ self.old) }
    {
        self.bytes.extend_from_slice(bytes)?;
        Ok(())
    }

    /// What the bytes are at this moment, on the server of the app with this id. A request that isn't whole
    /// [`LONGEST_WAIT`] after the reader was made is refused with 408.
    pub fn look(&self, alloc: Global, app_id: &Text, now: u64) -> Result<Look, Memory>
        ensures { IfOk result (IsVerdict app_id.now self.now.bytes (nat_le (self.now.since + LONGEST_WAIT) now)) }
    {
        let look = judge(alloc, app_id.as_str(), self.bytes.as_slice())?;
        Ok(in_time(is_late(self.since, now), look))
    }

    /// The bytes behind the first so many.
    pub fn rest(&self, alloc: Global, used: u64) -> Result<Bytes, Memory>
        requires { used ≤ length self.now.bytes }
        ensures { IfOk result (λ rest. rest ≡ drop used self.now.bytes) }
    {
        let rest = self.bytes[used as usize..].to_vec(alloc)?;
        Ok(Bytes::from_vec(rest))
    }
}

/// Whether the time of a request is over.
fn is_late(since: u64, now: u64) -> bool
    ensures { result ≡ nat_le (since + LONGEST_WAIT) now }
{
    now.saturating_sub(since) >= LONGEST_WAIT
}

/// The verdict, where the time of the request may be over.
fn in_time(late: bool, look: Look) -> Look
    ensures { result ≡ in_time late look }
{
    match look {
        Look::Need if late => Look::Refuse(408),
        look => look,
    }
}
