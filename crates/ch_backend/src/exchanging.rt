ghost use Rattle.std.specs.Prelude.{◌≡◌, false, ℕ, List, IfOk, OnErr, OnOk, Result};
ghost use Rattle.ch_answer.specs.Answers.{IsAnswer};
ghost use Rattle.ch_base.specs.declared.memory.Memory.{Memory};
ghost use Rattle.ch_config.specs.Config.{IsConfig};
ghost use Rattle.ch_desk.specs.AloneCalls.{IsAlone, IsAt};
ghost use Rattle.ch_desk.specs.OwnEntries.{Makes};
ghost use Rattle.ch_desk.specs.Views.{IsDeskOf};
ghost use Rattle.ch_history.specs.Limits.{IsMoment};
ghost use Rattle.ch_protocol.specs.Asks.{Asked};
ghost use Rattle.ch_protocol.specs.Shards.{Shards};
ghost use Rattle.ch_requests.specs.Verdict.{IsVerdict};
ghost use Rattle.ch_requests.specs.declared.reply.Reply.{Reply};
ghost use Rattle.ch_transcript.specs.declared.start.TheConstants.{START_SECOND};
ghost use Rattle.ch_backend.specs.Exchanges.{IsExchange, Does, Answers, MakesCalls};

use crate::replying::{put_need, put_refusal, put_reply, put_shake};
use ch_base::Memory;
use ch_config::Config;
use ch_desk::{Desk, calls_alone, calls_chain};
use ch_http::{Look, Request, RequestReader};
use ch_transcript::START_SECOND;
use std::alloc::Global;

/// Does what the bytes of a request ask for at the moment, in milliseconds, and adds the line of the reply: `http`, its status
/// and its body, `http 101` for a handshake that is accepted, or `http need` where more bytes are wanted.
///
/// Where there is no memory the output stays as it is, and the calls that were made stay made.
pub fn exchange<R, D: Desk<R>>(
    alloc: Global,
    rt: &R,
    config: &Config,
    desk: &mut D,
    bytes: &[u8],
    at: u64,
    out: &mut Vec<u8>,
) -> Result<(), Memory>
    requires config { IsConfig config.now }
    requires desk { IsDeskOf config.now (D.view desk.old) }
    requires moment { IsMoment at }
    ensures does { (shards : Shards) → IsAt (D.view desk.old) shards → IsAlone (D.view desk.new) →
        OnOk result (Does (D.view desk.new) out.old.items out.new.items (IsExchange config.now at bytes.now shards)) }
    ensures desk { IsDeskOf config.now (D.view desk.new) }
    ensures calls { MakesCalls config.now at bytes.now (D.view desk.old) (D.view desk.new) }
    ensures output { OnErr result (out.new.items ≡ out.old.items) }
{
    calls_chain();
    let look = look_at(alloc, config, bytes)?;
    exchange_by(alloc, rt, config, desk, &look, at, out)
}

/// What the bytes are.
fn look_at(alloc: Global, config: &Config, bytes: &[u8]) -> Result<Look, Memory>
    ensures { IfOk result (IsVerdict config.now.app_id bytes.now false) }
{
    let mut reader = RequestReader::new(alloc, 0);
    reader.feed(bytes)?;
    reader.look(alloc, &config.app_id, 0)
}

fn exchange_by<R, D: Desk<R>>(
    alloc: Global,
    rt: &R,
    config: &Config,
    desk: &mut D,
    look: &Look,
    at: u64,
    out: &mut Vec<u8>,
) -> Result<(), Memory>
    requires config { IsConfig config.now }
    requires desk { IsDeskOf config.now (D.view desk.old) }
    requires moment { IsMoment at }
    ensures does { (bytes : List ℕ) (shards : Shards) → IsVerdict config.now.app_id bytes false look.now → IsAt (D.view desk.old) shards
        → IsAlone (D.view desk.new) → OnOk result (Does (D.view desk.new) out.old.items out.new.items (IsExchange config.now at bytes shards)) }
    ensures desk { IsDeskOf config.now (D.view desk.new) }
    ensures calls { (bytes : List ℕ) → IsVerdict config.now.app_id bytes false look.now → MakesCalls config.now at bytes (D.view desk.old) (D.view desk.new) }
    ensures output { OnErr result (out.new.items ≡ out.old.items) }
{
    calls_chain();
    match look {
        Look::Need => put_need(out),
        Look::Upgrade(head) => put_shake(alloc, out, head),
        Look::Ready(request) => answer(alloc, rt, config, desk, request, at, out),
        Look::Refuse(status) => put_refusal(alloc, out, *status),
    }
}

/// Answers a whole request.
fn answer<R, D: Desk<R>>(
    alloc: Global,
    rt: &R,
    config: &Config,
    desk: &mut D,
    request: &Request,
    at: u64,
    out: &mut Vec<u8>,
) -> Result<(), Memory>
    requires config { IsConfig config.now }
    requires desk { IsDeskOf config.now (D.view desk.old) }
    requires moment { IsMoment at }
    ensures answers { (shards : Shards) → IsAt (D.view desk.old) shards → IsAlone (D.view desk.new) →
        OnOk result (Answers config.now at request.now shards (D.view desk.new) out.old.items out.new.items) }
    ensures desk { IsDeskOf config.now (D.view desk.new) }
    ensures calls { (asked : List Asked) × (reply : Result Reply Memory) × Makes asked (D.view desk.old) (D.view desk.new)
        × IsAnswer (record { config = config.now; start = START_SECOND; now = at }) request.now asked reply }
    ensures output { OnErr result (out.new.items ≡ out.old.items) }
{
    calls_alone();
    let reply = ch_answer::answer(alloc, rt, desk, config, START_SECOND, request, at)?;
    put_reply(alloc, out, &reply)
}
