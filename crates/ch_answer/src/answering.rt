ghost use Rattle.std.specs.Prelude.{List};
ghost use Rattle.ch_api.specs.Servable.{AreServable};
ghost use Rattle.ch_config.specs.Config.{IsConfig};
ghost use Rattle.ch_desk.specs.OwnEntries.{Makes};
ghost use Rattle.ch_desk.specs.Views.{IsDeskOf};
ghost use Rattle.ch_history.specs.Limits.{IsMoment};
ghost use Rattle.ch_protocol.specs.Asks.{Asked};
ghost use Rattle.ch_answer.specs.Answers.{IsAnswer, IsPlanAnswer};

use ch_api::{Plan, Planned, finish, plan};
use ch_base::Memory;
use ch_config::Config;
use ch_desk::{Desk, make_all};
use ch_requests::{Reply, Request};
use std::alloc::Global;

/// Answers a whole request at the moment `now`, in milliseconds: the calls that it asks for are made at the desk, in order, and
/// the reply is by their answers. `start` is the second of the server's start.
///
/// Where there is no memory, the calls that were made stay made, and no more of them are.
pub fn answer<R, D: Desk<R>>(
    alloc: Global,
    rt: &R,
    desk: &mut D,
    config: &Config,
    start: u64,
    request: &Request,
    now: u64,
) -> Result<Reply, Memory>
    requires config { IsConfig config.now }
    requires desk { IsDeskOf config.now (D.view desk.old) }
    requires now { IsMoment now }
    ensures answers { (asked : List Asked) × Makes asked (D.view desk.old) (D.view desk.new)
        × IsAnswer (record { config = config.now; start = start; now = now }) request.now asked result }
    ensures desk { IsDeskOf config.now (D.view desk.new) }
{
    let Ok(planned) = plan(alloc, config, start, request, now) else {
        return Err(Memory);
    };
    answer_planned(alloc, rt, desk, config, planned)
}

/// Makes the calls of a plan, and the reply.
fn answer_planned<R, D: Desk<R>>(
    alloc: Global,
    rt: &R,
    desk: &mut D,
    config: &Config,
    planned: Planned,
) -> Result<Reply, Memory>
    requires desk { IsDeskOf config.now (D.view desk.old) }
    requires asks { AreServable config.now planned }
    ensures answers { (asked : List Asked) × Makes asked (D.view desk.old) (D.view desk.new) × IsPlanAnswer planned asked result }
    ensures desk { IsDeskOf config.now (D.view desk.new) }
{
    match planned {
        Planned::Answer(reply) => Ok(reply),
        Planned::Ask(plan) => answer_plan(alloc, rt, desk, config, &plan),
    }
}

fn answer_plan<R, D: Desk<R>>(
    alloc: Global,
    rt: &R,
    desk: &mut D,
    config: &Config,
    plan: &Plan,
) -> Result<Reply, Memory>
    requires desk { IsDeskOf config.now (D.view desk.old) }
    requires asks { AreServable config.now (Planned.Ask plan.now) }
    ensures answers { (asked : List Asked) × Makes asked (D.view desk.old) (D.view desk.new)
        × IsPlanAnswer (Planned.Ask plan.now) asked result }
    ensures desk { IsDeskOf config.now (D.view desk.new) }
{
    let Ok(answers) = make_all(alloc, rt, desk, &plan.asks) else {
        return Err(Memory);
    };
    finish(alloc, plan, &answers)
}
