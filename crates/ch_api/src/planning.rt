//! What is done with a request.
ghost use Rattle.std.specs.Prelude.{◌≡◌, Option, List, IfOk};
ghost use Rattle.std.specs.Bool.{MatchBool};
ghost use Rattle.std.specs.Option.{option_copied};
ghost use Rattle.ch_config.specs.Config.{IsConfig};
ghost use Rattle.ch_history.specs.Limits.{IsMoment};
ghost use Rattle.ch_requests.specs.Authorization.{is_authorized};
ghost use Rattle.ch_requests.specs.Plans.{planned, planned_by};
ghost use Rattle.ch_requests.specs.Triggers.{ReadsBody};
ghost use Rattle.ch_requests.specs.declared.trigger.Trigger.{Trigger};
ghost use Rattle.ch_api.specs.Servable.{AreServable};

use crate::authorization::is_authorized;
use crate::events::{Telling, plan_events};
use crate::lookups::{list_channels, list_users, look_at, terminate};
use crate::refusals::refused;
use ch_base::Memory;
use ch_config::Config;
use ch_requests::{Planned, Request, Route, TriggerList};
use ch_triggers::read_triggers;
use std::alloc::Global;

/// What is done with a request: it is refused, or its calls are to be made.
///
/// The server started at the second `start`; `now` is the moment in milliseconds. Every call is well formed and belongs to
/// its shard.
pub fn plan(
    alloc: Global,
    config: &Config,
    start: u64,
    request: &Request,
    now: u64,
) -> Result<Planned, Memory>
    requires config { IsConfig config.now }
    requires moment { IsMoment now }
    ensures planned { IfOk result (λ p. (ts : Option (List Trigger))
        × MatchBool (is_authorized config.now request.now now) (ReadsBody request.now.route request.now.body ts) (Unit {0})
        × (p ≡ planned config.now start request.now now ts)) }
    ensures asks { IfOk result (AreServable config.now) }
{
    if !is_authorized(config, request, now) {
        return refused(alloc, 401);
    }
    let triggers = read_triggers(alloc, &request.route, request.body.as_slice())?;
    plan_authorized(alloc, config, start, request, triggers.as_ref(), now)
}

/// What is done with an authorized request, whose body triggers these events, or has a fault.
fn plan_authorized(
    alloc: Global,
    config: &Config,
    start: u64,
    request: &Request,
    triggers: Option<&TriggerList>,
    now: u64,
) -> Result<Planned, Memory>
    requires { IsConfig config.now }
    ensures { IfOk result (λ p. p ≡ planned_by config.now start request.now now (option_copied triggers.entry) request.now.route) }
{
    let params = &request.params;
    match &request.route {
        Route::Events => plan_events(alloc, config, start, triggers, Telling::ByName, now),
        Route::BatchEvents => plan_events(alloc, config, start, triggers, Telling::EachEvent, now),
        Route::Channels => {
            list_channels(
                alloc,
                config,
                params.get("filter_by_prefix"),
                params.get("info"),
            )
        }
        Route::Channel(name) => look_at(alloc, config, name, params.get("info"), now),
        Route::ChannelUsers(name) => list_users(alloc, config, name),
        Route::Terminate(id) => terminate(alloc, config, id, now),
    }
}
