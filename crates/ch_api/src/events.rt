//! What is done with an authorized request that triggers events.
ghost use Rattle.std.specs.Prelude.{◌≡◌, IfOk, if◌then◌else◌};
ghost use Rattle.std.specs.List.{list_any};
ghost use Rattle.std.specs.Option.{option_copied};
ghost use Rattle.ch_config.specs.Config.{IsConfig};
ghost use Rattle.ch_requests.specs.Plans.{is_too_long, triggers_events, triggers, has_info, counted};
ghost use Rattle.ch_api.specs.Telling.{form_by};

use crate::counts::{counted, has_info};
use crate::event_asks::event_asks;
use crate::refusals::refused;
use ch_base::Memory;
use ch_config::Config;
use ch_requests::{CountedList, LONGEST_DATA, Plan, Planned, ReplyForm, Trigger, TriggerList};
use std::alloc::Global;

/// How a reply tells the counts of events that were triggered.
#[derive(Clone, Copy)]
pub(crate) enum Telling {
    /// By the names of the channels of the one event.
    ByName,
    /// Event by event of a batch.
    EachEvent,
}

/// What is done with a request whose body triggers these events, or has a fault.
pub(crate) fn plan_events(
    alloc: Global,
    config: &Config,
    start: u64,
    read: Option<&TriggerList>,
    telling: Telling,
    now: u64,
) -> Result<Planned, Memory>
    requires { IsConfig config.now }
    ensures { IfOk result (λ p. p ≡ triggers config.now start now (form_by telling) (option_copied read.entry)) }
{
    match read {
        Some(triggers) => plan_good_events(alloc, config, start, triggers.as_slice(), telling, now),
        None => refused(alloc, 400),
    }
}

/// What is done with events that are well formed.
fn plan_good_events(
    alloc: Global,
    config: &Config,
    start: u64,
    triggers: &[Trigger],
    telling: Telling,
    now: u64,
) -> Result<Planned, Memory>
    requires { IsConfig config.now }
    ensures { IfOk result (λ p. p ≡ triggers_events config.now start now (form_by telling) triggers.now) }
{
    if has_long_data(triggers) {
        return refused(alloc, 413);
    }
    Ok(Planned::Ask(Plan {
        asks: event_asks(alloc, config, start, triggers, now)?,
        form: form_of(alloc, triggers, telling)?,
    }))
}

/// Whether the data of an event are too long.
fn has_long_data(triggers: &[Trigger]) -> bool
    ensures { result ≡ list_any is_too_long triggers.now }
{
    triggers.iter().any(|trigger| trigger.size > LONGEST_DATA)
}

/// What a reply to these events tells.
fn form_of(alloc: Global, triggers: &[Trigger], telling: Telling) -> Result<ReplyForm, Memory>
    ensures { IfOk result (λ form. form ≡ (if has_info triggers.now then form_by telling (counted triggers.now) else ReplyForm.Empty)) }
{
    if has_info(triggers) {
        let counted = counted(alloc, triggers)?;
        Ok(form_by(telling, counted))
    } else {
        Ok(ReplyForm::Empty)
    }
}

fn form_by(telling: Telling, counted: CountedList) -> ReplyForm
    ensures { result ≡ form_by telling counted }
{
    match telling {
        Telling::ByName => ReplyForm::Triggered(counted),
        Telling::EachEvent => ReplyForm::Batch(counted),
    }
}
