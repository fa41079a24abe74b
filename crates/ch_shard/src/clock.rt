ghost use Rattle.std.specs.Prelude.{◌≡◌};
ghost use Rattle.ch_history.specs.Clock.{clock_with, moment_of};
ghost use Rattle.ch_history.specs.Limits.{IsMoment};
ghost use Rattle.ch_history.specs.WellFormed.{IsWellFormed};

use ch_base::ChanCall;

/// The clock of a shard once this call is made: the greatest moment of its calls, in milliseconds.
///
/// The moments of callers may differ, so what has ended for one of them stays so for all.
pub fn clock_with(clock: u64, call: &ChanCall) -> u64
    requires clock { IsMoment clock }
    requires formed { IsWellFormed call.now }
    ensures clock { result ≡ clock_with clock call.now }
    ensures moment { IsMoment result }
{
    clock.max(moment_of(call))
}

/// The moment that the call carries; 0 where it carries none.
fn moment_of(call: &ChanCall) -> u64
    requires { IsWellFormed call.now }
    ensures is { result ≡ moment_of call.now }
    ensures moment { IsMoment result }
{
    match call {
        ChanCall::Join { at, .. } => *at,
        ChanCall::Leave { at, .. } => *at,
        ChanCall::Lost { at, .. } => *at,
        ChanCall::Publish { at, .. } => *at,
        ChanCall::Say { at, .. } => *at,
        ChanCall::Take => 0,
        ChanCall::TakeHooks { at } => *at,
        ChanCall::Names { .. } => 0,
        ChanCall::Look { at, .. } => *at,
        ChanCall::Users { .. } => 0,
    }
}
