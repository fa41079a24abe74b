//! The numbers that the lines of a transcript are drawn by.
ghost use Rattle.std.specs.Prelude.{◌≡◌, ◌<◌};
ghost use Rattle.ch_soak.specs.Generator.{stirred, drawn, action_of, draws_from};

/// The factor of the linear congruence.
pub(crate) const FACTOR: u64 = 6_364_136_223_846_793_005;

/// Its increment.
pub(crate) const INCREMENT: u64 = 1_442_695_040_888_963_407;

/// What a drawn line does.
#[derive(Clone, Copy, Debug, PartialEq, Eq)]
pub enum Action {
    /// A socket subscribes to a channel, rightly authorized.
    Join,
    /// A socket says that it unsubscribes.
    Unsubscribe,
    /// A back end publishes an event.
    Publish,
    /// A socket says a client event.
    Say,
    /// A socket signs a user in, rightly authorized.
    SignIn,
    /// The webhook events that wait are taken and cut into batches.
    Hooks,
}

/// What a line draws: what it does, by which socket (1 to 8), on which channel (0 to 5), and for which user (0 to 3).
#[derive(Clone, Copy, Debug, PartialEq, Eq)]
pub struct Draws {
    pub action: Action,
    pub socket: u64,
    pub channel: u64,
    pub user: u64,
}

/// The state after one draw more.
pub(crate) fn stirred(state: u64) -> u64
    ensures { result ≡ stirred state }
{
    state.wrapping_mul(FACTOR).wrapping_add(INCREMENT)
}

/// The number that is drawn, by the state after the draw.
fn drawn(below: u64, state: u64) -> u64
    requires { 0 < below }
    ensures drawn { result ≡ drawn below state }
    ensures below { result < below }
{
    (state >> 33) % below
}

/// What a line does, by the number that is drawn for it.
fn action_of(number: u64) -> Action
    ensures { result ≡ action_of number }
{
    match number {
        0 | 1 => Action::Join,
        2 => Action::Unsubscribe,
        3 | 4 => Action::Publish,
        5 => Action::Say,
        6 => Action::SignIn,
        _ => Action::Hooks,
    }
}

/// What a line draws from a state.
pub(crate) fn draws_from(state: u64) -> Draws
    ensures { result ≡ draws_from state }
{
    let first = stirred(state);
    let second = stirred(first);
    let third = stirred(second);
    Draws {
        action: action_of(drawn(8, first)),
        socket: 1 + drawn(8, second),
        channel: drawn(6, third),
        user: drawn(4, stirred(third)),
    }
}
