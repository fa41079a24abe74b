ghost use Rattle.std.specs.Prelude.{◌≡◌, ◌<◌, ◌≤◌, length};
ghost use Rattle.ch_history.specs.Limits.{IsMoment};
ghost use Rattle.ch_batch.specs.Steps.{is_received, due_after, left_by, step_answer};

use crate::limits::{FIRST_DELAY, MOST_TRIES};
use ch_io::Posted;
use ch_webhooks::Waiting;
use std::collections::VecDeque;

/// What a step of a batcher did.
#[derive(Clone, Copy, Debug, PartialEq, Eq)]
pub enum Step {
    /// The batch with this number was received.
    Sent(u64),
    /// The batch with this number was tried, and will be again from the moment `due` on.
    Retry { number: u64, tries: u64, due: u64 },
    /// The batch with this number was tried for the last time.
    GaveUp(u64),
    /// The lowest batch may be tried again from this moment on.
    Later(u64),
    /// No batch waits.
    Nothing,
}

/// Whether the receiver took the batch: it answered a status from 200 to 299 (RFC 9110, section 15.3).
fn is_received(posted: Posted) -> bool
    ensures { result ≡ is_received posted }
{
    match posted {
        Posted::Status(status) => 200 <= status && status <= 299,
        Posted::Failed => false,
    }
}

/// From when on a batch may be tried again after so many tries, of which the last one was now.
fn due_after(tries: u64, now: u64) -> u64
    requires some { 1 ≤ tries }
    requires few { tries < MOST_TRIES }
    requires now { IsMoment now }
    ensures { result ≡ due_after tries now }
{
    now + FIRST_DELAY * (1 << (tries - 1))
}

/// What a try of a batch comes to.
pub fn step_answer(posted: Posted, waiting: &Waiting, now: u64) -> Step
    requires few { waiting.now.tries < MOST_TRIES }
    requires now { IsMoment now }
    ensures { result ≡ step_answer posted waiting.now now }
{
    let number = waiting.batch.number;
    if is_received(posted) {
        return Step::Sent(number);
    }
    let tries = waiting.tries + 1;
    if tries == MOST_TRIES {
        return Step::GaveUp(number);
    }
    let due = due_after(tries, now);
    Step::Retry { number, tries, due }
}

/// Leaves in the queue what waits after a step with this answer.
pub fn left_by(answer: Step, waiting: &mut VecDeque<Waiting>)
    requires { 0 < length waiting.old.items }
    ensures { waiting.new.items ≡ left_by answer waiting.old.items }
{
    match answer {
        Step::Sent(_) => {
            waiting.pop_front();
        }
        Step::GaveUp(_) => {
            waiting.pop_front();
        }
        Step::Retry { tries, due, .. } => {
            let lowest = &mut waiting[0];
            lowest.tries = tries;
            lowest.due = due;
        }
        Step::Later(_) => {}
        Step::Nothing => {}
    }
}
