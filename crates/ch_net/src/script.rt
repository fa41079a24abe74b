ghost use Rattle.ch_io.specs.Counts.{NeverFall};
ghost use Rattle.ch_net.specs.Scripts.{StepHasCause};

use ch_io::Counts;

/// How the calls of a version in memory go: which of them fail, and which ask for patience. Their numbers
/// count from 1 over all calls.
#[derive(Debug, Drop)]
pub struct Script {
    failing: Vec<usize>,
    stalling: Vec<usize>,
    calls: usize,
}

/// How a call goes.
#[derive(Clone, Copy, Debug, PartialEq, Eq)]
pub(crate) enum Step {
    Goes,
    Stalls,
    Fails,
}

impl Script {
    /// The calls with the failing numbers fail. Of the others those with the stalling numbers ask for
    /// patience.
    pub fn new(failing: Vec<usize>, stalling: Vec<usize>) -> Script {
        Script {
            failing,
            stalling,
            calls: 0,
        }
    }

    /// How the next call goes. A fault or a stall is counted.
    pub(crate) fn next(&mut self, counts: &mut Counts) -> Step
        ensures cause { StepHasCause result counts.old counts.new }
        ensures later { NeverFall counts.old counts.new }
    {
        self.calls = self.calls.saturating_add(1);
        if self.failing.contains(&self.calls) {
            counts.count_fault();
            Step::Fails
        } else if self.stalling.contains(&self.calls) {
            counts.count_stall();
            Step::Stalls
        } else {
            Step::Goes
        }
    }
}

/// What the other side does after the last thing that it gave.
#[derive(Clone, Copy, Debug, PartialEq, Eq)]
pub enum OtherSide {
    /// It ends, and each further call tells so.
    HangsUp,
    /// It is quiet, and each further call asks for patience.
    Stays,
}
