//! The thread that accepts connections.
ghost use Rattle.std.specs.Prelude.{◌≡◌, ◌+◌, ◌<◌, ◌≤◌, ◌^◌, List, length};
ghost use Rattle.ch_serve.specs.Accepting.{Came, Comes, AllCome, door};

use crate::bells::Bells;
use crate::numbered::Numbered;
use ch_edge::{Accept, Accepted, Wake};
use ch_intake::{Intake, IntakePass};
use ch_net::Arrival;
use std::sync::Wait;

/// The thread that accepts connections, numbers them from 1, and hands each to the intake. One that meets a full intake
/// is closed, unanswered.
#[derive(Drop)]
pub struct AcceptingThread<'a, A: Accept> {
    pub accept: A,
    pub intake: &'a Intake<Numbered<A::Conn>>,
    pub pass: IntakePass<Numbered<A::Conn>>,
    /// How many connections were numbered.
    pub numbered: u64,
    pub ghost own: { pass.intake ≡ intake.now },
}

impl<'a, A: Accept> AcceptingThread<'a, A> {
    /// So many calls of `accept`. Each connection has the next number, and waits in the intake from one step on, or is
    /// closed before the next call.
    pub fn run<R: Wait, W: Wake + Drop>(&mut self, rt: &R, bells: &Bells<W>, turns: u64)
        requires { self.old.numbered + turns ≤ 2 ^ 62 }
        ensures { (came : List (Came A.Conn)) × (length came ≡ turns)
            × AllCome self.old.pass.caller came (door self.old.pass self.old.numbered) (door self.new.pass self.new.numbered) }
    {
        for _turn in 0..turns {
            self.accept_one(rt, bells);
        }
    }

    /// One call of `accept`. It wakes the workers where a connection waits for them.
    pub fn accept_one<R: Wait, W: Wake + Drop>(&mut self, rt: &R, bells: &Bells<W>)
        requires { self.old.numbered < 2 ^ 62 }
        ensures came { (came : Came A.Conn)
            × Comes self.old.pass.caller came (door self.old.pass self.old.numbered) (door self.new.pass self.new.numbered) }
        ensures caller { self.new.pass.caller ≡ self.old.pass.caller }
        ensures numbered { self.new.numbered ≤ self.old.numbered + 1 }
    {
        let Accepted::Made(link) = self.accept.accept() else {
            return;
        };
        self.numbered += 1;
        let numbered = Numbered {
            arrival: Arrival {
                number: self.numbered,
                link,
            },
        };
        let caller = self.pass.caller();
        match self.intake.push(rt, &mut self.pass, numbered) {
            Ok(()) => bells.ring_others(caller),
            // Closed, unanswered.
            Err(full) => drop(full),
        }
    }
}
