//! A served value that holds its caller until another call has answered.
ghost use Rattle.std.specs.Prelude.{◌≡◌, length};

use crate::flag::{is_seen, set};
use ch_base::{Memory, Served};
use ch_turn::Add;
use std::alloc::Global;
use std::sync::Arc;
use std::sync::atomic::AtomicU64;

/// Value k of a row of two, which counts its calls. A call on value 0 says that it has begun, and then looks for the
/// answer on the other value. The value keeps whether it saw that.
#[derive(Drop)]
pub(crate) struct Held {
    pub k: u64,
    pub count: u64,
    pub begun: Arc<AtomicU64, Global>,
    pub answered: Arc<AtomicU64, Global>,
    pub saw: bool,
}

impl Held {
    /// Value 0 lets the other call begin, and waits until that has answered.
    fn hold(&mut self)
        ensures { self.new ≡ record self.old { saw = self.new.saw } }
    {
        if self.k == 0 {
            set(&self.begun);
            self.saw = is_seen(&self.answered);
        }
    }
}

impl Served for Held {
    type Call = Add;

    type Answer = u64;

    ghost place = { λ held. (held.k, 2) };

    ghost fits = { λ _ _. Unit {0} };

    ghost sure = { λ _. ⊥ };

    ghost legal = { λ _ _. Unit {0} };

    ghost stands = { λ held log. held.count ≡ length log };

    fn serve(&mut self, _caller: u64, _call: &Add) -> Result<u64, Memory> {
        if self.count == u64::MAX {
            return Err(Memory);
        }
        self.hold();
        let answer = self.count;
        self.count += 1;
        Ok(answer)
    }

    ghost stands_legal = { λ _ _ _. tt };

    ghost legal_prefix = { λ _ _ _ _. tt };

    ghost legal_fits = { λ _ _ _ _. tt };
}
