//! The smallest served value, for tests: it counts its calls.
ghost use Rattle.std.specs.Prelude.{◌≡◌, length};
ghost use Rattle.ch_turn.specs.Counts.{Counts, counts_prefix};

use ch_base::{Memory, Served};

/// The one call.
#[derive(Drop)]
pub struct Add;

/// How many calls were made. A call is answered with the number of calls before it, and with `Memory` where this
/// number has come to its type's end.
#[derive(Drop)]
pub struct Tally {
    pub count: u64,
}

impl Served for Tally {
    type Call = Add;

    type Answer = u64;

    ghost place = { λ _. (0, 1) };

    ghost fits = { λ _ _. Unit {0} };

    ghost sure = { λ _. ⊥ };

    ghost legal = { λ _ log. Counts 0 log };

    ghost stands = { λ v log. Counts 0 log × (v.count ≡ length log) };

    fn serve(&mut self, _caller: u64, _call: &Add) -> Result<u64, Memory> {
        if self.count == u64::MAX {
            return Err(Memory);
        }
        let answer = self.count;
        self.count += 1;
        Ok(answer)
    }

    ghost stands_legal = { λ v log h. h.0 };

    ghost legal_prefix = { λ _ log more h. counts_prefix 0 log more h };

    ghost legal_fits = { λ _ _ _ _. tt };
}
