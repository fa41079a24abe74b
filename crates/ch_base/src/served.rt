ghost use Rattle.std.specs.Prelude.{◌≡◌, ◌<◌, ℕ, List, [], ◌∷◌, ◌++◌, IfOk, OnErr, IsOk};
ghost use Rattle.ch_base.specs.declared.entry.Entry.{Entry};
ghost use Rattle.ch_base.specs.declared.limits.TheConstants.{MAX_CALLERS};

use crate::memory::Memory;

/// A value whose calls are entries of a history, one after another.
///
/// A value stands for histories: each call that is answered adds one entry, and a call that finds no
/// memory adds none.
pub trait Served: Drop {
    type Call: Drop;

    type Answer: Drop;

    /// Where the value belongs among others of its kind. No call changes it.
    ghost place: { Self → ℕ × ℕ };

    /// Which calls may be made at a place.
    ghost fits: { ℕ × ℕ → Self.Call → Type 0 };

    /// Which calls take no memory.
    ghost sure: { Self.Call → Type 0 };

    /// Which histories are legal at a place.
    ghost legal: { ℕ × ℕ → List (Entry Self.Call Self.Answer) → Type 0 };

    /// Which histories the value stands for.
    ghost stands: { Self → List (Entry Self.Call Self.Answer) → Type 0 };

    /// Serves one call of a caller, who has a number below `MAX_CALLERS`.
    fn serve(&mut self, caller: u64, call: &Self::Call) -> Result<Self::Answer, Memory>
        requires caller { caller < MAX_CALLERS }
        requires fits { fits (place self.old) call.now }
        ensures place { place self.new ≡ place self.old }
        ensures served { IfOk result (λ a. (h : List (Entry Self.Call Self.Answer)) → stands self.old h → stands self.new (h ++ record { caller = caller; call = call.now; answer = a } ∷ [])) }
        ensures memory { OnErr result ((h : List (Entry Self.Call Self.Answer)) → stands self.old h → stands self.new h) }
        ensures sure { sure call.now → IsOk result };

    ghost stands_legal: { (v : Self) (h : List (Entry Self.Call Self.Answer)) → stands v h → legal (place v) h };

    ghost legal_prefix: { (at : ℕ × ℕ) (h more : List (Entry Self.Call Self.Answer)) → legal at (h ++ more) → legal at h };

    ghost legal_fits: { (at : ℕ × ℕ) (h : List (Entry Self.Call Self.Answer)) (e : Entry Self.Call Self.Answer) → legal at (h ++ e ∷ []) → fits at e.call };
}
