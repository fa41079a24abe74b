ghost use Rattle.std.specs.Prelude.{◌≡◌, ℕ, List, [], ◌∷◌, ◌++◌, IfOk};
ghost use Rattle.ch_base.specs.declared.entry.Entry.{Entry};

use ch_base::{ChanAnswer, ChanCall, Memory, Served, UserAnswer, UserCall};
use ch_shard::ChanSeat;
use ch_ushard::UserSeat;
use std::alloc::Global;

/// A shard of one kind at its place, the number `k` of `n`. In its legal histories each call is answered as the
/// definitions say.
pub trait Shard: Served {
    /// What the definitions answer a caller's call after a history.
    ghost answer_of: { List (Entry Self.Call Self.Answer) → ℕ → Self.Call → Self.Answer };

    /// Which answers a call can have, whatever the history before it.
    ghost is_answer_to: { Self.Call → Self.Answer → Type 0 };

    /// The shard `k` of `n`, on which no call was made.
    fn new(alloc: Global, k: u64, n: u64) -> Result<Self, Memory>
        ensures place { IfOk result (λ shard. Self.Served.place shard ≡ (k, n)) }
        ensures empty { IfOk result (λ shard. Self.Served.stands shard []) };

    ghost answered: { (at : ℕ × ℕ) (h : List (Entry Self.Call Self.Answer)) (e : Entry Self.Call Self.Answer) → Self.Served.legal at (h ++ e ∷ []) → e.answer ≡ answer_of h e.caller e.call };

    ghost kind: { (h : List (Entry Self.Call Self.Answer)) (caller : ℕ) (call : Self.Call) → is_answer_to call (answer_of h caller call) };
}

impl Shard for ChanSeat {
    ghost use Rattle.ch_history.specs.AnswerKinds.{IsAnswerTo};
    ghost use Rattle.ch_history.specs.Answers.{answer_of};
    ghost use Rattle.ch_desk.specs.ShardLaws as laws;

    ghost answer_of = { answer_of };

    ghost is_answer_to = { IsAnswerTo };

    fn new(alloc: Global, k: u64, n: u64) -> Result<ChanSeat, Memory> {
        ChanSeat::new(alloc, k, n)
    }

    ghost answered = { laws.answered };

    ghost kind = { laws.kind };
}

impl Shard for UserSeat {
    ghost use Rattle.ch_history.specs.AnswerKinds.{IsUserAnswerTo};
    ghost use Rattle.ch_history.specs.UserAnswers.{user_answer_of};
    ghost use Rattle.ch_desk.specs.ShardLaws as laws;

    ghost answer_of = { user_answer_of };

    ghost is_answer_to = { IsUserAnswerTo };

    fn new(alloc: Global, k: u64, n: u64) -> Result<UserSeat, Memory> {
        UserSeat::new(alloc, k, n)
    }

    ghost answered = { laws.user_answered };

    ghost kind = { laws.user_kind };
}
