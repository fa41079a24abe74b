//! How the passes of an intake are dealt out.
ghost use Rattle.std.specs.Prelude.{◌≡◌, ℕ, ◌<◌, ◌≤◌, [], length, slice_index_or, None, Some, vec_capacity};
ghost use Rattle.ch_base.specs.declared.limits.TheConstants.{MAX_CALLERS};
ghost use Rattle.crossbeam_queue.specs.Passes.{view, IsPassOf};
ghost use Rattle.ch_intake.specs.PassModels.{fresh_pass};
ghost use Rattle.ch_intake.specs.PassViews.{first_view};

use crate::pass::IntakePass;
use crate::rule::{Deal, Queue, QueuePass};

/// A pass for each caller, in order, out of the one that has all numbers.
pub(crate) fn deal_passes<C: Drop>(
    queue: &Queue<C>,
    mut dealer: QueuePass<C>,
    mut passes: Vec<Option<IntakePass<C>>>,
    callers: u64,
) -> Vec<Option<IntakePass<C>>>
    requires own { IsPassOf queue.now dealer }
    requires dealer { view dealer ≡ first_view }
    requires room { (passes.items ≡ []) × (callers ≤ vec_capacity passes) }
    requires callers { callers ≤ MAX_CALLERS }
    ensures count { length result.items ≡ callers }
    ensures each { (i : ℕ) → i < callers
        → slice_index_or result.items i None ≡ Some (fresh_pass dealer.table_id i) }
{
    for caller in 0..callers {
        let pass = queue.another::<Deal>(&mut dealer);
        passes.push_reserved(Some(IntakePass { pass, caller }));
    }
    passes
}
