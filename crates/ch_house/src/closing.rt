//! How a row ends: all passes go back to the lists of their locks, and then each lock is closed.
ghost use Rattle.std.specs.Prelude.{◌≡◌, ℕ, ◌<◌, ◌≤◌, [], length, map, slice_get, slice_index_or, None, Some, vec_capacity};
ghost use Rattle.ch_turn.specs.declared.closing.Closed.{Closed as closed};
ghost use Rattle.ch_turn.specs.PassModels.{PassModel, PassListModel, IsWhole, HasHistory};
ghost use Rattle.ch_house.specs.Columns.{with_pass};

use ch_base::Served;
use ch_turn::{Closed, Pass, PassList, TurnLock};

/// Gives the passes of one caller back, each to the list of its lock.
pub(crate) fn give_each<T: Served>(lists: &mut Vec<PassList<T>>, mut passes: Vec<Pass<T>>)
    requires count { length passes.items ≡ length lists.old.items }
    requires own { (k : ℕ) (m : PassListModel T.Call T.Answer) (p : PassModel T.Call T.Answer)
        → slice_get lists.old.items k ≡ Some m → slice_get passes.items k ≡ Some p
        → (p.lock ≡ m.lock) × (slice_index_or m.slots p.caller None ≡ None) }
    ensures count { length lists.new.items ≡ length lists.old.items }
    ensures given { (k : ℕ) (m : PassListModel T.Call T.Answer) (p : PassModel T.Call T.Answer)
        → slice_get lists.old.items k ≡ Some m → slice_get passes.items k ≡ Some p
        → slice_get lists.new.items k ≡ Some (with_pass p m) }
{
    while let Some(pass) = passes.pop() {
        let list = &mut lists[passes.len()];
        list.give(pass);
    }
}

/// Closes each lock with the list of its passes.
pub(crate) fn close_each<T: Served>(
    locks: Vec<TurnLock<T>>,
    lists: Vec<PassList<T>>,
    mut room: Vec<Closed<T>>,
) -> Vec<Closed<T>>
    requires own { map (λ m. m.lock) lists.items ≡ locks.items }
    requires whole { (k : ℕ) (m : PassListModel T.Call T.Answer) → slice_get lists.items k ≡ Some m → IsWhole m }
    requires room { (room.items ≡ []) × (length locks.items ≤ vec_capacity room) }
    ensures count { length result.items ≡ length locks.items }
    ensures histories { (k : ℕ) (m : PassListModel T.Call T.Answer) (c : closed T)
        → slice_get lists.items k ≡ Some m → slice_get result.items k ≡ Some c
        → HasHistory T.legal T.stands m.lock m.slots c.value c.entries }
    ensures places { (k : ℕ) (m : PassListModel T.Call T.Answer) (c : closed T)
        → slice_get lists.items k ≡ Some m → slice_get result.items k ≡ Some c
        → T.place c.value ≡ m.lock.place }
{
    for (lock, passes) in locks.into_iter().zip(lists) {
        room.push_reserved(lock.close(passes));
    }
    room
}
