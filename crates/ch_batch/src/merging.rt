ghost use Rattle.std.specs.Prelude.{◌≡◌, ◌+◌, ◌-◌, ◌<◌, ◌≤◌, ◌++◌, [], flat_map, length, slice_index_or, vec_capacity, vec_len, OnOk};
ghost use Rattle.std.specs.VecDeque.{deque_capacity, deque_len};

use ch_base::{Hook, HookList, Memory};
use std::collections::VecDeque;

/// Moves lists of events to the end of one list, in order. Where there is no memory for it, some lists stay.
pub fn merge(merged: &mut Vec<Hook>, lists: &mut VecDeque<HookList>) -> Result<(), Memory>
    ensures all { merged.new.items ++ flat_map (λ l. l) lists.new.items ≡ merged.old.items ++ flat_map (λ l. l) lists.old.items }
    ensures done { OnOk result (lists.new.items ≡ []) }
    ensures room { deque_capacity lists.old - deque_len lists.old ≤ deque_capacity lists.new - deque_len lists.new }
{
    while let Some(list) = lists.front() {
        merged.reserve(list.len())?;
        move_first(merged, lists);
    }
    Ok(())
}

/// Moves the first list, for which there is room.
fn move_first(merged: &mut Vec<Hook>, lists: &mut VecDeque<HookList>)
    requires some { 0 < deque_len lists.old }
    requires room { vec_len merged.old + length (slice_index_or lists.old.items 0 []) ≤ vec_capacity merged.old }
    ensures all { merged.new.items ++ flat_map (λ l. l) lists.new.items ≡ merged.old.items ++ flat_map (λ l. l) lists.old.items }
    ensures less { deque_len lists.new + 1 ≡ deque_len lists.old }
    ensures capacity { deque_capacity lists.new ≡ deque_capacity lists.old }
{
    let Some(list) = lists.pop_front() else {
        unreachable!();
    };
    let mut list = list.into_vec();
    let Ok(()) = merged.append(&mut list) else {
        unreachable!();
    };
}
