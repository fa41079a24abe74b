//! How a lock ends: the seats of all passes become one, which then has seen the longest list.
ghost use Rattle.std.specs.Prelude.{◌≡◌, ℕ, ◌+◌, ◌<◌, List, ◌++◌, slice_index_or, None, Some};
ghost use Rattle.ch_base.specs.declared.entry.Entry.{Entry};
ghost use Rattle.ch_base.specs.Growth.{NotBy};
ghost use Rattle.ch_turn.specs.SeatStates.{Gathered};
ghost use Rattle.ch_turn.specs.Callers.{GrowsByOthers};
ghost use Rattle.ch_turn.specs.PassModels.{PassModel, EachGrowsByOthers, AllInPlace, IsWhole};

use crate::pass::Pass;
use crate::pass_list::PassList;
use crate::steps::{Merge, TakeOver};
use crate::table::{LockSeat, SharedTable, TICKET};
use ch_base::Served;

/// The value of a lock that was closed, and the number of entries in its history.
#[derive(Drop)]
pub struct Closed<T> {
    pub value: T,
    pub entries: u64,
}

/// Takes over the seat of a pass, the next in order.
fn take_over<T: Served>(table: &SharedTable<T>, seat: &mut LockSeat<T>, pass: Pass<T>)
    requires table { (seat.old.table_id ≡ table.now.table_id) × (table.now.table_id.words ≡ 3) }
    requires own { pass.lock.table ≡ table.now.table_id }
    requires gathered { Gathered seat.old.me.0 pass.caller }
    ensures table { seat.new.table_id ≡ seat.old.table_id }
    ensures gathered { Gathered seat.new.me.0 (pass.caller + 1) }
    ensures before { (more : List (Entry T.Call T.Answer))
        × (seat.old.me.0.seen ++ more ≡ seat.new.me.0.seen)
        × ((i : ℕ) → i < pass.caller → NotBy i more) }
    ensures pass { GrowsByOthers pass.caller pass.seen seat.new.me.0.seen }
{
    let Pass {
        seat: other,
        caller: _,
        calls: _,
    } = pass;
    table.join_seat::<TakeOver>(seat, other);
    table.load::<Merge<T>>(seat, TICKET);
}

/// The seat of all callers. What it has seen begins with the list of each pass.
pub(crate) fn gather<T: Served>(table: &SharedTable<T>, mut passes: PassList<T>) -> LockSeat<T>
    requires table { (table.now.table_id.words ≡ 3) × (0 < table.now.key.callers) }
    requires own { (passes.lock.table ≡ table.now.table_id) × (passes.lock.callers ≡ table.now.key.callers) }
    requires all { IsWhole passes }
    ensures table { result.table_id ≡ table.now.table_id }
    ensures gathered { Gathered result.me.0 table.now.key.callers }
    ensures each { EachGrowsByOthers passes.slots result.me.0.seen }
    ensures in_place { AllInPlace T.legal passes.lock passes.slots }
    ensures callers { (i : ℕ) (p : PassModel T.Call T.Answer)
        → slice_index_or passes.slots i None ≡ Some p → p.caller < table.now.key.callers }
{
    let callers = passes.passes.len() as u64;
    let Some(first) = passes.take(0) else {
        unreachable!()
    };
    let Pass {
        mut seat,
        caller: _,
        calls: _,
    } = first;
    for i in 1..callers {
        let Some(pass) = passes.take(i) else {
            unreachable!()
        };
        take_over(table, &mut seat, pass);
    }
    seat
}
