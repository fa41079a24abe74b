//! One call, step by step: draw a ticket and wait, take the value, serve, enter the call in the history, put the value
//! back, and let the next ticket in.
ghost use Rattle.std.specs.Prelude.{◌≡◌, ℕ, ◌+◌, ◌<◌, [], ◌∷◌, ◌++◌, IsOk};
ghost use Rattle.ch_base.specs.Growth.{own, GrowsBy};
ghost use Rattle.ch_base.specs.declared.limits.TheConstants.{MAX_CALLERS};
ghost use Rattle.ch_turn.specs.Callers.{CallersBelow};
ghost use Rattle.ch_turn.specs.SeatStates.{Enters, Rests, HasSlot};
ghost use Rattle.ch_turn.specs.declared.limits.TheConstants.{MOST_CALLS};
ghost use Rattle.ch_turn.specs.declared.table.Stage.TheVariants.{Idle, Holds};
ghost use Rattle.ch_turn.specs.declared.table.Slot.TheVariants.{Taken};

use crate::steps::{Advance, Commit, Draw, Look};
use crate::table::{COUNT, HOME, LockSeat, SERVING, SharedTable, Slot, TICKET};
use crate::waiting::approach;
use ch_base::{Memory, Served};
use std::snapshot::Snapshot;
use std::sync::Wait;
use std::thread::yield_now;

/// Waits for the lock to be free, draws a ticket, waits for its turn, and takes the value.
fn acquire<T: Served, R: Wait>(rt: &R, table: &SharedTable<T>, seat: &mut LockSeat<T>) -> T
    requires table { (seat.old.table_id ≡ table.now.table_id) × (table.now.table_id.words ≡ 3) }
    requires rests { Rests seat.old.me }
    requires calls { seat.old.me.0.calls < MOST_CALLS }
    ensures table { (seat.new.table_id ≡ seat.old.table_id) × (seat.new.id ≡ seat.old.id) }
    ensures turn { Enters T.place T.legal T.stands seat.old.me result seat.new.me }
{
    approach(rt, table);
    let ticket = table.fetch_add::<Draw>(seat, TICKET, 1);
    for _ in rt.forever() {
        if table.load::<Look<T>>(seat, SERVING) == ticket {
            let Slot::Value(value) = table.exchange(seat, HOME, Slot::Taken) else {
                unreachable!()
            };
            return value;
        }
        // The seat steps on the table at its look alone, so what the thread does between two looks can break no
        // promise, and how long a caller waits is no promise either. Yielding lets the caller that is served run on
        // where there are fewer processors than threads. It doesn't sleep: whoever has a ticket behind it would wait
        // for it to wake.
        yield_now();
    }
    unreachable!()
}

/// Enters the call in the history, where it has an answer.
fn commit<T: Served>(
    table: &SharedTable<T>,
    seat: &mut LockSeat<T>,
    call: &T::Call,
    outcome: &Result<T::Answer, Memory>,
)
    requires table { (seat.old.table_id ≡ table.now.table_id) × (table.now.table_id.words ≡ 3) }
    requires turn { ((t : ℕ) × (seat.old.me.0.stage ≡ Holds t)) × (seat.old.me.1 ≡ (0, Taken) ∷ []) }
    requires legal { T.legal seat.old.me.0.place
        (seat.old.me.0.seen ++ own seat.old.me.0.low call.now outcome.now) }
    ensures table { (seat.new.table_id ≡ seat.old.table_id) × (seat.new.id ≡ seat.old.id) }
    ensures slot { HasSlot seat.new.me }
    ensures view { seat.new.me.0 ≡ record seat.old.me.0 {
      stage = seat.new.me.0.stage;
      seen = seat.old.me.0.seen ++ own seat.old.me.0.low call.now outcome.now;
    } }
{
    if let Ok(answer) = outcome {
        let pending = Slot::Pending(Snapshot::of(call), Snapshot::of(answer));
        drop(table.exchange(seat, HOME, pending));
        table.fetch_add::<Commit>(seat, COUNT, 1);
    }
}

/// Puts the value back, and lets the next ticket in.
fn release<T: Served>(table: &SharedTable<T>, seat: &mut LockSeat<T>, value: T)
    requires table { (seat.old.table_id ≡ table.now.table_id) × (table.now.table_id.words ≡ 3) }
    requires slot { HasSlot seat.old.me }
    requires value { T.stands value seat.old.me.0.seen × (T.place value ≡ seat.old.me.0.place) }
    ensures table { (seat.new.table_id ≡ seat.old.table_id) × (seat.new.id ≡ seat.old.id) }
    ensures view { seat.new.me ≡ (record seat.old.me.0 { stage = Idle }, []) }
{
    drop(table.exchange(seat, HOME, Slot::Value(value)));
    table.fetch_add::<Advance>(seat, SERVING, 1);
}

/// Serves the call when the caller's turn comes. What the seat has seen grows by the call.
pub(crate) fn serve_in_turn<T: Served, R: Wait>(
    rt: &R,
    table: &SharedTable<T>,
    seat: &mut LockSeat<T>,
    caller: u64,
    call: &T::Call,
) -> Result<T::Answer, Memory>
    requires table { (seat.old.table_id ≡ table.now.table_id) × (table.now.table_id.words ≡ 3) }
    requires rests { Rests seat.old.me }
    requires calls { seat.old.me.0.calls < MOST_CALLS }
    requires caller { (caller ≡ seat.old.me.0.low) × (caller < seat.old.me.0.callers) × (caller < MAX_CALLERS) }
    requires fits { T.fits seat.old.me.0.place call.now }
    ensures table { (seat.new.table_id ≡ seat.old.table_id) × (seat.new.id ≡ seat.old.id) }
    ensures view { seat.new.me ≡ (
      record seat.old.me.0 {
        seen = seat.new.me.0.seen;
        calls = seat.old.me.0.calls + 1;
      },
      [],
    ) }
    ensures grows { GrowsBy caller call.now result seat.old.me.0.seen seat.new.me.0.seen }
    ensures legal { T.legal seat.old.me.0.place seat.new.me.0.seen }
    ensures known_callers { CallersBelow seat.old.me.0.callers seat.new.me.0.seen }
    ensures sure { T.sure call.now → IsOk result }
{
    let mut value = acquire(rt, table, seat);
    let answer = value.serve(caller, call);
    commit(table, seat, call, &answer);
    release(table, seat, value);
    answer
}
