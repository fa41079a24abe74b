//! What a caller calls with.
ghost use Rattle.std.specs.Prelude.{◌≡◌, ◌<◌};
ghost use Rattle.ch_base.specs.declared.limits.TheConstants.{MAX_CALLERS};
ghost use Rattle.ch_turn.specs.Callers.{CallersBelow};

use crate::table::LockSeat;
use ch_base::Served;
use std::marker::Model;

/// The right to call as one caller, with the list of entries that the caller has seen.
///
/// Contracts see the lock, the caller number, the list and the number of calls that were made.
#[derive(Drop)]
pub struct Pass<T: Served> {
    pub(crate) seat: LockSeat<T>,
    pub(crate) caller: u64,
    pub(crate) calls: u64,
}

impl<T: Served> Model for Pass<T> {
    ghost use Rattle.ch_turn.specs.PassModels.{PassModel};
    ghost use Rattle.ch_turn.specs.SeatStates.{IsPassSeat};

    ghost Value = { PassModel T.Call T.Answer };

    ghost view = { λ p. record {
      lock = record { table = p.seat.table_id; callers = p.seat.me.0.callers; place = p.seat.me.0.place };
      caller = p.caller;
      seen = p.seat.me.0.seen;
      calls = p.calls;
    } };

    ghost invariant = { λ p. IsPassSeat T.legal p.seat.me p.caller p.calls };
}

impl<T: Served> Pass<T> {
    /// The caller number. Whatever a pass has seen is legal at the place of the lock's value, and is of the lock's
    /// callers.
    pub fn caller(&self) -> u64
        ensures caller { result ≡ self.now.caller }
        ensures below { (result < self.now.lock.callers) × (result < MAX_CALLERS) }
        ensures legal { T.legal self.now.lock.place self.now.seen }
        ensures known_callers { CallersBelow self.now.lock.callers self.now.seen }
    {
        self.caller
    }
}
