//! How a caller waits. No step on the table is made here, so no promise rests on it.
ghost use Rattle.std.specs.Prelude.{◌≡◌};

use crate::table::{SERVING, SharedTable, TICKET};
use ch_base::Served;
use std::hint::spin_loop;
use std::sync::Wait;
use std::thread::Parker;
use std::time::Duration;

/// How often a caller looks whether the lock is free before it sleeps for the first time.
const LOOKS: u32 = 100;

/// How often a caller sleeps before it draws a ticket of a lock that is still in use.
const SLEEPS: u32 = 20;

/// Waits until no ticket is out, or until the caller has waited long enough to draw one behind others.
///
/// A ticket hands the lock to one thread, which may not be running just then, and all behind it wait for that. So
/// where many callers share few processors, they wait here, with no ticket, and mostly asleep. A caller that finds
/// the lock free makes no system call here. The bound on the sleeps, some 12 ms in all, keeps a caller from being
/// passed by for ever: with its ticket it is served in order.
pub(crate) fn approach<T: Served, R: Wait>(rt: &R, table: &SharedTable<T>)
    requires table { table.now.table_id.words ≡ 3 }
{
    for turn in 0..LOOKS + SLEEPS {
        // No ticket can be served before it is drawn. So where both are equal, none was out at the second look.
        if table.peek(SERVING) == table.peek(TICKET) {
            return;
        }
        if turn < LOOKS {
            spin_loop();
        } else {
            sleep(rt, turn - LOOKS);
        }
    }
}

/// Sleeps from a microsecond, twice as long each time, up to a millisecond.
fn sleep<R: Wait>(rt: &R, times: u32) {
    // Nobody else knows of this parker, so that only the time ends the sleep.
    Parker::new().park_timeout(rt, Duration::from_micros(1 << times.min(10)));
}
