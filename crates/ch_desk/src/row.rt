ghost use Rattle.std.specs.Prelude.{◌≡◌, ◌<◌, ◌≤◌, ℕ, [], ◌++◌, length, slice_index_or, slice_set, IfOk};
ghost use Rattle.ch_base.specs.Growth.{GrowsBy, own};
ghost use Rattle.ch_config.specs.declared.limits.TheConstants.{MAX_SHARDS};
ghost use Rattle.ch_desk.specs.Alone.{IsNext};
ghost use Rattle.ch_desk.specs.OwnEntries.{AreBy};
ghost use Rattle.ch_desk.specs.Rows.{history};

use crate::shard::Shard;
use ch_base::Memory;
use std::alloc::Global;
use std::marker::Model;
use std::snapshot::Snapshot;

/// A call that was answered. Contracts alone read it: it has no bytes, so no text is copied.
#[derive(Drop)]
pub(crate) struct Answered<C, A> {
    pub(crate) call: Snapshot<C>,
    pub(crate) answer: Snapshot<A>,
}

/// A shard with the calls that caller 0 made on it, the oldest first.
#[derive(Drop)]
pub(crate) struct Seat<T, C, A> {
    pub(crate) shard: T,
    pub(crate) calls: Vec<Answered<C, A>>,
}

/// All shards of one kind, on which nobody calls but caller 0. Contracts see the history of each, in which every call
/// is answered as the definitions say.
#[derive(Drop)]
pub(crate) struct Row<T: Shard> {
    seats: Vec<Seat<T, T::Call, T::Answer>>,
}

impl<T: Shard> Model for Row<T> {
    ghost use Rattle.std.specs.Prelude.{List, map};
    ghost use Rattle.ch_base.specs.declared.entry.Entry.{Entry};
    ghost use Rattle.ch_desk.specs.Rows.{history, IsRow};

    ghost Value = { List (List (Entry T.Call T.Answer)) };

    ghost view = { λ r. map history r.seats.items };

    ghost invariant = { λ r. IsRow T.Served.place T.Served.stands r.seats.items };
}

impl<T: Shard> Row<T> {
    /// So many shards, 1 to `MAX_SHARDS`, on which no call was made.
    pub fn new(alloc: Global, n: u64) -> Result<Row<T>, Memory>
        requires { (1 ≤ n) × (n ≤ MAX_SHARDS) }
        ensures count { IfOk result (λ row. length row ≡ n) }
        ensures empty { IfOk result (λ row. (k : ℕ) → slice_index_or row k [] ≡ []) }
    {
        let mut seats = Vec::new(alloc);
        for k in 0..n {
            let shard = T::new(alloc, k, n)?;
            seats.push(Seat {
                shard,
                calls: Vec::new(alloc),
            })?;
        }
        Ok(Row { seats })
    }

    /// How many shards there are: 1 to `MAX_SHARDS`. The history of each is a legal one of its shard, with calls of caller 0 alone.
    pub fn count(&self) -> u64
        ensures count { result ≡ length self.now }
        ensures some { 1 ≤ result }
        ensures few { result ≤ MAX_SHARDS }
        ensures legal { (k : ℕ) → k < result → T.Served.legal (k, result) (slice_index_or self.now k []) }
        ensures alone { (k : ℕ) → AreBy 0 (slice_index_or self.now k []) }
    {
        self.seats.len() as u64
    }

    /// Serves a call of caller 0 on a shard, at which it fits. It doesn't wait: the answer is the definitions' at once,
    /// and the call's entry is the next of the shard.
    pub fn call(&mut self, k: u64, call: &T::Call) -> Result<T::Answer, Memory>
        requires shard { k < length self.old }
        requires fits { T.Served.fits (k, length self.old) call.now }
        ensures next { IsNext T.Shard.answer_of (slice_index_or self.old k []) (slice_index_or self.new k []) call.now result }
        ensures grows { GrowsBy 0 call.now result (slice_index_or self.old k []) (slice_index_or self.new k []) }
        ensures legal { T.Served.legal (k, length self.old) (slice_index_or self.new k []) }
        ensures kind { IfOk result (T.Shard.is_answer_to call.now) }
        ensures same { self.new ≡ slice_set self.old k (slice_index_or self.new k []) }
    {
        let seat = &mut self.seats[k as usize];
        call_at(seat, call)
    }

    /// A shard, which stands for the history of its calls.
    pub fn shard(&self, k: u64) -> &T
        requires { k < length self.now }
        ensures { T.Served.stands result.now (slice_index_or self.now k []) }
    {
        let seat = &self.seats[k as usize];
        &seat.shard
    }
}

/// Serves a call of caller 0 at a seat.
fn call_at<T: Shard>(
    seat: &mut Seat<T, T::Call, T::Answer>,
    call: &T::Call,
) -> Result<T::Answer, Memory>
    requires fits { T.Served.fits (T.Served.place seat.old.shard) call.now }
    ensures place { T.Served.place seat.new.shard ≡ T.Served.place seat.old.shard }
    ensures grows { history seat.new ≡ history seat.old ++ own 0 call.now result }
    ensures right { T.Served.stands seat.old.shard (history seat.old) → T.Served.stands seat.new.shard (history seat.new) }
{
    seat.calls.reserve(1)?;
    let answer = seat.shard.serve(0, call)?;
    seat.calls.push_reserved(Answered {
        call: Snapshot::of(call),
        answer: Snapshot::of(&answer),
    });
    Ok(answer)
}
