ghost use Rattle.std.specs.Prelude.{◌≡◌, ◌+◌, ◌<◌, ◌≤◌, ◌↔◌, ℕ, [], All, IfOk, IfSome, None, OnErr, OnOk, length, option_map, slice_get, ◌++◌, map, option_to_list};
ghost use Rattle.ch_history.specs.Limits.{IsMoment};
ghost use Rattle.ch_batch.specs.declared.limits.TheConstants.{MOST_TRIES};
ghost use Rattle.ch_webhooks.specs.Batching.{after_cut, cut_now, nothing_yet, with_events};
ghost use Rattle.ch_batch.specs.Steps.{IsDueLater, Tries, after_step, due_batch, without_lowest};

use crate::making::{new_batches, piece_count};
use crate::merging::merge;
use crate::step::{Step, left_by, step_answer};
use ch_base::{Hook, HookList, Memory, Text};
use ch_io::Post;
use ch_webhooks::{Batch, GREATEST_NUMBER, Sender, Waiting};
use std::alloc::Global;
use std::collections::VecDeque;
use std::marker::Model;

/// The webhook events of an app on their way: those that were accepted and not cut yet, and the batches that wait
/// to be posted, the lowest number first.
#[derive(Drop)]
pub struct Batcher {
    alloc: Global,
    sender: Sender,
    // What a cut has merged already, and the lists after that.
    merged: Vec<Hook>,
    lists: VecDeque<HookList>,
    waiting: VecDeque<Waiting>,
    next: u64,
}

impl Model for Batcher {
    ghost use Rattle.std.specs.Prelude.{◌+◌, ◌-◌, ◌<◌, ◌≤◌, ◌++◌, All, flat_map};
    ghost use Rattle.std.specs.VecDeque.{deque_capacity, deque_len};
    ghost use Rattle.ch_webhooks.specs.Batching.{BatcherModel};
    ghost use Rattle.ch_batch.specs.declared.limits.TheConstants.{MOST_TRIES};
    ghost use Rattle.ch_webhooks.specs.declared.limits.TheConstants.{GREATEST_NUMBER};

    ghost Value = { BatcherModel };

    ghost view = { λ b. record {
      state = record { sender = b.sender; uncut = b.merged.items ++ flat_map (λ l. l) b.lists.items; waiting = b.waiting.items; next = b.next };
      spare = deque_capacity b.lists - deque_len b.lists;
    } };

    ghost invariant = { λ b. All (λ w. w.tries < MOST_TRIES) b.waiting.items × (b.next ≤ GREATEST_NUMBER + 1) };
}

impl Batcher {
    /// A batcher for an app's key and secret, of a server that started at the second `start`. Nothing waits.
    pub fn new(alloc: Global, key: &Text, secret: &Text, start: u64) -> Result<Batcher, Memory>
        ensures { IfOk result (λ b. b.state ≡ nothing_yet (record { key = key.now; secret = secret.now; start = start })) }
    {
        let sender = Sender {
            key: key.copy(alloc)?,
            secret: secret.copy(alloc)?,
            start,
        };
        Ok(Batcher {
            alloc,
            sender,
            merged: Vec::new(alloc),
            lists: VecDeque::new(alloc),
            waiting: VecDeque::new(alloc),
            next: 1,
        })
    }

    /// Makes room for so many more lists of events. What waits stays and no room is lost, also where there is no memory.
    pub fn reserve(&mut self, lists: u64) -> Result<(), Memory>
        ensures state { self.new.state ≡ self.old.state }
        ensures spare { self.old.spare ≤ self.new.spare }
        ensures room { OnOk result (lists ≤ self.new.spare) }
    {
        self.lists.reserve(lists as usize)?;
        Ok(())
    }

    /// Accepts events, after those that were accepted before. It takes no memory.
    pub fn accept(&mut self, list: HookList)
        requires { 0 < self.old.spare }
        ensures state { self.new.state ≡ with_events self.old.state list }
        ensures spare { self.new.spare + 1 ≡ self.old.spare }
    {
        self.lists.push_back_reserved(list);
    }

    /// Cuts all accepted events into batches of `BATCH_EVENTS`, the last one with fewer, and answers how many batches that makes.
    /// `now` is in milliseconds. Where a batch would have a number above 2^62, none is made and the events stay.
    pub fn cut(&mut self, now: u64) -> Result<u64, Memory>
        ensures count { IfOk result (λ count. count ≡ length (cut_now self.old.state now)) }
        ensures ok { OnOk result (self.new.state ≡ after_cut self.old.state now) }
        ensures err { OnErr result (self.new.state ≡ self.old.state) }
        ensures spare { self.old.spare ≤ self.new.spare }
    {
        merge(&mut self.merged, &mut self.lists)?;
        let count = piece_count(self.merged.as_slice()) as u64;
        if count > GREATEST_NUMBER + 1 - self.next {
            return Ok(0);
        }
        let made = new_batches(
            self.alloc,
            &self.sender,
            now,
            self.next,
            self.merged.as_slice(),
        )?;
        self.waiting.append(&mut VecDeque::from_vec(made))?;
        self.merged.clear();
        self.next += count;
        Ok(count)
    }

    /// Tries to post the lowest batch, where it is due at the moment `now`, in milliseconds. One that isn't received is
    /// due again after 1, 2, 4 .. 64 seconds, with the same body and signature; after the eighth try it is given up.
    pub fn step<P: Post>(&mut self, post: &mut P, now: u64) -> Step
        requires { IsMoment now }
        ensures nothing { (result ≡ Step.Nothing) ↔ (self.old.state.waiting ≡ []) }
        ensures later { (due : ℕ) → (result ≡ Step.Later due) ↔ IsDueLater self.old.state.waiting now due }
        ensures tries { IfSome (due_batch self.old.state.waiting now) (λ w. Tries self.old.state.sender w now (P.told post.old) (P.told post.new) result) }
        ensures unposted { due_batch self.old.state.waiting now ≡ None → P.told post.new ≡ P.told post.old }
        ensures state { self.new.state ≡ after_step self.old.state result }
        ensures spare { self.new.spare ≡ self.old.spare }
    {
        let Some(lowest) = self.waiting.front() else {
            return Step::Nothing;
        };
        if now < lowest.due {
            return Step::Later(lowest.due);
        }
        let batch = &lowest.batch;
        let posted = post.post(&batch.body, &self.sender.key, &batch.signature);
        let answer = step_answer(posted, lowest, now);
        left_by(answer, &mut self.waiting);
        answer
    }

    /// Takes the lowest batch out, which counts as sent; none where no batch waits.
    pub fn take_lowest(&mut self) -> Option<Batch>
        ensures none { (result ≡ None) ↔ (self.old.state.waiting ≡ []) }
        ensures batches { map (λ w. w.batch) self.old.state.waiting ≡ option_to_list result ++ map (λ w. w.batch) self.new.state.waiting }
        ensures state { self.new.state ≡ without_lowest self.old.state }
        ensures spare { self.new.spare ≡ self.old.spare }
    {
        match self.waiting.pop_front() {
            Some(lowest) => {
                let Waiting { batch, .. } = lowest;
                Some(batch)
            }
            None => None,
        }
    }

    /// How many batches wait.
    pub fn waiting(&self) -> u64
        ensures count { result ≡ length self.now.state.waiting }
        ensures tries { All (λ w. w.tries < MOST_TRIES) self.now.state.waiting }
    {
        self.waiting.len() as u64
    }

    /// The batch at a place among those that wait, the lowest number first.
    pub fn batch(&self, i: u64) -> &Batch
        requires { i < length self.now.state.waiting }
        ensures { Some result.now ≡ option_map (λ w. w.batch) (slice_get self.now.state.waiting i) }
    {
        &self.waiting[i as usize].batch
    }
}
