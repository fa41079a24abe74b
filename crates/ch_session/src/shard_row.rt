ghost use Rattle.std.specs.Prelude.{◌≡◌, ◌↔◌, IsTrue, drop, length, slice_get};

use std::marker::Model;

/// The shards of calls that are still to be settled, in their order. A shard is counted from 0.
#[derive(Debug, Drop)]
pub struct ShardRow {
    shards: Vec<u64>,
    next: usize,
}

impl Model for ShardRow {
    ghost use Rattle.std.specs.Prelude.{ℕ, List, drop};

    ghost Value = { List ℕ };

    ghost view = { λ r. drop r.next r.shards.items };
}

impl ShardRow {
    pub fn of(shards: Vec<u64>) -> ShardRow
        ensures { result ≡ shards.items }
    {
        ShardRow { shards, next: 0 }
    }

    pub fn is_empty(&self) -> bool
        ensures { IsTrue result ↔ (length self.now ≡ 0) }
    {
        self.shards.len() <= self.next
    }

    /// Takes the first one out.
    pub fn take_first(&mut self) -> Option<u64>
        ensures first { result ≡ slice_get self.old 0 }
        ensures rest { self.new ≡ drop 1 self.old }
    {
        let first = self.shards.get(self.next).copied()?;
        self.next += 1;
        Some(first)
    }
}
