//! What the shards of a bench served, and what is open on them.
use ch_desk::{Bench, Desk};
use std::alloc::{AllocError, Global};

/// The letters of the calls on the first channel shard, the oldest first: `J` for a Join, `P` for a Publish, `T` for a Take and `X`
/// for a loss.
pub fn letters(alloc: Global, bench: &Bench) -> Result<String, AllocError> {
    let mut letters = String::new(alloc);
    if Desk::<()>::chan_shards(bench) == 0 {
        return Ok(letters);
    }
    let shard = bench.shard(0);
    for i in 0..shard.tail_len() {
        letters.push(char::from(shard.tail_at(i).letter))?;
    }
    Ok(letters)
}

/// How many sign-ins last on the first user shard.
pub fn sign_ins(bench: &Bench) -> u64 {
    if Desk::<()>::user_shards(bench) == 0 {
        return 0;
    }
    bench.user_shard(0).open_signs()
}
