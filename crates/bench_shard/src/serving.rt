//! Calls of the one caller, apart from what is measured.
ghost use Rattle.ch_history.specs.WellFormed.{IsWellFormed};

use ch_base::{ChanAnswer, ChanCall, FrameList, Memory};
use ch_shard::ChanShard;

/// Makes a call whose answer nobody needs.
pub fn serve(shard: &mut ChanShard, call: &ChanCall) -> Result<(), Memory>
    requires { IsWellFormed call.now }
{
    shard.apply(0, call)?;
    Ok(())
}

/// Takes the frames that wait, one after another, and says how many there were.
pub fn take(shard: &mut ChanShard) -> Result<usize, Memory> {
    match shard.apply(0, &ChanCall::Take)? {
        ChanAnswer::Frames(frames) => Ok(take_each(frames)),
        _ => Ok(0),
    }
}

fn take_each(mut frames: FrameList) -> usize {
    let mut count = 0_usize;
    for _place in 0..frames.len() {
        if frames.take_front().is_some() {
            count = count.saturating_add(1);
        }
    }
    count
}
