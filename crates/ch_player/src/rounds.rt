ghost use Rattle.std.specs.Prelude.{◌≡◌, ◌≢◌, ◌+◌, ◌<◌, ◌≤◌, ℕ, List, None, length, is_some, slice_index_or, slice_set, IfOk, IfSome, OnOk};
ghost use Rattle.ch_base.specs.declared.channel.ChanCall.{ChanCall};
ghost use Rattle.ch_base.specs.declared.user.UserCall.{UserCall};
ghost use Rattle.ch_config.specs.Config.{IsConfig};
ghost use Rattle.ch_desk.specs.Bench.{seen, seen_user};
ghost use Rattle.ch_history.specs.Limits.{IsMoment};
ghost use Rattle.ch_player.specs.Benches.{IsAtShards, HasShards};
ghost use Rattle.ch_socket.specs.Sockets.{IsReady};
ghost use Rattle.ch_protocol.specs.Shards.{Shards};
ghost use Rattle.ch_transcript.specs.declared.limits.TheConstants.{MOST_OPENED};
ghost use Rattle.ch_transcript.specs.Progress.{Socket};
ghost use Rattle.ch_transcript.specs.Rounds.{taken, rounds};
ghost use Rattle.ch_player.specs.Seats.{IsSeatOf, AreSeats, AreReady, SameSessions};
ghost use Rattle.ch_player.specs.Rounding.{ChanTakes, UserTakes, TellsChans, TellsUsers, TellsRound, RunsRounds, AllOpen, WereOpen, ended_in, open_in, LosesOne, LosesEnded, RunsRound};

use crate::seat::Seat;
use crate::telling::tell_all;
use ch_base::{ChanAnswer, ChanCall, FrameList, Memory, UserAnswer, UserCall};
use ch_config::Config;
use ch_desk::Bench;
use ch_session::Session;
use ch_socket::lose;
use std::alloc::Global;

/// The frames that wait for caller 0 on the channel shard.
fn take_chan(bench: &mut Bench, k: u64) -> Result<FrameList, Memory>
    requires { k < length bench.old.shards }
    ensures taken { IfOk result (ChanTakes k bench.old bench.new) }
    ensures elsewhere { (j : ℕ) → j ≢ k → seen bench.new j ≡ seen bench.old j }
    ensures shards { length bench.new.shards ≡ length bench.old.shards }
    ensures users { bench.new.users ≡ bench.old.users }
{
    match bench.chan(k, &ChanCall::Take)? {
        ChanAnswer::Frames(frames) => Ok(frames),
        _ => unreachable!(),
    }
}

/// The frames that wait for caller 0 on the user shard.
fn take_user(bench: &mut Bench, k: u64) -> Result<FrameList, Memory>
    requires { k < length bench.old.users }
    ensures taken { IfOk result (UserTakes k bench.old bench.new) }
    ensures elsewhere { (j : ℕ) → j ≢ k → seen_user bench.new j ≡ seen_user bench.old j }
    ensures users { length bench.new.users ≡ length bench.old.users }
    ensures shards { bench.new.shards ≡ bench.old.shards }
{
    match bench.user(k, &UserCall::Take)? {
        UserAnswer::Frames(frames) => Ok(frames),
        _ => unreachable!(),
    }
}

/// Takes and tells the frames of the channel shards, ascending.
fn tell_chans(
    alloc: Global,
    bench: &mut Bench,
    count: u64,
    seats: &mut Vec<Option<Seat>>,
    out: &mut Vec<u8>,
) -> Result<(), Memory>
    requires { count ≡ length bench.old.shards }
    ensures tells { (sockets : List Socket) (shards : Shards) → AreSeats seats.old.items sockets → IsAtShards bench.old shards →
        OnOk result (TellsChans count bench.new seats.new.items out.old.items out.new.items sockets shards) }
    ensures sessions { SameSessions seats.old.items seats.new.items }
    ensures shards { length bench.new.shards ≡ length bench.old.shards }
    ensures users { bench.new.users ≡ bench.old.users }
{
    for k in 0..count {
        let frames = take_chan(bench, k)?;
        tell_all(alloc, seats, frames, out)?;
    }
    Ok(())
}

/// Takes and tells the frames of the user shards, ascending.
fn tell_users(
    alloc: Global,
    bench: &mut Bench,
    count: u64,
    seats: &mut Vec<Option<Seat>>,
    out: &mut Vec<u8>,
) -> Result<(), Memory>
    requires { count ≡ length bench.old.users }
    ensures tells { (sockets : List Socket) (shards : Shards) → AreSeats seats.old.items sockets → IsAtShards bench.old shards →
        OnOk result (TellsUsers count bench.new seats.new.items out.old.items out.new.items sockets shards) }
    ensures sessions { SameSessions seats.old.items seats.new.items }
    ensures users { length bench.new.users ≡ length bench.old.users }
    ensures shards { bench.new.shards ≡ bench.old.shards }
{
    for k in 0..count {
        let frames = take_user(bench, k)?;
        tell_all(alloc, seats, frames, out)?;
    }
    Ok(())
}

/// One round: the frames that wait are taken and told.
fn take_round(
    alloc: Global,
    config: &Config,
    bench: &mut Bench,
    seats: &mut Vec<Option<Seat>>,
    out: &mut Vec<u8>,
) -> Result<(), Memory>
    requires { HasShards config.now bench.old }
    ensures tells { (sockets : List Socket) (shards : Shards) → AreSeats seats.old.items sockets → IsAtShards bench.old shards →
        OnOk result (TellsRound config.now bench.new seats.new.items out.old.items out.new.items sockets shards) }
    ensures sessions { SameSessions seats.old.items seats.new.items }
    ensures shards { HasShards config.now bench.new }
{
    tell_chans(alloc, bench, config.chan_shards, seats, out)?;
    tell_users(alloc, bench, config.user_shards, seats, out)
}

/// Whether there is a seat here whose connection ended.
fn has_ended(seat: &Option<Seat>) -> bool
    ensures { result ≡ is_some (ended_in seat.now) }
{
    match seat {
        Some(seat) => !seat.is_open,
        None => false,
    }
}

/// The session of the seat at this place, which is taken out, if its connection ended.
fn take_ended(seats: &mut Vec<Option<Seat>>, i: usize) -> Option<Session>
    requires place { i < length seats.old.items }
    ensures taken { result ≡ ended_in (slice_index_or seats.old.items i None) }
    ensures left { seats.new.items ≡ slice_set seats.old.items i (open_in (slice_index_or seats.old.items i None)) }
{
    if !has_ended(&seats[i]) {
        return None;
    }
    let seat = seats[i].take()?;
    Some(seat.session)
}

/// Makes the losses of the socket at this place, if its connection ended, and tells whether it did.
fn lose_one(
    config: &Config,
    bench: &mut Bench,
    seats: &mut Vec<Option<Seat>>,
    i: usize,
    at: u64,
) -> Result<bool, Memory>
    requires moment { IsMoment at }
    requires shards { HasShards config.now bench.old }
    requires place { i < length seats.old.items }
    requires few { length seats.old.items ≤ MOST_OPENED }
    requires ready { IfSome (slice_index_or seats.old.items i None) (λ seat. IsReady config.now (i + 1) seat.session) }
    ensures loses { (before after : Socket) (shards : Shards) → before.is_open ≡ is_some (slice_index_or seats.old.items i None)
        → IsSeatOf (i + 1) (slice_index_or seats.old.items i None) after → IsAtShards bench.old shards
        → IfOk result (LosesOne (i + 1) at bench.new before after shards) }
    ensures left { seats.new.items ≡ slice_set seats.old.items i (open_in (slice_index_or seats.old.items i None)) }
    ensures shards { HasShards config.now bench.new }
{
    match take_ended(seats, i) {
        Some(session) => {
            lose(&(), bench, session, i as u64 + 1, at)?;
            bench.alone();
            Ok(true)
        }
        None => Ok(false),
    }
}

/// Makes the losses of the sockets whose connection ended, and tells whether there was one.
fn lose_ended(
    config: &Config,
    bench: &mut Bench,
    seats: &mut Vec<Option<Seat>>,
    at: u64,
) -> Result<bool, Memory>
    requires moment { IsMoment at }
    requires shards { HasShards config.now bench.old }
    requires ready { AreReady config.now seats.old.items }
    requires few { length seats.old.items ≤ MOST_OPENED }
    ensures loses { (before after : List Socket) (shards : Shards) → WereOpen before seats.old.items → AreSeats seats.old.items after → IsAtShards bench.old shards
        → IfOk result (LosesEnded at bench.new seats.new.items before after shards) }
    ensures ready { OnOk result (AreReady config.now seats.new.items) }
    ensures open { OnOk result (AllOpen seats.new.items) }
    ensures count { length seats.new.items ≡ length seats.old.items }
    ensures shards { HasShards config.now bench.new }
{
    let mut any = false;
    for i in 0..seats.len() {
        let ended = lose_one(config, bench, seats, i, at)?;
        any = any || ended;
    }
    Ok(any)
}

/// One round, with the losses of those that ended: tells whether there was one.
fn run_round(
    alloc: Global,
    config: &Config,
    bench: &mut Bench,
    seats: &mut Vec<Option<Seat>>,
    at: u64,
    out: &mut Vec<u8>,
) -> Result<bool, Memory>
    requires moment { IsMoment at }
    requires shards { HasShards config.now bench.old }
    requires ready { AreReady config.now seats.old.items }
    requires open { AllOpen seats.old.items }
    requires few { length seats.old.items ≤ MOST_OPENED }
    ensures runs { (sockets : List Socket) (shards : Shards) → AreSeats seats.old.items sockets → IsAtShards bench.old shards
        → IfOk result (RunsRound config.now at bench.new seats.new.items out.old.items out.new.items sockets shards) }
    ensures shards { HasShards config.now bench.new }
    ensures ready { OnOk result (AreReady config.now seats.new.items) }
    ensures open { OnOk result (AllOpen seats.new.items) }
    ensures count { length seats.new.items ≡ length seats.old.items }
{
    take_round(alloc, config, bench, seats, out)?;
    lose_ended(config, bench, seats, at)
}

/// The end of a line: rounds until one in which no connection ended, each with the losses of those that did.
pub fn rounds(
    alloc: Global,
    config: &Config,
    bench: &mut Bench,
    seats: &mut Vec<Option<Seat>>,
    at: u64,
    out: &mut Vec<u8>,
) -> Result<(), Memory>
    requires config { IsConfig config.now }
    requires moment { IsMoment at }
    requires shards { HasShards config.now bench.old }
    requires ready { AreReady config.now seats.old.items }
    requires open { AllOpen seats.old.items }
    requires few { length seats.old.items ≤ MOST_OPENED }
    ensures runs { (sockets : List Socket) (shards : Shards) → AreSeats seats.old.items sockets → IsAtShards bench.old shards →
        OnOk result (RunsRounds bench.new seats.new.items out.old.items out.new.items (rounds (length sockets + 1) config.now at sockets shards)) }
    ensures shards { HasShards config.now bench.new }
    ensures ready { OnOk result (AreReady config.now seats.new.items) }
    ensures open { OnOk result (AllOpen seats.new.items) }
    ensures count { length seats.new.items ≡ length seats.old.items }
{
    for _round in 0..seats.len() + 1 {
        let ended = run_round(alloc, config, bench, seats, at, out)?;
        if !ended {
            return Ok(());
        }
    }
    Ok(())
}
