ghost use Rattle.std.specs.Prelude.{◌≡◌, List};
ghost use Rattle.ch_clients.specs.Clients.{all_handed};
ghost use Rattle.ch_desk.specs.Views.{IsSameDesk, MayAsk};
ghost use Rattle.ch_protocol.specs.Asks.{Asked};
ghost use Rattle.ch_protocol.specs.declared.ask.Made.TheVariants.{Chan, User};
ghost use Rattle.ch_worker.specs.Taking.{any_frames, chan_takes, each_take, frames_in, part_of_take, user_takes};
ghost use Rattle.ch_worker.specs.Takes.{IsTake, IsTakeAnswer, TakesEach, TakesOne, taken_frames};

use ch_base::{ChanAnswer, ChanCall, FrameList, UserAnswer, UserCall};
use ch_clients::{Clients, WorkerTurn};
use ch_desk::{Ask, Desk, Made, make};
use ch_net::Link;

/// Takes the frames that wait for the caller on each shard, and hands each to its client.
pub(crate) fn take_all<R, D: Desk<R>, L: Link>(
    rt: &R,
    desk: &mut D,
    clients: &mut Clients<L>,
) -> WorkerTurn
    ensures takes { (takes : List Asked)
        × TakesEach (each_take (D.view desk.old)) takes clients.old clients.new
        (D.view desk.old) (D.view desk.new) result }
    ensures same { IsSameDesk (D.view desk.old) (D.view desk.new) }
{
    let chans = take_chans(rt, desk, clients);
    let users = take_users(rt, desk, clients);
    chans.and(users)
}

/// The channel shards, ascending.
fn take_chans<R, D: Desk<R>, L: Link>(rt: &R, desk: &mut D, clients: &mut Clients<L>) -> WorkerTurn
    ensures takes { (takes : List Asked)
        × TakesEach (chan_takes (D.view desk.old)) takes clients.old clients.new
        (D.view desk.old) (D.view desk.new) result }
    ensures same { IsSameDesk (D.view desk.old) (D.view desk.new) }
{
    let mut part = WorkerTurn::Idle;
    let count = desk.chan_shards();
    for shard in 0..count {
        let ask = Ask::Chan {
            shard,
            call: ChanCall::Take,
        };
        part = part.and(take(rt, desk, &ask, clients));
    }
    part
}

/// The user shards, ascending.
fn take_users<R, D: Desk<R>, L: Link>(rt: &R, desk: &mut D, clients: &mut Clients<L>) -> WorkerTurn
    ensures takes { (takes : List Asked)
        × TakesEach (user_takes (D.view desk.old)) takes clients.old clients.new
        (D.view desk.old) (D.view desk.new) result }
    ensures same { IsSameDesk (D.view desk.old) (D.view desk.new) }
{
    let mut part = WorkerTurn::Idle;
    let count = desk.user_shards();
    for shard in 0..count {
        let ask = Ask::User {
            shard,
            call: UserCall::Take,
        };
        part = part.and(take(rt, desk, &ask, clients));
    }
    part
}

/// Takes the frames of one shard.
fn take<R, D: Desk<R>, L: Link>(
    rt: &R,
    desk: &mut D,
    ask: &Ask,
    clients: &mut Clients<L>,
) -> WorkerTurn
    requires may { MayAsk (D.view desk.old) ask.now }
    requires take { IsTake ask.now }
    ensures { (came : Asked)
        × TakesOne ask.now came clients.old clients.new (D.view desk.old) (D.view desk.new) result }
{
    let made = make(rt, desk, ask);
    hand_out(made, clients)
}

/// Hands each frame that a Take answered to its client.
fn hand_out<L: Link>(made: Made, clients: &mut Clients<L>) -> WorkerTurn
    requires { IsTakeAnswer made }
    ensures clients { clients.new
        ≡ record clients.old { connected = all_handed clients.old.connected (frames_in made) } }
    ensures answer { result ≡ part_of_take made }
{
    match frames_in(made) {
        Some(frames) => hand_all(frames, clients),
        None => WorkerTurn::Memory,
    }
}

/// The frames that a Take answered; none where there was no memory for it.
fn frames_in(made: Made) -> Option<FrameList>
    requires { IsTakeAnswer made }
    ensures { result ≡ taken_frames made }
{
    match made {
        Made::Chan(answer) => Some(frames_of_chan(answer)),
        Made::User(answer) => Some(frames_of_user(answer)),
        Made::Memory => None,
    }
}

fn frames_of_chan(answer: ChanAnswer) -> FrameList
    requires { IsTakeAnswer (Chan answer) }
    ensures { result ≡ frames_in (Chan answer) }
{
    match answer {
        ChanAnswer::Frames(frames) => frames,
        _ => unreachable!(),
    }
}

fn frames_of_user(answer: UserAnswer) -> FrameList
    requires { IsTakeAnswer (User answer) }
    ensures { result ≡ frames_in (User answer) }
{
    match answer {
        UserAnswer::Frames(frames) => frames,
        _ => unreachable!(),
    }
}

/// Hands each frame to its client.
fn hand_all<L: Link>(mut frames: FrameList, clients: &mut Clients<L>) -> WorkerTurn
    ensures clients { clients.new
        ≡ record clients.old { connected = all_handed clients.old.connected frames } }
    ensures answer { result ≡ any_frames frames }
{
    let part = any_frames(&frames);
    while let Some(frame) = frames.take_front() {
        clients.hand(frame);
    }
    part
}

fn any_frames(frames: &FrameList) -> WorkerTurn
    ensures { result ≡ any_frames frames.now }
{
    if frames.is_empty() {
        WorkerTurn::Idle
    } else {
        WorkerTurn::Moved
    }
}
