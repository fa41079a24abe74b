ghost use Rattle.ch_exchange.specs.Writing.{WritesOut, WritesOn, IsEnd};

use crate::pending::{After, PendingReply};
use crate::stage::Stage;
use crate::turn::{ExTurn, moved_or_idle};
use ch_base::Bytes;
use ch_net::{Link, LinkWrote};
use std::alloc::Global;

/// How far a reply was written.
#[derive(Clone, Copy, Debug, PartialEq, Eq)]
pub(crate) enum Writing {
    /// To its end.
    All,
    /// The link asked for patience.
    Waiting,
    /// The link failed.
    Failed,
}

/// Writes on at a reply, as far as the link takes it. `made` says whether it was made in this turn.
pub(crate) fn write_on<L: Link>(
    alloc: Global,
    link: &mut L,
    mut reply: PendingReply,
    made: bool,
) -> (Stage, ExTurn)
    ensures { WritesOn made reply (L.told link.old) (L.told link.new) result.0 result.1 }
{
    let before = reply.left().len();
    match write_out(link, &mut reply) {
        Writing::All => finish(alloc, reply),
        Writing::Waiting => {
            let moved = made || reply.left().len() < before;
            (Stage::Replying(reply), moved_or_idle(moved))
        }
        Writing::Failed => (Stage::Replying(reply), ExTurn::Fault),
    }
}

/// Writes what is left of a reply, as far as the link takes it.
fn write_out<L: Link>(link: &mut L, reply: &mut PendingReply) -> Writing
    ensures { WritesOut reply.old reply.new (L.told link.old) (L.told link.new) result }
{
    while !reply.left().is_empty() {
        match link.write(reply.left()) {
            LinkWrote::Wrote(count) => reply.wrote(count),
            LinkWrote::NotYet => return Writing::Waiting,
            LinkWrote::Failed => return Writing::Failed,
        }
    }
    Writing::All
}

/// The end of an exchange of which the whole reply is written.
fn finish(alloc: Global, reply: PendingReply) -> (Stage, ExTurn)
    ensures { IsEnd reply.after result.0 result.1 }
{
    match reply.into_after() {
        After::Close => (Stage::Finished(Bytes::new(alloc)), ExTurn::Done),
        After::Upgrade { target, rest } => (Stage::Finished(rest), ExTurn::Upgrade(target)),
    }
}
