//! A desk in the house that notes what its caller leaves for others.
ghost use Rattle.std.specs.Prelude.{◌≡◌};

use ch_base::{ChanAnswer, ChanCall, Memory, UserAnswer, UserCall};
use ch_desk::Desk;
use ch_house::{House, HouseDesk, Passes};
use std::marker::Model;
use std::mem;
use std::sync::Wait;

/// The desk of one caller of a house, which notes whether a call may have left something for other callers. Contracts see
/// the caller's passes.
#[derive(Drop)]
pub struct NotedDesk<'a> {
    desk: HouseDesk<'a>,
    has_left: bool,
}

impl<'a> Model for NotedDesk<'a> {
    ghost use Rattle.ch_house.specs.Houses.{PassesModel};

    ghost Value = { PassesModel };

    ghost view = { λ d. d.desk };
}

impl<'a> NotedDesk<'a> {
    /// The desk of the caller that has these passes of the house.
    pub fn new(house: &'a House, passes: Passes) -> NotedDesk<'a>
        requires { passes.house ≡ house.now }
        ensures { result ≡ passes }
    {
        NotedDesk {
            desk: HouseDesk::new(house, passes),
            has_left: false,
        }
    }

    /// The caller's passes, with what it has seen.
    pub fn into_passes(self) -> Passes
        ensures { result ≡ self.entry }
    {
        let NotedDesk { desk, has_left: _ } = self;
        desk.into_passes()
    }

    /// Whether a call since this was asked last may have left frames or webhook events for others.
    pub fn take_left(&mut self) -> bool
        ensures { self.new ≡ self.old }
    {
        mem::replace(&mut self.has_left, false)
    }
}

/// Whether a call on a channel shard may leave frames or webhook events.
fn chan_leaves(call: &ChanCall) -> bool {
    match call {
        ChanCall::Join { .. }
        | ChanCall::Leave { .. }
        | ChanCall::Lost { .. }
        | ChanCall::Publish { .. }
        | ChanCall::Say { .. } => true,
        ChanCall::Take
        | ChanCall::TakeHooks { .. }
        | ChanCall::Names { .. }
        | ChanCall::Look { .. }
        | ChanCall::Users { .. } => false,
    }
}

/// Whether a call on a user shard may leave frames: all but a Take.
fn user_leaves(call: &UserCall) -> bool {
    match call {
        UserCall::Take => false,
        _ => true,
    }
}

impl<R: Wait> Desk<R> for NotedDesk<'_> {
    ghost use Rattle.ch_house.specs.DeskViews.{view_of};

    ghost view = { view_of };

    fn caller(&self) -> u64 {
        <HouseDesk<'_> as Desk<R>>::caller(&self.desk)
    }

    fn chan_shards(&self) -> u64 {
        <HouseDesk<'_> as Desk<R>>::chan_shards(&self.desk)
    }

    fn user_shards(&self) -> u64 {
        <HouseDesk<'_> as Desk<R>>::user_shards(&self.desk)
    }

    fn chan(&mut self, rt: &R, shard: u64, call: &ChanCall) -> Result<ChanAnswer, Memory> {
        if chan_leaves(call) {
            self.has_left = true;
        }
        <HouseDesk<'_> as Desk<R>>::chan(&mut self.desk, rt, shard, call)
    }

    fn user(&mut self, rt: &R, shard: u64, call: &UserCall) -> Result<UserAnswer, Memory> {
        if user_leaves(call) {
            self.has_left = true;
        }
        <HouseDesk<'_> as Desk<R>>::user(&mut self.desk, rt, shard, call)
    }
}
