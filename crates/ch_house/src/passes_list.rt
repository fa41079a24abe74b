//! The passes of all callers of a house.
ghost use Rattle.std.specs.Prelude.{◌≡◌, slice_index_or, slice_set, None, Some, IfSome};
ghost use Rattle.ch_house.specs.Houses.{passes_there, IsPasses};

use crate::counts::ShardCount;
use crate::passes::Passes;
use crate::row_passes::RowPasses;
use crate::row_passes_list::RowPassesList;
use ch_shard::ChanSeat;
use ch_ushard::UserSeat;
use std::marker::Model;

/// The passes for each caller number. Contracts see the house, and which passes are there.
#[derive(Drop)]
pub struct PassesList {
    pub(crate) chans: RowPassesList<ChanSeat>,
    pub(crate) users: RowPassesList<UserSeat>,
    // The counts of the closed house have their room here from the beginning.
    pub(crate) chan_room: Vec<ShardCount>,
    pub(crate) user_room: Vec<ShardCount>,
}

impl Model for PassesList {
    ghost use Rattle.std.specs.Prelude.{◌≡◌, ◌≤◌, [], length, vec_capacity};
    ghost use Rattle.ch_house.specs.Houses.{PassesListModel, all_passes};
    ghost use Rattle.ch_house.specs.Pairs.{IsPassesList};

    ghost Value = { PassesListModel };

    ghost view = { λ l. record {
      house = record { chans = l.chans.row; users = l.users.row };
      slots = all_passes l.chans.slots l.users.slots;
    } };

    ghost invariant = { λ l. IsPassesList l.chans l.users
        × (l.chan_room.items ≡ [])
        × (length l.chans.row.locks ≤ vec_capacity l.chan_room)
        × (l.user_room.items ≡ [])
        × (length l.users.row.locks ≤ vec_capacity l.user_room) };
}

impl PassesList {
    ghost use Rattle.ch_house.specs.Houses.{ArePassesOf};

    /// None where there are no passes of this number, or they were taken and not given back.
    pub fn take(&mut self, i: u64) -> Option<Passes>
        ensures taken { result ≡ slice_index_or self.old.slots i None }
        ensures rest { self.new ≡ record self.old { slots = slice_set self.old.slots i None } }
        ensures own { IfSome result (ArePassesOf self.old.house i) }
    {
        let chans = self.chans.take(i);
        let users = self.users.take(i);
        joined(chans, users)
    }

    /// Puts the passes of a caller back at its number.
    pub fn give(&mut self, passes: Passes)
        requires own { passes.house ≡ self.old.house }
        requires empty { slice_index_or self.old.slots passes.caller None ≡ None }
        ensures { self.new ≡ record self.old { slots = slice_set self.old.slots passes.caller (Some passes) } }
    {
        let Passes { chans, users } = passes;
        self.chans.give(chans);
        self.users.give(users);
    }
}

/// The passes of a caller of both rows, where both are there.
fn joined(chans: Option<RowPasses<ChanSeat>>, users: Option<RowPasses<UserSeat>>) -> Option<Passes>
    requires legal { IfSome (passes_there (chans, users)) IsPasses }
    requires caller { IfSome chans (λ c. IfSome users (λ u. u.caller ≡ c.caller)) }
    ensures { result ≡ passes_there (chans, users) }
{
    let chans = chans?;
    let users = users?;
    Some(Passes { chans, users })
}
