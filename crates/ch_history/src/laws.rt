ghost use Rattle.ch_history.specs.Laws.{OccupancyLaw, HeldLaw, MembershipLaw, CacheNewcomerLaw};
ghost use Rattle.ch_history.specs.UserLaws.{WatchersLaw};

/// `channel_occupied` and `channel_vacated` of each channel alternate in every legal history, and
/// end at whether a socket is subscribed or the channel's vacated notice is held.
pub fn occupancy_alternates()
    ensures { OccupancyLaw }
{}

/// A channel whose vacated notice is held has no subscription, and is held once; no notice that is held
/// is due.
pub fn held_channels_are_vacant()
    ensures { HeldLaw }
{}

/// `member_added` and `member_removed` of each user of each presence channel alternate in every
/// legal history, and end at whether the user is there.
pub fn membership_alternates()
    ensures { MembershipLaw }
{}

/// A newcomer of a cache channel is sent exactly one of the latest event and a cache miss.
pub fn cache_newcomers_are_told()
    ensures { CacheNewcomerLaw }
{}

/// While a socket watches a user, the online and offline frames that it is sent alternate in every
/// legal history, and end at whether the user is online.
pub fn watchers_are_told()
    ensures { WatchersLaw }
{}
