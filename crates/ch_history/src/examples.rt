ghost use Rattle.ch_history.specs.NameExamples.{KindExamples, NameExamples, PlaceExamples};
ghost use Rattle.ch_history.specs.ChannelExamples.{ExceptedSocket, JoinedAgain, JoinedLate, TwoSockets, UserAgain, AnotherUser, CacheNewcomers, HalfAnHour, SlowCaller, ThreeChannelsLost, FullRoom};
ghost use Rattle.ch_history.specs.UserExamples.{TwoSignedIn, WatchedLate, WatchesItself};

/// Names of each kind, good names and bad ones, and the shards of names by the test values of the
/// FNV draft.
pub fn name_examples_hold()
    ensures kinds { KindExamples }
    ensures good { NameExamples }
    ensures places { PlaceExamples }
{}

/// Worked histories of a channel shard: each frame, event and answer is what the definitions
/// compute.
pub fn channel_examples_hold()
    ensures excepted_socket { ExceptedSocket }
    ensures joined_again { JoinedAgain }
    ensures joined_late { JoinedLate }
    ensures two_sockets { TwoSockets }
    ensures user_again { UserAgain }
    ensures another_user { AnotherUser }
    ensures cache_newcomers { CacheNewcomers }
    ensures half_an_hour { HalfAnHour }
    ensures slow_caller { SlowCaller }
    ensures three_channels_lost { ThreeChannelsLost }
    ensures full_room { FullRoom }
{}

/// Worked histories of a user shard.
pub fn user_examples_hold()
    ensures two_signed_in { TwoSignedIn }
    ensures watched_late { WatchedLate }
    ensures watches_itself { WatchesItself }
{}
