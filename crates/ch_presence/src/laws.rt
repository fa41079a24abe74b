ghost use Rattle.ch_presence.specs.Subscribed.{UsersLaw, ChangesLaw};

/// The users of the open subscriptions' rows are those that the definitions of a history give.
pub fn users_are_of_subscriptions()
    ensures { UsersLaw }
{}

/// The open subscriptions' rows change as the subscriptions do.
pub fn rows_follow_subscriptions()
    ensures { ChangesLaw }
{}
