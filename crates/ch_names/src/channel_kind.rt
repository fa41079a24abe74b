ghost use Rattle.std.specs.Prelude.{◌≡◌};

/// What the beginning of a channel's name says of the channel (Pusher Channels, "Channels", "Channel
/// types").
#[derive(Clone, Copy, Debug, PartialEq, Eq)]
pub enum Kind {
    Public,
    Private,
    Presence,
    Encrypted,
    Cache,
    PrivateCache,
    PresenceCache,
    EncryptedCache,
}

impl Kind {
    ghost use Rattle.ch_history.specs.ChannelName as channel;
    ghost use Rattle.ch_names.specs.KindMeaning.{meaning};

    /// Whether a subscription has to be authorized.
    pub fn needs_auth(&self) -> bool
        ensures { result ≡ channel.needs_auth (meaning self.now) }
    {
        !matches!(self, Kind::Public | Kind::Cache)
    }

    /// Whether its subscribers are members that all subscribers see.
    pub fn presence(&self) -> bool
        ensures { result ≡ channel.has_members (meaning self.now) }
    {
        matches!(self, Kind::Presence | Kind::PresenceCache)
    }

    /// Whether it keeps its latest event for newcomers.
    pub fn cached(&self) -> bool
        ensures { result ≡ channel.keeps_event (meaning self.now) }
    {
        matches!(
            self,
            Kind::Cache | Kind::PrivateCache | Kind::PresenceCache | Kind::EncryptedCache
        )
    }

    /// Whether its subscribers may send client events.
    pub fn may_say(&self) -> bool
        ensures { result ≡ channel.may_say (meaning self.now) }
    {
        matches!(
            self,
            Kind::Private | Kind::Presence | Kind::PrivateCache | Kind::PresenceCache
        )
    }
}
