ghost use Rattle.std.specs.Prelude.{◌≡◌};

/// A field of a configuration, in the order in which they are judged.
#[derive(Clone, Copy, Debug, PartialEq, Eq)]
pub enum Field {
    /// 1 to `LONGEST_WORD` letters or digits. It has to be there.
    AppId,
    /// 1 to `LONGEST_WORD` letters or digits. It has to be there.
    Key,
    /// 1 to `LONGEST_SECRET` bytes. It has to be there.
    Secret,
    /// `true` or `false`, and `true` where it isn't there.
    ClientEvents,
    /// 1 to `MAX_SHARDS`, and `DEFAULT_SHARDS` where it isn't there.
    ChanShards,
    /// 1 to `MAX_SHARDS`, and `DEFAULT_SHARDS` where it isn't there.
    UserShards,
    /// 1 to `MAX_WORKERS`, and `DEFAULT_WORKERS` where it isn't there.
    Workers,
    /// `<IPv4 address>:<port>`, and `127.0.0.1:6001` where it isn't there.
    Listen,
    /// `http://<host>:<port>/<path>`, and no target where it isn't there.
    Webhook,
}

impl Field {
    ghost use Rattle.ch_config_text.specs.Fields.{field_name};

    /// The field's name in the text.
    pub fn name(self) -> &'static str
        ensures { result.now ≡ field_name self }
    {
        match self {
            Field::AppId => "app_id",
            Field::Key => "key",
            Field::Secret => "secret",
            Field::ClientEvents => "client_events",
            Field::ChanShards => "chan_shards",
            Field::UserShards => "user_shards",
            Field::Workers => "workers",
            Field::Listen => "listen",
            Field::Webhook => "webhook",
        }
    }
}
