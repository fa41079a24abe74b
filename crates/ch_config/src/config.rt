ghost use Rattle.std.specs.Prelude.{◌≡◌, IfOk};

use crate::address::{Address, Target};
use ch_base::{Memory, Text};
use std::alloc::Global;

/// What a server is started with.
#[derive(Debug, PartialEq, Eq, Drop)]
pub struct Config {
    /// The app's id in paths of the HTTP API (Pusher Channels documentation, HTTP API): 1 to
    /// `LONGEST_WORD` letters or digits.
    pub app_id: Text,
    /// The app's public key: 1 to `LONGEST_WORD` letters or digits.
    pub key: Text,
    /// The app's secret, with which signatures are made: 1 to `LONGEST_SECRET` bytes.
    pub secret: Text,
    /// Whether sockets may send client events.
    pub client_events: bool,
    /// How many shards the channels are split over: 1 to `MAX_SHARDS`.
    pub chan_shards: u64,
    /// How many shards the users are split over: 1 to `MAX_SHARDS`.
    pub user_shards: u64,
    /// How many threads serve connections: 1 to `MAX_WORKERS`.
    pub workers: u64,
    /// Where connections are accepted.
    pub listen: Address,
    /// Where webhooks are posted. Without a target none is.
    pub webhook: Option<Target>,
}

impl Config {
    ghost use Rattle.ch_config.specs.Config.{IsConfig, built_in};

    /// The configuration that serves where none is given: the app `1` with the key `k` and the secret `s`,
    /// one shard of each kind, and the defaults of all else.
    pub fn built_in(alloc: Global) -> Result<Config, Memory>
        ensures built_in { IfOk result (λ config. config ≡ built_in) }
        ensures good { IfOk result IsConfig }
    {
        Ok(Config {
            app_id: Text::of(alloc, "1")?,
            key: Text::of(alloc, "k")?,
            secret: Text::of(alloc, "s")?,
            client_events: true,
            chan_shards: 1,
            user_shards: 1,
            workers: 2,
            listen: Address {
                host: [127, 0, 0, 1],
                port: 6001,
            },
            webhook: None,
        })
    }
}
