ghost use Rattle.std.specs.Prelude.{◌≡◌, IfOk};

use crate::copies::copy_config;
use ch_base::Memory;
use ch_config::Config;
use std::alloc::Global;

/// What clients are served with: the configuration, and the second of the server's start.
#[derive(Drop)]
pub(crate) struct Server {
    pub alloc: Global,
    pub config: Config,
    pub start: u64,
}

impl Server {
    pub(crate) fn new(alloc: Global, config: &Config, start: u64) -> Result<Server, Memory>
        ensures config { IfOk result (λ s. s.config ≡ config.now) }
        ensures start { IfOk result (λ s. s.start ≡ start) }
    {
        Ok(Server {
            alloc,
            config: copy_config(alloc, config)?,
            start,
        })
    }
}
