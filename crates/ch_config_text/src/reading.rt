ghost use Rattle.std.specs.Prelude.{◌≡◌, ◌⊎◌, IfOk, MatchResult, Ok, Err};
ghost use Rattle.serde_json.specs.View.{view};
ghost use Rattle.ch_config.specs.Config.{IsConfig};
ghost use Rattle.ch_config_text.specs.Judging.{Answers};
ghost use Rattle.ch_config_text.specs.Config.{config_in, config_of};
ghost use Rattle.ch_config_text.specs.declared.fault.ConfigFault.TheVariants.{Memory};

use crate::fault::ConfigFault;
use crate::field::Field;
use crate::value::{client_events, count, listen, secret, webhook, word};
use ch_config::{Config, DEFAULT_SHARDS, DEFAULT_WORKERS, MAX_SHARDS, MAX_WORKERS};
use serde_json::Value;
use std::alloc::Global;

/// Reads a configuration from the bytes of a JSON object. Members that are no field are passed over, and of a
/// name that stands twice the last value counts.
///
/// The fault is the one of the first field at fault, in the order of [`Field`].
pub fn read_config(alloc: Global, bytes: &[u8]) -> Result<Config, ConfigFault>
    ensures judged { MatchResult result
        (λ config. config_in bytes.now ≡ Ok config)
        (λ fault. (fault ≡ Memory) ⊎ (config_in bytes.now ≡ Err fault)) }
    ensures good { IfOk result IsConfig }
{
    match Value::from_slice(alloc, bytes) {
        Ok(value) => judge(alloc, &value),
        Err(error) if error.is_memory() => Err(ConfigFault::Memory),
        Err(_) => Err(ConfigFault::NotJson),
    }
}

/// The configuration of a JSON value.
fn judge(alloc: Global, value: &Value) -> Result<Config, ConfigFault>
    ensures judged { Answers (config_of (view value.now)) result }
    ensures good { IfOk result IsConfig }
{
    if value.as_object().is_none() {
        return Err(ConfigFault::NotJson);
    }
    Ok(Config {
        app_id: word(alloc, value, Field::AppId)?,
        key: word(alloc, value, Field::Key)?,
        secret: secret(alloc, value, Field::Secret)?,
        client_events: client_events(value)?,
        chan_shards: count(value, Field::ChanShards, MAX_SHARDS, DEFAULT_SHARDS)?,
        user_shards: count(value, Field::UserShards, MAX_SHARDS, DEFAULT_SHARDS)?,
        workers: count(value, Field::Workers, MAX_WORKERS, DEFAULT_WORKERS)?,
        listen: listen(value)?,
        webhook: webhook(alloc, value)?,
    })
}
