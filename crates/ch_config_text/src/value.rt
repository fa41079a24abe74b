ghost use Rattle.std.specs.Prelude.{◌≡◌, IfOk, MatchResult, true, Ok, Err};
ghost use Rattle.std.specs.List.{list_all};
ghost use Rattle.std.specs.Char.{is_ascii_alphanumeric};
ghost use Rattle.serde_json.specs.View.{view};
ghost use Rattle.serde_json.specs.Find.{as_str, as_bool};
ghost use Rattle.ch_config.specs.Config.{IsCount};
ghost use Rattle.ch_config_text.specs.Judging.{required, defaulted, Answers};
ghost use Rattle.ch_config_text.specs.Words.{is_word};
ghost use Rattle.ch_config_text.specs.Values.{word_in, secret_in, count_in, address_in, webhook_in};
ghost use Rattle.ch_config_text.specs.Addresses.{built_in_address};
ghost use Rattle.ch_config_text.specs.declared.field.Field.TheVariants.{ClientEvents, Listen, Webhook};

use crate::address::address;
use crate::fault::ConfigFault;
use crate::field::Field;
use crate::target::target;
use ch_base::Text;
use ch_config::{Address, LONGEST_SECRET, LONGEST_WORD, Target};
use serde_json::Value;
use std::alloc::Global;

/// The value of a field that is 1 to `LONGEST_WORD` letters or digits.
pub fn word(alloc: Global, object: &Value, field: Field) -> Result<Text, ConfigFault>
    ensures { Answers (required field word_in (view object.now)) result }
{
    let text = text_of(object, field)?;
    if !is_word(text) {
        return Err(ConfigFault::Bad(field));
    }
    Ok(Text::of(alloc, text)?)
}

/// The value of a field that is 1 to `LONGEST_SECRET` bytes.
pub fn secret(alloc: Global, object: &Value, field: Field) -> Result<Text, ConfigFault>
    ensures { Answers (required field secret_in (view object.now)) result }
{
    let text = text_of(object, field)?;
    if text.is_empty() || text.len() > LONGEST_SECRET {
        return Err(ConfigFault::Bad(field));
    }
    Ok(Text::of(alloc, text)?)
}

/// The text of a field that has to be there.
fn text_of(object: &Value, field: Field) -> Result<&str, ConfigFault>
    ensures { MatchResult result
        (λ text. required field as_str (view object.now) ≡ Ok text.now)
        (λ fault. required field as_str (view object.now) ≡ Err fault) }
{
    let Some(value) = object.get(field.name()) else {
        return Err(ConfigFault::Missing(field));
    };
    match value.as_str() {
        Some(text) => Ok(text),
        None => Err(ConfigFault::Bad(field)),
    }
}

/// Whether it is 1 to `LONGEST_WORD` letters or digits.
fn is_word(text: &str) -> bool
    ensures { result ≡ is_word text.now }
{
    !text.is_empty() && text.len() <= LONGEST_WORD && are_alphanumeric(text.as_bytes())
}

fn are_alphanumeric(bytes: &[u8]) -> bool
    ensures { result ≡ list_all is_ascii_alphanumeric bytes.now }
{
    bytes.iter().all(|byte| byte.is_ascii_alphanumeric())
}

/// Whether sockets may send client events.
pub fn client_events(object: &Value) -> Result<bool, ConfigFault>
    ensures { result ≡ defaulted ClientEvents true as_bool (view object.now) }
{
    let Some(value) = object.get(Field::ClientEvents.name()) else {
        return Ok(true);
    };
    match value.as_bool() {
        Some(is_allowed) => Ok(is_allowed),
        None => Err(ConfigFault::Bad(Field::ClientEvents)),
    }
}

/// The value of a field that is a number from 1 to `most`.
pub fn count(object: &Value, field: Field, most: u64, default: u64) -> Result<u64, ConfigFault>
    requires { IsCount most default }
    ensures value { result ≡ defaulted field default (count_in most) (view object.now) }
    ensures bounds { IfOk result (IsCount most) }
{
    let Some(value) = object.get(field.name()) else {
        return Ok(default);
    };
    match value.as_u64() {
        Some(n) if 1 <= n && n <= most => Ok(n),
        _ => Err(ConfigFault::Bad(field)),
    }
}

/// Where connections are accepted.
pub fn listen(object: &Value) -> Result<Address, ConfigFault>
    ensures { result ≡ defaulted Listen built_in_address address_in (view object.now) }
{
    let Some(value) = object.get(Field::Listen.name()) else {
        return Ok(Address {
            host: [127, 0, 0, 1],
            port: 6001,
        });
    };
    let Some(text) = value.as_str() else {
        return Err(ConfigFault::Bad(Field::Listen));
    };
    match address(text) {
        Some(address) => Ok(address),
        None => Err(ConfigFault::Bad(Field::Listen)),
    }
}

/// Where webhooks are posted.
pub fn webhook(alloc: Global, object: &Value) -> Result<Option<Target>, ConfigFault>
    ensures { Answers (defaulted Webhook None webhook_in (view object.now)) result }
{
    let Some(value) = object.get(Field::Webhook.name()) else {
        return Ok(None);
    };
    let Some(text) = value.as_str() else {
        return Err(ConfigFault::Bad(Field::Webhook));
    };
    match target(alloc, text)? {
        Some(target) => Ok(Some(target)),
        None => Err(ConfigFault::Bad(Field::Webhook)),
    }
}
