ghost use Rattle.std.specs.Prelude.{◌≡◌, IfOk};
ghost use Rattle.std.specs.List.{list_all};
ghost use Rattle.std.specs.Char.{is_ascii_graphic};
ghost use Rattle.ch_config_text.specs.Targets.{target_of, is_host, is_host_byte, is_path};

use crate::address::port;
use crate::parts::{after, before, from_first};
use ch_base::{Memory, Text};
use ch_config::Target;
use std::alloc::Global;

/// The target that a text gives, as in `http://localhost:8080/hooks`.
pub fn target(alloc: Global, text: &str) -> Result<Option<Target>, Memory>
    ensures { IfOk result (λ target. target ≡ target_of text.now) }
{
    let Some(rest) = text.strip_prefix("http://") else {
        return Ok(None);
    };
    let host = before(rest, ':');
    let path = from_first(after(rest, ':'), '/');
    if !is_host(host) || !is_path(path) {
        return Ok(None);
    }
    let Some(port) = port(before(after(rest, ':'), '/')) else {
        return Ok(None);
    };
    Ok(Some(Target {
        host: Text::of(alloc, host)?,
        port,
        path: Text::of(alloc, path)?,
    }))
}

/// Whether it is letters, digits, points and hyphens, and not empty.
fn is_host(text: &str) -> bool
    ensures { result ≡ is_host text.now }
{
    !text.is_empty() && are_host_bytes(text.as_bytes())
}

fn are_host_bytes(bytes: &[u8]) -> bool
    ensures { result ≡ list_all is_host_byte bytes.now }
{
    bytes.iter().all(|byte| is_host_byte(*byte))
}

fn is_host_byte(byte: u8) -> bool
    ensures { result ≡ is_host_byte byte }
{
    byte.is_ascii_alphanumeric() || byte == b'.' || byte == b'-'
}

/// Whether it is visible ASCII, and not empty.
fn is_path(text: &str) -> bool
    ensures { result ≡ is_path text.now }
{
    !text.is_empty() && are_visible(text.as_bytes())
}

fn are_visible(bytes: &[u8]) -> bool
    ensures { result ≡ list_all is_ascii_graphic bytes.now }
{
    bytes.iter().all(|byte| byte.is_ascii_graphic())
}
