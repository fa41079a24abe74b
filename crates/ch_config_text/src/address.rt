ghost use Rattle.std.specs.Prelude.{◌≡◌};
ghost use Rattle.ch_config_text.specs.Addresses.{octet_of, port_of, address_of};

use crate::number::number;
use crate::parts::{after, before};
use ch_config::Address;

/// The address and the port that a text gives, as in `127.0.0.1:6001`.
pub fn address(text: &str) -> Option<Address>
    ensures { result ≡ address_of text.now }
{
    let second_on = after(before(text, ':'), '.');
    let third_on = after(second_on, '.');
    let first = octet(before(before(text, ':'), '.'))?;
    let second = octet(before(second_on, '.'))?;
    let third = octet(before(third_on, '.'))?;
    let fourth = octet(after(third_on, '.'))?;
    let port = port(after(text, ':'))?;
    Some(Address {
        host: [first, second, third, fourth],
        port,
    })
}

/// A part of an address: 0 to 255 in decimal, without a leading zero.
fn octet(text: &str) -> Option<u8>
    ensures { result ≡ octet_of text.now }
{
    match number(text, 0, 255) {
        Some(n) => Some(n as u8),
        None => None,
    }
}

/// A port: 1 to 65,535 in decimal, without a leading zero.
pub fn port(text: &str) -> Option<u16>
    ensures { result ≡ port_of text.now }
{
    match number(text, 1, 65_535) {
        Some(n) => Some(n as u16),
        None => None,
    }
}
