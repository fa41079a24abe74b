//! The names of an event.
ghost use Rattle.std.specs.Prelude.{◌≡◌};
ghost use Rattle.std.specs.List.{list_all};
ghost use Rattle.ch_history.specs.UserChannels.{is_subscribable};
ghost use Rattle.ch_requests.specs.Triggers.{is_socket_id};

use ch_base::Text;
use ch_names::{SocketId, is_subscribable, socket_number};

/// Whether it is two parts of 1 to 19 digits with a point between them.
pub fn is_socket_id(id: &str) -> bool
    ensures { result ≡ is_socket_id id.now }
{
    match socket_number(id, 0) {
        SocketId::Bad => false,
        SocketId::Stranger => true,
        SocketId::Here(_) => true,
    }
}

/// Whether all are names of channels to which sockets subscribe.
pub fn are_subscribable(names: &[Text]) -> bool
    ensures { result ≡ list_all is_subscribable names.now }
{
    names.iter().all(|name| is_subscribable(name.as_str()))
}
