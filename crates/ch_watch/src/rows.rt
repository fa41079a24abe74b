ghost use Rattle.std.specs.Prelude.{◌≡◌, ◌==◌, not, IfOk};
ghost use Rattle.std.specs.List.{list_any};
ghost use Rattle.ch_history.specs.SignIns.{user_socket, of_user, has_one_of, has_any};

use ch_base::{Memory, Text};
use ch_history::UserSocket;
use ch_index::Index;
use std::alloc::Global;

/// Whether the socket has a row of the user.
pub fn is_of(index: &Index<UserSocket>, socket: u64, user: &Text) -> bool
    ensures { result ≡ has_one_of index.now socket user.now }
{
    index.has(socket, user)
}

/// Whether another socket has a row of the user.
pub fn has_other(index: &Index<UserSocket>, socket: u64, user: &Text) -> bool
    ensures { result ≡ list_any (λ r. not (r.socket == socket)) (of_user index.now user.now) }
{
    let mut walk = index.walk(user);
    'walk: while let Some(row) = walk.next() {
        if row.socket != socket {
            return true;
        }
    }
    false
}

/// Whether the user has a row.
pub fn has_any(index: &Index<UserSocket>, user: &Text) -> bool
    ensures { result ≡ has_any index.now user.now }
{
    let mut walk = index.walk(user);
    match walk.next() {
        Some(_) => true,
        None => false,
    }
}

/// A row with a copy of the user's id.
pub fn row(alloc: Global, socket: u64, user: &Text, owner: u64) -> Result<UserSocket, Memory>
    ensures { IfOk result (λ r. r ≡ user_socket owner socket user.now) }
{
    Ok(UserSocket {
        user: user.copy(alloc)?,
        socket,
        owner,
    })
}
