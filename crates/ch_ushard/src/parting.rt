ghost use Rattle.std.specs.Prelude.{◌≡◌, ◌++◌, IfOk, OnOk, MatchResult, flat_map};
ghost use Rattle.ch_history.specs.SignIns.{users_of};
ghost use Rattle.ch_ushard.specs.UserShardState.{IsUnchanged, LostGives};
ghost use Rattle.ch_ushard.specs.Effects.{HasOwners, farewell};

use crate::effects::Effects;
use crate::shard::UserShard;
use crate::telling::{change, tell};
use ch_base::{Memory, Text, UserAnswer};
use ch_print::Press;
use ch_watch::Watches;

impl UserShard {
    pub(crate) fn lost(&mut self, socket: u64) -> Result<UserAnswer, Memory>
        ensures { MatchResult result (λ answer. LostGives self.old self.new socket answer) (λ _. IsUnchanged self.old self.new) }
    {
        let made = farewells(&mut self.press, &self.watches, socket)?;
        made.reserve(&mut self.outbox)?;
        let (signs, watches) = self.watches.lost(socket);
        made.deliver(&mut self.outbox);
        Ok(UserAnswer::Gone { signs, watches })
    }
}

/// What the loss of the socket makes: the ends of its sign-ins, ascending by user.
fn farewells(press: &mut Press, watches: &Watches, socket: u64) -> Result<Effects, Memory>
    requires { HasOwners watches.now }
    ensures { IfOk result (λ made. made ≡ flat_map (farewell watches.now socket) (users_of watches.now.signs socket)) }
{
    let mut made = Effects::new(press.alloc());
    for i in 0..watches.users_of(socket) {
        let user = watches.user_of(socket, i);
        part(press, watches, user, socket, &mut made)?;
    }
    Ok(made)
}

/// Where no other socket is signed in as the user, tells the other watchers of the user that it is
/// offline. The watches of the socket itself have ended before its sign-ins do.
fn part(
    press: &mut Press,
    watches: &Watches,
    user: &Text,
    socket: u64,
    made: &mut Effects,
) -> Result<(), Memory>
    requires { HasOwners watches.now }
    ensures { OnOk result (made.new ≡ made.old ++ farewell watches.now socket user.now) }
{
    if watches.has_other(socket, user) || watches.watchers(user) == 0 {
        return Ok(());
    }
    let printed = change(press, user, false)?;
    tell(watches, user, &printed, Some(socket), made)
}
