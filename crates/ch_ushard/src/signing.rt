ghost use Rattle.std.specs.Prelude.{◌≡◌, ◌<◌, [], ◌∷◌, true, IfOk, MatchResult, if◌then◌else◌};
ghost use Rattle.ch_base.specs.declared.frame.Frame.TheVariants.{Watch};
ghost use Rattle.ch_base.specs.declared.limits.TheConstants.{MAX_CALLERS};
ghost use Rattle.ch_history.specs.Deliveries.{delivery};
ghost use Rattle.ch_history.specs.SignIns.{has_any};
ghost use Rattle.ch_ushard.specs.UserShardState.{IsUnchanged, SignInGives, WatchGives};

use crate::effects::Effects;
use crate::shard::UserShard;
use crate::telling::{change, greeting};
use ch_base::{Memory, Text, UserAnswer};
use ch_print::Press;
use ch_watch::{Holder, Watches};

impl UserShard {
    pub(crate) fn sign_in(
        &mut self,
        caller: u64,
        socket: u64,
        user: &Text,
    ) -> Result<UserAnswer, Memory>
        requires { caller < MAX_CALLERS }
        ensures { MatchResult result (λ answer. SignInGives self.old self.new caller socket user.now answer) (λ _. IsUnchanged self.old self.new) }
    {
        if self.watches.is_signed_in(socket, user) {
            return Ok(UserAnswer::AlreadyIn);
        }
        let made = greeting(&mut self.press, &self.watches, user)?;
        made.reserve(&mut self.outbox)?;
        self.watches.sign_in(socket, user, caller)?;
        made.deliver(&mut self.outbox);
        Ok(UserAnswer::SignedIn)
    }

    pub(crate) fn watch(
        &mut self,
        caller: u64,
        socket: u64,
        watched: &Text,
    ) -> Result<UserAnswer, Memory>
        requires { caller < MAX_CALLERS }
        ensures { MatchResult result (λ answer. WatchGives self.old self.new caller socket watched.now answer) (λ _. IsUnchanged self.old self.new) }
    {
        if self.watches.is_watching(socket, watched) {
            return Ok(UserAnswer::AlreadyWatching);
        }
        let watcher = Holder {
            socket,
            owner: caller,
        };
        let made = first_word(&mut self.press, &self.watches, watcher, watched)?;
        made.reserve(&mut self.outbox)?;
        self.watches.watch(socket, watched, caller)?;
        made.deliver(&mut self.outbox);
        Ok(UserAnswer::Watching)
    }
}

/// What tells a new watcher that the user is online, where it is.
fn first_word(
    press: &mut Press,
    watches: &Watches,
    watcher: Holder,
    user: &Text,
) -> Result<Effects, Memory>
    requires { watcher.owner < MAX_CALLERS }
    ensures { IfOk result (λ made. made ≡ (if has_any watches.now.signs user.now then delivery watcher.owner watcher.socket (Watch true user.now) ∷ [] else [])) }
{
    let mut made = Effects::new(press.alloc());
    if watches.is_online(user) {
        let printed = change(press, user, true)?;
        made.push(watcher, &printed)?;
    }
    Ok(made)
}
