ghost use Rattle.std.specs.Prelude.{◌≡◌, ◌<◌, ◌-◌, ◌^◌, ℕ, List, [], ◌∷◌, ◌++◌, IsOk, IfOk, MatchResult, min};
ghost use Rattle.ch_base.specs.Growth.{entry};
ghost use Rattle.ch_base.specs.declared.limits.TheConstants.{MAX_CALLERS};

use ch_base::{Memory, UserAnswer, UserCall};
use ch_outbox::Outbox;
use ch_print::Press;
use ch_watch::Watches;
use std::alloc::Global;
use std::marker::Model;

/// A user shard, by plain lists of its sign-ins, its watches and each caller's waiting frames, with the press for the
/// frames of each call.
#[derive(Drop)]
pub struct UserShard {
    pub(crate) alloc: Global,
    pub(crate) watches: Watches,
    pub(crate) press: Press,
    pub(crate) outbox: Outbox,
}

impl Model for UserShard {
    ghost use Rattle.ch_ushard.specs.UserShardState.{UserShardState};
    ghost use Rattle.ch_ushard.specs.Effects.{HasOwners};

    ghost Value = { UserShardState };

    ghost view = { λ s. record { users = s.watches; outbox = s.outbox } };

    ghost invariant = { λ s. HasOwners s.watches };
}

impl UserShard {
    ghost use Rattle.ch_history.specs.Entries.{UserHistory};
    ghost use Rattle.ch_history.specs.UserLegal.{IsUserWellFormed};
    ghost use Rattle.ch_history.specs.UserLaws.{WatchAlternates};
    ghost use Rattle.ch_history.specs.AnswerKinds.{IsUserAnswerTo};
    ghost use Rattle.ch_ushard.specs.Stands.{Stands};
    ghost use Rattle.ch_ushard.specs.OpenSigns.{open_signs};

    /// A shard without sign-ins and watches. It stands for the empty history.
    pub fn new(alloc: Global) -> Result<UserShard, Memory>
        ensures { IfOk result (λ shard. Stands shard []) }
    {
        Ok(UserShard {
            alloc,
            watches: Watches::new(alloc),
            press: Press::new(alloc),
            outbox: Outbox::new(alloc),
        })
    }

    /// Serves one call of a caller, who has a number below `MAX_CALLERS`.
    ///
    /// All memory of a call is taken before its first change. Of every history that the shard then
    /// stands for the law of watchers holds: while a socket watches a user, the online and offline
    /// frames that it is sent alternate and end at whether the user is online (Pusher Channels
    /// documentation, "Watchlist events").
    pub fn apply(&mut self, caller: u64, call: &UserCall) -> Result<UserAnswer, Memory>
        requires caller { caller < MAX_CALLERS }
        requires formed { IsUserWellFormed call.now }
        ensures stands { (h : UserHistory) → Stands self.old h → MatchResult result
            (λ answer. Stands self.new (h ++ entry caller call.now answer ∷ []))
            (λ _. Stands self.new h) }
        ensures take { call.now ≡ UserCall.Take → IsOk result }
        ensures kind { IfOk result (IsUserAnswerTo call.now) }
        ensures watchers { (h : UserHistory) → Stands self.new h → (socket : ℕ) (user : List ℕ) → WatchAlternates h socket user }
    {
        match call {
            UserCall::SignIn { socket, user, .. } => self.sign_in(caller, *socket, user),
            UserCall::Watch {
                socket,
                watched,
                ..
            } => self.watch(caller, *socket, watched),
            UserCall::Lost { socket, .. } => self.lost(*socket),
            UserCall::Terminate { user, .. } => self.terminate(user),
            UserCall::SendTo {
                user,
                event,
                body,
                ..
            } => self.send_to(user, event, body),
            UserCall::Take => Ok(self.take(caller)),
        }
    }

    /// How many sockets are signed in as users, each once for each of its users; at most 2^64 - 1.
    pub fn open_signs(&self) -> u64
        ensures { (h : UserHistory) → Stands self.now h → result ≡ min (open_signs h) (2 ^ 64 - 1) }
    {
        self.watches.open_signs()
    }

    /// How many texts of frames the shard has printed so far: one for each frame of a call, however many sockets get it.
    pub fn texts(&self) -> u64 {
        self.press.texts()
    }
}
