ghost use Rattle.std.specs.Prelude.{◌≡◌, ◌≤◌, ◌∷◌, ◌++◌, ℕ, List, map, IfOk, IfSome};
ghost use Rattle.ch_config.specs.Config.{IsConfig};
ghost use Rattle.ch_frames.specs.Checked.{IsGoodUser};
ghost use Rattle.ch_history.specs.Limits.{IsMoment};
ghost use Rattle.ch_history.specs.Placement.{shard_of};
ghost use Rattle.ch_protocol.specs.Settling.{SettledAsk};
ghost use Rattle.ch_protocol.specs.Sessions.{signs_in};
ghost use Rattle.ch_session.specs.Kept.{IsSession, HasShardsOf};
ghost use Rattle.ch_session.specs.Judging.{known, IsReady, sign_in_by, watch_by};

use crate::authorization::{authorizes_user, socket_id};
use crate::judged::Judged;
use crate::session::Session;
use crate::shard_row::ShardRow;
use crate::waiting::Waiting;
use ch_base::{ALREADY_SIGNED_IN, INVALID_USER_DATA, Memory, Text, UNAUTHORIZED, UserCall};
use ch_config::Config;
use ch_names::shard_of;
use ch_protocol::{Ask, AskList, Heard, UserData};
use std::alloc::Global;

impl Session {
    /// A sign-in of the user whose data these are, if they are anybody's.
    pub(crate) fn sign_in(
        &self,
        config: &Config,
        auth: Text,
        user_data: Text,
        user: Option<UserData>,
        now: u64,
    ) -> Result<Judged, Memory>
        requires config { IsConfig config.now }
        requires over { HasShardsOf self.now config.now }
        requires now { IsMoment now }
        requires user { IfSome user IsGoodUser }
        ensures judged { (start number : ℕ) (asks : List SettledAsk) → IsSession self.now start number asks →
            IfOk result (λ j. j.heard ≡ signs_in (known config.now start number asks now) auth user_data user) }
        ensures ready { IfOk result (IsReady self.now config.now user_data) }
    {
        if self.told.user().is_some() {
            return Ok(Judged::plain(Heard::Refuse(ALREADY_SIGNED_IN)));
        }
        let Some(user) = user else {
            return Ok(Judged::plain(Heard::Refuse(INVALID_USER_DATA)));
        };
        let id = socket_id(self.alloc, self.start, self.number)?;
        if !authorizes_user(config, id.as_str(), &auth, &user_data) {
            return Ok(Judged::plain(Heard::End(UNAUTHORIZED)));
        }
        signed_in(
            self.alloc,
            config.user_shards,
            self.number,
            user,
            user_data,
            now,
        )
    }
}

/// The sign-in, and a watch for each user of the watchlist.
fn signed_in(
    alloc: Global,
    shards: u64,
    socket: u64,
    user: UserData,
    user_data: Text,
    now: u64,
) -> Result<Judged, Memory>
    requires { 1 ≤ shards }
    ensures { IfOk result (λ j. j ≡ record {
      heard = Heard.Ask (sign_in_by socket now shards user.id ∷ map (watch_by socket now shards) user.watchlist);
      waits = Waiting.SignIn (shard_of user.id shards) user.id user_data (map (λ id. shard_of id shards) user.watchlist);
    }) }
{
    let shard = shard_of(user.id.as_str(), shards);
    let mut asks = AskList::new(alloc);
    asks.push(Ask::User {
        shard,
        call: UserCall::SignIn {
            socket,
            user: user.id.copy(alloc)?,
            at: now,
        },
    })?;
    let watches = watch_all(
        alloc,
        shards,
        socket,
        user.watchlist.as_slice(),
        &mut asks,
        now,
    )?;
    Ok(Judged {
        heard: Heard::Ask(asks),
        waits: Waiting::SignIn {
            shard,
            user: user.id,
            user_data,
            watches: ShardRow::of(watches),
        },
    })
}

/// Adds a watch for each of the users, and gives the shards of these watches.
fn watch_all(
    alloc: Global,
    shards: u64,
    socket: u64,
    watchlist: &[Text],
    asks: &mut AskList,
    now: u64,
) -> Result<Vec<u64>, Memory>
    requires { 1 ≤ shards }
    ensures watches { IfOk result (λ places. places.items ≡ map (λ id. shard_of id shards) watchlist.now) }
    ensures asks { IfOk result (λ places. asks.new ≡ asks.old ++ map (watch_by socket now shards) watchlist.now) }
{
    let mut places = Vec::new(alloc);
    for watched in watchlist {
        let shard = shard_of(watched.as_str(), shards);
        places.push(shard)?;
        asks.push(Ask::User {
            shard,
            call: UserCall::Watch {
                socket,
                watched: watched.copy(alloc)?,
                at: now,
            },
        })?;
    }
    Ok(places)
}
