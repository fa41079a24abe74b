ghost use Rattle.std.specs.Prelude.{◌≡◌};
ghost use Rattle.ch_session.specs.Waits.{chan_shard_of, waits_on};

use crate::shard_row::ShardRow;
use ch_base::Text;

/// The calls of the last message that wait to be settled, by what settling them takes.
#[derive(Debug, Drop)]
pub enum Waiting {
    Nothing,
    /// A Join on this channel shard.
    Join {
        shard: u64,
    },
    /// A Leave or a Say on this channel shard.
    Call {
        shard: u64,
    },
    /// The sign-in of the user on this user shard, with the data that the socket sent, and the shards of
    /// the watches after it.
    SignIn {
        shard: u64,
        user: Text,
        user_data: Text,
        watches: ShardRow,
    },
    /// Watches on these user shards, at least one.
    Watches(ShardRow),
}

impl Waiting {
    /// The channel shard on which a call waits; 0 where none does.
    pub fn chan_shard(&self) -> u64
        ensures { result ≡ chan_shard_of self.now }
    {
        match self {
            Waiting::Join { shard } | Waiting::Call { shard } => *shard,
            _ => 0,
        }
    }

    /// Watches on these shards, or nothing where there is none.
    pub fn on(watches: ShardRow) -> Waiting
        ensures { result ≡ waits_on watches }
    {
        if watches.is_empty() {
            Waiting::Nothing
        } else {
            Waiting::Watches(watches)
        }
    }
}
