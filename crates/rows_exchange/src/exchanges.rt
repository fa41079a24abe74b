//! An exchange from its first turn to its end.
ghost use Rattle.ch_config.specs.Config.{IsConfig};
ghost use Rattle.ch_desk.specs.Bench.{view_of};
ghost use Rattle.ch_desk.specs.Views.{IsDeskOf};
ghost use Rattle.ch_history.specs.Limits.{IsMoment};
ghost use Rattle.ch_exchange.specs.Turns.{IsUnfinished};

use ch_config::Config;
use ch_desk::Bench;
use ch_exchange::{ExTurn, Exchange};
use ch_net::MemLink;
use std::alloc::Global;
use std::test::Fail;

/// So many turns are taken at most.
const MOST_TURNS: u64 = 300;

/// Takes turns at one moment until the exchange ends, and answers how. It answers `Idle` where the exchange hasn't ended in so
/// many turns.
pub fn last_turn<R>(
    rt: &R,
    exchange: &mut Exchange<MemLink>,
    desk: &mut Bench,
    config: &Config,
    now: u64,
) -> ExTurn
    requires config { IsConfig config.now }
    requires desk { IsDeskOf config.now (view_of desk.old) }
    requires unfinished { IsUnfinished exchange.old.stage }
    requires now { IsMoment now }
{
    for _turn in 0..MOST_TURNS {
        match exchange.turn(rt, desk, config, 0, now) {
            ExTurn::Moved => {}
            ExTurn::Idle => {}
            turn => return turn,
        }
    }
    ExTurn::Idle
}

/// How an exchange over this link ends that begins at the moment 1,000,000 and has all its turns at the moment `now`, and what it
/// wrote.
pub fn exchanged<R>(
    rt: &R,
    alloc: Global,
    link: MemLink,
    now: u64,
) -> Result<(ExTurn, Vec<u8>), Fail>
    requires { IsMoment now }
{
    let config = Config::built_in(alloc)?;
    let mut bench = Bench::new(alloc, config.chan_shards, config.user_shards)?;
    let mut exchange = Exchange::new(alloc, link, 1_000_000);
    let turn = last_turn(rt, &mut exchange, &mut bench, &config, now);
    Ok((turn, exchange.link.written().to_vec(alloc)?))
}
