ghost use Rattle.ch_worker.specs.Laws.{AllIsDone, ArrivalsAreLetIn, EachShardIsTaken, IdleIsTold, LeaversAreGone};
ghost use Rattle.ch_worker.specs.Laws.{MemoryIsTold, NobodyIsLost, TurnsChain, TurnsCount, TurnsMake, UpgradesAreMade};

use ch_net::Link;

/// Unless a turn ran out of memory, each shard has its Take, those who were leaving have all their losses, and each
/// upgrade was made.
pub fn turns_are_whole()
    ensures takes { EachShardIsTaken }
    ensures leaving { LeaversAreGone }
    ensures upgrades { UpgradesAreMade }
{}

/// A turn answers Memory exactly where a part of it ran out of memory, and Idle exactly where each part is
/// idle.
pub fn answers_are_told()
    ensures memory { MemoryIsTold }
    ensures idle { IdleIsTold }
{}

/// The turns of a worker at one desk, one after another: the calls of its caller are those of each turn in
/// order, and the turns and those who were let in are counted.
pub fn turns_chain()
    ensures chain { TurnsChain }
    ensures calls { TurnsMake }
    ensures counts { TurnsCount }
{}

/// Over the turns of a worker, each client that was let in is still there or ended, and each that left still
/// leaves or has all its losses made. So where nobody was there and nobody is left, all is done.
pub fn nobody_is_lost()
    ensures counts { NobodyIsLost }
    ensures done { AllIsDone }
{}

/// Of the connections that are left, where they are known, a turn lets in the first, or none.
pub fn arrivals_are_let_in<L: Link>()
    ensures { ArrivalsAreLetIn L.told }
{}
