ghost use Rattle.std.specs.Prelude.{◌≡◌, []};
ghost use Rattle.ch_config.specs.Config.{IsConfig};
ghost use Rattle.ch_desk.specs.Views.{IsDeskOf};
ghost use Rattle.ch_history.specs.Limits.{IsMoment};
ghost use Rattle.ch_exchange.specs.Causes.{TurnHasCause};
ghost use Rattle.ch_exchange.specs.Hearing.{HasCourse};
ghost use Rattle.ch_exchange.specs.Turns.{Course, TakesCourse, IsUnfinished, HasMore, rest_of};
ghost use Rattle.ch_exchange.specs.declared.stage.Stage.TheVariants as stage;

use crate::limits::MOST_READ;
use crate::reading::read_once;
use crate::serving::Serving;
use crate::stage::Stage;
use crate::turn::{ExTurn, moved_or_idle};
use crate::writing::write_on;
use ch_base::Bytes;
use ch_config::Config;
use ch_desk::Desk;
use ch_http::RequestReader;
use ch_net::Link;
use std::alloc::Global;
use std::mem;

/// One exchange of a request and its reply, over a link. A moment is a number of milliseconds, at most `LATEST_MOMENT`.
#[derive(Drop)]
pub struct Exchange<L> {
    alloc: Global,
    pub link: L,
    pub stage: Stage,
}

impl<L> Exchange<L> {
    /// An exchange that begins at this moment. This takes no memory.
    pub fn new(alloc: Global, link: L, now: u64) -> Exchange<L>
        ensures stage { result.stage ≡ stage.Reading (record { bytes = []; since = now }) }
        ensures link { result.link ≡ link }
    {
        Exchange {
            alloc,
            link,
            stage: Stage::Reading(RequestReader::new(alloc, now)),
        }
    }

    /// The link, and after an upgrade the bytes that were read behind the head. This takes no memory.
    pub fn into_parts(self) -> (L, Bytes)
        ensures link { result.0 ≡ self.link }
        ensures rest { result.1 ≡ rest_of self.stage }
    {
        let rest = rest_of(self.alloc, self.stage);
        (self.link, rest)
    }
}

fn rest_of(alloc: Global, stage: Stage) -> Bytes
    ensures { result ≡ rest_of stage }
{
    match stage {
        Stage::Finished(rest) => rest,
        Stage::Reading(_) => Bytes::new(alloc),
        Stage::Replying(_) => Bytes::new(alloc),
    }
}

impl<L: Link> Exchange<L> {
    /// One turn at the moment `now`, of a server that started at the second `start`. Where no reply stands, it reads once, and
    /// judges all bytes that came: a whole request is answered at the desk. A request that isn't whole `LONGEST_WAIT` after
    /// the exchange began is refused with 408. Then a reply that stands is written as far as the link takes it. It may
    /// wait where the desk does.
    ///
    /// Where there is no memory the reply is that with 503, and the calls that were made stay made.
    pub fn turn<R, D: Desk<R>>(
        &mut self,
        rt: &R,
        desk: &mut D,
        config: &Config,
        start: u64,
        now: u64,
    ) -> ExTurn
        requires config { IsConfig config.now }
        requires desk { IsDeskOf config.now (D.view desk.old) }
        requires unfinished { IsUnfinished self.old.stage }
        requires now { IsMoment now }
        ensures course { (course : Course)
            × TakesCourse (record { config = config.now; start = start; now = now }) course
            (record { stage = self.old.stage; link = L.told self.old.link; desk = D.view desk.old })
            (record { stage = self.new.stage; link = L.told self.new.link; desk = D.view desk.new }) result }
        ensures shards { IsDeskOf config.now (D.view desk.new) }
        ensures goes_on { HasMore result → IsUnfinished self.new.stage }
        ensures cause { TurnHasCause result (L.told self.old.link).counts (L.told self.new.link).counts }
    {
        let serving = Serving {
            alloc: self.alloc,
            config,
            start,
            now,
        };
        let stage = mem::replace(&mut self.stage, Stage::Finished(Bytes::new(self.alloc)));
        let (stage, turn) = take_turn(&serving, rt, &mut self.link, desk, stage);
        self.stage = stage;
        turn
    }
}

/// A turn from one stage to the next.
fn take_turn<R, L: Link, D: Desk<R>>(
    serving: &Serving,
    rt: &R,
    link: &mut L,
    desk: &mut D,
    stage: Stage,
) -> (Stage, ExTurn)
    requires config { IsConfig serving.now.config }
    requires desk { IsDeskOf serving.now.config (D.view desk.old) }
    requires unfinished { IsUnfinished stage }
    requires now { IsMoment serving.now.now }
    ensures course { HasCourse serving.entry.now stage result.0
        (L.told link.old) (L.told link.new) (D.view desk.old) (D.view desk.new) result.1 }
    ensures desk { IsDeskOf serving.entry.now.config (D.view desk.new) }
{
    match stage {
        Stage::Reading(reader) => read_on(serving, rt, link, desk, reader),
        Stage::Replying(reply) => write_on(serving.alloc, link, reply, false),
        Stage::Finished(_) => unreachable!(),
    }
}

/// A turn that reads.
fn read_on<R, L: Link, D: Desk<R>>(
    serving: &Serving,
    rt: &R,
    link: &mut L,
    desk: &mut D,
    mut reader: RequestReader,
) -> (Stage, ExTurn)
    requires config { IsConfig serving.now.config }
    requires desk { IsDeskOf serving.now.config (D.view desk.old) }
    requires now { IsMoment serving.now.now }
    ensures course { HasCourse serving.entry.now (stage.Reading reader) result.0
        (L.told link.old) (L.told link.new) (D.view desk.old) (D.view desk.new) result.1 }
    ensures desk { IsDeskOf serving.entry.now.config (D.view desk.new) }
{
    let mut buffer = [0; MOST_READ];
    match read_once(link, &mut buffer) {
        Ok(count) => match serving.hear(rt, desk, &mut reader, &buffer[..count]) {
            Some(reply) => write_on(serving.alloc, link, reply, true),
            None => (Stage::Reading(reader), moved_or_idle(count > 0)),
        },
        Err(turn) => (Stage::Reading(reader), turn),
    }
}
