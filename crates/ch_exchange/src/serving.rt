ghost use Rattle.std.specs.Prelude.{◌≡◌, None};
ghost use Rattle.ch_config.specs.Config.{IsConfig};
ghost use Rattle.ch_desk.specs.Views.{IsDeskOf};
ghost use Rattle.ch_history.specs.Limits.{IsMoment};
ghost use Rattle.ch_requests.specs.Verdict.{IsVerdict};
ghost use Rattle.ch_exchange.specs.Answers.{is_late};
ghost use Rattle.ch_exchange.specs.Hearing.{Answers, Serves, with_bytes};

use crate::pending::PendingReply;
use crate::replies::{closing, refused, shaken};
use ch_answer::answer;
use ch_config::Config;
use ch_desk::Desk;
use ch_http::{Look, Request, RequestReader, head_within};
use std::alloc::Global;
use std::marker::Model;

/// The server of an app at the moment `now`, in milliseconds. `start` is the second of its start.
#[derive(Drop)]
pub(crate) struct Serving<'a> {
    pub(crate) alloc: Global,
    pub(crate) config: &'a Config,
    pub(crate) start: u64,
    pub(crate) now: u64,
}

impl<'a> Model for Serving<'a> {
    ghost use Rattle.ch_answer.specs.Answers.{Serving};

    ghost Value = { Serving };

    ghost view = { λ s. record { config = s.config.now; start = s.start; now = s.now } };
}

impl<'a> Serving<'a> {
    /// Hears bytes that came, and makes the reply to all of them, if they are more than a part of a request.
    pub(crate) fn hear<R, D: Desk<R>>(
        &self,
        rt: &R,
        desk: &mut D,
        reader: &mut RequestReader,
        bytes: &[u8],
    ) -> Option<PendingReply>
        requires config { IsConfig self.now.config }
        requires desk { IsDeskOf self.now.config (D.view desk.old) }
        requires now { IsMoment self.now.now }
        ensures answers { Answers self.entry.now (with_bytes reader.old bytes.now)
            (D.view desk.old) (D.view desk.new) result }
        ensures reader { result ≡ None → reader.new ≡ with_bytes reader.old bytes.now }
        ensures desk { IsDeskOf self.entry.now.config (D.view desk.new) }
    {
        let Ok(()) = reader.feed(bytes) else {
            return Some(PendingReply::out_of_memory());
        };
        let Ok(look) = reader.look(self.alloc, &self.config.app_id, self.now) else {
            return Some(PendingReply::out_of_memory());
        };
        self.reply_to(rt, desk, reader, &look)
    }

    /// Makes the reply to what all bytes are, if they are more than a part of a request.
    fn reply_to<R, D: Desk<R>>(
        &self,
        rt: &R,
        desk: &mut D,
        reader: &RequestReader,
        look: &Look,
    ) -> Option<PendingReply>
        requires config { IsConfig self.now.config }
        requires desk { IsDeskOf self.now.config (D.view desk.old) }
        requires now { IsMoment self.now.now }
        requires verdict { IsVerdict self.now.config.app_id reader.now.bytes
            (is_late reader.now.since self.now.now) look.now }
        ensures answers { Answers self.entry.now reader.now (D.view desk.old) (D.view desk.new) result }
        ensures desk { IsDeskOf self.entry.now.config (D.view desk.new) }
    {
        match look {
            Look::Need => None,
            Look::Upgrade(head) => {
                head_within();
                let reply = shaken(self.alloc, reader, head);
                Some(PendingReply::or_out_of_memory(reply))
            }
            Look::Ready(request) => Some(self.serve(rt, desk, request)),
            Look::Refuse(status) => {
                let reply = refused(self.alloc, *status);
                Some(PendingReply::or_out_of_memory(reply))
            }
        }
    }

    /// Makes the calls of a whole request, and the reply.
    fn serve<R, D: Desk<R>>(&self, rt: &R, desk: &mut D, request: &Request) -> PendingReply
        requires config { IsConfig self.now.config }
        requires desk { IsDeskOf self.now.config (D.view desk.old) }
        requires now { IsMoment self.now.now }
        ensures serves { Serves self.entry.now request.now (D.view desk.old) (D.view desk.new) result }
        ensures desk { IsDeskOf self.entry.now.config (D.view desk.new) }
    {
        match answer(
            self.alloc,
            rt,
            desk,
            self.config,
            self.start,
            request,
            self.now,
        ) {
            Ok(reply) => PendingReply::or_out_of_memory(closing(self.alloc, &reply)),
            Err(_memory) => PendingReply::out_of_memory(),
        }
    }
}
