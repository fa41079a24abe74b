ghost use Rattle.std.specs.Prelude.{◌≤◌};
ghost use Rattle.ch_base.specs.declared.limits.TheConstants.{LATEST_MOMENT};

use crate::bell::{Bell, PollWaker};
use crate::ready::Ready;
use crate::tcp_link::TcpLink;
use ch_base::{LATEST_MOMENT, Memory};
use ch_edge::{Park, Pause};
use ch_io::Clock;
use mio::{Events, Interest, Poll, Token};
use std::alloc::Global;
use std::net::Net;
use std::sync::Arc;
use std::time::{Duration, SystemTime, UNIX_EPOCH};
use std::{io, thread, time};

/// The events that one rest gives. What is left over comes with the next.
const EVENTS: usize = 256;

/// The token of the bell. A socket's token is its place.
const BELL: Token = Token(usize::MAX);

/// How long a thread rests at most, by what the turn before it was like.
#[derive(Clone, Copy, Debug)]
pub struct Pauses {
    /// Where no event tells when to go on.
    pub short: Duration,
    /// Where an event or the bell does.
    pub long: Duration,
}

/// A thread's clock and its rest: for the events of the sockets that it has taken on, or for its bell.
///
/// A clock that can't be read, or that stands before 1970, gives the moment that it gave last.
#[derive(Drop)]
pub struct Poller<R: time::Clock + Drop> {
    rt: R,
    last: u64,
    pauses: Pauses,
    poll: Poll,
    events: Events<Global>,
    bell: Arc<Bell, Global>,
    // The marks of the sockets, by their tokens. Those whose stream is gone are free.
    places: Vec<Arc<Ready, Global>>,
    // Some socket couldn't be taken on.
    is_blind: bool,
    ghost moment: { last ≤ LATEST_MOMENT },
}

impl<R: time::Clock + Drop> Poller<R> {
    /// A poller with places for so many sockets. All its memory is taken here.
    pub fn new(
        rt: R,
        net: &impl Net,
        alloc: Global,
        sockets: usize,
        pauses: Pauses,
    ) -> io::Result<Poller<R>> {
        let poll = Poll::new(net)?;
        let bell = Arc::new(alloc, Bell::new(poll.registry(), BELL)?)?;
        let mut places = Vec::with_capacity(alloc, sockets)?;
        for _ in 0..sockets {
            places.push(Arc::new(alloc, Ready::new())?)?;
        }
        Ok(Poller {
            rt,
            last: 0,
            pauses,
            poll,
            events: Events::with_capacity(alloc, EVENTS)?,
            bell,
            places,
            is_blind: false,
        })
    }

    /// A place whose stream is gone, and its marks.
    fn free_place(&self) -> Option<(Token, Arc<Ready, Global>)> {
        let place = self
            .places
            .iter()
            .position(|ready| Arc::strong_count(ready) == 1)?;
        let ready = Arc::try_clone(self.places.get(place)?).ok()?;
        Some((Token(place), ready))
    }

    /// Marks the sockets that the last rest's events name. An event of a socket that is gone may mark its place's next
    /// one, which costs a call of the system.
    fn mark(&self) {
        for event in &self.events {
            if let Some(ready) = self.places.get(event.token().0) {
                ready.hear(event);
            }
        }
    }

    /// Whether bytes moved through a socket since this was last asked.
    fn take_moved(&self) -> bool {
        let mut moved = false;
        for ready in &self.places {
            if ready.take_moved() {
                moved = true;
            }
        }
        moved
    }

    /// How long the next rest may last.
    fn most(&self, pause: Pause) -> Duration {
        // A socket through which bytes moved may have more to do, of which no event tells: only after a refusal is the
        // next change reported.
        let moved = self.take_moved();
        match pause {
            Pause::None => Duration::ZERO,
            _ if moved => Duration::ZERO,
            Pause::Short => self.pauses.short,
            Pause::Long if self.is_blind => self.pauses.short,
            Pause::Long => self.pauses.long,
        }
    }

    /// A rest without the system's help: nothing is known of any socket.
    fn rest_blindly(&self, most: Duration) {
        for ready in &self.places {
            ready.forget();
        }
        thread::sleep(&self.rt, most.min(self.pauses.short));
    }
}

impl<R: time::Clock + Drop> Clock for Poller<R> {
    ghost use Rattle.std.specs.Prelude.{None};

    ghost coming = { λ _. None };

    fn now(&mut self) -> u64 {
        if let Ok(time) = SystemTime::now(&self.rt) {
            if let Ok(since) = time.duration_since(UNIX_EPOCH) {
                self.last = u64::try_from(since.as_millis())
                    .unwrap_or(LATEST_MOMENT)
                    .min(LATEST_MOMENT);
            }
        }
        self.last
    }
}

impl<R: time::Clock + Drop> Park<TcpLink> for Poller<R> {
    type Waker = PollWaker;

    fn waker(&self) -> Result<PollWaker, Memory> {
        PollWaker::of(&self.bell)
    }

    fn watch(&mut self, link: &mut TcpLink) {
        let Some((token, ready)) = self.free_place() else {
            self.is_blind = true;
            return;
        };
        ready.forget();
        let both = Interest::READABLE | Interest::WRITABLE;
        if link.register(self.poll.registry(), token, both).is_ok() {
            link.go_by(ready);
        } else {
            self.is_blind = true;
        }
    }

    fn park(&mut self, pause: Pause) {
        let most = self.most(pause);
        let rests = !most.is_zero() && self.bell.may_rest();
        let most = if rests { most } else { Duration::ZERO };
        let polled = self.poll.poll(&mut self.events, Some(most));
        self.bell.hear();
        match polled {
            Ok(()) => self.mark(),
            Err(_) => self.rest_blindly(most),
        }
    }
}
