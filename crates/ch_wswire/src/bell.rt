use ch_base::Memory;
use ch_edge::Wake;
use mio::{Registry, Token};
use std::alloc::Global;
use std::io;
use std::sync::Arc;
use std::sync::atomic::{AtomicU64, Ordering};

/// Nobody rang, and the owner is at work.
const AT_WORK: u64 = 0;

/// The owner rests, or is about to.
const RESTING: u64 = 1;

/// Somebody rang since the owner last heard.
const RUNG: u64 = 2;

/// What ends a rest from outside.
///
/// The system is called only for an owner that rests: to one at work, or one that has been rung, a ring is a step on a
/// word. The owner hears before it looks at what the others left it, so what was left before a ring is seen after it.
#[derive(Drop)]
pub struct Bell {
    state: AtomicU64,
    waker: mio::Waker,
}

impl Bell {
    pub fn new(registry: &Registry, token: Token) -> io::Result<Bell> {
        Ok(Bell {
            state: AtomicU64::new(AT_WORK),
            waker: mio::Waker::new(registry, token)?,
        })
    }

    pub fn ring(&self) {
        if self.state.swap(RUNG, Ordering::SeqCst) == RESTING {
            // A wake that fails costs one pause.
            let _ = self.waker.wake();
        }
    }

    /// Whether the owner may rest: nobody rang since it last heard. From now on a ring ends the rest.
    pub fn may_rest(&self) -> bool {
        self.state
            .compare_exchange(AT_WORK, RESTING, Ordering::SeqCst, Ordering::SeqCst)
            .is_ok()
    }

    /// The owner is back at work, and looks next at what was left for it.
    pub fn hear(&self) {
        self.state.store(AT_WORK, Ordering::SeqCst);
    }
}

/// Rings a poller's bell.
#[derive(Drop)]
pub struct PollWaker {
    bell: Arc<Bell, Global>,
}

impl PollWaker {
    /// Rings this bell.
    pub(crate) fn of(bell: &Arc<Bell, Global>) -> Result<PollWaker, Memory> {
        Ok(PollWaker {
            bell: Arc::try_clone(bell)?,
        })
    }
}

impl Wake for PollWaker {
    fn wake(&self) {
        self.bell.ring();
    }
}
