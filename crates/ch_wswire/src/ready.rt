use mio::event::Event;
use std::sync::atomic::{AtomicBool, Ordering};

/// What is known of one socket: whether a read or a write may find something to do.
///
/// A mark that is set may be wrong, and costs one call of the system. A mark that is clear is right until the next event.
#[derive(Drop)]
pub struct Ready {
    readable: AtomicBool,
    writable: AtomicBool,
    // Bytes moved since the poller last asked, so that more may be done with no event to come.
    moved: AtomicBool,
}

impl Ready {
    /// The marks of a socket of which nothing is known: a read and a write may find something.
    pub fn new() -> Ready {
        Ready {
            readable: AtomicBool::new(true),
            writable: AtomicBool::new(true),
            moved: AtomicBool::new(false),
        }
    }

    /// Whether a read may find something.
    pub fn may_read(&self) -> bool {
        self.readable.load(Ordering::SeqCst)
    }

    /// Whether a write may find room.
    pub fn may_write(&self) -> bool {
        self.writable.load(Ordering::SeqCst)
    }

    /// Nothing is known of the socket any more.
    pub fn forget(&self) {
        self.readable.store(true, Ordering::SeqCst);
        self.writable.store(true, Ordering::SeqCst);
    }

    /// The system has refused a read.
    pub fn refuse_read(&self) {
        self.readable.store(false, Ordering::SeqCst);
    }

    /// The system has refused a write.
    pub fn refuse_write(&self) {
        self.writable.store(false, Ordering::SeqCst);
    }

    /// Bytes moved.
    pub fn count_move(&self) {
        self.moved.store(true, Ordering::SeqCst);
    }

    /// Whether bytes moved since this was last asked.
    pub fn take_moved(&self) -> bool {
        let moved = self.moved.load(Ordering::SeqCst);
        if moved {
            self.moved.store(false, Ordering::SeqCst);
        }
        moved
    }

    /// What an event says. A closed or broken socket answers both ways, so that its end is found.
    pub fn hear(&self, event: &Event) {
        if event.is_readable() || event.is_read_closed() || event.is_error() {
            self.readable.store(true, Ordering::SeqCst);
        }
        if event.is_writable() || event.is_write_closed() || event.is_error() {
            self.writable.store(true, Ordering::SeqCst);
        }
    }
}
