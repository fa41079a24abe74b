ghost use Rattle.std.specs.Prelude.{◌≡◌};

use ch_base::Memory;
use ch_io::Clock;
use ch_net::Link;

/// Ends another thread's rest.
pub trait Wake {
    /// Has the rest of [`Park::park`] that is under way, or else the next one, end at once. It may be called at any time
    /// and never waits. A wake that is lost costs one pause.
    fn wake(&self);
}

/// How long a rest may last.
#[derive(Clone, Copy, Debug, PartialEq, Eq)]
pub enum Pause {
    /// Not at all: the turn before it moved something, so the next may too.
    None,
    /// A short while, a few milliseconds: the turn before it wanted memory, and no event tells when there is some.
    Short,
    /// Until something has come or somebody wakes the thread, a quarter of a second at most.
    Long,
}

/// What a thread does between two turns over links `L`, and its clock.
///
/// It never tells what is ready: whoever turns asks each link, which asks for patience by itself. So no result of a turn
/// rests on it, and over memory it does nothing, as the methods that aren't overridden.
pub trait Park<L: Link>: Clock {
    type Waker: Wake + Drop;

    /// A handle for other threads, with which they end this thread's rest.
    fn waker(&self) -> Result<Self::Waker, Memory>;

    /// Takes on a link that this thread has been given, so that what comes over it ends a rest. A link that can't be
    /// taken on serves all the same, at the pace of short pauses.
    fn watch(&mut self, link: &mut L)
        ensures clock { Self.coming self.new ≡ Self.coming self.old }
        ensures link { L.told link.new ≡ L.told link.old }
    {
        let _ = link;
    }

    /// Finds out which links have become ready, and rests for at most the pause. It takes no moment of the clock.
    fn park(&mut self, pause: Pause)
        ensures clock { Self.coming self.new ≡ Self.coming self.old }
    {
        let _ = pause;
    }
}
