ghost use Rattle.ch_io.specs.Counts.{NeverFall};
ghost use Rattle.ch_edge.specs.Ends.{AcceptHasCause, IfAccepted, IsNewLink};

use ch_net::Link;

/// What accepting answers.
#[derive(Drop)]
pub enum Accepted<L> {
    /// A connection came in.
    Made(L),
    /// None is here yet, and the count of stalls rose.
    NotYet,
    /// Accepting failed, and the count of faults rose.
    Failed,
}

/// Where connections come in.
///
/// A version may wait for a while before it answers `NotYet`, so that whoever calls it again and again needs no pause.
pub trait Accept {
    ghost use Rattle.ch_io.specs.declared.counts.Counts.{Counts};

    type Conn: Link;

    /// Its counts. Of the other side's ends it counts none. A count stands still at its type's end.
    ghost counts: { Self → Counts };

    /// The next connection, if one is here.
    fn accept(&mut self) -> Accepted<Self::Conn>
        ensures new { IfAccepted result (λ link. IsNewLink (Self.Conn.told link)) }
        ensures later { NeverFall (counts self.old) (counts self.new) }
        ensures cause { AcceptHasCause result (counts self.old) (counts self.new) };
}
