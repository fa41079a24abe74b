ghost use Rattle.std.specs.Prelude.{◌≤◌};
ghost use Rattle.ch_edge.specs.Ends.{DialHasCause, IfDialed, IsNewLink};

use ch_net::Link;

/// What dialling answers.
#[derive(Drop)]
pub enum Dialed<L> {
    /// The connection was made.
    Made(L),
    /// It wasn't made, and the count of faults rose.
    Failed,
}

/// Where connections to one receiver are made.
pub trait Dial {
    ghost use Rattle.std.specs.Prelude.{ℕ};

    type Conn: Link;

    /// Its count of faults, which stands still at its type's end.
    ghost faults: { Self → ℕ };

    /// Makes a connection.
    fn dial(&mut self) -> Dialed<Self::Conn>
        ensures new { IfDialed result (λ link. IsNewLink (Self.Conn.told link)) }
        ensures later { faults self.old ≤ faults self.new }
        ensures cause { DialHasCause result (faults self.old) (faults self.new) };
}
