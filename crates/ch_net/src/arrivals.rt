ghost use Rattle.std.specs.Prelude.{◌≤◌, IfSome};
ghost use Rattle.std.specs.Option.{option_to_list};
ghost use Rattle.ch_history.specs.Limits.{IsSocket};
ghost use Rattle.ch_io.specs.Known.{Takes};
ghost use Rattle.ch_net.specs.Arriving.{NoneHasCause};

use crate::link::Link;
use std::sync::Wait;

/// A connection that came in, and its number.
#[derive(Drop)]
pub struct Arrival<C> {
    pub number: u64,
    pub link: C,
}

/// The connections that come in for one worker, in order.
pub trait Arrivals {
    ghost use Rattle.ch_net.specs.Arriving.{ArrivalsTold};

    type Conn: Link;

    /// What is told of those that are left: the connections, where they are known, and the count of blanks.
    /// The count stands still at its type's end.
    ghost told: { Self → ArrivalsTold Self.Conn };

    /// The next connection, if one is here. Its number is at least 1 and at most 2^62. It may wait.
    fn next<R: Wait>(&mut self, rt: &R) -> Option<Arrival<Self::Conn>>
        ensures number { IfSome result (λ a. IsSocket a.number) }
        ensures left { Takes (told self.old).left (told self.new).left (option_to_list result) }
        ensures later { (told self.old).blanks ≤ (told self.new).blanks }
        ensures cause { NoneHasCause result (told self.old).blanks (told self.new).blanks };
}
