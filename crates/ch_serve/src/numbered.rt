//! A connection on its way to a worker.
ghost use Rattle.ch_history.specs.Limits.{IsSocket};

use ch_net::Arrival;

/// A connection that came in, with its number, which a socket may have.
#[derive(Drop)]
pub struct Numbered<L> {
    pub arrival: Arrival<L>,
    pub ghost socket: { IsSocket arrival.number },
}
