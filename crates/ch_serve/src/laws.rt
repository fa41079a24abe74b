//! What the definitions say of connections.
ghost use Rattle.ch_serve.specs.Accepting.{AreNumberedOnce};

/// The connections that an accepting thread puts into the intake have ascending numbers from 1, so no number comes twice.
pub fn connections_are_numbered_once<L>()
    ensures { AreNumberedOnce L }
{}
