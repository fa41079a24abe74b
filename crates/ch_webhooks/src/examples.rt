ghost use Rattle.ch_webhooks.specs.Examples.{Bodies, FiftyOneEvents};

/// Worked cuts: 50 events are one batch, 51 are two.
pub fn cuts_hold()
    ensures { FiftyOneEvents }
{}

/// Worked bodies, with events of each kind.
pub fn bodies_hold()
    ensures { Bodies }
{}
