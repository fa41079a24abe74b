ghost use Rattle.ch_requests.specs.AuthorizationExamples.{AuthorizationExamples};
ghost use Rattle.ch_requests.specs.Examples.{Routes, Looks, Bodies, Handshakes};
ghost use Rattle.ch_requests.specs.PlanExamples.{EventPlans, QueryPlans};

/// Paths, heads, replies and handshakes are what the definitions compute.
pub fn examples_hold()
    ensures routes { Routes }
    ensures looks { Looks }
    ensures bodies { Bodies }
    ensures handshakes { Handshakes }
{}

/// Which requests are authorized is what the definitions compute.
pub fn authorization_examples_hold()
    ensures { AuthorizationExamples }
{}

/// Which calls requests ask for, and which are refused, is what the definitions compute.
pub fn plan_examples_hold()
    ensures events { EventPlans }
    ensures queries { QueryPlans }
{}
