ghost use Rattle.ch_names.specs.SocketIdExamples.{SocketIdExamples};

/// What texts say as socket ids is what the definitions compute.
pub fn examples_hold()
    ensures { SocketIdExamples }
{}
