ghost use Rattle.ch_desk.specs.AloneCalls.{CallsAlone, AloneBefore};
ghost use Rattle.ch_desk.specs.Laws.{NoCalls, CallsChain};

/// The calls of turns at one desk, one after another, are their calls in this order.
pub fn calls_chain()
    ensures none { NoCalls }
    ensures chain { CallsChain }
{}

/// Where a caller is alone, what comes of its asks is what the definitions say of asks that are made one
/// after another, and so are its lists then.
pub fn calls_alone()
    ensures calls { CallsAlone }
    ensures before { AloneBefore }
{}
