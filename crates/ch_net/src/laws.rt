ghost use Rattle.ch_net.specs.Laws.{WiresLaw, LinksLaw};

/// What several calls on a wire do is what each does, joined.
pub fn wire_calls_chain()
    ensures { WiresLaw }
{}

/// What several calls on a link do is what each does, joined.
pub fn link_calls_chain()
    ensures { LinksLaw }
{}
