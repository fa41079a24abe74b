ghost use Rattle.ch_io.specs.Laws.{CountsLaw, KnownLaw};

/// What is said of the counts over one call adds up over several.
pub fn counts_add_up()
    ensures { CountsLaw }
{}

/// What is said of a known list over one call adds up over several.
pub fn known_lists_add_up<T>()
    ensures { KnownLaw T }
{}
