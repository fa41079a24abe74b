//! What a caller's own list says of the one history.
ghost use Rattle.std.specs.Prelude.{◌≡◌, ℕ, ◌<◌, List, ◌++◌, length, Result};
ghost use Rattle.ch_base.specs.declared.entry.Entry.{Entry};
ghost use Rattle.ch_base.specs.declared.memory.Memory.{Memory};
ghost use Rattle.ch_base.specs.Growth.{own, GrowsBy};
ghost use Rattle.ch_turn.specs.Callers.{CallersBelow, GrowsByOthers};
ghost use Rattle.ch_desk.specs.OwnEntries.{entries_by};
ghost use Rattle.ch_house.specs.DeskViews.{NamesTellHouses};
ghost use Rattle.ch_house.specs.OwnEntries.{total_below};

/// What each caller did on a shard is in its history once, in that caller's order, and nothing else is.
///
/// A call adds its entry to those that its caller has, and nothing else adds one: a list that goes on by entries of
/// others has the same entries of the caller. So a history that begins with the list of each of its callers, and has no
/// entry of that caller after it, has of each caller the entries of that caller's list; and where it is of these callers
/// alone, their own entries add up to all of it.
pub fn callers_entries_stay<C, A>()
    ensures call { (w : ℕ) (call : C) (r : Result A Memory) (before after : List (Entry C A))
        → GrowsBy w call r before after → entries_by w after ≡ entries_by w before ++ own w call r }
    ensures others { (w : ℕ) (before after : List (Entry C A))
        → GrowsByOthers w before after → entries_by w after ≡ entries_by w before }
    ensures just { (n : ℕ) (mine : ℕ → List (Entry C A)) (log : List (Entry C A)) → CallersBelow n log
        → ((w : ℕ) → w < n → GrowsByOthers w (mine w) log)
        → total_below n (λ w. length (entries_by w (mine w))) ≡ length log }
{}

/// A desk that still shows the names of a house's locks is a desk of that house. So whoever lends a desk to code that takes
/// any desk can give its passes back to their list afterwards.
pub fn names_tell_houses()
    ensures { NamesTellHouses }
{}
