ghost use Rattle.std.specs.Prelude.{◌≡◌};
ghost use Rattle.ch_io.specs.Counts.{Rose, raised, nothing_counted, NeverFall};

/// How often an object of the outside failed, how often it asked for patience, and how often it told
/// that the other side has ended. A count stands still at its type's end.
#[derive(Clone, Copy, Debug, PartialEq, Eq)]
pub struct Counts {
    pub faults: u64,
    pub stalls: u64,
    pub ends: u64,
}

impl Counts {
    /// Nothing was counted yet.
    pub fn new() -> Counts
        ensures { result ≡ nothing_counted }
    {
        Counts {
            faults: 0,
            stalls: 0,
            ends: 0,
        }
    }

    /// One fault more.
    pub fn count_fault(&mut self)
        ensures counted { self.new ≡ record { faults = raised self.old.faults 1; stalls = self.old.stalls; ends = self.old.ends } }
        ensures rose { Rose self.old.faults self.new.faults }
        ensures later { NeverFall self.old self.new }
    {
        self.faults = self.faults.saturating_add(1);
    }

    /// It asked for patience once more.
    pub fn count_stall(&mut self)
        ensures counted { self.new ≡ record { faults = self.old.faults; stalls = raised self.old.stalls 1; ends = self.old.ends } }
        ensures rose { Rose self.old.stalls self.new.stalls }
        ensures later { NeverFall self.old self.new }
    {
        self.stalls = self.stalls.saturating_add(1);
    }

    /// It told once more that the other side has ended.
    pub fn count_end(&mut self)
        ensures counted { self.new ≡ record { faults = self.old.faults; stalls = self.old.stalls; ends = raised self.old.ends 1 } }
        ensures rose { Rose self.old.ends self.new.ends }
        ensures later { NeverFall self.old self.new }
    {
        self.ends = self.ends.saturating_add(1);
    }
}
