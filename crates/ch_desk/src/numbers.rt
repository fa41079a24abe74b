ghost use Rattle.std.specs.Prelude.{◌≡◌, ◌↔◌, IsTrue, Contains};

use std::marker::Model;

/// Numbers of calls, counted from 0.
#[derive(Debug, Drop)]
pub struct NumberList {
    numbers: Vec<u64>,
}

impl Model for NumberList {
    ghost use Rattle.std.specs.Prelude.{ℕ, List};

    ghost Value = { List ℕ };

    ghost view = { λ l. l.numbers.items };
}

impl NumberList {
    /// The list of these numbers.
    pub fn new(numbers: Vec<u64>) -> NumberList
        ensures { result ≡ numbers.items }
    {
        NumberList { numbers }
    }

    /// Whether this number is in the list.
    pub fn has(&self, number: u64) -> bool
        ensures { IsTrue result ↔ Contains self.now number }
    {
        self.numbers.contains(&number)
    }

    /// Its numbers.
    pub fn into_numbers(self) -> Vec<u64>
        ensures { result.items ≡ self }
    {
        self.numbers
    }
}
