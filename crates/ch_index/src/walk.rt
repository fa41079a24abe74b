ghost use Rattle.std.specs.Prelude.{◌≡◌, [], ◌∷◌, length, MatchOption};
ghost use Rattle.std.specs.Iterator.{at_most};
ghost use Rattle.std.specs.Map.Iter.{TakesFirst, deref};
ghost use Rattle.ch_index.specs.Nest.{those_left};

use crate::row::Row;
use std::collections::BTreeMap;
use std::collections::btree_map::Keys;
use std::marker::Model;

/// The rows with a name, the oldest first.
#[derive(Drop)]
pub struct Walk<'a, R: Row + Drop> {
    pub(crate) numbers: Option<Keys<'a, u64, R::Mark>>,
    pub(crate) rows: &'a BTreeMap<u64, R>,
}

impl<'a, R: Row + Drop> Model for Walk<'a, R> {
    ghost use Rattle.std.specs.Prelude.{List};
    ghost use Rattle.ch_index.specs.Nest.{those_left};
    ghost use Rattle.ch_index.specs.Numbered.{rows_under, AreThere};

    ghost Value = { List R };

    ghost view = { λ w. rows_under w.rows.now.entries (those_left w.numbers) };

    ghost invariant = { λ w. AreThere w.rows.now.entries (those_left w.numbers) };
}

impl<'a, R: Row + Drop> Iterator for Walk<'a, R> {
    type Item = &'a R;

    ghost next_gives = { TakesFirst deref };

    ghost remaining = { λ s. at_most (length s) };

    fn next(&mut self) -> Option<&'a R> {
        match next_number(&mut self.numbers) {
            None => None,
            Some(number) => self.rows.get(&number),
        }
    }
}

/// The next number, where one is left.
fn next_number<'a, M: Drop>(numbers: &mut Option<Keys<'a, u64, M>>) -> Option<u64>
    ensures { MatchOption result ((those_left numbers.old ≡ []) × (those_left numbers.new ≡ [])) (λ n. those_left numbers.old ≡ n ∷ those_left numbers.new) }
{
    match numbers {
        None => None,
        Some(left) => left.next().copied(),
    }
}
