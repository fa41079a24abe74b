ghost use Rattle.std.specs.Iterator.{at_most};
ghost use Rattle.std.specs.Map.Iter.{TakesFirst, deref};
ghost use Rattle.std.specs.Prelude.{length};

use std::collections::btree_map::Values;
use std::marker::Model;

/// The marks of the rows with a name, the oldest first.
#[derive(Drop)]
pub struct Marks<'a, M> {
    pub(crate) left: Option<Values<'a, u64, M>>,
}

impl<'a, M> Model for Marks<'a, M> {
    ghost use Rattle.std.specs.Prelude.{List};
    ghost use Rattle.ch_index.specs.Nest.{those_left};

    ghost Value = { List M };

    ghost view = { λ m. those_left m.left };
}

impl<'a, M> Iterator for Marks<'a, M> {
    type Item = &'a M;

    ghost next_gives = { TakesFirst deref };

    ghost remaining = { λ s. at_most (length s) };

    fn next(&mut self) -> Option<&'a M> {
        match &mut self.left {
            None => None,
            Some(left) => left.next(),
        }
    }
}
