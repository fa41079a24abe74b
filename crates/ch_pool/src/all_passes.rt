//! The passes of all callers of a house, taken and given back at once.
ghost use Rattle.std.specs.Prelude.{◌≡◌, length, IfOk, OnOk};
ghost use Rattle.ch_house.specs.Houses.{IsWhole};
ghost use Rattle.ch_pool.specs.AllPasses.{AreAllOf, IsEmptied};

use ch_base::Memory;
use ch_house::{Passes, PassesList};
use std::alloc::Global;

/// Takes the passes of all callers of a house, in the order of their numbers.
pub fn take_passes(
    alloc: Global,
    passes: &mut PassesList,
    callers: u64,
) -> Result<Vec<Passes>, Memory>
    requires callers { callers ≡ passes.old.house.chans.callers }
    requires count { length passes.old.slots ≡ callers }
    requires whole { IsWhole passes.old }
    ensures house { passes.new.house ≡ passes.old.house }
    ensures taken { IfOk result (λ taken. AreAllOf passes.old.house taken.items) }
    ensures emptied { OnOk result (IsEmptied passes.new) }
{
    let mut taken = Vec::new(alloc);
    for caller in 0..callers {
        let Some(one) = passes.take(caller) else {
            unreachable!()
        };
        taken.push(one)?;
    }
    Ok(taken)
}

/// Gives the passes of all callers of a house back.
pub fn give_passes(passes: &mut PassesList, mut taken: Vec<Passes>)
    requires own { AreAllOf passes.old.house taken.items }
    requires emptied { IsEmptied passes.old }
    ensures house { passes.new.house ≡ passes.old.house }
    ensures whole { IsWhole passes.new }
{
    while let Some(one) = taken.pop() {
        passes.give(one);
    }
}
