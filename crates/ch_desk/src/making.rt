ghost use Rattle.std.specs.Prelude.{◌≡◌, ◌∷◌, [], true, List, All, IfOk};
ghost use Rattle.ch_desk.specs.OwnEntries.{AreMade, IsAnswered, Makes, was_made};
ghost use Rattle.ch_desk.specs.Views.{MayAsk};
ghost use Rattle.ch_protocol.specs.Asks.{Asked, ComesOf};
ghost use Rattle.ch_protocol.specs.declared.ask.Ask.TheVariants.{Chan, User};
ghost use Rattle.ch_protocol.specs.declared.ask.Made.{Made};

use crate::desk::Desk;
use ch_base::{ChanCall, Memory, UserCall};
use ch_protocol::{AnswerList, Ask, AskList, Made};
use std::alloc::Global;

/// Makes the call of an ask at the desk, and answers what came of it.
pub fn make<R, D: Desk<R>>(rt: &R, desk: &mut D, ask: &Ask) -> Made
    requires { MayAsk (D.view desk.old) ask.now }
    ensures calls { Makes (record { ask = ask.now; came = result } ∷ []) (D.view desk.old) (D.view desk.new) }
    ensures comes { ComesOf ask.now result }
{
    match ask {
        Ask::Chan { shard, call } => make_chan(rt, desk, *shard, call),
        Ask::User { shard, call } => make_user(rt, desk, *shard, call),
    }
}

fn make_chan<R, D: Desk<R>>(rt: &R, desk: &mut D, shard: u64, call: &ChanCall) -> Made
    requires { MayAsk (D.view desk.old) (Chan shard call.now) }
    ensures calls { Makes (record { ask = Chan shard call.now; came = result } ∷ []) (D.view desk.old) (D.view desk.new) }
    ensures comes { ComesOf (Chan shard call.now) result }
{
    match desk.chan(rt, shard, call) {
        Ok(answer) => Made::Chan(answer),
        Err(_memory) => Made::Memory,
    }
}

fn make_user<R, D: Desk<R>>(rt: &R, desk: &mut D, shard: u64, call: &UserCall) -> Made
    requires { MayAsk (D.view desk.old) (User shard call.now) }
    ensures calls { Makes (record { ask = User shard call.now; came = result } ∷ []) (D.view desk.old) (D.view desk.new) }
    ensures comes { ComesOf (User shard call.now) result }
{
    match desk.user(rt, shard, call) {
        Ok(answer) => Made::User(answer),
        Err(_memory) => Made::Memory,
    }
}

/// Makes asks one after another, and answers what came of each. Where there is no memory, those that were
/// made stay made, and no more of them are.
pub fn make_all<R, D: Desk<R>>(
    alloc: Global,
    rt: &R,
    desk: &mut D,
    asks: &AskList,
) -> Result<AnswerList, Memory>
    requires { All (MayAsk (D.view desk.old)) asks.now }
    ensures { (asked : List Asked) × AreMade asks.now asked result × Makes asked (D.view desk.old) (D.view desk.new) }
{
    let mut answers = AnswerList::new(alloc);
    for ask in asks.as_slice() {
        let Ok(answer) = make_answered(rt, desk, ask) else {
            return Err(Memory);
        };
        let Ok(()) = answers.push(answer) else {
            return Err(Memory);
        };
    }
    Ok(answers)
}

/// Makes an ask, and answers what came of it where there was memory.
fn make_answered<R, D: Desk<R>>(rt: &R, desk: &mut D, ask: &Ask) -> Result<Made, Memory>
    requires { MayAsk (D.view desk.old) ask.now }
    ensures { (came : Made) × IfOk result (λ same. (same ≡ came) × IsAnswered (record { ask = ask.now; came = came }))
        × Makes (record { ask = ask.now; came = came } ∷ []) (D.view desk.old) (D.view desk.new) }
{
    let made = make(rt, desk, ask);
    answered(made)
}

/// What came of an ask, where there was memory for it.
fn answered(made: Made) -> Result<Made, Memory>
    ensures { IfOk result (λ same. (same ≡ made) × (was_made made ≡ true)) }
{
    match made {
        Made::Memory => Err(Memory),
        Made::Chan(answer) => Ok(Made::Chan(answer)),
        Made::User(answer) => Ok(Made::User(answer)),
    }
}
