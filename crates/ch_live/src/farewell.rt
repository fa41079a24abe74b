ghost use Rattle.std.specs.Prelude.{[]};
ghost use Rattle.ch_live.specs.Answers.{farewell_texts, last_texts, closing_codes, FarewellHasCause, LastHasCause};
ghost use Rattle.ch_live.specs.Turns.{EndsWith};
ghost use Rattle.ch_net.specs.Wires.{WireMoves};

use crate::turn::{End, Farewell, Turn};
use ch_base::Frame;
use ch_frames::print;
use ch_net::{Put, Wire};
use std::alloc::Global;

/// Ends a connection with a code: the socket is told it, and the wire is closed. What the wire answers to
/// that changes nothing more.
pub(crate) fn end_with<W: Wire>(alloc: Global, wire: &mut W, code: u16) -> Turn
    ensures ends { EndsWith code result }
    ensures moves { WireMoves (W.told wire.old) (W.told wire.new) [] (last_texts result) (closing_codes result) }
    ensures last { LastHasCause result (W.told wire.old).counts (W.told wire.new).counts }
{
    let farewell = say(alloc, wire, code);
    let _ = wire.close(code);
    Turn::Ended(End::Code { code, farewell })
}

/// Sends the error with this code.
fn say<W: Wire>(alloc: Global, wire: &mut W, code: u16) -> Farewell
    ensures moves { WireMoves (W.told wire.old) (W.told wire.new) [] (farewell_texts code result) [] }
    ensures cause { FarewellHasCause result (W.told wire.old).counts (W.told wire.new).counts }
{
    let Ok(text) = print(alloc, &Frame::Error { code }, 0) else {
        return Farewell::Memory;
    };
    match wire.send(&text) {
        Put::Put => Farewell::Sent,
        Put::Waiting | Put::Failed => Farewell::NotSent,
        Put::Memory => Farewell::Memory,
    }
}
