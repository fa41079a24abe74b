ghost use Rattle.std.specs.Prelude.{[]};
ghost use Rattle.ch_base.specs.Printed.{printed};
ghost use Rattle.ch_live.specs.Sent.{SendsFirst};
ghost use Rattle.ch_net.specs.Wires.{WireMoves, PutHasCause, put};

use crate::backlog::Backlog;
use crate::waiting::Waiting;
use ch_frames::print;
use ch_net::{Pump, Put, Wire};
use std::alloc::Global;

/// How far the frames that waited were sent.
#[derive(Clone, Copy, Debug, PartialEq, Eq)]
pub enum Sending {
    /// None waits any more.
    All,
    /// The wire asked for patience.
    Waiting,
    /// There was no memory for the text of a frame, which still waits.
    Memory,
    /// The wire failed.
    Failed,
}

/// Sends the frames that wait, as far as the wire takes them, and sends on what it took. `start` is the
/// second of the server's start.
pub(crate) fn send_on<W: Wire>(
    alloc: Global,
    start: u64,
    backlog: &mut Backlog,
    wire: &mut W,
) -> Sending
    ensures { SendsFirst start backlog.old backlog.new (W.told wire.old) (W.told wire.new) result }
{
    let sending = send_waiting(alloc, start, backlog, wire);
    if sending == Sending::Failed {
        return Sending::Failed;
    }
    match wire.pump() {
        Pump::Clear => sending,
        Pump::Waiting => match sending {
            Sending::Memory => Sending::Memory,
            _ => Sending::Waiting,
        },
        Pump::Failed => Sending::Failed,
    }
}

/// Sends the frames that wait, as far as the wire takes them.
fn send_waiting<W: Wire>(alloc: Global, start: u64, backlog: &mut Backlog, wire: &mut W) -> Sending
    ensures { SendsFirst start backlog.old backlog.new (W.told wire.old) (W.told wire.new) result }
{
    while let Some(waiting) = backlog.first() {
        match send(alloc, start, waiting, wire) {
            Put::Put => backlog.first_sent(),
            Put::Waiting => return Sending::Waiting,
            Put::Memory => return Sending::Memory,
            Put::Failed => return Sending::Failed,
        }
    }
    Sending::All
}

/// Sends one frame that waits, by its text, for which it is printed first where it has none.
fn send<W: Wire>(alloc: Global, start: u64, waiting: &Waiting, wire: &mut W) -> Put
    ensures moves { WireMoves (W.told wire.old) (W.told wire.new) []
        (put result (printed waiting.now start)) [] }
    ensures cause { PutHasCause result (W.told wire.old).counts (W.told wire.new).counts }
{
    if let Some(text) = waiting.text() {
        return wire.send(text);
    }
    match print(alloc, waiting.frame(), start) {
        Ok(text) => wire.send(&text),
        Err(_) => Put::Memory,
    }
}
