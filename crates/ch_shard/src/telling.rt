ghost use Rattle.std.specs.Prelude.{◌≡◌, ◌++◌, IfOk, OnOk};
ghost use Rattle.std.specs.Arc.{arc_value};
ghost use Rattle.ch_history.specs.Subscriptions.{on_channel};
ghost use Rattle.ch_shard.specs.Told.{told};

use ch_base::{Memory, Printed, Text};
use ch_history::Delivery;
use ch_outbox::hand_out;
use ch_subs::Subs;
use std::alloc::Global;
use std::sync::Arc;

/// The frame for each subscription to the channel but that of the excepted socket.
pub fn broadcast(
    alloc: Global,
    subs: &Subs,
    channel: &Text,
    printed: &Arc<Printed>,
    except: Option<u64>,
) -> Result<Vec<Delivery>, Memory>
    ensures { IfOk result (λ made. made.items ≡ told (arc_value printed.now) except (on_channel subs.now channel.now)) }
{
    let mut made = Vec::new(alloc);
    tell(subs, channel, printed, except, &mut made)?;
    Ok(made)
}

/// Adds the frame for each subscription to the channel but that of the excepted socket. The frame is shared, and the room
/// is taken at once.
pub fn tell(
    subs: &Subs,
    channel: &Text,
    printed: &Arc<Printed>,
    except: Option<u64>,
    made: &mut Vec<Delivery>,
) -> Result<(), Memory>
    ensures { OnOk result (made.new.items ≡ made.old.items ++ told (arc_value printed.now) except (on_channel subs.now channel.now)) }
{
    made.reserve(subs.count(channel) as usize)?;
    hand_out(subs.holders(channel), printed, except, made)
}
