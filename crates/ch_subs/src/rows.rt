ghost use Rattle.std.specs.Prelude.{◌≡◌, IfOk};
ghost use Rattle.std.specs.Option.{option_copied};
ghost use Rattle.ch_subs.specs.Subs.{subscription};

use ch_base::{Member, Memory, Text};
use ch_history::Subscription;
use std::alloc::Global;

/// A subscription with copies of the channel's name and of the member.
pub fn subscription(
    alloc: Global,
    socket: u64,
    channel: &Text,
    owner: u64,
    member: Option<&Member>,
) -> Result<Subscription, Memory>
    ensures { IfOk result (λ s. s ≡ subscription socket channel.now owner (option_copied member.entry)) }
{
    Ok(Subscription {
        channel: channel.copy(alloc)?,
        socket,
        owner,
        member: copied(alloc, member)?,
    })
}

fn copied(alloc: Global, member: Option<&Member>) -> Result<Option<Member>, Memory>
    ensures { IfOk result (λ m. m ≡ option_copied member.entry) }
{
    match member {
        None => Ok(None),
        Some(member) => Ok(Some(member.copy(alloc)?)),
    }
}
