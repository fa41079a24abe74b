ghost use Rattle.std.specs.Prelude.{◌≡◌, IfOk};
ghost use Rattle.std.specs.Option.{option_copied};
ghost use Rattle.ch_base.specs.declared.frame.Frame.TheVariants.{Event};

use ch_base::{Frame, Memory, Text};
use std::alloc::Global;

/// The frame of an event.
pub fn event_frame(
    alloc: Global,
    channel: &Text,
    event: &Text,
    body: &Text,
    user_id: Option<&Text>,
) -> Result<Frame, Memory>
    ensures { IfOk result (λ f. f ≡ Event channel.now event.now body.now (option_copied user_id.entry)) }
{
    Ok(Frame::Event {
        channel: channel.copy(alloc)?,
        event: event.copy(alloc)?,
        body: body.copy(alloc)?,
        user_id: copied_id(alloc, user_id)?,
    })
}

/// A copy of the user id, where there is one.
pub fn copied_id(alloc: Global, user_id: Option<&Text>) -> Result<Option<Text>, Memory>
    ensures { IfOk result (λ id. id ≡ option_copied user_id.entry) }
{
    match user_id {
        None => Ok(None),
        Some(id) => Ok(Some(id.copy(alloc)?)),
    }
}
