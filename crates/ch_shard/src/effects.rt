ghost use Rattle.std.specs.Prelude.{◌≡◌, ℕ, ◌+◌, ◌<◌, ◌≤◌, [], ◌++◌, All, OnOk, length, vec_len};
ghost use Rattle.ch_base.specs.declared.limits.TheConstants.{MAX_CALLERS};
ghost use Rattle.ch_history.specs.Deliveries.{for_owner};
ghost use Rattle.ch_history.specs.Held.{due, held_after, hooks_after};
ghost use Rattle.ch_hooklog.specs.HookLog.{IsOfOneCall};
ghost use Rattle.ch_outbox.specs.Outbox.{frames_of};
ghost use Rattle.ch_outbox.specs.Room.{HasRoom};

use ch_base::{Hook, Memory};
use ch_history::Delivery;
use ch_hooklog::HookLog;
use ch_outbox::Outbox;
use std::alloc::Global;

/// What a call makes: frames, each with its owner, and webhook events.
#[derive(Drop)]
pub struct Effects {
    pub frames: Vec<Delivery>,
    pub hooks: Vec<Hook>,
}

impl Effects {
    /// Nothing. It takes no memory.
    pub fn new(alloc: Global) -> Effects
        ensures frames { result.frames.items ≡ [] }
        ensures hooks { result.hooks.items ≡ [] }
    {
        Effects {
            frames: Vec::new(alloc),
            hooks: Vec::new(alloc),
        }
    }
}

/// Makes room for the frames of each owner, for the webhook events, and for the notices that are due at this moment,
/// in milliseconds. Nothing else changes.
pub fn make_room(
    outbox: &mut Outbox,
    log: &mut HookLog,
    made: &Effects,
    now: u64,
) -> Result<(), Memory>
    requires { All (λ d. d.owner < MAX_CALLERS) made.now.frames.items }
    ensures frames { (w : ℕ) → frames_of outbox.new w ≡ frames_of outbox.old w }
    ensures hooks { log.new.hooks ≡ log.old.hooks }
    ensures held { log.new.held ≡ log.old.held }
    ensures spare { log.old.spare ≤ log.new.spare }
    ensures room_frames { OnOk result (HasRoom outbox.new made.now.frames.items) }
    ensures room_hooks { OnOk result (vec_len made.now.hooks + length (due now log.new.held) ≤ log.new.spare) }
{
    outbox.reserve_for(made.frames.as_slice())?;
    log.reserve(made.hooks.len() as u64 + log.due(now))
}

/// Adds the frames at the end of their owners' ones, and makes the webhook events at this moment, in milliseconds. It
/// takes no memory.
pub fn hand_over(outbox: &mut Outbox, log: &mut HookLog, made: Effects, now: u64)
    requires owners { All (λ d. d.owner < MAX_CALLERS) made.frames.items }
    requires room_frames { HasRoom outbox.old made.frames.items }
    requires room_hooks { vec_len made.hooks + length (due now log.old.held) ≤ log.old.spare }
    requires call { IsOfOneCall made.hooks.items }
    ensures frames { (w : ℕ) → frames_of outbox.new w ≡ frames_of outbox.old w ++ for_owner w made.frames.items }
    ensures hooks { log.new.hooks ≡ log.old.hooks ++ hooks_after now made.hooks.items log.old.held }
    ensures held { log.new.held ≡ held_after now made.hooks.items log.old.held }
{
    let Effects { frames, hooks } = made;
    outbox.deliver(frames);
    log.make(hooks, now);
}
