ghost use Rattle.std.specs.Prelude.{◌≡◌, ℕ, ◌<◌, [], ◌∷◌, ◌++◌, All, OnOk};
ghost use Rattle.std.specs.Arc.{arc_value};
ghost use Rattle.ch_base.specs.declared.limits.TheConstants.{MAX_CALLERS};
ghost use Rattle.ch_history.specs.Deliveries.{delivery, for_owner};
ghost use Rattle.ch_outbox.specs.Handed.{handed};
ghost use Rattle.ch_outbox.specs.Outbox.{frames_of};
ghost use Rattle.ch_outbox.specs.Room.{HasRoom};

use ch_base::{Memory, Printed};
use ch_history::Delivery;
use ch_outbox::{Outbox, delivery, hand_out};
use ch_watch::{Holder, Holders};
use std::alloc::Global;
use std::marker::Model;
use std::sync::Arc;

/// The frames that a call makes, each with its owner, a number below `MAX_CALLERS`.
#[derive(Drop)]
pub struct Effects {
    frames: Vec<Delivery>,
}

impl Model for Effects {
    ghost use Rattle.std.specs.Prelude.{List, ◌<◌, All};
    ghost use Rattle.ch_base.specs.declared.limits.TheConstants.{MAX_CALLERS};
    ghost use Rattle.ch_history.specs.declared.rows.Delivery.{Delivery};

    ghost Value = { List Delivery };

    ghost view = { λ m. m.frames.items };

    ghost invariant = { λ m. All (λ d. d.owner < MAX_CALLERS) m.frames.items };
}

impl Effects {
    /// No frames. It takes no memory.
    pub fn new(alloc: Global) -> Effects
        ensures { result ≡ [] }
    {
        Effects {
            frames: Vec::new(alloc),
        }
    }

    /// Adds the frame for the socket, which shares it with the others that get it.
    pub fn push(&mut self, holder: Holder, printed: &Arc<Printed>) -> Result<(), Memory>
        requires { holder.owner < MAX_CALLERS }
        ensures { OnOk result (self.new ≡ self.old ++ delivery holder.owner holder.socket (arc_value printed.now) ∷ []) }
    {
        let delivery = delivery(holder, printed)?;
        self.frames.push(delivery)?;
        Ok(())
    }

    /// Adds the frame for each of these sockets but the excepted one. All of them share it.
    pub fn tell(
        &mut self,
        holders: Holders<'_>,
        printed: &Arc<Printed>,
        except: Option<u64>,
    ) -> Result<(), Memory>
        requires { All (λ h. h.owner < MAX_CALLERS) holders }
        ensures { OnOk result (self.new ≡ self.old ++ handed (arc_value printed.now) except holders.entry) }
    {
        hand_out(holders, printed, except, &mut self.frames)
    }

    /// Makes room for the frames of each owner. No frames change, also where there is no memory.
    pub fn reserve(&self, outbox: &mut Outbox) -> Result<(), Memory>
        ensures frames { (w : ℕ) → frames_of outbox.new w ≡ frames_of outbox.old w }
        ensures room { OnOk result (HasRoom outbox.new self.now) }
    {
        outbox.reserve_for(self.frames.as_slice())
    }

    /// Adds the frames at the end of their owners' ones. It takes no memory.
    pub fn deliver(self, outbox: &mut Outbox)
        requires { HasRoom outbox.old self }
        ensures { (w : ℕ) → frames_of outbox.new w ≡ frames_of outbox.old w ++ for_owner w self }
    {
        let Effects { frames } = self;
        outbox.deliver(frames);
    }
}
