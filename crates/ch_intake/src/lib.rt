//! The intake: a queue of [`PLACES`] places, through which one thread hands new connections to others.
//!
//! An [`Intake`] goes round any type of item. A caller pushes and pops with its [`IntakePass`], which keeps the steps
//! that the caller has seen. Each push adds its item at the back of the queue and each pop takes the item at its front,
//! in one step: so what is popped is what was pushed, each item once, and first in, first out
//! ([`items_come_out_in_order`]). A push is refused only where the queue was full at a step of the call, and hands its
//! item back; a pop gives none only where the queue was empty at one.
//!
//! Nothing is promised of waiting: a call may wait for ever.
#![tactic(auto)]

mod dealing;
mod intake;
mod laws;
mod limits;
mod pass;
mod passes;
mod rule;
mod step;

pub use intake::{Full, Intake};
pub use laws::items_come_out_in_order;
pub use limits::PLACES;
pub use pass::IntakePass;
pub use passes::IntakePasses;
pub use rule::OneOrder;
pub use step::{Known, Step};
