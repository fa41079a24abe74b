//! One socket of a transcript: what its commands write, over its session and any desk.
//!
//! What a text, a silence or a loss does at the shards is said by `ch_session` and `ch_dispatch` for any desk;
//! where the caller is alone there, the turn is exactly the transcript's.
#![tactic(auto)]

mod hearing;
mod losing;
mod printing;
mod responding;
mod ticking;
mod turns;

pub use hearing::hear;
pub use losing::lose;
pub use printing::{put, put_end, put_error, put_frame, put_printed};
pub use ticking::tick;
