//! The program over any source and sink: from what it was started with to the status that it ends with.
//!
//! [`program`] takes the arguments of the command line, reads the configuration that they name, hands both to
//! `replay`, and ends with the status that `replay` answers. What is left to `main` is to hand it the
//! arguments and the two streams.
#![tactic(auto)]

mod command;
mod given;
mod limits;
mod running;
mod words;

pub use command::Command;
pub use given::{Given, named_config};
pub use limits::LONGEST_FILE;
pub use running::program;
pub use words::words_of;
