//! What a program says of the configuration that it was given.
//!
//! A configuration comes as the bytes of a file. Where they can't be read, or aren't a configuration, one line says why
//! (`config_or_line` of `specs/`), and the program ends.
#![tactic(auto)]

mod declining;
mod fault_line;

pub use declining::decline;
