//! The reading of a configuration from a JSON text.
//!
//! What a text says, and which fault is named where it says nothing, is `config_in` of `specs/`: the
//! fields are judged in the order of [`Field`], and the first one at fault is named. The contract of
//! [`read_config`] says that it answers so.
#![tactic(auto)]

mod address;
mod built_in;
mod examples;
mod fault;
mod field;
mod number;
mod parts;
mod reading;
mod target;
mod value;

pub use built_in::built_in_text;
pub use examples::examples_hold;
pub use fault::ConfigFault;
pub use field::Field;
pub use reading::read_config;
