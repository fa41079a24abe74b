//! Tests of client messages, of their members and of frames, over the libraries.
#![tactic(auto)]

#[cfg(test)]
mod frames;
#[cfg(test)]
mod members;
#[cfg(test)]
mod messages;
