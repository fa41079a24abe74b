//! Tests of a whole server over loopback.
#![tactic(auto)]

#[cfg(test)]
mod client;
#[cfg(test)]
mod loopback;
