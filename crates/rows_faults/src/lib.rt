//! Tests of faults, stalls and want of memory: links, wires, sources and sinks of which each call fails in turn, and desks that
//! refuse calls.
#![tactic(auto)]

#[cfg(test)]
mod exchanges;
#[cfg(test)]
mod letters;
#[cfg(test)]
mod sockets;
#[cfg(test)]
mod workers;
