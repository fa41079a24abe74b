//! Tests of the real edge, over sockets of the loopback: each adapter is called with ample memory.
#![tactic(auto)]

#[cfg(test)]
mod links;
#[cfg(test)]
mod streams;
