//! Tests of the bytes of requests and of handshakes, over the libraries.
#![tactic(auto)]

#[cfg(test)]
mod handshakes;
#[cfg(test)]
mod reader;
