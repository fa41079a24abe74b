//! Tests of sessions and of whole transcripts, over the libraries.
#![tactic(auto)]

#[cfg(test)]
mod runs;
#[cfg(test)]
mod session;
#[cfg(test)]
mod transcripts;
