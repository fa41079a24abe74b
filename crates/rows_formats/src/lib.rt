//! Tests of signatures, of the configuration's text, of lines of a transcript and of bodies of requests, over the libraries.
#![tactic(auto)]

#[cfg(test)]
mod config_text;
#[cfg(test)]
mod script;
#[cfg(test)]
mod signatures;
#[cfg(test)]
mod triggers;
