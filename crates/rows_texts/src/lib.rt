//! Tests of the shared texts and lists, of JSON and of names, over the libraries.
#![tactic(auto)]

#[cfg(test)]
mod base;
#[cfg(test)]
mod json;
#[cfg(test)]
mod names;
