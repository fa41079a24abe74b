//! Tests of the program: the files that it reads.
#![tactic(auto)]

#[cfg(test)]
mod files;
