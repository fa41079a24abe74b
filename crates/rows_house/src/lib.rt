//! Tests of a row of locks and of a house, with threads.
#![tactic(auto)]

#[cfg(test)]
mod flag;
#[cfg(test)]
mod held;
#[cfg(test)]
mod house;
#[cfg(test)]
mod row;
