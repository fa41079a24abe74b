//! Tests of a server's threads over memory: connections, clocks and posts in memory, and real threads.
#![tactic(auto)]

#[cfg(test)]
mod configured;
#[cfg(test)]
mod noted;
#[cfg(test)]
mod served;
#[cfg(test)]
mod stage;
