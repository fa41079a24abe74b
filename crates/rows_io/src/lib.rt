//! Tests of sources and sinks, over memory and over std's readers and writers, and of a clock in memory.
#![tactic(auto)]

#[cfg(test)]
mod seams;
