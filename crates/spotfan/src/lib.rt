//! The rays that a job asks for, one at a time, and the statistics of a grid of them.
#![tactic(auto)]

mod interval;
pub mod launch;
pub mod tally;
mod total;
