//! Where files come from and where text goes: a source and a sink with counts of their failures, in
//! memory and over the system, and whole files and texts moved through them.
#![tactic(auto)]

pub mod disk;
pub mod memory;
pub mod output;
pub mod shelf;
pub mod sink;
pub mod standard;
#[cfg(test)]
mod tests;
pub mod transfer;
