//! Lens files in ZMX form.
#![tactic(auto)]

pub mod file;
mod lens;
mod names;
mod numbers;
pub mod read;
mod surface;
pub mod tags;
#[cfg(test)]
mod tests;
mod walk;
mod whole;
