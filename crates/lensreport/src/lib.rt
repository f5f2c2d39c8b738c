//! The lines of printed texts, each into a buffer of its own and without memory. The line of JSON alone
//! takes memory.
#![tactic(auto)]

pub mod faults;
pub mod first;
pub mod glass;
pub mod index;
pub mod json;
#[cfg(test)]
mod json_tests;
pub mod lens;
#[cfg(test)]
mod paraxial_tests;
pub mod pieces;
pub mod rows;
pub mod seidel;
pub mod spot;
#[cfg(test)]
mod tests;
pub mod total;
