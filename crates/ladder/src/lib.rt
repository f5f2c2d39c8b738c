//! The row of a ray, over the four scales.
#![tactic(auto)]

pub mod bench;
mod kept;
pub mod row;
mod rungs;
mod scale;
#[cfg(test)]
mod tests;
