//! Paraxial rays, surface by surface, and the first-order values of a lens.
#![tactic(auto)]

pub mod first;
pub mod ray;
pub mod surface;
#[cfg(test)]
mod tests;
mod values;
pub mod worked;
