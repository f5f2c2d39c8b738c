//! What follows from a prescription alone: the zone of an even asphere, the power of ten that it is
//! brought to and the coefficients there; equal media; the printed line of a surface.
#![tactic(auto)]

pub mod asphere;
pub mod media;
pub mod print;
#[cfg(test)]
mod tests;
