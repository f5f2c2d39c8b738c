//! The five Seidel sums of a lens: spherical aberration, coma, astigmatism, Petzval curvature and
//! distortion, surface by surface and whole.
#![tactic(auto)]

mod attempt;
mod lossy;
mod rows;
pub mod sums;
mod surface;
#[cfg(test)]
mod tests;
mod whole;
