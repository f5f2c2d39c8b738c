//! Prepared surfaces, their sags and normals; refractive indices, and the count of the surfaces
//! that were prepared.
#![tactic(auto)]

pub mod constant;
pub mod face;
pub mod index;
pub mod layout;
pub mod prepare;
pub mod ray;
pub mod sag;
pub mod steps;
mod terms;
#[cfg(test)]
mod tests;
