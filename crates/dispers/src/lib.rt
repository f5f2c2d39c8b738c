//! Indices of media, which glasses can be used at a wavelength, and what makes a setup of a lens.
#![tactic(auto)]

mod glasses;
pub mod index;
mod indices;
pub mod join;
pub mod order;
pub mod pick;
mod tolerances;
mod wave;
