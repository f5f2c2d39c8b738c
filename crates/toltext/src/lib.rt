//! Tolerance boxes.
#![tactic(auto)]

mod place;
pub mod read;
mod tolerance;
mod walk;
