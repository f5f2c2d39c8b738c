//! How rays leave the surfaces of a lens.
#![tactic(auto)]

pub mod bend;
pub mod clip;
mod incidence;
mod reflection;
mod refraction;
mod sign;
#[cfg(test)]
mod tests;
