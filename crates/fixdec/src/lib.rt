//! Fixed point, roots, decimals, and the definitions of fractions and of both arithmetics.
#![tactic(auto)]

pub mod dec;
pub mod div;
pub mod fix;
mod near;
pub mod root;
pub mod span;
pub mod step;
pub mod tens;
