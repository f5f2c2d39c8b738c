//! Linear forms: arithmetic by which deviations that work against each other cancel.
#![tactic(auto)]

mod coefficients;
pub mod form;
mod rounding;
