//! Rays through a whole lens.
#![tactic(auto)]

mod departure;
mod going;
mod place;
pub mod prepared;
mod ready;
pub mod start;
pub mod trace;
mod turn;
mod width;
