//! Where rays meet the surfaces of a lens.
#![tactic(auto)]

mod asphere;
mod cells;
pub mod hit;
mod line;
mod rounds;
mod search;
mod standard;
mod terms;
#[cfg(test)]
mod tests;
