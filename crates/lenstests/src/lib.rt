//! Whole reports, refusals and failing calls of the top call, as tests. No crate stands on this one.
#![tactic(auto)]

#[cfg(test)]
mod answers;
#[cfg(test)]
mod crossed;
#[cfg(test)]
mod outside;
#[cfg(test)]
mod paraxial;
#[cfg(test)]
mod rows;
#[cfg(test)]
mod traces;
