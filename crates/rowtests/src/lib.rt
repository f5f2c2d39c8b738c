//! Rays surface by surface, by the call of each phase, at each scale and in both kinds of arithmetic,
//! as tests: the values that an independent program of the same rules gives. No crate stands on this
//! one.
#![tactic(auto)]

#[cfg(test)]
mod files;
#[cfg(test)]
mod rows;
#[cfg(test)]
mod tests;
#[cfg(test)]
mod values;
#[cfg(test)]
mod walk;
