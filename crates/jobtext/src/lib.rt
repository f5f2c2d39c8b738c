//! Jobs: what is asked of a lens.
#![tactic(auto)]

mod ask;
mod count;
mod number;
pub mod read;
mod setting;
mod walk;
