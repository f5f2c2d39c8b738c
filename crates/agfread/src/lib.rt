//! Glass catalogues in AGF form.
#![tactic(auto)]

mod glass;
pub mod read;
mod walk;
