//! The types that the layers share, and the definitions that the contracts cite.
#![tactic(auto)]

pub mod certificate;
pub mod corner;
pub mod fault;
pub mod glass;
pub mod job;
pub mod launch;
pub mod name;
pub mod paraxial;
pub mod prescription;
pub mod row;
pub mod script;
pub mod seen;
pub mod setup;
pub mod status;
pub mod surface;
pub mod tolerance;
