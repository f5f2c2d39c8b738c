//! The top call.
#![tactic(auto)]

mod answer;
mod deliver;
mod due;
mod files;
mod first;
mod gather;
mod joined;
mod json;
mod lines;
mod rays;
mod report;
pub mod run;
mod sums;
mod trace;
pub mod words;
