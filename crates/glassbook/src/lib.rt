//! Glasses by name, in the order of a catalogue.
#![tactic(auto)]

pub mod book;
