//! The text of a file: its lines, and the words of a line.
#![tactic(auto)]

mod line;
#[cfg(test)]
mod tests;
pub mod text;
mod unit;
pub mod word;
