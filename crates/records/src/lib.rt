//! The lines of a file as records: the words of a line, numbers among them, tables of the records
//! that a line may be, and the walk along the lines up to the first that offends.
#![tactic(auto)]

pub mod line;
pub mod number;
mod table;
pub mod tail;
#[cfg(test)]
mod tests;
pub mod walk;
pub mod word;
