//! Exact decimals: read from words, brought to a scale, shifted and printed; the zone of a
//! semi-diameter.
#![tactic(auto)]

mod mantissa;
pub mod print;
pub mod read;
pub mod scale;
#[cfg(test)]
mod tests;
pub mod zone;
