//! What the definitions of optics mean: laws of chains, worked rays, computed rows and small examples,
//! each the contract of a function that does nothing else. No crate stands on this one.
//!
//! What each module pins:
//!
//! - [`laws`]: the equations of a chain as a whole. Chains end and go on, words exclude one another, a
//!   mirror turns travel, and a box holds the lens without it.
//! - [`worked`]: the equations of the start, the crossing, the bending and the rim, by setups whose
//!   chains can be checked by hand in exact fractions.
//! - [`worked_row`]: what a row claims. A printed row holds every chain of its ray.
//! - [`computed`]: the row of a ray, number for number: its rows in their order, with each widening;
//!   the cells and the slope rounds; the ties of rims, widths, zones and windows; the order of the
//!   words and of the scales; linear arithmetic for each box, even an empty one; the indices.
//! - [`definitions`]: the rays of a job, zones, faults of a whole lens, media, ranges, cross checks
//!   and statistics of a spot; the first-order values and the Seidel sums, number for number and by
//!   chains in exact fractions.
#![tactic(auto)]

pub mod computed;
pub mod definitions;
pub mod laws;
mod single;
pub mod worked;
pub mod worked_row;
