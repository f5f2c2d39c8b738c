//! What a lens file says.

use crate::tags::Tags;
use lensmodel::prescription::Prescription;

/// What a lens file says.
#[derive(Drop)]
pub struct ZmxFile {
    /// The lens.
    pub lens: Prescription,
    /// The tags that aren't used, by their first 40 units.
    pub unused: Tags,
}
