//! Glasses and media.

ghost use Rattle.std.specs.Prelude.{◌≡◌};

use crate::name::{Name, copy_name};
use fixdec::dec::Dec;

/// A glass of a catalogue: an NM record with its last CD and LD records.
#[derive(Debug, PartialEq, Eq, Drop)]
pub struct Glass {
    /// The name, as the catalogue writes it.
    pub name: Name,
    /// The number of the dispersion formula: 1 is Schott, 2 is Sellmeier 1.
    pub formula: u32,
    /// The first coefficient: a0 of Schott, K1 of Sellmeier 1. Wavelengths are in micrometres.
    pub c0: Dec,
    /// The second coefficient: a1, or L1.
    pub c1: Dec,
    /// The third coefficient: a2, or K2.
    pub c2: Dec,
    /// The fourth coefficient: a3, or L2.
    pub c3: Dec,
    /// The fifth coefficient: a4, or K3.
    pub c4: Dec,
    /// The sixth coefficient: a5, or L3.
    pub c5: Dec,
    /// The least wavelength, in micrometres, where the catalogue gives one.
    pub low: Option<Dec>,
    /// The greatest wavelength, in micrometres, where the catalogue gives one.
    pub high: Option<Dec>,
}

impl Glass {
    /// The same glass, copied without taking memory.
    pub fn copy(&self) -> Glass
        ensures { result ≡ self.now }
    {
        Glass {
            name: copy_name(&self.name),
            formula: self.formula,
            c0: self.c0,
            c1: self.c1,
            c2: self.c2,
            c3: self.c3,
            c4: self.c4,
            c5: self.c5,
            low: self.low,
            high: self.high,
        }
    }
}

/// What fills the space behind a surface.
#[derive(Debug, PartialEq, Eq, Default, Drop)]
pub enum Medium {
    /// Air, of index 1.
    #[default]
    Air,
    /// A glass of the catalogue.
    Of(Glass),
}

impl Medium {
    /// The same medium, copied without taking memory.
    pub fn copy(&self) -> Medium
        ensures { result ≡ self.now }
    {
        match self {
            Medium::Air => Medium::Air,
            Medium::Of(glass) => Medium::Of(glass.copy()),
        }
    }
}
