//! Prescriptions: what a lens file says.

ghost use Rattle.std.specs.Prelude.{◌≡◌};

use crate::surface::Surface;
use arrayvec::ArrayVec;
use fixdec::dec::Dec;

/// A lens as its file gives it.
#[derive(Debug, PartialEq, Eq, Drop)]
pub struct Prescription {
    /// The surfaces, from the object (0) to the image (the last).
    pub surfaces: ArrayVec<Surface, 64>,
    /// The number of the stop surface.
    pub stop: u32,
    /// The wavelengths in micrometres, by their numbers less 1, where they are given.
    pub waves: ArrayVec<Option<Dec>, 24>,
    /// The number of the primary wavelength, counted from 1.
    pub primary: u32,
}

/// The same surfaces, copied one by one without taking memory.
fn copy_surfaces(surfaces: &ArrayVec<Surface, 64>) -> ArrayVec<Surface, 64>
    ensures { result ≡ surfaces.now }
{
    let mut copied: ArrayVec<Surface, 64> = ArrayVec::new();
    for surface in surfaces.as_slice() {
        copied.push(surface.copy());
    }
    copied
}

/// The same wavelengths, copied without taking memory.
fn copy_waves(waves: &ArrayVec<Option<Dec>, 24>) -> ArrayVec<Option<Dec>, 24>
    ensures { result ≡ waves.now }
{
    let mut copied: ArrayVec<Option<Dec>, 24> = ArrayVec::new();
    let _ = copied.try_extend_from_slice(waves.as_slice());
    copied
}

impl Prescription {
    /// The same prescription, copied without taking memory.
    pub fn copy(&self) -> Prescription
        ensures { result ≡ self.now }
    {
        Prescription {
            surfaces: copy_surfaces(&self.surfaces),
            stop: self.stop,
            waves: copy_waves(&self.waves),
            primary: self.primary,
        }
    }
}
