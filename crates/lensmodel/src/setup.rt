//! A lens with its media, its wavelength and its job's settings.

ghost use Rattle.std.specs.Prelude.{◌≡◌};

use crate::glass::Medium;
use crate::prescription::Prescription;
use crate::tolerance::TolBox;
use arrayvec::ArrayVec;
use fixdec::dec::Dec;

/// All that the trace of a ray takes from the files.
#[derive(Debug, PartialEq, Eq, Drop)]
pub struct Setup {
    /// The lens.
    pub lens: Prescription,
    /// The medium behind each surface before the image; that of a mirror isn't read.
    pub media: ArrayVec<Medium, 64>,
    /// The wavelength in micrometres, above 0.
    pub wave: Dec,
    /// The residual number r, from 4 to 14: the equations hold within `10^-r`.
    pub res: u32,
    /// The width bound of a row's intervals, above 0 and at most 1000.
    pub width: Dec,
    /// The box of tolerances, where there is one.
    pub toler: Option<TolBox>,
}

/// The same media, copied one by one without taking memory.
fn copy_media(media: &ArrayVec<Medium, 64>) -> ArrayVec<Medium, 64>
    ensures { result ≡ media.now }
{
    let mut copied: ArrayVec<Medium, 64> = ArrayVec::new();
    for medium in media.as_slice() {
        copied.push(medium.copy());
    }
    copied
}

/// The same box or none, copied without taking memory.
fn copy_toler(toler: &Option<TolBox>) -> Option<TolBox>
    ensures { result ≡ toler.now }
{
    match toler {
        None => None,
        Some(list) => Some(list.copy()),
    }
}

impl Setup {
    /// The same setup, copied without taking memory.
    pub fn copy(&self) -> Setup
        ensures { result ≡ self.now }
    {
        Setup {
            lens: self.lens.copy(),
            media: copy_media(&self.media),
            wave: self.wave,
            res: self.res,
            width: self.width,
            toler: copy_toler(&self.toler),
        }
    }
}
