//! The wavelength of a trace, and the ranges of the media that it must lie in.

ghost use Rattle.std.specs.Prelude.{◌≡◌, ◌≤◌, length};
ghost use Rattle.lensmodel.specs.Files.Causes.{each_from, first_fault, ok_unless};
ghost use Rattle.lensmodel.specs.Files.Joining as joining;
ghost use Rattle.dispers.specs.Checks as checks;

use crate::pick::{is_over, is_under};
use fixdec::dec::Dec;
use lensmodel::fault::CrossFault;
use lensmodel::glass::Medium;
use lensmodel::job::Job;
use lensmodel::prescription::Prescription;

/// A wavelength that is given and above 0.
fn positive_wave(wave: Option<Option<Dec>>) -> Option<Dec>
    ensures { result ≡ joining.positive_wave wave }
{
    match wave {
        Some(Some(wave)) if wave.mant > 0 => Some(wave),
        _ => None,
    }
}

/// The primary wavelength of a lens, where it is given and above 0.
fn primary_wave(lens: &Prescription) -> Option<Dec>
    ensures { result ≡ joining.primary_wave lens.now.waves.items lens.now.primary }
{
    if lens.primary == 0 {
        return None;
    }
    let given = lens.waves.as_slice().get(lens.primary as usize - 1);
    positive_wave(given.copied())
}

/// The wavelength of a job, or else the primary one of the lens.
pub(crate) fn wave_of(job: &Job, lens: &Prescription) -> Option<Dec>
    ensures { result ≡ joining.wave_of job.now.wave lens.now }
{
    match job.wave {
        Some(wave) => Some(wave),
        None => primary_wave(lens),
    }
}

/// Whether a wavelength lies outside the range of a medium.
fn is_outside(wave: &Dec, medium: &Medium) -> bool
    ensures { result ≡ joining.is_outside wave.now medium.now }
{
    match medium {
        Medium::Air => false,
        Medium::Of(glass) => is_under(wave, &glass.low) || is_over(wave, &glass.high),
    }
}

/// WaveRange at the first medium whose range the wavelength is outside of.
pub(crate) fn check_ranges(wave: &Dec, media: &[Medium]) -> Result<(), CrossFault>
    requires { length media.now ≤ 64 }
    ensures { result ≡ ok_unless
        (first_fault (each_from (checks.range_fault wave.now) 0 media.now)) tt }
{
    for (j, medium) in media.iter().enumerate() {
        if is_outside(wave, medium) {
            return Err(CrossFault::WaveRange { surface: j as u32 });
        }
    }
    Ok(())
}
