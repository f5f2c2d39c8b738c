//! The settings of a job, each the number of a line.

ghost use Rattle.std.specs.Prelude.{◌≡◌, length, None, Some, IfOk, IfErr, OnOk};
ghost use Rattle.lensmodel.specs.Files.Job.{number_at};
ghost use Rattle.lensmodel.specs.Files.JobFaults.{PUPIL_offence};
ghost use Rattle.lensmodel.specs.Files.Records.{decimal_at};
ghost use Rattle.lensmodel.specs.Setup.Ranges.{is_positive, is_residual, is_width as can_be_width};
ghost use Rattle.jobtext.specs.Records.{decimal_fault, whole_fault, pupil_of};

use crate::number::{decimal, one, two, whole_between};
use fixdec::dec::Dec;
use fixdec::div::pow10;
use lensmodel::fault::JobFault;
use records::line::Line;
use records::number::is_whole;

/// The pupil of a beam.
#[derive(Clone, Copy, Debug, PartialEq, Eq)]
pub struct Pupil {
    /// The place of the pupil plane, from vertex 1.
    pub z: Dec,
    /// The radius, at least 0.
    pub r: Dec,
}

/// The wavelength of a WAVE line, in micrometres and above 0.
pub fn wavelength(line: &Line<'_>, at: u32) -> Result<Dec, JobFault>
    requires { length line.now ≡ 2 }
    ensures value { IfOk result (λ d. d ≡ decimal_at 1 line.now) }
    ensures sound { OnOk result (decimal_fault at is_positive line.now ≡ None) }
    ensures fault { IfErr result (λ f. decimal_fault at is_positive line.now ≡ Some f) }
{
    let wave = one(line, at)?;
    if wave.mant <= 0 {
        return Err(JobFault::Range { line: at });
    }
    Ok(wave)
}

/// The residual number of a RES line, from 4 to 14.
pub fn residual(line: &Line<'_>, at: u32) -> Result<u32, JobFault>
    requires { length line.now ≡ 2 }
    ensures value { IfOk result (λ n. n ≡ number_at 1 line.now) }
    ensures sound { OnOk result (whole_fault at is_residual line.now ≡ None) }
    ensures fault { IfErr result (λ f. whole_fault at is_residual line.now ≡ Some f) }
{
    let r = decimal(line, at, 1)?;
    if !is_whole(&r) {
        return Err(JobFault::BadNumber { line: at });
    }
    whole_between(&r, 4, 14).ok_or(JobFault::Range { line: at })
}

/// The width bound of a WIDTH line, above 0 and at most 1000.
pub fn width(line: &Line<'_>, at: u32) -> Result<Dec, JobFault>
    requires { length line.now ≡ 2 }
    ensures value { IfOk result (λ d. d ≡ decimal_at 1 line.now) }
    ensures sound { OnOk result (decimal_fault at can_be_width line.now ≡ None) }
    ensures fault { IfErr result (λ f. decimal_fault at can_be_width line.now ≡ Some f) }
{
    let width = one(line, at)?;
    if !is_width(&width) {
        return Err(JobFault::Range { line: at });
    }
    Ok(width)
}

/// Whether a decimal is above 0 and at most 1000. No mantissa is past `10^30`, so a greater power
/// tells no more.
fn is_width(d: &Dec) -> bool
    ensures { result ≡ can_be_width d.now }
{
    if d.mant <= 0 || d.exp > 3 {
        return false;
    }
    d.mant <= pow10((3 - d.exp).unsigned_abs().min(30))
}

/// The pupil of a PUPIL line, with a radius of at least 0.
pub fn pupil_plane(line: &Line<'_>, at: u32) -> Result<Pupil, JobFault>
    requires { length line.now ≡ 3 }
    ensures value { IfOk result (λ s. s ≡ pupil_of line.now) }
    ensures sound { OnOk result (PUPIL_offence at line.now ≡ None) }
    ensures fault { IfErr result (λ f. PUPIL_offence at line.now ≡ Some f) }
{
    let (z, r) = two(line, at)?;
    if r.mant < 0 {
        return Err(JobFault::Range { line: at });
    }
    Ok(Pupil { z, r })
}
