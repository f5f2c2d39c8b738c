//! The walk along the lines of a job.

ghost use Rattle.std.specs.Prelude.{◌≡◌, ◌++◌, ◌∷◌, length, pos, negsuc, unwrap_or, [], None, Some, IfOk, IfErr, OnOk};
ghost use Rattle.lensmodel.specs.Files.Job.{number_at, rays_fault};
ghost use Rattle.lensmodel.specs.Files.JobFaults.{PUPIL_offence};
ghost use Rattle.lensmodel.specs.Files.Records.{decimal_at};
ghost use Rattle.lensmodel.specs.Setup.Ranges.{is_positive, is_residual, is_width};
ghost use Rattle.jobtext.specs.Readers.{IsAt};
ghost use Rattle.jobtext.specs.Records.{decimal_fault, whole_fault, pupil_of};

use crate::ask::{aim, fan, first, ray, seidel, spot};
use crate::count::has_too_many_rays;
use crate::setting::{Pupil, pupil_plane, residual, wavelength, width};
use fixdec::dec::Dec;
use lensmodel::fault::JobFault;
use lensmodel::job::{Ask, Asks, Job};
use records::line::Line;
use records::record_table;
use records::walk::LineReader;
use std::alloc::Global;

/// The residual number of a job without a RES line.
const DEFAULT_RESIDUAL: u32 = 12;

/// How far a job was read.
#[derive(Drop)]
pub struct Reader {
    /// The wavelength, if a WAVE line came.
    pub wave: Option<Dec>,
    /// The residual number, if a RES line came.
    pub res: Option<u32>,
    /// The width bound, if a WIDTH line came.
    pub width: Option<Dec>,
    /// The pupil in force, if a PUPIL line came.
    pub pupil: Option<Pupil>,
    /// What was asked for so far.
    pub asks: Vec<Ask>,
}

impl Reader {
    /// Nothing was read yet.
    pub fn new(alloc: Global) -> Reader
        ensures { IsAt [] result }
    {
        Reader {
            wave: None,
            res: None,
            width: None,
            pupil: None,
            asks: Vec::new(alloc),
        }
    }

    /// Takes the wavelength of the first WAVE line.
    fn set_wave(&mut self, at: u32, line: &Line<'_>) -> Result<(), JobFault>
        requires { length line.now ≡ 2 }
        ensures sound { OnOk result (decimal_fault at is_positive line.now ≡ None) }
        ensures new { OnOk result
            (self.new ≡ record self.old { wave = Some (decimal_at 1 line.now) }) }
        ensures fault { IfErr result (λ f. decimal_fault at is_positive line.now ≡ Some f) }
    {
        self.wave = Some(wavelength(line, at)?);
        Ok(())
    }

    /// Takes the residual number of the first RES line.
    fn set_res(&mut self, at: u32, line: &Line<'_>) -> Result<(), JobFault>
        requires { length line.now ≡ 2 }
        ensures sound { OnOk result (whole_fault at is_residual line.now ≡ None) }
        ensures new { OnOk result
            (self.new ≡ record self.old { res = Some (number_at 1 line.now) }) }
        ensures fault { IfErr result (λ f. whole_fault at is_residual line.now ≡ Some f) }
    {
        self.res = Some(residual(line, at)?);
        Ok(())
    }

    /// Takes the width bound of the first WIDTH line.
    fn set_width(&mut self, at: u32, line: &Line<'_>) -> Result<(), JobFault>
        requires { length line.now ≡ 2 }
        ensures sound { OnOk result (decimal_fault at is_width line.now ≡ None) }
        ensures new { OnOk result
            (self.new ≡ record self.old { width = Some (decimal_at 1 line.now) }) }
        ensures fault { IfErr result (λ f. decimal_fault at is_width line.now ≡ Some f) }
    {
        self.width = Some(width(line, at)?);
        Ok(())
    }

    /// Takes the pupil of a PUPIL line.
    fn set_pupil(&mut self, at: u32, line: &Line<'_>) -> Result<(), JobFault>
        requires { length line.now ≡ 3 }
        ensures sound { OnOk result (PUPIL_offence at line.now ≡ None) }
        ensures new { OnOk result
            (self.new ≡ record self.old { pupil = Some (pupil_of line.now) }) }
        ensures fault { IfErr result (λ f. PUPIL_offence at line.now ≡ Some f) }
    {
        self.pupil = Some(pupil_plane(line, at)?);
        Ok(())
    }

    /// Appends what a line asks for.
    fn push(&mut self, ask: Ask) -> Result<(), JobFault>
        ensures asks { OnOk result (self.new.asks.items ≡ self.old.asks.items ++ ask ∷ []) }
        ensures others { OnOk result (self.new ≡ record self.old { asks = self.new.asks }) }
        ensures fault { IfErr result (λ f. f ≡ JobFault.Memory) }
    {
        self.asks.push(ask).map_err(|_| JobFault::Memory)
    }

    /// The job of all lines.
    pub fn finish(self) -> Result<Job, JobFault>
        ensures job { IfOk result (λ job. job ≡ record {
          wave = self.wave;
          res = unwrap_or self.res 12;
          width = unwrap_or self.width (record { mant = pos 1; exp = negsuc 2 });
          asks = self.asks.items;
        }) }
        ensures sound { OnOk result (rays_fault self.asks.items ≡ None) }
        ensures fault { IfErr result (λ f. rays_fault self.asks.items ≡ Some f) }
    {
        if has_too_many_rays(self.asks.as_slice()) {
            return Err(JobFault::TooManyRays);
        }
        Ok(Job {
            wave: self.wave,
            res: self.res.unwrap_or(DEFAULT_RESIDUAL),
            width: self.width.unwrap_or(Dec { mant: 1, exp: -3 }),
            asks: Asks::from_vec(self.asks),
        })
    }
}

impl LineReader for Reader {
    ghost use Rattle.std.specs.Prelude.{◌≢◌, true};
    ghost use Rattle.lensmodel.specs.Files.JobFaults.{offence};
    ghost use Rattle.lensmodel.specs.declared.fault.JobFault.TheVariants.{Memory};
    ghost use Rattle.jobtext.specs.Readers.{IsAt};

    type Fault = JobFault;

    const REMARKS: bool = true;

    ghost REMARKS = { true };

    ghost offence = { λ _. offence };

    ghost IsOfLines = { λ f. f ≢ Memory };

    ghost IsAt = { IsAt };

    fn take(&mut self, at: u32, line: &Line<'_>) -> Result<(), JobFault> {
        if line.is_empty() {
            return Ok(());
        }
        record_table!(line, exactly, JobFault::Word { line: at } => {
            b"WAVE", let None = self.wave, else JobFault::Word { line: at },
                1 words => self.set_wave(at, line),
            b"RES", let None = self.res, else JobFault::Word { line: at },
                1 words => self.set_res(at, line),
            b"WIDTH", let None = self.width, else JobFault::Word { line: at },
                1 words => self.set_width(at, line),
            b"RAY", 4 words => self.push(ray(line, at)?),
            b"PUPIL", 2 words => self.set_pupil(at, line),
            b"AIM", 4 words => self.push(aim(line, at, self.pupil)?),
            b"FAN", 3 words => self.push(fan(line, at, self.pupil)?),
            b"SPOT", 3 words => self.push(spot(line, at, self.pupil)?),
            b"FIRST", 2 words => self.push(first(line, at)?),
            b"SEIDEL", 4 words => self.push(seidel(line, at)?),
        } else Err(JobFault::Word { line: at }))
    }
}
