//! A lens, a job and a box, read and joined.

ghost use Rattle.std.specs.Prelude.{◌-◌, IfOk, IfSome};
ghost use Rattle.lensmodel.specs.Setup.Values as values;
ghost use Rattle.lensmodel.specs.Setup.WellFormed.{IsBox, IsInRange, IsSound, IsWellFormed};

use agfread::read::read_agf;
use dispers::join::join;
use jobtext::read::read_job;
use lensmodel::fault::TolFault;
use lensmodel::job::Job;
use lensmodel::setup::Setup;
use lensmodel::tolerance::TolBox;
use std::alloc::Global;
use toltext::read::read_tol;
use zmxread::file::ZmxFile;
use zmxread::read::read_zmx;

/// Glasses whose index has the same square at every wavelength.
const GLASSES: &str =
    "NM TA 1 0 0 0\nCD 2.6244\nNM TB 1 0 0 0\nCD 2.6569\nNM TC 1 0 0 0\nCD 2.6244\nNM FLAT 1 0 1.5 0\nCD 2.25\n";

/// The texts of a lens, of a job and of a box.
#[derive(Clone, Copy)]
pub(crate) struct Texts {
    pub(crate) lens: &'static str,
    pub(crate) job: &'static str,
    pub(crate) tolerances: Option<&'static str>,
}

fn lens_of(alloc: Global, text: &str) -> Option<ZmxFile>
    ensures { IfSome result (λ f. IsSound f.lens) }
{
    match read_zmx(alloc, text.as_bytes()) {
        Ok(file) => Some(file),
        Err(_) => None,
    }
}

fn job_of(alloc: Global, text: &str) -> Option<Job>
    ensures { IfSome result IsInRange }
{
    match read_job(alloc, text.as_bytes()) {
        Ok(job) => Some(job),
        Err(_) => None,
    }
}

/// The box of a text, if there is one, for a lens of so many surfaces.
fn box_of(alloc: Global, text: Option<&str>, surfaces: u32) -> Result<Option<TolBox>, TolFault>
    ensures { IfOk result (λ toler. IsBox (surfaces - 1) (values.tolerances toler)) }
{
    match text {
        Some(text) => Ok(Some(read_tol(alloc, text.as_bytes(), surfaces)?)),
        None => Ok(None),
    }
}

/// The setup and the job of the texts; none where one of them is refused.
pub(crate) fn joined(alloc: Global, texts: &Texts) -> Option<(Setup, Job)>
    ensures well { IfSome result (λ v. IsWellFormed v.0) }
    ensures range { IfSome result (λ v. IsInRange v.1) }
{
    let file = lens_of(alloc, texts.lens)?;
    let job = job_of(alloc, texts.job)?;
    let surfaces = file.lens.surfaces.len() as u32;
    let Ok(toler) = box_of(alloc, texts.tolerances, surfaces) else {
        return None;
    };
    let Ok(book) = read_agf(alloc, GLASSES.as_bytes()) else {
        return None;
    };
    match join(file.lens, &book, &job, toler) {
        Ok(setup) => Some((setup, job)),
        Err(_) => None,
    }
}
