//! The files of a call, each read and accepted, or what is due in its place.

ghost use Rattle.std.specs.Prelude.{◌≡◌, ◌≤◌, ◌-◌, ◌∷◌, [], IfOk, IfErr, Some, Ok, vec_len};
ghost use Rattle.lensio.specs.Taken.{Takes};
ghost use Rattle.lensmodel.specs.Files.Catalogue.{catalogue};
ghost use Rattle.lensmodel.specs.Files.Job.{job};
ghost use Rattle.lensmodel.specs.Files.Lens.{prescription};
ghost use Rattle.lensmodel.specs.Files.Tolerances.{tolerance_box};
ghost use Rattle.lensmodel.specs.Setup.WellFormed.{IsBox, IsInRange, IsSound};
ghost use Rattle.lensmodel.specs.Texts.FaultText.{agf_cause, job_cause, tol_cause, zmx_cause};
ghost use Rattle.lensrun.specs.Found.{Gives, GivesNone, IsCounted, IsFound, IsUnread, ended};
ghost use Rattle.zmxread.specs.File.{lens_file};

use crate::due::{Due, refused_box, refused_catalogue, refused_job, refused_lens, unread};
use agfread::read::read_agf;
use glassbook::book::GlassBook;
use jobtext::read::read_job;
use lensio::shelf::Shelf;
use lensio::transfer::{FILE_LIMIT, slurp};
use lensmodel::job::Job;
use lensmodel::status::FileKind;
use lensmodel::tolerance::TolBox;
use std::alloc::Global;
use toltext::read::read_tol;
use zmxread::file::ZmxFile;
use zmxread::read::read_zmx;

/// The bytes of a file.
fn bytes_of<F: Shelf>(
    alloc: Global,
    shelf: &mut F,
    file: FileKind,
    name: &[u8],
) -> Result<Vec<u8>, Due>
    ensures value { IfOk result (λ bytes. IsFound (F.held shelf.old) name.now (Some bytes.items)) }
    ensures within { IfOk result (λ bytes. vec_len bytes ≤ FILE_LIMIT) }
    ensures none { IfErr result (λ due. IsUnread (F.held shelf.old) file name.now due) }
    ensures asks { Takes (F.asked shelf.old) (F.asked shelf.new) (name.now ∷ []) }
    ensures held { F.held shelf.new ≡ F.held shelf.old }
    ensures counts { IsCounted (ended result) 1 (F.faults shelf.old) (F.faults shelf.new)
        (F.absences shelf.old) (F.absences shelf.new) (F.given shelf.old) (F.given shelf.new) }
{
    match slurp(alloc, shelf, name) {
        Ok(bytes) => Ok(bytes),
        Err(fault) => Err(unread(file, fault)),
    }
}

/// The lens of a file.
pub fn lens_of<F: Shelf>(alloc: Global, shelf: &mut F, name: &[u8]) -> Result<ZmxFile, Due>
    ensures value { IfOk result
        (λ file. Gives (F.held shelf.old) FileKind.Zmx name.now zmx_cause prescription
        (lens_file file)) }
    ensures sound { IfOk result (λ file. IsSound file.lens) }
    ensures none { IfErr result
        (λ due. GivesNone (F.held shelf.old) FileKind.Zmx name.now zmx_cause prescription due) }
    ensures asks { Takes (F.asked shelf.old) (F.asked shelf.new) (name.now ∷ []) }
    ensures held { F.held shelf.new ≡ F.held shelf.old }
    ensures counts { IsCounted (ended result) 1 (F.faults shelf.old) (F.faults shelf.new)
        (F.absences shelf.old) (F.absences shelf.new) (F.given shelf.old) (F.given shelf.new) }
{
    let bytes = bytes_of(alloc, shelf, FileKind::Zmx, name)?;
    match read_zmx(alloc, bytes.as_slice()) {
        Ok(file) => Ok(file),
        Err(fault) => Err(refused_lens(fault)),
    }
}

/// The glasses of a catalogue.
pub fn book_of<F: Shelf>(alloc: Global, shelf: &mut F, name: &[u8]) -> Result<GlassBook, Due>
    ensures value { IfOk result
        (λ book. Gives (F.held shelf.old) FileKind.Agf name.now agf_cause catalogue book) }
    ensures none { IfErr result
        (λ due. GivesNone (F.held shelf.old) FileKind.Agf name.now agf_cause catalogue due) }
    ensures asks { Takes (F.asked shelf.old) (F.asked shelf.new) (name.now ∷ []) }
    ensures held { F.held shelf.new ≡ F.held shelf.old }
    ensures counts { IsCounted (ended result) 1 (F.faults shelf.old) (F.faults shelf.new)
        (F.absences shelf.old) (F.absences shelf.new) (F.given shelf.old) (F.given shelf.new) }
{
    let bytes = bytes_of(alloc, shelf, FileKind::Agf, name)?;
    match read_agf(alloc, bytes.as_slice()) {
        Ok(book) => Ok(book),
        Err(fault) => Err(refused_catalogue(fault)),
    }
}

/// The job of a file.
pub fn job_of<F: Shelf>(alloc: Global, shelf: &mut F, name: &[u8]) -> Result<Job, Due>
    ensures value { IfOk result
        (λ asked. Gives (F.held shelf.old) FileKind.Job name.now job_cause job asked) }
    ensures sound { IfOk result IsInRange }
    ensures none { IfErr result
        (λ due. GivesNone (F.held shelf.old) FileKind.Job name.now job_cause job due) }
    ensures asks { Takes (F.asked shelf.old) (F.asked shelf.new) (name.now ∷ []) }
    ensures held { F.held shelf.new ≡ F.held shelf.old }
    ensures counts { IsCounted (ended result) 1 (F.faults shelf.old) (F.faults shelf.new)
        (F.absences shelf.old) (F.absences shelf.new) (F.given shelf.old) (F.given shelf.new) }
{
    let bytes = bytes_of(alloc, shelf, FileKind::Job, name)?;
    match read_job(alloc, bytes.as_slice()) {
        Ok(job) => Ok(job),
        Err(fault) => Err(refused_job(fault)),
    }
}

/// The box of a file, for a lens of so many surfaces.
pub fn box_of<F: Shelf>(
    alloc: Global,
    shelf: &mut F,
    name: &[u8],
    surfaces: u32,
) -> Result<TolBox, Due>
    ensures value { IfOk result
        (λ toler. Gives (F.held shelf.old) FileKind.Tol name.now tol_cause
        (λ bytes. tolerance_box bytes (surfaces - 1)) toler) }
    ensures sound { IfOk result (λ toler. IsBox (surfaces - 1) toler.list.items) }
    ensures none { IfErr result
        (λ due. GivesNone (F.held shelf.old) FileKind.Tol name.now tol_cause
        (λ bytes. tolerance_box bytes (surfaces - 1)) due) }
    ensures asks { Takes (F.asked shelf.old) (F.asked shelf.new) (name.now ∷ []) }
    ensures held { F.held shelf.new ≡ F.held shelf.old }
    ensures counts { IsCounted (ended result) 1 (F.faults shelf.old) (F.faults shelf.new)
        (F.absences shelf.old) (F.absences shelf.new) (F.given shelf.old) (F.given shelf.new) }
{
    let bytes = bytes_of(alloc, shelf, FileKind::Tol, name)?;
    match read_tol(alloc, bytes.as_slice(), surfaces) {
        Ok(toler) => Ok(toler),
        Err(fault) => Err(refused_box(fault)),
    }
}
