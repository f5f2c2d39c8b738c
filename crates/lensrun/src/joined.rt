//! The files of a lens, a catalogue and a job, joined.

ghost use Rattle.std.specs.Prelude.{◌≡◌, ◌-◌, IfOk, IfErr, length, map, option_map};
ghost use Rattle.lensio.specs.Taken.{Takes, TakesFront};
ghost use Rattle.lensmodel.specs.Call.Inputs.{box_named, inputs_named};
ghost use Rattle.lensmodel.specs.Setup.Values as values;
ghost use Rattle.lensmodel.specs.Setup.WellFormed.{IsBox, IsInRange, IsWellFormed};
ghost use Rattle.lensrun.specs.Asked.{inputs};
ghost use Rattle.lensrun.specs.Found.{IsCounted, ended};
ghost use Rattle.lensrun.specs.Joined.{GivesBox, GivesNoBox, MakesNone, MakesSetup};
ghost use Rattle.lensrun.specs.Promise.{OfFiles};

use crate::due::{Due, crossed};
use crate::files::{book_of, box_of, job_of, lens_of};
use crate::words::Inputs;
use dispers::join::join;
use lensio::shelf::Shelf;
use lensmodel::job::Job;
use lensmodel::setup::Setup;
use lensmodel::tolerance::TolBox;
use std::alloc::Global;

/// The box of a file, where one is named, for a lens of so many surfaces.
fn box_if<F: Shelf>(
    alloc: Global,
    shelf: &mut F,
    name: Option<&[u8]>,
    surfaces: u32,
) -> Result<Option<TolBox>, Due>
    ensures value { IfOk result
        (λ toler. GivesBox (F.held shelf.old) (surfaces - 1) (option_map (λ t. t.now) name.entry)
        toler) }
    ensures sound { IfOk result (λ toler. IsBox (surfaces - 1) (values.tolerances toler)) }
    ensures none { IfErr result
        (λ due. GivesNoBox (F.held shelf.old) (surfaces - 1) (option_map (λ t. t.now) name.entry)
        due) }
    ensures asks { Takes (F.asked shelf.old) (F.asked shelf.new)
        (map (λ file. file.1) (box_named (option_map (λ t. t.now) name.entry))) }
    ensures held { F.held shelf.new ≡ F.held shelf.old }
    ensures counts { IsCounted (ended result)
        (length (box_named (option_map (λ t. t.now) name.entry)))
        (F.faults shelf.old) (F.faults shelf.new) (F.absences shelf.old) (F.absences shelf.new)
        (F.given shelf.old) (F.given shelf.new) }
{
    match name {
        Some(name) => Ok(Some(box_of(alloc, shelf, name, surfaces)?)),
        None => Ok(None),
    }
}

/// The setup and the job of the files that are named: each is read and accepted before the next is
/// asked for, and then they are joined.
pub fn setup_of<F: Shelf>(
    alloc: Global,
    shelf: &mut F,
    names: &Inputs<'_>,
) -> Result<(Setup, Job), Due>
    ensures setup { IfOk result
        (λ v. OfFiles (F.held shelf.old) (λ files. MakesSetup files (inputs names.now) v.0 v.1)) }
    ensures well { IfOk result (λ v. IsWellFormed v.0) }
    ensures range { IfOk result (λ v. IsInRange v.1) }
    ensures none { IfErr result (λ due. MakesNone (F.held shelf.old) (inputs names.now) due) }
    ensures asks { TakesFront (F.asked shelf.old) (F.asked shelf.new)
        (map (λ file. file.1) (inputs_named (inputs names.now))) }
    ensures counts { IsCounted (ended result) (length (inputs_named (inputs names.now)))
        (F.faults shelf.old) (F.faults shelf.new) (F.absences shelf.old) (F.absences shelf.new)
        (F.given shelf.old) (F.given shelf.new) }
{
    let file = lens_of(alloc, shelf, names.lens)?;
    let book = book_of(alloc, shelf, names.catalogue)?;
    let job = job_of(alloc, shelf, names.job)?;
    let surfaces = file.lens.surfaces.len() as u32;
    let toler = box_if(alloc, shelf, names.tolerances, surfaces)?;
    match join(file.lens, &book, &job, toler) {
        Ok(setup) => Ok((setup, job)),
        Err(fault) => Err(crossed(fault)),
    }
}
