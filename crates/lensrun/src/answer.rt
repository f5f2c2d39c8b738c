//! What each command is due to write over its files.

ghost use Rattle.std.specs.Prelude.{◌≡◌, pos, ◌<ℤ◌, ◌∷◌, [], IfOk, IfErr, Some, length, map};
ghost use Rattle.lensio.specs.Taken.{Takes, TakesFront};
ghost use Rattle.lensmodel.specs.Call.Answer.{answer};
ghost use Rattle.lensmodel.specs.Call.Inputs.{inputs_named};
ghost use Rattle.lensmodel.specs.Call.TopCall as top;
ghost use Rattle.lensmodel.specs.Setup.WellFormed.{IsWellFormed};
ghost use Rattle.lensmodel.specs.Texts.Index.{index_line};
ghost use Rattle.lensrun.specs.Asked.{inputs};
ghost use Rattle.lensrun.specs.Due.{due_answer, index_answer, CanBeTraced, IsNoTrace, IsReady};
ghost use Rattle.lensrun.specs.Found.{IsCounted, ended};
ghost use Rattle.lensrun.specs.Joined.{MakesNone, MakesSetup};
ghost use Rattle.lensrun.specs.Promise.{IsDueOf, OfFiles};

use crate::due::{Due, Paraxial, Tracing, crossed};
use crate::files::{book_of, lens_of};
use crate::joined::setup_of;
use crate::words::Inputs;
use dispers::pick::{Picked, find};
use fixdec::dec::Dec;
use glassbook::book::GlassBook;
use ladder::bench::Bench;
use lensio::shelf::Shelf;
use lensmodel::name::Name;
use lensmodel::status::Status;
use lensreport::index::print_index;
use lensreport::pieces::Line;
use std::alloc::Global;

/// The index of a glass of a catalogue at a wavelength above 0.
pub fn index_due<F: Shelf>(
    alloc: Global,
    shelf: &mut F,
    catalogue: &[u8],
    name: &Name,
    wave: &Dec,
) -> Due
    requires { pos 0 <ℤ wave.now.mant }
    ensures due { IsDueOf (F.held shelf.old)
        (Some (top.index (record { agf = catalogue.now; name = name.now.items; wave = wave.now })))
        result }
    ensures ready { IsReady result }
    ensures asks { Takes (F.asked shelf.old) (F.asked shelf.new) (catalogue.now ∷ []) }
    ensures counts { IsCounted (Some (due_answer result).status) 1 (F.faults shelf.old)
        (F.faults shelf.new)
        (F.absences shelf.old) (F.absences shelf.new) (F.given shelf.old) (F.given shelf.new) }
{
    match book_of(alloc, shelf, catalogue) {
        Ok(book) => index_over(&book, name, wave),
        Err(due) => due,
    }
}

/// The glasses of a catalogue.
pub fn glass_due<F: Shelf>(alloc: Global, shelf: &mut F, catalogue: &[u8]) -> Due
    ensures due { IsDueOf (F.held shelf.old) (Some (top.glass catalogue.now)) result }
    ensures ready { IsReady result }
    ensures asks { Takes (F.asked shelf.old) (F.asked shelf.new) (catalogue.now ∷ []) }
    ensures counts { IsCounted (Some (due_answer result).status) 1 (F.faults shelf.old)
        (F.faults shelf.new)
        (F.absences shelf.old) (F.absences shelf.new) (F.given shelf.old) (F.given shelf.new) }
{
    match book_of(alloc, shelf, catalogue) {
        Ok(book) => Due::Glasses(book),
        Err(due) => due,
    }
}

/// The prescription of a lens.
pub fn read_due<F: Shelf>(alloc: Global, shelf: &mut F, lens: &[u8]) -> Due
    ensures due { IsDueOf (F.held shelf.old) (Some (top.read lens.now)) result }
    ensures ready { IsReady result }
    ensures asks { Takes (F.asked shelf.old) (F.asked shelf.new) (lens.now ∷ []) }
    ensures counts { IsCounted (Some (due_answer result).status) 1 (F.faults shelf.old)
        (F.faults shelf.new)
        (F.absences shelf.old) (F.absences shelf.new) (F.given shelf.old) (F.given shelf.new) }
{
    match lens_of(alloc, shelf, lens) {
        Ok(file) => Due::Lens(file),
        Err(due) => due,
    }
}

/// A lens with its job, and room for the prepared surfaces, which is taken before the first file is
/// asked for.
fn tracing<F: Shelf>(alloc: Global, shelf: &mut F, names: &Inputs<'_>) -> Result<Tracing, Due>
    ensures given { IfOk result
        (λ t. OfFiles (F.held shelf.old)
        (λ files. MakesSetup files (inputs names.now) t.setup t.job)) }
    ensures ready { IfOk result CanBeTraced }
    ensures none { IfErr result (λ due. MakesNone (F.held shelf.old) (inputs names.now) due) }
    ensures asks { TakesFront (F.asked shelf.old) (F.asked shelf.new)
        (map (λ file. file.1) (inputs_named (inputs names.now))) }
    ensures counts { IsCounted (ended result) (length (inputs_named (inputs names.now)))
        (F.faults shelf.old) (F.faults shelf.new) (F.absences shelf.old) (F.absences shelf.new)
        (F.given shelf.old) (F.given shelf.new) }
{
    let Ok(bench) = Bench::room(alloc) else {
        return Err(Due::Nothing);
    };
    match setup_of(alloc, shelf, names) {
        Ok((setup, job)) => Ok(Tracing { setup, job, bench }),
        Err(due) => Err(due),
    }
}

/// The rows of the rays of a job.
pub fn trace_due<F: Shelf>(alloc: Global, shelf: &mut F, names: &Inputs<'_>) -> Due
    ensures due { IsDueOf (F.held shelf.old) (Some (top.trace (inputs names.now))) result }
    ensures ready { IsReady result }
    ensures asks { TakesFront (F.asked shelf.old) (F.asked shelf.new)
        (map (λ file. file.1) (inputs_named (inputs names.now))) }
    ensures counts { IsCounted (Some (due_answer result).status)
        (length (inputs_named (inputs names.now)))
        (F.faults shelf.old) (F.faults shelf.new) (F.absences shelf.old) (F.absences shelf.new)
        (F.given shelf.old) (F.given shelf.new) }
{
    match tracing(alloc, shelf, names) {
        Ok(tracing) => Due::Trace(tracing),
        Err(due) => due,
    }
}

/// The same rows as JSON.
pub fn json_due<F: Shelf>(alloc: Global, shelf: &mut F, names: &Inputs<'_>) -> Due
    ensures due { IsDueOf (F.held shelf.old) (Some (top.trace_json (inputs names.now))) result }
    ensures ready { IsReady result }
    ensures asks { TakesFront (F.asked shelf.old) (F.asked shelf.new)
        (map (λ file. file.1) (inputs_named (inputs names.now))) }
    ensures counts { IsCounted (Some (due_answer result).status)
        (length (inputs_named (inputs names.now)))
        (F.faults shelf.old) (F.faults shelf.new) (F.absences shelf.old) (F.absences shelf.new)
        (F.given shelf.old) (F.given shelf.new) }
{
    match tracing(alloc, shelf, names) {
        Ok(tracing) => Due::TraceJson(tracing),
        Err(due) => due,
    }
}

/// A lens with its job.
// Inlined into its callers, the moves of a setup of 63 KB keep LLVM from an end.
#[inline(never)]
fn paraxial<F: Shelf>(alloc: Global, shelf: &mut F, names: &Inputs<'_>) -> Result<Paraxial, Due>
    ensures given { IfOk result
        (λ p. OfFiles (F.held shelf.old)
        (λ files. MakesSetup files (inputs names.now) p.setup p.job)) }
    ensures well { IfOk result (λ p. IsWellFormed p.setup) }
    ensures none { IfErr result (λ due. MakesNone (F.held shelf.old) (inputs names.now) due) }
    ensures asks { TakesFront (F.asked shelf.old) (F.asked shelf.new)
        (map (λ file. file.1) (inputs_named (inputs names.now))) }
    ensures counts { IsCounted (ended result) (length (inputs_named (inputs names.now)))
        (F.faults shelf.old) (F.faults shelf.new) (F.absences shelf.old) (F.absences shelf.new)
        (F.given shelf.old) (F.given shelf.new) }
{
    match setup_of(alloc, shelf, names) {
        Ok((setup, job)) => Ok(Paraxial { setup, job }),
        Err(due) => Err(due),
    }
}

/// The first-order values of a lens, and the trails of the paraxial rays of its job.
pub fn first_due<F: Shelf>(alloc: Global, shelf: &mut F, names: &Inputs<'_>) -> Due
    ensures due { IsDueOf (F.held shelf.old) (Some (top.first (inputs names.now))) result }
    ensures ready { IsReady result }
    ensures asks { TakesFront (F.asked shelf.old) (F.asked shelf.new)
        (map (λ file. file.1) (inputs_named (inputs names.now))) }
    ensures counts { IsCounted (Some (due_answer result).status)
        (length (inputs_named (inputs names.now)))
        (F.faults shelf.old) (F.faults shelf.new) (F.absences shelf.old) (F.absences shelf.new)
        (F.given shelf.old) (F.given shelf.new) }
{
    match paraxial(alloc, shelf, names) {
        Ok(paraxial) => Due::First(paraxial),
        Err(due) => due,
    }
}

/// The Seidel sums of the pairs of paraxial rays of a job.
pub fn seidel_due<F: Shelf>(alloc: Global, shelf: &mut F, names: &Inputs<'_>) -> Due
    ensures due { IsDueOf (F.held shelf.old) (Some (top.seidel (inputs names.now))) result }
    ensures ready { IsReady result }
    ensures asks { TakesFront (F.asked shelf.old) (F.asked shelf.new)
        (map (λ file. file.1) (inputs_named (inputs names.now))) }
    ensures counts { IsCounted (Some (due_answer result).status)
        (length (inputs_named (inputs names.now)))
        (F.faults shelf.old) (F.faults shelf.new) (F.absences shelf.old) (F.absences shelf.new)
        (F.given shelf.old) (F.given shelf.new) }
{
    match paraxial(alloc, shelf, names) {
        Ok(paraxial) => Due::Seidel(paraxial),
        Err(due) => due,
    }
}

/// The line of the index of a glass at a wavelength above 0, or why it can't be used there.
fn index_over(book: &GlassBook, name: &Name, wave: &Dec) -> Due
    requires { pos 0 <ℤ wave.now.mant }
    ensures answer { due_answer result ≡ index_answer name.now.items wave.now book.now }
    ensures no_trace { IsNoTrace result }
    ensures ready { IsReady result }
{
    match find(book, name, wave) {
        Ok(picked) => index_of(&picked, wave),
        Err(fault) => crossed(fault),
    }
}

/// The line of the index of a glass.
fn index_of(picked: &Picked<'_>, wave: &Dec) -> Due
    ensures answer { due_answer result
        ≡ answer Status.Done (index_line picked.now.glass.name.items wave.now picked.now.index) }
    ensures no_trace { IsNoTrace result }
    ensures ready { IsReady result }
{
    let mut text = Line::new();
    print_index(&picked.glass.name, wave, picked.index, &mut text);
    Due::Line {
        status: Status::Done,
        text,
    }
}
