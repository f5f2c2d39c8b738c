//! The writing of what is due.

ghost use Rattle.std.specs.Prelude.{◌≡◌, ◌≢◌, ◌+◌, OnOk, OnErr, is_ok, if◌then◌else◌};
ghost use Rattle.lensio.specs.Count.{Rose};
ghost use Rattle.lensio.specs.Taken.{Takes, TakesFront};
ghost use Rattle.lensmodel.specs.Texts.Book.{book_text};
ghost use Rattle.lensmodel.specs.Texts.Lens.{lens_text};
ghost use Rattle.lensrun.specs.Due.{preparations, Delivers, DueHolds, IsReady};
ghost use Rattle.lensrun.specs.Streams.{streamed_status};

use crate::due::Due;
use crate::first::write_first;
use crate::json::{Unwritten, write_json};
use crate::lines::{Wavelengths, gather_surfaces};
use crate::report::{Piece, gather_line, gather_lines};
use crate::sums::write_sums;
use crate::trace::write_trace;
use glassbook::book::GlassBook;
use lensio::shelf::Failed;
use lensio::sink::Sink;
use lensio::transfer::put;
use lensmodel::status::Status;
use lensreport::glass::print_glasses;
use lensreport::lens::print_lens;
use lensreport::pieces::Line;
use sagform::steps::Steps;
use std::alloc::Global;
use std::sync::ledger::Ledger;
use zmxread::file::ZmxFile;

/// Writes what is due, and answers how the call ends. Each surface of a lens that is traced is
/// prepared once at each scale, which counts a step.
pub fn deliver<K: Sink, L: Ledger>(
    alloc: Global,
    due: Due,
    out: &mut K,
    steps: &mut Steps<L>,
) -> Status
    requires { IsReady due }
    ensures delivers { Delivers due result (K.taken out.old) (K.taken out.new) (K.faults out.old)
        (K.faults out.new) }
    ensures taken { result ≢ Status.WriteFault → K.faults out.new ≡ K.faults out.old }
    ensures nothing { due ≡ Due.Nothing → result ≡ Status.Memory }
    ensures holds { result ≡ Status.Done → DueHolds due }
    ensures steps { steps.new ≡ steps.old + preparations due }
{
    match due {
        Due::Line { status, text } => ended(put(out, text.as_str().as_bytes()), status),
        Due::Glasses(book) => ended(write_book(&book, out), Status::Done),
        Due::Lens(file) => ended(write_lens(&file, out), Status::Done),
        Due::Trace(mut t) => ended(
            write_trace(&t.setup, &t.job, &mut t.bench, out, steps),
            Status::Done,
        ),
        Due::TraceJson(mut t) => streamed(write_json(
            alloc,
            &t.setup,
            &t.job,
            &mut t.bench,
            out,
            steps,
        )),
        Due::First(p) => ended(write_first(&p.setup, &p.job, out), Status::Done),
        Due::Seidel(p) => ended(write_sums(&p.setup, &p.job, out), Status::Done),
        Due::Nothing => Status::Memory,
    }
}

/// How a call ends whose text was written, or wasn't.
fn ended(written: Result<(), Failed>, status: Status) -> Status
    ensures { result ≡ (if is_ok written then status else Status.WriteFault) }
{
    match written {
        Ok(()) => status,
        Err(Failed) => Status::WriteFault,
    }
}

/// How a call ends whose lines were made and written one by one, or weren't.
fn streamed(written: Result<(), Unwritten>) -> Status
    ensures { result ≡ streamed_status written }
{
    match written {
        Ok(()) => Status::Done,
        Err(Unwritten::Failed) => Status::WriteFault,
        Err(Unwritten::Memory) => Status::Memory,
    }
}

/// Writes the lines of a book.
fn write_book<K: Sink>(book: &GlassBook, out: &mut K) -> Result<(), Failed>
    ensures ok { OnOk result (Takes (K.taken out.old) (K.taken out.new) (book_text book.now)) }
    ensures front { OnErr result
        (TakesFront (K.taken out.old) (K.taken out.new) (book_text book.now)) }
    ensures failed { OnErr result (Rose (K.faults out.old) (K.faults out.new)) }
    ensures taken { OnOk result (K.faults out.new ≡ K.faults out.old) }
{
    let (mut piece, mut head) = (Piece::new(), Line::new());
    print_glasses(book.count(), &mut head);
    gather_line(&head, &mut piece, out)?;
    gather_lines(book, &mut piece, out)?;
    put(out, piece.as_str().as_bytes())
}

/// Writes the lines of a lens, and of the tags of its file that aren't used.
fn write_lens<K: Sink>(file: &ZmxFile, out: &mut K) -> Result<(), Failed>
    ensures ok { OnOk result
        (Takes (K.taken out.old) (K.taken out.new) (lens_text file.now.lens file.now.unused)) }
    ensures front { OnErr result
        (TakesFront (K.taken out.old) (K.taken out.new) (lens_text file.now.lens file.now.unused)) }
    ensures failed { OnErr result (Rose (K.faults out.old) (K.faults out.new)) }
    ensures taken { OnOk result (K.faults out.new ≡ K.faults out.old) }
{
    let (mut piece, mut head) = (Piece::new(), Line::new());
    print_lens(&file.lens, &mut head);
    gather_line(&head, &mut piece, out)?;
    gather_surfaces(&file.lens, &mut piece, out)?;
    gather_lines(&Wavelengths { lens: &file.lens }, &mut piece, out)?;
    gather_lines(&file.unused, &mut piece, out)?;
    put(out, piece.as_str().as_bytes())
}
