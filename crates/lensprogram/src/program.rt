//! From the arguments of the process to the code with which it ends.

ghost use Rattle.std.specs.Prelude.{◌≡◌, ◌+◌, ◌<◌, [], IfOk, map};
ghost use Rattle.std.specs.Process.{exit_status};
ghost use Rattle.lensio.specs.Count.{Rose, RoseBy};
ghost use Rattle.lensio.specs.Taken.{TakesFront};
ghost use Rattle.lensprogram.specs.Ending.{Ends, exit_code, said_after_name, said_in};
ghost use Rattle.lensrun.specs.Promise.{IsComplete, IsDecided, IsDue, OfFiles, WritesWanting, names_of};
ghost use Rattle.lensrun.specs.Built.{command_of};

use lensio::disk::SystemDisk;
use lensio::shelf::Shelf;
use lensio::sink::Sink;
use lensio::standard::{StdShelf, StdSink};
use lensio::transfer::FILE_LIMIT;
use lensmodel::status::Status;
use lensrun::run::run;
use sagform::steps::Steps;
use std::alloc::{AllocError, Global};
use std::env::Args;
use std::io::ErrorKind;
use std::process::ExitCode;
use std::rt::{Env, Files};
use std::sync::ledger::{Blank, Ledger};
use std::{env, io};

/// The arguments after the program's name, as bytes.
fn words(alloc: Global, mut arguments: Args) -> Result<Vec<Vec<u8>>, AllocError>
    ensures { IfOk result (λ words. map (λ w. w.items) words.items ≡ said_after_name arguments) }
{
    let _name = arguments.next();
    let mut all = Vec::new(alloc);
    for argument in arguments {
        all.push(argument.into_bytes())?;
    }
    Ok(all)
}

/// The words of a call; none where an argument isn't text.
fn words_of(alloc: Global, arguments: io::Result<Args>) -> Result<Vec<Vec<u8>>, AllocError>
    ensures { IfOk result (λ words. map (λ w. w.items) words.items ≡ said_in arguments) }
{
    match arguments {
        Ok(arguments) => words(alloc, arguments),
        Err(error) if error.kind() == ErrorKind::OutOfMemory => Err(AllocError),
        Err(_) => Ok(Vec::new(alloc)),
    }
}

/// The code of a status.
fn code(status: Status) -> u8
    ensures { result ≡ exit_code status }
{
    match status {
        Status::Done => 0,
        Status::Usage => 2,
        Status::Refused => 3,
        Status::Absent => 4,
        Status::ReadFault => 5,
        Status::TooLong => 6,
        Status::WriteFault => 7,
        Status::Memory => 8,
    }
}

/// Does what the arguments ask, and answers the code with which the process ends. Where memory for the
/// arguments is wanting nothing is written.
pub fn answer<F: Shelf, K: Sink, L: Ledger>(
    alloc: Global,
    arguments: io::Result<Args>,
    shelf: &mut F,
    out: &mut K,
    blank: Blank,
) -> ExitCode
    requires name { blank.name ≡ L.name }
    requires parts { blank.parts ≡ L.parts }
    requires some { 0 < L.parts }

    // The code stands for the status that is due, and the text that is due was written.
    ensures outcome { Ends result
        (λ status. IsDecided status
        → OfFiles (F.held shelf.old)
        (IsDue (said_in arguments) status (K.taken out.old) (K.taken out.new))) }
    ensures asks { TakesFront (F.asked shelf.old) (F.asked shelf.new)
        (names_of (command_of (said_in arguments))) }

    // The codes that the outside decides.
    ensures absent { Ends result
        (λ status. status ≡ Status.Absent → Rose (F.absences shelf.old) (F.absences shelf.new)) }
    ensures read_fault { Ends result
        (λ status. status ≡ Status.ReadFault → Rose (F.faults shelf.old) (F.faults shelf.new)) }
    ensures too_long { Ends result
        (λ status. status ≡ Status.TooLong
        → RoseBy (FILE_LIMIT + 1) (F.given shelf.old) (F.given shelf.new)) }
    ensures write_fault { Ends result
        (λ status. status ≡ Status.WriteFault → Rose (K.faults out.old) (K.faults out.new)) }
    ensures silent { Ends result
        (λ status. status ≡ Status.Memory
        → WritesWanting (F.held shelf.old) (said_in arguments) (K.taken out.old)
        (K.taken out.new)) }
    ensures complete { Ends result (λ status.
        ¬ Rose (F.absences shelf.old) (F.absences shelf.new)
        → ¬ Rose (F.faults shelf.old) (F.faults shelf.new)
        → ¬ Rose (K.faults out.old) (K.faults out.new)
        → IsComplete (F.held shelf.old) (said_in arguments) status) }
{
    let mut steps = Steps::<L>::start(blank);
    match words_of(alloc, arguments) {
        Ok(words) => ExitCode::from(code(run(alloc, words.as_slice(), shelf, out, &mut steps))),
        Err(AllocError) => ExitCode::from(code(Status::Memory)),
    }
}

/// The same over the system: the arguments of the process, its files and its standard output.
pub fn process<R: Files + Env + Print + Alloc<A = Global>, L: Ledger>(
    rt: &R,
    blank: Blank,
) -> ExitCode
    requires name { blank.name ≡ L.name }
    requires parts { blank.parts ≡ L.parts }
    requires some { 0 < L.parts }
{
    let mut shelf = StdShelf::new(SystemDisk::new(rt));
    let mut sink = StdSink::new(io::writer(rt));
    answer::<StdShelf<SystemDisk<'_, R>>, StdSink<io::Printer<'_, R>>, L>(
        rt.alloc(),
        env::args(rt),
        &mut shelf,
        &mut sink,
        blank,
    )
}
