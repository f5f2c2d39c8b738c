//! The top call: from the words and the files to the status and the text.

ghost use Rattle.std.specs.Prelude.{◌≡◌, ◌≢◌, ◌+◌, ◌*◌, ◌⊎◌, ◌<◌, [], None, length, map};
ghost use Rattle.lensio.specs.Count.{Rose, RoseBy};
ghost use Rattle.lensio.specs.Taken.{TakesFront};
ghost use Rattle.lensrun.specs.Built.{command_of};
ghost use Rattle.lensrun.specs.Promise.{IsComplete, IsDecided, IsDue, BeginsNoReport, OfFiles, Prepares, WritesDueFront, WritesReadFault, WritesReadFaultFront, WritesWanting, names_of};

use crate::deliver::deliver;
use crate::gather::gather;
use lensio::shelf::Shelf;
use lensio::sink::Sink;
use lensio::transfer::FILE_LIMIT;
use lensmodel::status::Status;
use sagform::steps::Steps;
use std::alloc::Global;
use std::sync::ledger::Ledger;

/// Does what the words ask: reads the files from the shelf, checks them, and writes the report to
/// the sink. On every status but `Done`, `WriteFault` and `Memory` the text is one fault line; with
/// `Memory`, which is free where the words fit a command, nothing is written, or a front of rows in
/// JSON. Each surface that is prepared counts a step.
pub fn run<F: Shelf, K: Sink, L: Ledger>(
    alloc: Global,
    words: &[Vec<u8>],
    shelf: &mut F,
    out: &mut K,
    steps: &mut Steps<L>,
) -> Status
    // Only a trace prepares surfaces: each of the lens once at each scale, whatever the number of rays.
    ensures steps { Prepares (F.held shelf.old) (map (λ w. w.items) words.now) steps.old steps.new }
    ensures no_steps { BeginsNoReport (command_of (map (λ w. w.items) words.now)) result
        → steps.new ≡ steps.old }

    // The status and the text that are due, unless the outside fails.
    ensures outcome { let said = map (λ w. w.items) words.now in IsDecided result
        → OfFiles (F.held shelf.old) (IsDue said result (K.taken out.old) (K.taken out.new)) }
    ensures usage { command_of (map (λ w. w.items) words.now) ≡ None
        → (result ≡ Status.Usage) ⊎ (result ≡ Status.WriteFault) }

    // The shelf is asked for the files of the command alone, in their order, and isn't touched where
    // there is none.
    ensures asks { TakesFront (F.asked shelf.old) (F.asked shelf.new)
        (names_of (command_of (map (λ w. w.items) words.now))) }
    ensures untouched { command_of (map (λ w. w.items) words.now) ≡ None → shelf.new ≡ shelf.old }

    // Each of these comes only by its cause, and nothing else is counted.
    ensures absent { result ≡ Status.Absent → Rose (F.absences shelf.old) (F.absences shelf.new) }
    ensures read_fault { result ≡ Status.ReadFault
        → Rose (F.faults shelf.old) (F.faults shelf.new) }
    ensures too_long { result ≡ Status.TooLong
        → RoseBy (FILE_LIMIT + 1) (F.given shelf.old) (F.given shelf.new) }
    ensures too_long_where { let files = length
        (names_of (command_of (map (λ w. w.items) words.now))) in
        F.given shelf.old + files * FILE_LIMIT < F.given shelf.new → (result ≡ Status.TooLong)
        ⊎ (result ≡ Status.WriteFault) }
    ensures write_fault { result ≡ Status.WriteFault → Rose (K.faults out.old) (K.faults out.new) }
    ensures calm { result ≢ Status.ReadFault → result ≢ Status.WriteFault
        → F.faults shelf.new ≡ F.faults shelf.old }
    ensures found { result ≢ Status.Absent → result ≢ Status.WriteFault
        → F.absences shelf.new ≡ F.absences shelf.old }
    ensures taken { result ≢ Status.WriteFault → K.faults out.new ≡ K.faults out.old }

    // What is written where the outside fails: the line of a failed read, a front of the text of a
    // sink that fails, and for want of memory nothing, or of rows in JSON a front.
    ensures read_fault_text { let said = map (λ w. w.items) words.now in result ≡ Status.ReadFault
        → WritesReadFault (F.held shelf.old) said (K.taken out.old) (K.taken out.new) }
    ensures front { let said = map (λ w. w.items) words.now in result ≡ Status.WriteFault →
        WritesDueFront (F.held shelf.old) said (K.taken out.old) (K.taken out.new)
        ⊎ (Rose (F.faults shelf.old) (F.faults shelf.new)
        × WritesReadFaultFront (F.held shelf.old) said (K.taken out.old) (K.taken out.new)) }
    ensures silent { let said = map (λ w. w.items) words.now in result ≡ Status.Memory
        → WritesWanting (F.held shelf.old) said (K.taken out.old) (K.taken out.new) }

    // Where nothing of the outside fails, a report that is due is written, unless memory is wanting.
    ensures complete { let said = map (λ w. w.items) words.now in
        ¬ Rose (F.absences shelf.old) (F.absences shelf.new)
        → ¬ Rose (F.faults shelf.old) (F.faults shelf.new)
        → ¬ Rose (K.faults out.old) (K.faults out.new)
        → IsComplete (F.held shelf.old) said result }
{
    let due = gather(alloc, words, shelf);
    deliver(alloc, due, out, steps)
}
