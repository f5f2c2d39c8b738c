//! From the words and the files to what is due.

ghost use Rattle.std.specs.Prelude.{◌≡◌, None, Some, length, map};
ghost use Rattle.lensio.specs.Taken.{TakesFront};
ghost use Rattle.lensmodel.specs.Call.Answer.{answer};
ghost use Rattle.lensmodel.specs.Texts.FaultText.{usage_line};
ghost use Rattle.lensrun.specs.Built as top;
ghost use Rattle.lensrun.specs.Due.{due_answer, IsReady};
ghost use Rattle.lensrun.specs.Found.{IsCounted};
ghost use Rattle.lensrun.specs.Promise.{IsDueOf, names_of};

use crate::answer::{first_due, glass_due, index_due, json_due, read_due, seidel_due, trace_due};
use crate::due::{Due, usage};
use crate::words::{Command, command_of};
use lensio::shelf::Shelf;
use lensmodel::status::Status;
use std::alloc::Global;

/// What a call is due to write: takes the words, reads the files that they name, and checks them.
pub fn gather<F: Shelf>(alloc: Global, words: &[Vec<u8>], shelf: &mut F) -> Due
    // The answer of the words and the files, unless the outside decides.
    ensures due { IsDueOf (F.held shelf.old) (top.command_of (map (λ w. w.items) words.now))
        result }
    ensures ready { IsReady result }
    ensures usage { top.command_of (map (λ w. w.items) words.now) ≡ None
        → due_answer result ≡ answer Status.Usage usage_line }

    // The shelf is asked for the files of the command alone, in their order, and isn't touched where
    // there is none.
    ensures asks { TakesFront (F.asked shelf.old) (F.asked shelf.new)
        (names_of (top.command_of (map (λ w. w.items) words.now))) }
    ensures untouched { top.command_of (map (λ w. w.items) words.now) ≡ None
        → shelf.new ≡ shelf.old }

    // Each end has its cause in what the shelf counts, and nothing else is counted.
    ensures counts { IsCounted (Some (due_answer result).status)
        (length (names_of (top.command_of (map (λ w. w.items) words.now))))
        (F.faults shelf.old) (F.faults shelf.new) (F.absences shelf.old) (F.absences shelf.new)
        (F.given shelf.old) (F.given shelf.new) }
{
    let Some(command) = command_of(words) else {
        return usage();
    };
    match command {
        Command::Index {
            catalogue,
            glass,
            wave,
        } => index_due(alloc, shelf, catalogue, &glass, &wave),
        Command::Glass { catalogue } => glass_due(alloc, shelf, catalogue),
        Command::Read { lens } => read_due(alloc, shelf, lens),
        Command::Trace(names) => trace_due(alloc, shelf, &names),
        Command::TraceJson(names) => json_due(alloc, shelf, &names),
        Command::First(names) => first_due(alloc, shelf, &names),
        Command::Seidel(names) => seidel_due(alloc, shelf, &names),
    }
}
