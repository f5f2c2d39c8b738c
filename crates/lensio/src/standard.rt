//! The system's files and its output, as a shelf and a sink.
//!
//! Where the disk and the writer tell their bytes, the shelf and the sink tell them too.

ghost use Rattle.std.specs.Prelude.{◌≡◌, ◌≢◌, ◌<◌, ◌≤◌, ◌↔◌, [], Some, None, Ok, false, length, IfOk, IfErr, OnErr, IsSome, IsTrue, IsFalse, IsUtf8, if◌then◌else◌};
ghost use Rattle.std.specs.Io.{ReadsAtMost, WritesAtMost};
ghost use Rattle.std.specs.Io.KnownBytes.{IsAtEnd, ReadConsumes, WriteAppends};
ghost use Rattle.std.specs.IoError.{error_kind};
ghost use Rattle.lensio.specs.Choice.{AnswersBy};
ghost use Rattle.lensio.specs.Count.{plus};
ghost use Rattle.lensio.specs.Held.{Lacks, Opens};

use crate::disk::Disk;
use crate::output::Output;
use crate::shelf::{Failed, Shelf};
use crate::sink::Sink;
use std::io::{Error, ErrorKind, Read, Write};
use std::marker::Model;
use std::{io, str};

/// How often at most a read or a write is tried that the system interrupts. One more interruption is
/// a fault.
pub const TRIES: u32 = 1_000_000;

/// The files of a disk, by their paths.
///
/// A name that isn't UTF-8 or that the system doesn't find is an absence, and every other refused
/// opening a fault, one for want of memory among them.
#[derive(Drop)]
pub struct StdShelf<D: Disk> {
    disk: D,
    chosen: Option<D::File>,
    faults: u64,
    absences: u64,
    given: u64,
}

impl<D: Disk> Model for StdShelf<D> {
    ghost use Rattle.std.specs.Prelude.{is_some};
    ghost use Rattle.lensio.specs.Standard.{SystemFiles, left_of};

    ghost Value = { SystemFiles D };

    ghost view = { λ s. record {
      disk = s.disk;
      is_chosen = is_some s.chosen;
      left = left_of D.File.remaining s.chosen;
      faults = s.faults;
      absences = s.absences;
      given = s.given;
    } };
}

impl<D: Disk> StdShelf<D> {
    /// The files of a disk, with none chosen and all counts at 0.
    pub fn new(disk: D) -> Self
        ensures { result ≡ record {
          disk = disk;
          is_chosen = false;
          left = Some [];
          faults = 0;
          absences = 0;
          given = 0;
        } }
    {
        StdShelf {
            disk,
            chosen: None,
            faults: 0,
            absences: 0,
            given: 0,
        }
    }
}

impl<D: Disk> Shelf for StdShelf<D> {
    ghost held = { λ shelf. D.held shelf.disk };

    ghost left = { λ shelf. shelf.left };

    ghost faults = { λ shelf. shelf.faults };

    ghost absences = { λ shelf. shelf.absences };

    ghost given = { λ shelf. shelf.given };

    fn choose(&mut self, name: &[u8]) -> Result<bool, Failed>
        ensures not_text { (IsUtf8 name.now → ⊥) → result ≡ Ok false }
        ensures answer { IsUtf8 name.now
            → AnswersBy (D.may_answer self.old.disk name.now) D.File.remaining result
            self.new.left }
        ensures opens { IfOk result
            (λ found. IsTrue found → Opens (D.held self.old.disk) name.now self.new.left) }
        ensures lacks { IfOk result
            (λ found. IsFalse found → Lacks (D.held self.old.disk) name.now) }
        ensures none_chosen { IfOk result (λ found. IsFalse found → self.new.left ≡ Some []) }
        ensures after { IfOk result (λ found. self.new ≡ record self.old {
          is_chosen = found;
          left = self.new.left;
          absences = if found then self.old.absences else plus self.old.absences 1;
        }) }
        ensures after_failure { OnErr result (self.new ≡ record self.old {
          is_chosen = false;
          left = Some [];
          faults = plus self.old.faults 1;
        }) }
        ensures faults_rise { self.old.faults ≤ self.new.faults }
        ensures absences_rise { self.old.absences ≤ self.new.absences }
    {
        self.chosen = None;
        let Ok(path) = str::from_utf8(name) else {
            self.absences = self.absences.saturating_add(1);
            return Ok(false);
        };
        match self.disk.open(path) {
            Ok(file) => {
                self.chosen = Some(file);
                Ok(true)
            }
            Err(error) if is_absence(&error) => {
                self.absences = self.absences.saturating_add(1);
                Ok(false)
            }
            Err(_) => {
                self.faults = self.faults.saturating_add(1);
                Err(Failed)
            }
        }
    }

    fn read(&mut self, to: &mut [u8]) -> Result<usize, Failed>
        ensures bound { IfOk result (λ count. count ≤ length to.old) }
        ensures rest { ReadConsumes self.old.left self.new.left result to.new }
        ensures end { IfOk result (λ count. count ≡ 0 → 0 < length to.old → IsAtEnd self.new.left) }
        ensures none_chosen { IsFalse self.old.is_chosen → result ≡ Ok 0 }
        ensures after { IfOk result
            (λ count. self.new ≡ record
            self.old { left = self.new.left; given = plus self.old.given count }) }
        ensures after_failure { OnErr result
            (self.new ≡ record self.old { left = self.new.left; faults = plus self.old.faults 1 }) }
        ensures faults_rise { self.old.faults ≤ self.new.faults }
        ensures given_rises { self.old.given ≤ self.new.given }
    {
        let read = match &mut self.chosen {
            Some(file) => read_again(file, to),
            None => Ok(0),
        };
        match read {
            Ok(count) => {
                self.given = self.given.saturating_add(count as u64);
                Ok(count)
            }
            Err(_) => {
                self.faults = self.faults.saturating_add(1);
                Err(Failed)
            }
        }
    }
}

// Whether a refused opening is an absence: the system doesn't find the path.
fn is_absence(error: &Error) -> bool
    ensures { IsTrue result ↔ (error_kind error.now ≡ ErrorKind.NotFound) }
{
    error.kind() == ErrorKind::NotFound
}

// Whether the system interrupted a call, which can then be tried again.
fn is_interrupted(error: &Error) -> bool
    ensures { IsTrue result ↔ (error_kind error.now ≡ ErrorKind.Interrupted) }
{
    error.kind() == ErrorKind::Interrupted
}

// A read, tried again where the system interrupts it.
fn read_again<R: Read>(from: &mut R, to: &mut [u8]) -> io::Result<usize>
    ensures bound { ReadsAtMost result to.new }
    ensures bytes { ReadConsumes (R.remaining from.old) (R.remaining from.new) result to.new }
    ensures tried_again { IfErr result (λ error. error_kind error ≢ ErrorKind.Interrupted) }
{
    for _ in 0..TRIES {
        match from.read(to) {
            Err(error) if is_interrupted(&error) => {}
            read => return read,
        }
    }
    Err(Error::from(ErrorKind::TimedOut))
}

// A write, tried again where the system interrupts it.
fn write_again<W: Write>(to: &mut W, piece: &[u8]) -> io::Result<usize>
    ensures bound { WritesAtMost result piece.now }
    ensures bytes { WriteAppends (W.contents to.old) (W.contents to.new) result piece.now }
    ensures tried_again { IfErr result (λ error. error_kind error ≢ ErrorKind.Interrupted) }
{
    for _ in 0..TRIES {
        match to.write(piece) {
            Err(error) if is_interrupted(&error) => {}
            written => return written,
        }
    }
    Err(Error::from(ErrorKind::TimedOut))
}

/// What a writer takes.
#[derive(Drop)]
pub struct StdSink<W: Output> {
    to: W,
    faults: u64,
}

impl<W: Output> Model for StdSink<W> {
    ghost use Rattle.lensio.specs.Standard.{SystemBytes};

    ghost Value = { SystemBytes };

    ghost view = { λ s. record { taken = W.contents s.to; faults = s.faults } };
}

impl<W: Output> StdSink<W> {
    /// A writer, with the count of faults at 0.
    pub fn new(to: W) -> Self
        ensures { result ≡ record { taken = W.contents to; faults = 0 } }
    {
        StdSink { to, faults: 0 }
    }
}

impl<W: Output> Sink for StdSink<W> {
    ghost taken = { λ sink. sink.taken };

    ghost faults = { λ sink. sink.faults };

    fn write(&mut self, piece: &[u8]) -> Result<usize, Failed>
        ensures bound { IfOk result (λ count. count ≤ length piece.now) }
        ensures wrote { WriteAppends self.old.taken self.new.taken result piece.now }
        ensures told { IsSome self.new.taken → IsSome self.old.taken }
        ensures after { IfOk result (λ count. 0 < count → self.new.faults ≡ self.old.faults) }
        ensures after_idle { IfOk result
            (λ count. count ≡ 0 → self.new.faults ≡ plus self.old.faults 1) }
        ensures after_failure { OnErr result (self.new.faults ≡ plus self.old.faults 1) }
        ensures faults_rise { self.old.faults ≤ self.new.faults }
    {
        match write_again(&mut self.to, piece) {
            Ok(count) => {
                if count == 0 {
                    self.faults = self.faults.saturating_add(1);
                }
                Ok(count)
            }
            Err(_) => {
                self.faults = self.faults.saturating_add(1);
                Err(Failed)
            }
        }
    }
}
