//! Sources and sinks in memory.

ghost use Rattle.std.specs.Prelude.{◌≡◌, ◌<◌, ◌≤◌, ◌+◌, ◌++◌, ◌↔◌, ℕ, [], Some, Ok, Err, min, length, take, drop, is_some, IsErr, IsTrue, IfOk, OnOk, OnErr, MatchOption, IsSomeAnd, Contains, slice_get};
ghost use Rattle.std.specs.Option.{option_copied};
ghost use Rattle.lensio.specs.Count.{plus};
ghost use Rattle.lensio.specs.Memory.{first_named, files_in, left_in, IsPlace};
ghost use Rattle.lensio.specs.MemoryState.{after_choice, read_len, after_read, next_call, after_bytes};

use crate::shelf::{Failed, Shelf};
use crate::sink::Sink;
use std::alloc::Global;
use std::marker::Model;

/// Files in memory, of which no call fails.
#[derive(Drop)]
pub struct CalmShelf {
    files: Vec<(Vec<u8>, Vec<u8>)>,
    piece: usize,
    chosen: Option<usize>,
    at: usize,
    absences: u64,
    given: u64,
}

impl Model for CalmShelf {
    ghost use Rattle.std.specs.Prelude.{◌≤◌};
    ghost use Rattle.lensio.specs.Memory.{files_in, left_in, IsPlace};
    ghost use Rattle.lensio.specs.MemoryState.{CalmFiles};

    ghost Value = { CalmFiles };

    ghost view = { λ s. record {
      files = files_in s.files.items;
      piece = s.piece;
      left = left_in s.files.items s.chosen s.at;
      absences = s.absences;
      given = s.given;
    } };

    ghost invariant = { λ s. (1 ≤ s.piece) × IsPlace s.files.items s.chosen s.at };
}

impl CalmShelf {
    /// Files with their names; of equal names the first is held. A read gives at most `piece` bytes.
    pub fn new(files: Vec<(Vec<u8>, Vec<u8>)>, piece: usize) -> CalmShelf
        requires { 1 ≤ piece }
        ensures { result ≡ record {
          files = files_in files.items;
          piece = piece;
          left = [];
          absences = 0;
          given = 0;
        } }
    {
        CalmShelf {
            files,
            piece,
            chosen: None,
            at: 0,
            absences: 0,
            given: 0,
        }
    }

    // Drops the chosen file.
    fn close(&mut self)
        ensures { self.new ≡ record self.old { left = [] } }
    {
        self.chosen = None;
        self.at = 0;
    }
}

impl Shelf for CalmShelf {
    ghost use Rattle.lensio.specs.Memory.{first_named};

    ghost held = { λ shelf. Some (first_named shelf.files) };

    ghost left = { λ shelf. Some shelf.left };

    ghost faults = { λ shelf. 0 };

    ghost absences = { λ shelf. shelf.absences };

    ghost given = { λ shelf. shelf.given };

    fn choose(&mut self, name: &[u8]) -> Result<bool, Failed>
        ensures found { result ≡ Ok (is_some (first_named self.old.files name.now)) }
        ensures after { self.new ≡ after_choice self.old name.now }
        ensures absences_rise { self.old.absences ≤ self.new.absences }
    {
        self.at = 0;
        self.chosen = place_of(&self.files, name);
        match self.chosen {
            Some(_) => Ok(true),
            None => {
                self.absences = self.absences.saturating_add(1);
                Ok(false)
            }
        }
    }

    fn read(&mut self, to: &mut [u8]) -> Result<usize, Failed>
        ensures piece { 1 ≤ self.old.piece }
        ensures count { result ≡ Ok (read_len self.old (length to.old)) }
        ensures bytes { let count = read_len self.old (length to.old) in
            to.new ≡ take count self.old.left ++ drop count to.old }
        ensures after { self.new ≡ after_read self.old (length to.old) }
        ensures given_rises { self.old.given ≤ self.new.given }
    {
        let rest = rest_of(&self.files, self.chosen, self.at);
        let count = copy_front(rest, to, self.piece);
        self.at += count;
        self.given = self.given.saturating_add(count as u64);
        Ok(count)
    }
}

// The place of the first file of a name.
fn place_of(files: &[(Vec<u8>, Vec<u8>)], name: &[u8]) -> Option<usize>
    ensures { MatchOption result (first_named (files_in files.now) name.now ≡ None)
        (λ i. IsSomeAnd (slice_get files.now i)
        (λ file. first_named (files_in files.now) name.now ≡ Some file.1.items)) }
{
    for (i, file) in files.iter().enumerate() {
        if file.0.as_slice() == name {
            return Some(i);
        }
    }
    None
}

// What is left of the chosen file behind a place in it.
fn rest_of(files: &[(Vec<u8>, Vec<u8>)], chosen: Option<usize>, at: usize) -> &[u8]
    requires { IsPlace files.now chosen at }
    ensures { result.now ≡ left_in files.now chosen at }
{
    match chosen {
        Some(i) => &files[i].1[at..],
        None => &[],
    }
}

// Copies the front that fits and is at most so long, and answers its length.
fn copy_front(from: &[u8], to: &mut [u8], most: usize) -> usize
    ensures count { result ≡ min most (min (length from.now) (length to.old)) }
    ensures bytes { to.new ≡ take result from.now ++ drop result to.old }
{
    let count = most.min(from.len().min(to.len()));
    to[..count].copy_from_slice(&from[..count]);
    count
}

/// Files in memory, of which chosen calls fail.
#[derive(Drop)]
pub struct MemShelf {
    calm: CalmShelf,
    fails: Vec<u64>,
    calls: u128,
    faults: u64,
}

impl Model for MemShelf {
    ghost use Rattle.lensio.specs.MemoryState.{MemFiles};

    ghost Value = { MemFiles };

    ghost view = { λ s. record {
      calm = s.calm;
      fails = s.fails.items;
      calls = s.calls;
      faults = s.faults;
    } };
}

impl MemShelf {
    /// Files as of a `CalmShelf`. Of the calls of `choose` and `read`, counted together from 1,
    /// exactly those whose numbers stand in `fails` fail.
    pub fn new(files: Vec<(Vec<u8>, Vec<u8>)>, fails: Vec<u64>, piece: usize) -> MemShelf
        requires { 1 ≤ piece }
        ensures { result ≡ record {
          calm = record {
            files = files_in files.items;
            piece = piece;
            left = [];
            absences = 0;
            given = 0;
          };
          fails = fails.items;
          calls = 0;
          faults = 0;
        } }
    {
        MemShelf {
            calm: CalmShelf::new(files, piece),
            fails,
            calls: 0,
            faults: 0,
        }
    }
}

impl Shelf for MemShelf {
    ghost use Rattle.lensio.specs.Memory.{first_named};

    ghost held = { λ shelf. Some (first_named shelf.calm.files) };

    ghost left = { λ shelf. Some shelf.calm.left };

    ghost faults = { λ shelf. shelf.faults };

    ghost absences = { λ shelf. shelf.calm.absences };

    ghost given = { λ shelf. shelf.calm.given };

    fn choose(&mut self, name: &[u8]) -> Result<bool, Failed>
        ensures fails { IsErr result ↔ Contains self.old.fails (next_call self.old.calls) }
        ensures found { IfOk result
            (λ found. found ≡ is_some (first_named self.old.calm.files name.now)) }
        ensures after { OnOk result (self.new ≡ record self.old {
          calm = after_choice self.old.calm name.now;
          calls = next_call self.old.calls;
        }) }
        ensures after_failure { OnErr result (self.new ≡ record self.old {
          calm = record self.old.calm { left = [] };
          calls = next_call self.old.calls;
          faults = plus self.old.faults 1;
        }) }
        ensures faults_rise { self.old.faults ≤ self.new.faults }
        ensures absences_rise { self.old.calm.absences ≤ self.new.calm.absences }
    {
        self.calls = self.calls.saturating_add(1);
        if is_listed(&self.fails, self.calls) {
            self.calm.close();
            self.faults = self.faults.saturating_add(1);
            return Err(Failed);
        }
        self.calm.choose(name)
    }

    fn read(&mut self, to: &mut [u8]) -> Result<usize, Failed>
        ensures piece { OnOk result (1 ≤ self.old.calm.piece) }
        ensures fails { IsErr result ↔ Contains self.old.fails (next_call self.old.calls) }
        ensures count { IfOk result (λ count. count ≡ read_len self.old.calm (length to.old)) }
        ensures bytes { IfOk result
            (λ count. to.new ≡ take count self.old.calm.left ++ drop count to.old) }
        ensures after { OnOk result (self.new ≡ record self.old {
          calm = after_read self.old.calm (length to.old);
          calls = next_call self.old.calls;
        }) }
        ensures after_failure { OnErr result (self.new ≡ record self.old {
          calls = next_call self.old.calls;
          faults = plus self.old.faults 1;
        }) }
        ensures faults_rise { self.old.faults ≤ self.new.faults }
        ensures given_rises { self.old.calm.given ≤ self.new.calm.given }
    {
        self.calls = self.calls.saturating_add(1);
        if is_listed(&self.fails, self.calls) {
            self.faults = self.faults.saturating_add(1);
            return Err(Failed);
        }
        self.calm.read(to)
    }
}

/// Memory was wanting for the room of a sink. No clause says when it comes.
#[derive(Clone, Copy, Debug, PartialEq, Eq)]
pub struct SinkFull;

/// A sink in memory, of which no call fails.
#[derive(Drop)]
pub struct CalmSink {
    bytes: Vec<u8>,
    fits: bool,
    room: usize,
    piece: usize,
}

impl Model for CalmSink {
    ghost use Rattle.std.specs.Prelude.{◌≤◌, Some, None, if◌then◌else◌, vec_len, vec_capacity};
    ghost use Rattle.lensio.specs.MemoryState.{CalmBytes};

    ghost Value = { CalmBytes };

    ghost view = { λ s. record {
      taken = if s.fits then Some s.bytes.items else None;
      room = s.room;
      piece = s.piece;
    } };

    ghost invariant = { λ s. (1 ≤ s.piece) × (vec_len s.bytes ≤ s.room)
        × (s.room ≤ vec_capacity s.bytes) };
}

impl CalmSink {
    /// A sink that takes at most `piece` bytes at once, and keeps them while all of them are at most
    /// `room` bytes. It takes memory for the room here, and then no more.
    pub fn new(alloc: Global, room: usize, piece: usize) -> Result<CalmSink, SinkFull>
        requires { 1 ≤ piece }
        ensures { IfOk result
            (λ sink. sink ≡ record { taken = Some []; room = room; piece = piece }) }
    {
        Ok(CalmSink {
            bytes: Vec::with_capacity(alloc, room).map_err(|_| SinkFull)?,
            fits: true,
            room,
            piece,
        })
    }

    /// All bytes taken so far; None exactly once they were more than the room.
    pub fn bytes(&self) -> Option<&[u8]>
        ensures { option_copied result ≡ self.now.taken }
    {
        if self.fits { Some(&self.bytes) } else { None }
    }
}

impl Sink for CalmSink {
    ghost taken = { λ sink. sink.taken };

    ghost faults = { λ sink. 0 };

    fn write(&mut self, piece: &[u8]) -> Result<usize, Failed>
        ensures piece { 1 ≤ self.old.piece }
        ensures count { result ≡ Ok (min self.old.piece (length piece.now)) }
        ensures after { self.new ≡ after_bytes self.old (take self.old.piece piece.now) }
    {
        let count = self.piece.min(piece.len());
        self.fits = self.fits && count <= self.room - self.bytes.len();
        if self.fits {
            self.bytes.extend_from_slice(&piece[..count]).unwrap();
        }
        Ok(count)
    }
}

/// A sink in memory, of which chosen calls fail or take nothing.
#[derive(Drop)]
pub struct MemSink {
    calm: CalmSink,
    fails: Vec<u64>,
    idle: Vec<u64>,
    calls: u128,
    faults: u64,
}

impl Model for MemSink {
    ghost use Rattle.lensio.specs.MemoryState.{MemBytes};

    ghost Value = { MemBytes };

    ghost view = { λ s. record {
      calm = s.calm;
      fails = s.fails.items;
      idle = s.idle.items;
      calls = s.calls;
      faults = s.faults;
    } };
}

impl MemSink {
    /// A sink as a `CalmSink` of the same room and piece. Of the calls of `write`, counted from 1,
    /// exactly those whose numbers stand in `fails` fail, and of the others exactly those in `idle`
    /// take nothing, which is a fault too.
    pub fn new(
        alloc: Global,
        room: usize,
        fails: Vec<u64>,
        idle: Vec<u64>,
        piece: usize,
    ) -> Result<MemSink, SinkFull>
        requires { 1 ≤ piece }
        ensures { IfOk result (λ sink. sink ≡ record {
          calm = record { taken = Some []; room = room; piece = piece };
          fails = fails.items;
          idle = idle.items;
          calls = 0;
          faults = 0;
        }) }
    {
        Ok(MemSink {
            calm: CalmSink::new(alloc, room, piece)?,
            fails,
            idle,
            calls: 0,
            faults: 0,
        })
    }

    /// All bytes taken so far; None exactly once they were more than the room.
    pub fn bytes(&self) -> Option<&[u8]>
        ensures { option_copied result ≡ self.now.calm.taken }
    {
        self.calm.bytes()
    }
}

impl Sink for MemSink {
    ghost taken = { λ sink. sink.calm.taken };

    ghost faults = { λ sink. sink.faults };

    fn write(&mut self, piece: &[u8]) -> Result<usize, Failed>
        requires { 0 < length piece.now }
        ensures fails { IsErr result ↔ Contains self.old.fails (next_call self.old.calls) }
        ensures idle { IfOk result
            (λ count. (count ≡ 0) ↔ Contains self.old.idle (next_call self.old.calls)) }
        ensures count { IfOk result
            (λ count. 0 < count → count ≡ min self.old.calm.piece (length piece.now)) }
        ensures after { IfOk result (λ count. 0 < count → self.new ≡ record self.old {
          calm = after_bytes self.old.calm (take count piece.now);
          calls = next_call self.old.calls;
        }) }
        ensures after_idle { IfOk result (λ count. count ≡ 0 → self.new ≡ record self.old {
          calls = next_call self.old.calls;
          faults = plus self.old.faults 1;
        }) }
        ensures after_failure { OnErr result (self.new ≡ record self.old {
          calls = next_call self.old.calls;
          faults = plus self.old.faults 1;
        }) }
        ensures faults_rise { self.old.faults ≤ self.new.faults }
    {
        self.calls = self.calls.saturating_add(1);
        if is_listed(&self.fails, self.calls) {
            self.faults = self.faults.saturating_add(1);
            return Err(Failed);
        }
        if is_listed(&self.idle, self.calls) {
            self.faults = self.faults.saturating_add(1);
            return Ok(0);
        }
        self.calm.write(piece)
    }
}

// Whether the number of a call stands in a list.
fn is_listed(list: &[u64], call: u128) -> bool
    ensures { IsTrue result ↔ Contains list.now call }
{
    list.iter().any(|number| u128::from(*number) == call)
}
