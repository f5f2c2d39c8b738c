//! Whole files in, and whole texts out.

ghost use Rattle.std.specs.Prelude.{◌≡◌, ◌<◌, ◌≤◌, ◌+◌, ℕ, [], ◌∷◌, length, IfSome, IfOk, OnOk, OnErr, IsErrOf, vec_len};
ghost use Rattle.std.specs.Io.KnownBytes.{Consumes, IsAtEnd};
ghost use Rattle.lensio.specs.Count.{Rose, plus};
ghost use Rattle.lensio.specs.Held.{Holds, HoldsMore, Lacks};
ghost use Rattle.lensio.specs.Taken.{Takes, TakesFront};
ghost use Rattle.lensio.specs.declared.transfer.SlurpFault.TheVariants.{Fault, Memory};

use crate::shelf::{Failed, Shelf};
use crate::sink::Sink;
use std::alloc::{AllocError, Global};

/// The most bytes that a file may have.
pub const FILE_LIMIT: usize = 16_777_216;

// How many bytes are asked for at once.
const PIECE: usize = 8192;

/// Why a file isn't read.
#[derive(Clone, Copy, Debug, PartialEq, Eq, Drop)]
pub enum SlurpFault {
    /// The name isn't held.
    Absent,
    /// The shelf failed.
    Fault,
    /// The file has more than 16,777,216 bytes.
    TooLong,
    /// Memory was wanting for its bytes. No clause says when it comes.
    Memory,
}

impl From<Failed> for SlurpFault {
    ghost from_gives = { λ _ fault. fault ≡ Fault };

    fn from(_: Failed) -> Self {
        SlurpFault::Fault
    }
}

impl From<AllocError> for SlurpFault {
    ghost from_gives = { λ _ fault. fault ≡ Memory };

    fn from(_: AllocError) -> Self {
        SlurpFault::Memory
    }
}

/// All bytes of the file of a name.
///
/// It asks for no byte past the 16,777,217th, and takes one of each read at least, so it ends.
/// Want of memory is free: it may be answered at any time.
pub fn slurp<F: Shelf>(alloc: Global, shelf: &mut F, name: &[u8]) -> Result<Vec<u8>, SlurpFault>
    ensures asks { Takes (F.asked shelf.old) (F.asked shelf.new) (name.now ∷ []) }
    ensures bytes { IfOk result (λ bytes. Holds (F.held shelf.old) name.now bytes.items) }
    ensures within { IfOk result (λ bytes. vec_len bytes ≤ FILE_LIMIT) }
    ensures end { OnOk result (IsAtEnd (F.left shelf.new)) }

    // Each refusal but want of memory has its cause.
    ensures absent { IsErrOf result SlurpFault.Absent
        → Rose (F.absences shelf.old) (F.absences shelf.new) }
    ensures lacks { IsErrOf result SlurpFault.Absent → Lacks (F.held shelf.old) name.now }
    ensures fault { IsErrOf result SlurpFault.Fault
        → Rose (F.faults shelf.old) (F.faults shelf.new) }
    ensures too_long { IsErrOf result SlurpFault.TooLong
        → HoldsMore (F.held shelf.old) name.now FILE_LIMIT }

    // Nothing else is counted.
    ensures calm { ¬ IsErrOf result SlurpFault.Fault → F.faults shelf.new ≡ F.faults shelf.old }
    ensures found { ¬ IsErrOf result SlurpFault.Absent
        → F.absences shelf.new ≡ F.absences shelf.old }

    // How many bytes were given: those of the file; or one past the limit, at TooLong and there alone.
    ensures given { IfOk result
        (λ bytes. F.given shelf.new ≡ plus (F.given shelf.old) (vec_len bytes)) }
    ensures given_too_long { IsErrOf result SlurpFault.TooLong
        → F.given shelf.new ≡ plus (F.given shelf.old) (FILE_LIMIT + 1) }
    ensures too_long_where { F.given shelf.old + FILE_LIMIT < F.given shelf.new
        → IsErrOf result SlurpFault.TooLong }
    ensures none_given { IsErrOf result SlurpFault.Absent → F.given shelf.new ≡ F.given shelf.old }

    ensures same_held { F.held shelf.new ≡ F.held shelf.old }
    ensures faults_rise { F.faults shelf.old ≤ F.faults shelf.new }
    ensures absences_rise { F.absences shelf.old ≤ F.absences shelf.new }
    ensures given_rises { F.given shelf.old ≤ F.given shelf.new }
{
    if !shelf.choose(name)? {
        return Err(SlurpFault::Absent);
    }
    read_rest(alloc, shelf)
}

// All that is left of the chosen file.
fn read_rest<F: Shelf>(alloc: Global, shelf: &mut F) -> Result<Vec<u8>, SlurpFault>
    ensures same_asked { F.asked shelf.new ≡ F.asked shelf.old }
    ensures bytes { IfOk result
        (λ bytes. Consumes (F.left shelf.old) (F.left shelf.new) bytes.items) }
    ensures within { IfOk result (λ bytes. vec_len bytes ≤ FILE_LIMIT) }
    ensures end { OnOk result (IsAtEnd (F.left shelf.new)) }

    ensures absent { IsErrOf result SlurpFault.Absent → ⊥ }
    ensures fault { IsErrOf result SlurpFault.Fault
        → Rose (F.faults shelf.old) (F.faults shelf.new) }
    ensures too_long { IsErrOf result SlurpFault.TooLong
        → IfSome (F.left shelf.old) (λ bytes. FILE_LIMIT < length bytes) }

    ensures calm { ¬ IsErrOf result SlurpFault.Fault → F.faults shelf.new ≡ F.faults shelf.old }

    ensures given { IfOk result
        (λ bytes. F.given shelf.new ≡ plus (F.given shelf.old) (vec_len bytes)) }
    ensures given_too_long { IsErrOf result SlurpFault.TooLong
        → F.given shelf.new ≡ plus (F.given shelf.old) (FILE_LIMIT + 1) }
    ensures too_long_where { F.given shelf.old + FILE_LIMIT < F.given shelf.new
        → IsErrOf result SlurpFault.TooLong }

    ensures same_held { F.held shelf.new ≡ F.held shelf.old }
    ensures faults_rise { F.faults shelf.old ≤ F.faults shelf.new }
    ensures same_absences { F.absences shelf.new ≡ F.absences shelf.old }
    ensures given_rises { F.given shelf.old ≤ F.given shelf.new }
{
    let mut bytes = Vec::new(alloc);
    let mut piece = [0u8; PIECE];
    loop {
        let room = PIECE.min(FILE_LIMIT + 1 - bytes.len());
        let count = shelf.read(&mut piece[..room])?;
        if count == 0 {
            return Ok(bytes);
        }
        if count > FILE_LIMIT - bytes.len() {
            return Err(SlurpFault::TooLong);
        }
        bytes.extend_from_slice(&piece[..count])?;
    }
}

/// Writes a whole text. It gives at least one byte at each call, so it ends.
pub fn put<K: Sink>(out: &mut K, text: &[u8]) -> Result<(), Failed>
    ensures ok { OnOk result (Takes (K.taken out.old) (K.taken out.new) text.now) }
    ensures front { OnErr result (TakesFront (K.taken out.old) (K.taken out.new) text.now) }
    ensures failed { OnErr result (Rose (K.faults out.old) (K.faults out.new)) }
    ensures calm { OnOk result (K.faults out.new ≡ K.faults out.old) }
    ensures faults_rise { K.faults out.old ≤ K.faults out.new }
{
    let mut rest = text;
    while !rest.is_empty() {
        let taken = out.write(rest)?;
        if taken == 0 {
            return Err(Failed);
        }
        rest = &rest[taken..];
    }
    Ok(())
}
