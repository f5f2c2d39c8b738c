//! A taker of bytes.

ghost use Rattle.std.specs.Prelude.{◌≡◌, ◌<◌, ◌≤◌, ℕ, List, Option, IfOk, OnErr, length, take};
ghost use Rattle.lensio.specs.Count.{Rose};
ghost use Rattle.lensio.specs.Taken.{Takes, TakesFront};

use crate::shelf::Failed;

/// A taker of bytes, in pieces.
///
/// A sink need not tell what it took. It counts its faults; to take nothing of a piece is one.
pub trait Sink {
    /// The bytes taken so far, where they are told.
    ghost taken: { Self → Option (List ℕ) };

    /// How often a call failed or took nothing.
    ghost faults: { Self → ℕ };

    /// Takes the front of a piece, and answers how many bytes that is.
    fn write(&mut self, piece: &[u8]) -> Result<usize, Failed>
        requires { 0 < length piece.now }
        ensures bound { IfOk result (λ count. count ≤ length piece.now) }
        ensures front { IfOk result
            (λ count. Takes (taken self.old) (taken self.new) (take count piece.now)) }
        ensures some_front { OnErr result (TakesFront (taken self.old) (taken self.new) piece.now) }

        // Each answer that stops has its cause, and nothing else is counted.
        ensures failed { OnErr result (Rose (faults self.old) (faults self.new)) }
        ensures idle { IfOk result (λ count. count ≡ 0 → Rose (faults self.old) (faults self.new)) }
        ensures calm { IfOk result (λ count. 0 < count → faults self.new ≡ faults self.old) }
        ensures faults_rise { faults self.old ≤ faults self.new };
}
