//! A source of files by name.

ghost use Rattle.std.specs.Prelude.{◌≡◌, ◌<◌, ◌≤◌, ℕ, List, [], ◌∷◌, Option, None, Some, IfOk, OnOk, OnErr, IsTrue, length, take};
ghost use Rattle.std.specs.Bool.{IsFalse};
ghost use Rattle.std.specs.Io.KnownBytes.{Consumes, Keeps, IsAtEnd};
ghost use Rattle.lensio.specs.Count.{Rose, plus};
ghost use Rattle.lensio.specs.Held.{Files, Lacks, Opens};
ghost use Rattle.lensio.specs.Taken.{Takes};

/// A call that failed. Its source or sink has counted it as a fault.
#[derive(Clone, Copy, Debug, PartialEq, Eq)]
pub struct Failed;

/// A source of files. One file at a time is chosen by its name and read in pieces.
///
/// A shelf need not tell what it holds, what is left of the chosen file, nor what it was asked for. It
/// counts its faults, the names that it didn't find and the bytes that it gave.
pub trait Shelf {
    /// What is held by each name, where it is told.
    ghost held: { Self → Option Files };

    /// What is left to read of the chosen file, where it is told. Nothing is left where none is chosen.
    ghost left: { Self → Option (List ℕ) };

    /// The names that it was asked for so far, where they are told.
    ghost asked: { Self → Option (List (List ℕ)) } = { λ _. None };

    /// How often a call failed.
    ghost faults: { Self → ℕ };

    /// How often a name wasn't found.
    ghost absences: { Self → ℕ };

    /// How many bytes were given.
    ghost given: { Self → ℕ };

    /// Chooses the file of a name in place of the one chosen before, and answers whether it is held.
    fn choose(&mut self, name: &[u8]) -> Result<bool, Failed>
        ensures asks { Takes (asked self.old) (asked self.new) (name.now ∷ []) }

        // Each answer has its cause, and nothing else is counted.
        ensures failed { OnErr result (Rose (faults self.old) (faults self.new)) }
        ensures absent { IfOk result
            (λ found. IsFalse found → Rose (absences self.old) (absences self.new)) }
        ensures calm { OnOk result (faults self.new ≡ faults self.old) }
        ensures found { IfOk result
            (λ found. IsTrue found → absences self.new ≡ absences self.old) }
        ensures not_absent { OnErr result (absences self.new ≡ absences self.old) }

        // Where it is told what is held, false means that the name isn't held, and true that it is:
        // then all its bytes are left, and it is told that they are.
        ensures lacks { IfOk result (λ found. IsFalse found → Lacks (held self.old) name.now) }
        ensures opens { IfOk result
            (λ found. IsTrue found → Opens (held self.old) name.now (left self.new)) }

        // After false and after a failure no file is chosen.
        ensures none_chosen { IfOk result (λ found. IsFalse found → left self.new ≡ Some []) }
        ensures none_after_failure { OnErr result (left self.new ≡ Some []) }

        ensures same_held { held self.new ≡ held self.old }
        ensures same_given { given self.new ≡ given self.old }
        ensures faults_rise { faults self.old ≤ faults self.new }
        ensures absences_rise { absences self.old ≤ absences self.new };

    /// Reads some of what is left of the chosen file, and answers how many bytes: 0 only at its end,
    /// or where no file is chosen.
    fn read(&mut self, to: &mut [u8]) -> Result<usize, Failed>
        requires { 0 < length to.old }
        ensures same_asked { asked self.new ≡ asked self.old }

        ensures failed { OnErr result (Rose (faults self.old) (faults self.new)) }
        ensures calm { OnOk result (faults self.new ≡ faults self.old) }

        // It takes from what is left just what it gives, and what was told stays told.
        ensures bound { IfOk result (λ count. count ≤ length to.old) }
        ensures front { IfOk result
            (λ count. Consumes (left self.old) (left self.new) (take count to.new)) }
        ensures end { IfOk result (λ count. count ≡ 0 → IsAtEnd (left self.new)) }
        ensures kept { OnErr result (Keeps (left self.old) (left self.new)) }

        ensures given { IfOk result (λ count. given self.new ≡ plus (given self.old) count) }
        ensures none_given { OnErr result (given self.new ≡ given self.old) }
        ensures given_rises { given self.old ≤ given self.new }

        ensures same_held { held self.new ≡ held self.old }
        ensures faults_rise { faults self.old ≤ faults self.new }
        ensures same_absences { absences self.new ≡ absences self.old };
}
