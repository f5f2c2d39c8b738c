//! The walk along the lines of a file.

ghost use Rattle.std.specs.Prelude.{◌≡◌, ◌++◌, ◌∷◌, ℕ, Bool, [], List, Option, None, Some, IfErr, OnOk};
ghost use Rattle.lensmodel.specs.Files.Records.{Words, first_offence};
ghost use Rattle.records.specs.Remarks.{each_line};

use crate::line::Line;
use lenstext::text::Text;

/// What is read from a file line by line. A line is its list of words.
pub trait LineReader {
    /// Why a file is refused, or isn't read.
    type Fault;

    /// Whether a line whose first unit is `!` or `#` is a remark. A remark is taken for a line
    /// without words.
    const REMARKS: bool;

    ghost REMARKS: { Bool };

    // What is wrong with the line of a number behind other lines. The reader says it, since it may
    // hang on what was read before the file, such as the number of surfaces.
    ghost offence: { Self → ℕ → List Words → Words → Option Self.Fault };

    // Whether a fault is one of the lines: want of memory isn't.
    ghost IsOfLines: { Self.Fault → Type 0 };

    // Whether just these lines were taken.
    ghost IsAt: { List Words → Self → Type 0 };

    /// Takes the next line, by its number from 1.
    fn take(&mut self, number: u32, line: &Line<'_>) -> Result<(), Self::Fault>
        ensures passed { OnOk result ((before : List Words) → IsAt before self.old
            → (offence self.old number before line.now ≡ None)
            × IsAt (before ++ line.now ∷ []) self.new) }
        ensures fault { IfErr result
            (λ f. IsOfLines f → (before : List Words) → IsAt before self.old
            → offence self.old number before line.now ≡ Some f) }
        ensures same { OnOk result (offence self.new ≡ offence self.old) };
}

/// Takes all lines of a text, up to the first that offends.
pub fn read_lines<R: LineReader>(text: &Text, reader: &mut R) -> Result<(), R::Fault>
    requires { R.IsAt [] reader.old }
    ensures sound { OnOk result
        (first_offence (R.offence reader.old) 1 [] (each_line R.REMARKS text.now) ≡ None) }
    ensures taken { OnOk result (R.IsAt (each_line R.REMARKS text.now) reader.new) }
    ensures same { OnOk result (R.offence reader.new ≡ R.offence reader.old) }
    ensures fault { IfErr result (λ f. R.IsOfLines f
        → first_offence (R.offence reader.old) 1 [] (each_line R.REMARKS text.now) ≡ Some f) }
{
    for i in 0..text.count() {
        let units = text.line(i);
        let line = Line::new(units, R::REMARKS);
        reader.take(i as u32 + 1, &line)?;
    }
    Ok(())
}
