//! The walk along the lines of a box.

ghost use Rattle.std.specs.Prelude.{◌≡◌, ◌++◌, ◌∷◌, length, [], None, Some, IfErr, OnOk};
ghost use Rattle.lensmodel.specs.Files.Tolerances.{tol_of};
ghost use Rattle.toltext.specs.Readers.{IsAt};
ghost use Rattle.toltext.specs.Records.{line_fault};

use crate::place::check;
use crate::tolerance::tolerance;
use arrayvec::ArrayVec;
use lensmodel::fault::TolFault;
use lensmodel::tolerance::{Tol, TolBox};
use records::line::Line;
use records::record_table;
use records::walk::LineReader;

/// How far a box was read.
#[derive(Drop)]
pub struct Reader {
    /// The number of the lens's last surface.
    pub image: u32,
    /// The tolerances so far.
    pub list: ArrayVec<Tol, 32>,
}

impl Reader {
    /// Nothing was read yet.
    pub fn new(image: u32) -> Reader
        ensures at { IsAt [] result }
        ensures image { result.image ≡ image }
    {
        Reader {
            image,
            list: ArrayVec::new(),
        }
    }

    /// Appends the tolerance of a TOL line.
    fn append(&mut self, at: u32, line: &Line<'_>) -> Result<(), TolFault>
        requires { length line.now ≡ 4 }
        ensures sound { OnOk result
            (line_fault self.old.image at self.old.list.items line.now ≡ None) }
        ensures list { OnOk result
            (self.new.list.items ≡ self.old.list.items ++ tol_of line.now ∷ []) }
        ensures image { self.new.image ≡ self.old.image }
        ensures fault { IfErr result
            (λ f. line_fault self.old.image at self.old.list.items line.now ≡ Some f) }
    {
        let tol = tolerance(at, line)?;
        check(at, &tol, self.image, self.list.as_slice())?;
        self.list.push(tol);
        Ok(())
    }

    /// The box of all tolerances.
    pub fn finish(self) -> TolBox
        ensures { result.list ≡ self.list }
    {
        TolBox { list: self.list }
    }
}

impl LineReader for Reader {
    ghost use Rattle.std.specs.Prelude.{true};
    ghost use Rattle.lensmodel.specs.Files.Tolerances.{offence};
    ghost use Rattle.toltext.specs.Readers.{IsAt};

    type Fault = TolFault;

    const REMARKS: bool = true;

    ghost REMARKS = { true };

    ghost offence = { λ r. offence r.image };

    ghost IsOfLines = { λ _. Unit {0} };

    ghost IsAt = { IsAt };

    fn take(&mut self, at: u32, line: &Line<'_>) -> Result<(), TolFault> {
        if line.is_empty() {
            return Ok(());
        }
        record_table!(line, exactly, TolFault::Word { line: at } => {
            b"TOL", 3 words => self.append(at, line),
        } else Err(TolFault::Word { line: at }))
    }
}
