//! The walk along the lines of a lens file.

ghost use Rattle.std.specs.Prelude.{◌≡◌, ◌≢◌, ◌++◌, ◌∷◌, [], List, false, None, Some, IfOk, IfErr, OnOk};
ghost use Rattle.std.specs.List.{All};
ghost use Rattle.lensmodel.specs.Files.LensFaults.{is_of_lens, offence};
ghost use Rattle.lensmodel.specs.Files.Records.{Words};
ghost use Rattle.lensmodel.specs.Setup.WellFormed.{IsWrittenSurface};
ghost use Rattle.lensmodel.specs.Setup.WholeFaults.{whole_fault as lens_fault};
ghost use Rattle.zmxread.specs.Readers.{IsAt, closed_lens};
ghost use Rattle.zmxread.specs.Stops.{marked_too, stop_or};
ghost use Rattle.zmxread.specs.Tags.{with_unused};

use crate::file::ZmxFile;
use crate::lens::{begin_surface, check_mode, no_wavelengths, primary, set_wavelength};
use crate::names::tag_name;
use crate::surface::{is_of_surface, take_field};
use crate::tags::Tags;
use crate::whole::whole_fault;
use arrayvec::ArrayVec;
use lensmodel::fault::ZmxFault;
use lensmodel::prescription::Prescription;
use records::line::Line;
use records::record_table;
use records::walk::LineReader;
use std::alloc::Global;

/// The stop: which surfaces are marked by STOP.
#[derive(Clone, Copy, Debug, PartialEq, Eq)]
pub enum Stop {
    /// No surface.
    Missing,
    /// One surface.
    At(u32),
    /// More than one.
    Several,
}

impl Stop {
    /// The number of the stop, or the count of the surfaces where not exactly one is marked.
    fn number(self, count: u32) -> u32
        ensures { result ≡ stop_or count self }
    {
        match self {
            Stop::At(j) => j,
            Stop::Missing | Stop::Several => count,
        }
    }

    /// With the mark of surface `j`, where none behind it is marked.
    fn marked(self, j: u32) -> Stop
        ensures { result ≡ marked_too j self }
    {
        match self {
            Stop::Missing => Stop::At(j),
            Stop::At(i) if i != j => Stop::Several,
            Stop::At(_) | Stop::Several => self,
        }
    }
}

/// How far a lens file was read.
#[derive(Drop)]
pub struct Reader {
    /// The lens of the lines before, but for its stop. Its last surface is open.
    pub lens: Prescription,
    /// The stop, by the marks.
    pub stop: Stop,
    /// The tags that weren't used.
    pub unused: Tags,
}

impl Reader {
    /// Nothing was read yet.
    pub fn new(alloc: Global) -> Reader
        ensures { IsAt [] result }
    {
        Reader {
            lens: Prescription {
                surfaces: ArrayVec::new(),
                stop: 0,
                waves: no_wavelengths(),
                primary: 1,
            },
            stop: Stop::Missing,
            unused: Tags::new(alloc),
        }
    }

    /// Takes a line whose tag is none of a whole lens.
    fn take_of_surface(&mut self, at: u32, line: &Line<'_>) -> Result<(), ZmxFault>
        requires { is_of_lens line.now ≡ false }
        ensures passed { OnOk result ((before : List Words) → IsAt before self.old
            → (offence at before line.now ≡ None) × IsAt (before ++ line.now ∷ []) self.new) }
        ensures fault { IfErr result
            (λ f. f ≢ ZmxFault.Memory → (before : List Words) → IsAt before self.old
            → offence at before line.now ≡ Some f) }
    {
        let count = self.lens.surfaces.len();
        if count == 0 || !is_of_surface(line) {
            return self.pass_over(line);
        }
        if line.has_tag(b"STOP") {
            self.stop = self.stop.marked(count as u32 - 1);
            return Ok(());
        }
        take_field(&mut self.lens.surfaces[count - 1], line, at)
    }

    /// What all lines say, unless the whole lens is at fault.
    pub fn finish(self) -> Result<ZmxFile, ZmxFault>
        requires { All IsWrittenSurface self.lens.surfaces.items }
        ensures lens { IfOk result (λ f. f.lens ≡ closed_lens self) }
        ensures unused { IfOk result (λ f. f.unused ≡ self.unused) }
        ensures sound { OnOk result (lens_fault (closed_lens self) ≡ None) }
        ensures fault { IfErr result (λ f. lens_fault (closed_lens self) ≡ Some f) }
    {
        let mut lens = self.lens;
        lens.stop = self.stop.number(lens.surfaces.len() as u32);
        match whole_fault(&lens) {
            Some(fault) => Err(fault),
            None => Ok(ZmxFile {
                lens,
                unused: self.unused,
            }),
        }
    }

    /// Counts a line whose tag isn't used.
    fn pass_over(&mut self, line: &Line<'_>) -> Result<(), ZmxFault>
        ensures unused { OnOk result
            (self.new ≡ record self.old { unused = with_unused line.now self.old.unused }) }
        ensures fault { IfErr result (λ f. f ≡ ZmxFault.Memory) }
    {
        match line.word(0) {
            Some(tag) => self.unused.add(tag_name(tag)).map_err(|_| ZmxFault::Memory),
            None => Ok(()),
        }
    }
}

impl LineReader for Reader {
    ghost use Rattle.std.specs.Prelude.{◌≢◌, false};
    ghost use Rattle.lensmodel.specs.Files.LensFaults.{offence};
    ghost use Rattle.lensmodel.specs.declared.fault.ZmxFault.TheVariants.{Memory};
    ghost use Rattle.zmxread.specs.Readers.{IsAt};

    type Fault = ZmxFault;

    const REMARKS: bool = false;

    ghost REMARKS = { false };

    ghost offence = { λ _. offence };

    ghost IsOfLines = { λ f. f ≢ Memory };

    ghost IsAt = { IsAt };

    fn take(&mut self, at: u32, line: &Line<'_>) -> Result<(), ZmxFault> {
        record_table!(line, ZmxFault::MissingWord { line: at } => {
            b"MODE", 1 words => check_mode(line, at),
            b"SURF", 1 words => begin_surface(&mut self.lens.surfaces, line, at),
            b"WAVM", 2 words => set_wavelength(&mut self.lens.waves, line, at),
            b"PWAV", 1 words => {
                self.lens.primary = primary(line, at)?;
                Ok(())
            },
        } else self.take_of_surface(at, line))
    }
}
