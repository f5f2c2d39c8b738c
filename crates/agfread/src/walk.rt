//! The walk along the lines of a catalogue.

ghost use Rattle.std.specs.Prelude.{◌≡◌, ◌≢◌, ◌++◌, ◌∷◌, ◌+◌, ◌<◌, length, [], List, None, Some, IfOk, IfErr, OnOk};
ghost use Rattle.lensmodel.specs.Files.Catalogue.{offence, glass_of, NM_fault};
ghost use Rattle.lensmodel.specs.Files.Records.{Words};
ghost use Rattle.agfread.specs.Walked.{closed_with};
ghost use Rattle.agfread.specs.Readers.{IsAt};

use crate::glass::{begun, set_bounds, set_used_coefficients};
use glassbook::book::GlassBook;
use lensmodel::fault::AgfFault;
use lensmodel::glass::Glass;
use records::line::Line;
use records::record_table;
use records::walk::LineReader;
use std::alloc::Global;

/// How far a catalogue was read.
#[derive(Drop)]
pub struct Reader {
    /// The glasses before the open one.
    pub book: GlassBook,
    /// The glass whose block isn't over.
    pub current: Option<Glass>,
    /// How many glasses began.
    pub seen: u32,
}

impl Reader {
    /// Nothing was read yet.
    pub fn new(alloc: Global) -> Reader
        ensures { IsAt [] result }
    {
        Reader {
            book: GlassBook::new(alloc),
            current: None,
            seen: 0,
        }
    }

    /// Closes the open glass, and opens that of an NM line.
    fn begin(&mut self, at: u32, line: &Line<'_>) -> Result<(), AgfFault>
        requires { 2 < length line.now }
        ensures sound { OnOk result (NM_fault at self.old.seen line.now ≡ None) }
        ensures opened { OnOk result (self.new.current ≡ Some (glass_of line.now [])) }
        ensures book { OnOk result (self.new.book ≡ closed_with self.old.current self.old.book) }
        ensures seen { OnOk result (self.new.seen ≡ self.old.seen + 1) }
        ensures fault { IfErr result
            (λ f. f ≢ AgfFault.Memory → NM_fault at self.old.seen line.now ≡ Some f) }
    {
        let glass = begun(line, at, self.seen)?;
        self.close()?;
        self.current = Some(glass);
        self.seen += 1;
        Ok(())
    }

    /// Puts the open glass into the book.
    fn close(&mut self) -> Result<(), AgfFault>
        ensures book { OnOk result (self.new.book ≡ closed_with self.old.current self.old.book) }
        ensures open { OnOk result (self.new.current ≡ None) }
        ensures seen { self.new.seen ≡ self.old.seen }
        ensures fault { IfErr result (λ f. f ≡ AgfFault.Memory) }
    {
        if let Some(glass) = self.current.take() {
            self.book.add(glass).map_err(|_| AgfFault::Memory)?;
        }
        Ok(())
    }

    /// The book of all glasses.
    pub fn finish(self) -> Result<GlassBook, AgfFault>
        ensures book { IfOk result (λ b. b ≡ closed_with self.current self.book) }
        ensures fault { IfErr result (λ f. f ≡ AgfFault.Memory) }
    {
        let mut book = self.book;
        if let Some(glass) = self.current {
            book.add(glass).map_err(|_| AgfFault::Memory)?;
        }
        Ok(book)
    }
}

impl LineReader for Reader {
    ghost use Rattle.std.specs.Prelude.{◌≢◌, false};
    ghost use Rattle.lensmodel.specs.Files.Catalogue.{offence};
    ghost use Rattle.lensmodel.specs.declared.fault.AgfFault.TheVariants.{Memory};
    ghost use Rattle.agfread.specs.Readers.{IsAt};

    type Fault = AgfFault;

    const REMARKS: bool = false;

    ghost REMARKS = { false };

    ghost offence = { λ _. offence };

    ghost IsOfLines = { λ f. f ≢ Memory };

    ghost IsAt = { IsAt };

    fn take(&mut self, at: u32, line: &Line<'_>) -> Result<(), AgfFault> {
        record_table!(line, AgfFault::MissingWord { line: at } => {
            b"NM", 2 words => self.begin(at, line),
            b"CD", let Some(glass) = &mut self.current, else AgfFault::OrphanRecord { line: at },
                0 words => set_used_coefficients(glass, line, at),
            b"LD", let Some(glass) = &mut self.current, else AgfFault::OrphanRecord { line: at },
                2 words => set_bounds(glass, line, at),
        } else Ok(()))
    }
}
