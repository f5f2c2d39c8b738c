//! The lines of each report.

ghost use Rattle.std.specs.Prelude.{◌≡◌, ◌++◌, OnOk, OnErr};
ghost use Rattle.std.specs.List.{concat};
ghost use Rattle.lensio.specs.Count.{Rose};
ghost use Rattle.lensio.specs.Taken.{TakesFront};
ghost use Rattle.lensrun.specs.Gathered.{Gathers};
ghost use Rattle.lensrun.specs.Numbered.{surface_lines};

use crate::report::{Lines, Piece, gather_line};
use glassbook::book::GlassBook;
use lensio::shelf::Failed;
use lensio::sink::Sink;
use lensmodel::prescription::Prescription;
use lensreport::glass::print_glass;
use lensreport::lens::{print_asphere, print_surface, print_unused, print_wave};
use lensreport::pieces::Line;
use zmxread::tags::Tags;

impl Lines for GlassBook {
    ghost use Rattle.std.specs.Prelude.{map};
    ghost use Rattle.lensmodel.specs.Texts.Book.{glass_line};

    ghost lines = { map glass_line };

    fn count(&self) -> usize {
        GlassBook::count(self)
    }

    fn print(&self, i: usize, out: &mut Line) {
        print_glass(self.at(i), out);
    }
}

/// The lines of the wavelengths of a lens.
#[derive(Drop)]
pub struct Wavelengths<'a> {
    pub lens: &'a Prescription,
}

impl Lines for Wavelengths<'_> {
    ghost use Rattle.lensrun.specs.Numbered.{wave_lines};

    ghost lines = { λ s. wave_lines s.lens.now.waves.items };

    fn count(&self) -> usize {
        self.lens.waves.len()
    }

    fn print(&self, i: usize, out: &mut Line) {
        let wave = self.lens.waves.as_slice()[i];
        print_wave(i as u32 + 1, wave, out);
    }
}

impl Lines for Tags {
    ghost use Rattle.std.specs.Prelude.{map};
    ghost use Rattle.lensrun.specs.Numbered.{unused_line};

    ghost lines = { map unused_line };

    fn count(&self) -> usize {
        Tags::count(self)
    }

    fn print(&self, i: usize, out: &mut Line) {
        let (tag, lines) = self.at(i);
        print_unused(tag, lines, out);
    }
}

/// Adds the lines of the surfaces of a lens to what is gathered: each one's own, and those of an
/// even asphere.
pub fn gather_surfaces<K: Sink>(
    lens: &Prescription,
    piece: &mut Piece,
    out: &mut K,
) -> Result<(), Failed>
    ensures ok { OnOk result
        (Gathers (K.taken out.old) (K.taken out.new) piece.new.bytes
        (piece.old.bytes ++ concat (surface_lines lens.now.surfaces.items))) }
    ensures front { OnErr result
        (TakesFront (K.taken out.old) (K.taken out.new)
        (piece.old.bytes ++ concat (surface_lines lens.now.surfaces.items))) }
    ensures failed { OnErr result (Rose (K.faults out.old) (K.faults out.new)) }
    ensures taken { OnOk result (K.faults out.new ≡ K.faults out.old) }
{
    let mut line = Line::new();
    for j in 0..lens.surfaces.len() {
        line.clear();
        print_surface(lens, j as u32, &mut line);
        gather_line(&line, piece, out)?;
        line.clear();
        print_asphere(&lens.surfaces.as_slice()[j], j as u32, &mut line);
        gather_line(&line, piece, out)?;
    }
    Ok(())
}
