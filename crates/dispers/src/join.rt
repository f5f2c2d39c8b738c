//! A lens, a book of glasses, a job and a box, put together as a setup.

ghost use Rattle.std.specs.Prelude.{◌≡◌, ◌+◌, ◌-◌, ◌≤◌, length, IfOk};
ghost use Rattle.std.specs.List.{All};
ghost use Rattle.lensmodel.specs.Equations.Dispersion.{IsKnown};
ghost use Rattle.lensmodel.specs.Files.Causes.{first_fault, ok_unless};
ghost use Rattle.lensmodel.specs.Files.Joining as joining;
ghost use Rattle.lensmodel.specs.Setup.Values as values;
ghost use Rattle.lensmodel.specs.Setup.WellFormed.{IsBox, IsInRange, IsSound, IsWellFormed};

use crate::glasses::{before_image, check_formulas, media};
use crate::indices::{check_indices, check_mirrors};
use crate::wave::{check_ranges, wave_of};
use glassbook::book::GlassBook;
use lensmodel::fault::CrossFault;
use lensmodel::job::Job;
use lensmodel::prescription::Prescription;
use lensmodel::setup::Setup;
use lensmodel::tolerance::TolBox;

/// The setup of a lens with the glasses of a book, at the wavelength and with the settings of a
/// job, in a box of tolerances if there is one. The lens has no whole fault and written numbers, the
/// job's numbers are in their ranges, and the box is one for this lens. It is refused by the first
/// of these that holds, each at the first surface before the image: the book hasn't the glass
/// (NoGlass), its formula isn't 1 or 2 (Formula), neither the job nor the lens gives a wavelength
/// above 0 (NoWave), the wavelength is outside the glass's range (WaveRange), the index at scale 12
/// with its tolerance isn't enclosed between 1 and 5 (BadIndex), a tolerance stands on the index of a
/// mirror (MirrorIndex). All but the last pass over mirrors.
pub fn join(
    lens: Prescription,
    book: &GlassBook,
    job: &Job,
    toler: Option<TolBox>,
) -> Result<Setup, CrossFault>
    requires lens { IsSound lens }
    requires job { IsInRange job.now }
    requires toler { IsBox (length lens.surfaces.items - 1) (values.tolerances toler) }
    ensures exact { result ≡ joining.joined lens book.now job.now toler }

    // What is put together can be traced.
    ensures well { IfOk result IsWellFormed }
{
    let media = media(before_image(&lens), book)?;
    check_formulas(media.as_slice())?;
    let wave = wave_of(job, &lens).ok_or(CrossFault::NoWave)?;
    let setup = Setup {
        lens,
        media,
        wave,
        res: job.res,
        width: job.width,
        toler,
    };
    check_setup(&setup)?;
    Ok(setup)
}

/// The checks of a setup whose glasses are known: WaveRange, BadIndex and MirrorIndex, in this order.
fn check_setup(s: &Setup) -> Result<(), CrossFault>
    requires surfaces { length s.now.lens.surfaces.items ≤ 64 }
    requires media { length s.now.media.items + 1 ≡ length s.now.lens.surfaces.items }
    requires known { All IsKnown s.now.media.items }
    requires toler { IsBox (values.image s.now) (values.tolerances s.now.toler) }
    ensures { result ≡ ok_unless (first_fault (joining.index_faults s.now)) tt }
{
    check_ranges(&s.wave, s.media.as_slice())?;
    check_indices(s)?;
    check_mirrors(s)
}

#[cfg(test)]
mod tests;
