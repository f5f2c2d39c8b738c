//! The indices of a setup, judged at scale 12 with their tolerances.

ghost use Rattle.std.specs.Prelude.{◌≡◌, ◌+◌, ◌<◌, ◌≤◌, length, ℤ, pos, ◌≤ℤ◌};
ghost use Rattle.std.specs.List.{All};
ghost use Rattle.fixdec.specs.Ends.{InCap};
ghost use Rattle.fixdec.specs.IntervalOperations.{operations};
ghost use Rattle.lensmodel.specs.Equations.Dispersion.{IsKnown};
ghost use Rattle.lensmodel.specs.Files.Causes.{each_from, first_fault, ok_unless};
ghost use Rattle.lensmodel.specs.Files.Joining as joining;
ghost use Rattle.lensmodel.specs.Files.Picking as picking;
ghost use Rattle.lensmodel.specs.Rows.Constants as constants;
ghost use Rattle.lensmodel.specs.Rows.Preparation as rows;
ghost use Rattle.lensmodel.specs.Setup.Values as values;
ghost use Rattle.lensmodel.specs.Setup.WellFormed.{IsBox};
ghost use Rattle.dispers.specs.Checks as checks;

use crate::glasses::before_image;
use crate::index::index;
use crate::pick::is_from_1_to_5;
use crate::tolerances::{has_index_tolerance, tolerances, with_index_tolerance};
use enclose::arith::Arith;
use enclose::iv::Iv;
use exactdec::scale;
use fixdec::dec::Dec;
use fixdec::step::Step;
use fixdec::val;
use lensmodel::fault::CrossFault;
use lensmodel::glass::Medium;
use lensmodel::setup::Setup;
use sagform::constant::{residual_units, whole};
use sagform::layout::{medium, owner};

/// The index of a medium at a wavelength, whose square is widened by `e` units.
fn medium_index(m: &Medium, wave: &Dec, e: i128) -> Step<Iv<12>>
    requires low { pos 0 ≤ℤ e }
    requires high { InCap e }
    requires known { IsKnown m.now }
    ensures { result ≡ rows.medium_row (operations 12) 12 m.now wave.now e }
{
    match m {
        Medium::Air => whole(1),
        Medium::Of(_) => index(m, val!(scale::span(wave, 12)), e),
    }
}

/// The index behind surface `j`, which isn't the image, with its tolerance.
fn index_behind(s: &Setup, j: u32) -> Step<Iv<12>>
    requires surface { j + 1 < length s.now.lens.surfaces.items }
    requires media { length s.now.media.items + 1 ≡ length s.now.lens.surfaces.items }
    requires known { All IsKnown s.now.media.items }
    requires toler { IsBox (values.image s.now) (values.tolerances s.now.toler) }
    ensures { result ≡ rows.index_row (operations 12) 12 s.now
        (constants.residual_units 12 s.now.res) j }
{
    let e = residual_units(12, s.res);
    let n = val!(medium_index(medium(s, j), &s.wave, e));
    with_index_tolerance(tolerances(&s.toler), owner(s, j), n)
}

/// Whether an index is there, and lies from 1 to 5.
fn is_good(index: Step<Iv<12>>) -> bool
    ensures { result ≡ picking.is_good_index index }
{
    match index {
        Step::Val(n) => is_from_1_to_5(n.hull()),
        Step::Empty | Step::Lost(_) => false,
    }
}

/// BadIndex at the first surface before the image that isn't a mirror and has no index from 1 to 5
/// behind it.
pub(crate) fn check_indices(s: &Setup) -> Result<(), CrossFault>
    requires surfaces { length s.now.lens.surfaces.items ≤ 64 }
    requires media { length s.now.media.items + 1 ≡ length s.now.lens.surfaces.items }
    requires known { All IsKnown s.now.media.items }
    requires toler { IsBox (values.image s.now) (values.tolerances s.now.toler) }
    ensures { let surfaces = joining.before_image s.now.lens in
        result ≡ ok_unless (first_fault (each_from (checks.index_fault s.now) 0 surfaces)) tt }
{
    for (j, surface) in before_image(&s.lens).iter().enumerate() {
        if !surface.mirror && !is_good(index_behind(s, j as u32)) {
            return Err(CrossFault::BadIndex { surface: j as u32 });
        }
    }
    Ok(())
}

/// MirrorIndex at the first mirror before the image on whose index a tolerance stands.
pub(crate) fn check_mirrors(s: &Setup) -> Result<(), CrossFault>
    requires some { 0 < length s.now.lens.surfaces.items }
    requires surfaces { length s.now.lens.surfaces.items ≤ 64 }
    ensures { let surfaces = joining.before_image s.now.lens in
        let tolerances = values.tolerances s.now.toler in
        result ≡ ok_unless (first_fault
        (each_from (checks.mirror_fault tolerances) 0 surfaces)) tt }
{
    for (j, surface) in before_image(&s.lens).iter().enumerate() {
        if surface.mirror && has_index_tolerance(tolerances(&s.toler), j as u32) {
            return Err(CrossFault::MirrorIndex { surface: j as u32 });
        }
    }
    Ok(())
}
