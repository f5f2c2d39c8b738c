//! Where a tolerance may stand.

ghost use Rattle.std.specs.Prelude.{◌≡◌, None, Some, IfErr, OnOk};
ghost use Rattle.lensmodel.specs.Files.Causes.{first_fault};
ghost use Rattle.lensmodel.specs.Files.Tolerances.{tol_faults};
ghost use Rattle.lensmodel.specs.Setup.Media.{has_tolerance};
ghost use Rattle.lensmodel.specs.Setup.Ranges.{has_place as can_stand};

use lensmodel::fault::TolFault;
use lensmodel::tolerance::{Tol, TolKind};

/// The most tolerances that a box has.
const MAX_COUNT: usize = 32;

/// Refuses a tolerance behind others that the lens whose last surface is `image` can't have.
pub fn check(at: u32, tol: &Tol, image: u32, others: &[Tol]) -> Result<(), TolFault>
    ensures sound { OnOk result (first_fault (tol_faults image at others.now tol.now) ≡ None) }
    ensures fault { IfErr result
        (λ f. first_fault (tol_faults image at others.now tol.now) ≡ Some f) }
{
    if tol.delta.mant < 0 {
        return Err(TolFault::Negative { line: at });
    }
    if !has_place(tol.kind, tol.surface, image) {
        return Err(TolFault::NoSurface { line: at });
    }
    if is_taken(others, tol.kind, tol.surface) {
        return Err(TolFault::Twice { line: at });
    }
    if others.len() >= MAX_COUNT {
        return Err(TolFault::TooMany { line: at });
    }
    Ok(())
}

/// Whether a tolerance of the kind can stand on the surface.
fn has_place(kind: TolKind, surface: u32, image: u32) -> bool
    ensures { result ≡ can_stand image kind surface }
{
    match kind {
        TolKind::Curv => 1 <= surface && surface <= image,
        TolKind::Thic => 1 <= surface && surface < image,
        TolKind::Indx => surface < image,
    }
}

/// Whether a tolerance of the kind stands on the surface.
fn is_taken(tolerances: &[Tol], kind: TolKind, surface: u32) -> bool
    ensures { result ≡ has_tolerance tolerances.now kind surface }
{
    for tol in tolerances {
        if tol.kind == kind && tol.surface == surface {
            return true;
        }
    }
    false
}
