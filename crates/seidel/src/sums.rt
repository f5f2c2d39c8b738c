//! The five Seidel sums of a setup.

ghost use Rattle.std.specs.Prelude.{◌≡◌, ◌≤◌};
ghost use Rattle.fixdec.specs.IntervalOperations.{operations};
ghost use Rattle.lensmodel.specs.Paraxial.SeidelRows as rows;
ghost use Rattle.lensmodel.specs.Rows.Constants.{residual_units as units_of_residual};
ghost use Rattle.lensmodel.specs.Setup.WellFormed.{IsWellFormed};
ghost use Rattle.seidel.specs.Encloses.{EnclosesSeidel};

use crate::attempt::{Attempt, of_rays};
use firstorder::ray::ray_through;
use fixdec::dec::Dec;
use lensmodel::paraxial::SeidelOut;
use lensmodel::setup::Setup;

/// The sums at scale `S` of a marginal ray, which arrives at surface 1 with height `y` and slope `u`,
/// and a chief ray, which arrives with `yb` and `ub`.
fn attempt<const S: u32>(s: &Setup, y: &Dec, u: &Dec, yb: &Dec, ub: &Dec) -> Attempt
    requires scale { S ≤ 15 }
    requires well { IsWellFormed s.now }
    ensures out { result.out
        ≡ (rows.sums_attempt (operations S) S s.now (units_of_residual S s.now.res)
        y.now u.now yb.now ub.now).out }
    ensures by_range { result.by_range
        ≡ (rows.sums_attempt (operations S) S s.now (units_of_residual S s.now.res)
        y.now u.now yb.now ub.now).by_range }
    ensures encloses { EnclosesSeidel s.now y.now u.now yb.now ub.now result.out }
{
    let marginal = ray_through::<S>(s, 0, y, u);
    let chief = ray_through::<S>(s, 1, yb, ub);
    of_rays(s, &marginal, &chief)
}

/// The five Seidel sums of each surface before the image and of the whole lens, without tolerances, of
/// a marginal ray, which arrives at surface 1 with height `y` and slope `u`, and a chief ray, which
/// arrives with `yb` and `ub`. Heights and sums are in lens units. The scale is the greatest of 15, 12
/// and 9 at which no row is lost because a number passed the cap; else it is 6.
pub fn sums(s: &Setup, y: &Dec, u: &Dec, yb: &Dec, ub: &Dec) -> SeidelOut
    requires { IsWellFormed s.now }
    ensures exact { result ≡ rows.seidel_sums s.now y.now u.now yb.now ub.now }

    // The sums of every pair of such rays lie in the intervals that aren't lost.
    ensures encloses { EnclosesSeidel s.now y.now u.now yb.now ub.now result }
{
    let at_15 = attempt::<15>(s, y, u, yb, ub);
    if !at_15.by_range {
        return at_15.out;
    }
    let at_12 = attempt::<12>(s, y, u, yb, ub);
    if !at_12.by_range {
        return at_12.out;
    }
    let at_9 = attempt::<9>(s, y, u, yb, ub);
    if !at_9.by_range {
        return at_9.out;
    }
    attempt::<6>(s, y, u, yb, ub).out
}
