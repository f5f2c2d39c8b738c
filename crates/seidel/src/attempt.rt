//! The sums of two rays at one scale.

ghost use Rattle.std.specs.Prelude.{◌≡◌, ◌+◌, ◌≤◌, length, map};
ghost use Rattle.fixdec.specs.IntervalOperations.{operations};
ghost use Rattle.lensmodel.specs.Paraxial.SeidelRows as rows;
ghost use Rattle.lensmodel.specs.Rows.Constants.{residual_units as units_of_residual};
ghost use Rattle.lensmodel.specs.Setup.Values.{image};
ghost use Rattle.seidel.specs.Surfaces.{in_short};
ghost use Rattle.seidel.specs.Wholes.{short_attempt};

use crate::surface::Summed;
use crate::whole::{contributions, fives, some_summed_by_range, whole_of};
use arrayvec::ArrayVec;
use enclose::iv::Iv;
use firstorder::ray::Track;
use lensmodel::paraxial::SeidelOut;
use lensmodel::setup::Setup;
use sagform::constant::residual_units;

/// The sums at one scale.
#[derive(Drop)]
pub(crate) struct Attempt {
    /// The sums.
    pub(crate) out: SeidelOut,
    /// Whether a row of them or of the rays is lost because a number passed the cap.
    pub(crate) by_range: bool,
}

/// The sums of each surface, with the marginal ray and the chief ray.
fn surfaces_of<const S: u32>(
    s: &Setup,
    marginal: &Track<S>,
    chief: &Track<S>,
) -> ArrayVec<Summed<Iv<S>>, 64>
    requires scale { S ≤ 15 }
    requires marginal { length marginal.now + 1 ≡ image s.now }
    requires chief { length chief.now + 1 ≡ image s.now }
    ensures { result.items
        ≡ map in_short (rows.contributions (operations S) S s.now (units_of_residual S s.now.res) 0
        marginal.now chief.now) }
{
    let e = residual_units(S, s.res);
    contributions(s, e, marginal.as_slice(), chief.as_slice())
}

/// The sums as they are handed out.
fn out_of<const S: u32>(all: &[Summed<Iv<S>>], whole: &Summed<Iv<S>>) -> SeidelOut
    requires scale { S ≤ 15 }
    requires few { length all.now ≤ 64 }
    ensures { result ≡ record {
      scale = S;
      per = record { items = map (λ d. rows.five (operations S) S d.sums) all.now };
      whole = rows.five (operations S) S whole.now.sums;
    } }
{
    SeidelOut {
        scale: S,
        per: fives(all),
        whole: whole.sums.five(),
    }
}

/// The sums of a marginal ray and a chief ray.
pub(crate) fn of_rays<const S: u32>(s: &Setup, marginal: &Track<S>, chief: &Track<S>) -> Attempt
    requires scale { S ≤ 15 }
    requires marginal { length marginal.now + 1 ≡ image s.now }
    requires chief { length chief.now + 1 ≡ image s.now }
    ensures out { result.out ≡ (short_attempt (operations S) S s.now (units_of_residual S s.now.res)
        marginal.now chief.now).out }
    ensures by_range { result.by_range
        ≡ (short_attempt (operations S) S s.now (units_of_residual S s.now.res)
        marginal.now chief.now).by_range }
{
    let surfaces = surfaces_of(s, marginal, chief);
    let all = surfaces.as_slice();
    let whole = whole_of(s.lens.surfaces.len() as u32 - 1, all);
    let lost_by_rays = marginal.is_by_range() || chief.is_by_range();
    Attempt {
        out: out_of(all, &whole),
        by_range: lost_by_rays || some_summed_by_range(all) || whole.by_range,
    }
}
