//! How a ray leaves a surface.

ghost use Rattle.std.specs.Prelude.{◌≡◌, ◌-◌, ◌<◌, ◌≤◌};
ghost use Rattle.lensmodel.specs.Rows.Bending as rows;
ghost use Rattle.lensmodel.specs.Setup.Values as values;
ghost use Rattle.lensmodel.specs.Setup.WellFormed.{IsWellFormed};
ghost use Rattle.refract.specs.Clipping.{AreInCap};
ghost use Rattle.skewtrace.specs.Enclosing.{EnclosesDeparture};
ghost use Rattle.skewtrace.specs.Turns as turns;

use enclose::arith::Arith;
use fixdec::step::Step;
use fixdec::val;
use lensmodel::setup::Setup;
use prescript::media::equal_media;
use refract::bend::bend;
use refract::clip::{clipped, side};
use sagform::constant::residual_units;
use sagform::face::Face;
use sagform::ray::{Dir, Hit, Ray};

/// The direction between equal media: as the ray came, within the side to which rays travel.
#[tactic(auto, unfolding(lensmodel::specs::Rows::Bending::stay_rows))]
fn stays<T: Arith>(f: &Face<T>, r: &Ray<T>) -> Step<Dir<T>>
    requires { T.SCALE ≤ 15 }
    ensures exact { result ≡ rows.stay_rows T.ops f.now r.now }
    ensures kept { AreInCap (T.ops.hull r.now.n) }
{
    let n = clipped(r.n, side(f.sign()));
    Step::Val(Dir {
        l: r.l,
        m: r.m,
        n: val!(n),
    })
}

/// The direction in which a ray leaves surface `j`, which isn't the image: between equal media it
/// stays, and else it is bent.
pub(crate) fn departure<T: Arith>(
    s: &Setup,
    j: u32,
    f: &Face<T>,
    r: &Ray<T>,
    h: &Hit<T>,
) -> Step<Dir<T>>
    requires scale { T.SCALE ≤ 15 }
    requires well { IsWellFormed s.now }
    requires low { 1 ≤ j }
    requires high { j < values.image s.now }
    ensures exact { result ≡ turns.departure T.ops T.SCALE s.now j f.now r.now h.now }
    ensures encloses { EnclosesDeparture T.member s.now (j - 1) f.now r.now h.now result }
{
    if equal_media(s, j) {
        return stays(f, r);
    }
    bend(f, r, h, residual_units(T::SCALE, s.res))
}
