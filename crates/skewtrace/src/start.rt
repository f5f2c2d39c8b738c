//! Where a ray starts.

ghost use Rattle.std.specs.Prelude.{◌≡◌, ℤ, pos, ◌≤◌, ◌≤ℤ◌};
ghost use Rattle.fixdec.specs.Ends.{InCap};
ghost use Rattle.lensmodel.specs.Claims.Enclosure.{EnclosesStart};
ghost use Rattle.lensmodel.specs.Rows.Constants.{residual_units as units_of_residual};
ghost use Rattle.lensmodel.specs.Rows.Start as rows;
ghost use Rattle.skewtrace.specs.StartLaws.{HasParts};

use enclose::arith::Arith;
use fixdec::dec::Dec;
use fixdec::step::Step;
use fixdec::val;
use lensmodel::launch::{Launch, Ratio};
use lensmodel::setup::Setup;
use sagform::constant::{decimal, residual_units, whole};
use sagform::ray::Ray;
use std::marker::Model;

/// A foot in the vertex plane of surface 1, with the slopes of a ray.
#[derive(Clone, Copy)]
struct Foot<T> {
    x: T,
    y: T,
    p: T,
    q: T,
}

impl<T> Model for Foot<T> {
    ghost use Rattle.lensmodel.specs.Rows.Start.{Sloped};

    ghost Value = { Sloped T };

    ghost view = { λ f. record { x = f.x; y = f.y; p = f.p; q = f.q } };

    ghost inverse = { λ f. record { x = f.x; y = f.y; p = f.p; q = f.q } };
}

/// A pupil coordinate as a value.
fn ratio<T: Arith>(r: &Ratio) -> Step<T>
    requires { T.SCALE ≤ 15 }
    ensures exact { result ≡ rows.ratio_row T.ops T.SCALE r.now }
    ensures part { 1 ≤ r.now.den }
{
    let numerator = decimal(&r.num);
    if r.den == 1 {
        return numerator;
    }
    val!(numerator).over(val!(whole::<T>(r.den)))
}

/// A height in the vertex plane, `(r*px) - (p*z)`.
fn height<T: Arith>(r: T, px: T, p: T, z: T) -> Step<T>
    requires { T.SCALE ≤ 15 }
    ensures { result ≡ rows.pupil_row T.ops T.SCALE r px p z }
{
    let across = val!(r.times(px));
    across.minus(val!(p.times(z)))
}

/// The foot of a ray that is given by its point in the vertex plane.
fn plain<T: Arith>(x: &Dec, y: &Dec, p: &Dec, q: &Dec) -> Step<Foot<T>>
    requires { T.SCALE ≤ 15 }
    ensures { result ≡ rows.launch_rows T.ops T.SCALE (Launch.Plain x.now y.now p.now q.now) }
{
    Step::Val(Foot {
        x: val!(decimal(x)),
        y: val!(decimal(y)),
        p: val!(decimal(p)),
        q: val!(decimal(q)),
    })
}

/// The foot of a ray that is given by its point in the pupil plane.
fn pupil<T: Arith>(p: &Dec, q: &Dec, px: &Ratio, py: &Ratio, z: &Dec, r: &Dec) -> Step<Foot<T>>
    requires { T.SCALE ≤ 15 }
    ensures exact { result
        ≡ rows.launch_rows T.ops T.SCALE (Launch.Pupil p.now q.now px.now py.now z.now r.now) }
    ensures part_x { 1 ≤ px.now.den }
    ensures part_y { 1 ≤ py.now.den }
{
    let (across, along) = (ratio::<T>(px), ratio::<T>(py));
    let across = val!(across);
    let along = val!(along);
    let p = val!(decimal(p));
    let q = val!(decimal(q));
    let r = val!(decimal(r));
    let z = val!(decimal(z));
    let x = val!(height(r, across, p, z));
    let y = val!(height(r, along, q, z));
    Step::Val(Foot { x, y, p, q })
}

/// The foot of a launch.
fn foot_of<T: Arith>(q: &Launch) -> Step<Foot<T>>
    requires { T.SCALE ≤ 15 }
    ensures exact { result ≡ rows.launch_rows T.ops T.SCALE q.now }
    ensures parts { HasParts q.now }
{
    match q {
        Launch::Plain { x, y, p, q } => plain(x, y, p, q),
        Launch::Pupil { p, q, px, py, z, r } => pupil(p, q, px, py, z, r),
    }
}

/// The direction cosine along the axis, `rt(wd(1)/((1 + sq(p)) + sq(q)))`.
fn axial<T: Arith>(p: T, q: T, e: i128) -> Step<T>
    requires scale { T.SCALE ≤ 15 }
    requires low { pos 0 ≤ℤ e }
    requires high { InCap e }
    ensures { result ≡ rows.axial_row T.ops T.SCALE p q e }
{
    let one = val!(whole::<T>(1));
    let wide = val!(one.widen(e));
    let across = val!(one.plus(val!(p.square())));
    let size = val!(across.plus(val!(q.square())));
    val!(wide.over(size)).root()
}

/// A direction cosine across the axis, `wd(p*n)`.
fn lateral<T: Arith>(p: T, n: T, e: i128) -> Step<T>
    requires scale { T.SCALE ≤ 15 }
    requires low { pos 0 ≤ℤ e }
    requires high { InCap e }
    ensures { result ≡ rows.lateral_row T.ops T.SCALE p n e }
{
    val!(p.times(n)).widen(e)
}

/// The rows of the start.
#[tactic(auto, unfolding(lensmodel::specs::Rows::Start::start_rows))]
fn rows_of<T: Arith>(q: &Launch, e: i128) -> Step<Ray<T>>
    requires scale { T.SCALE ≤ 15 }
    requires low { pos 0 ≤ℤ e }
    requires high { InCap e }
    ensures exact { result ≡ rows.start_rows T.ops T.SCALE q.now e }
    ensures parts { HasParts q.now }
{
    let f = val!(foot_of::<T>(q));
    let n = val!(axial(f.p, f.q, e));
    let l = val!(lateral(f.p, n, e));
    let m = val!(lateral(f.q, n, e));
    let zero = val!(whole::<T>(0));
    Step::Val(Ray {
        x: f.x,
        y: f.y,
        z: zero,
        l,
        m,
        n,
        path: zero,
    })
}

/// The ray of a launch as it starts, in the vertex plane of surface 1: Lost by the first of its rows
/// that is, and never Empty.
pub fn start<T: Arith>(s: &Setup, q: &Launch) -> Step<Ray<T>>
    requires { T.SCALE ≤ 15 }
    ensures exact { result
        ≡ rows.start_rows T.ops T.SCALE q.now (units_of_residual T.SCALE s.now.res) }

    // Each ray that starts as the launch asks is held by the answer.
    ensures encloses { EnclosesStart T.member s.now q.now result }
{
    rows_of(q, residual_units(T::SCALE, s.res))
}
