//! What one surface makes of a paraxial ray.

ghost use Rattle.std.specs.Prelude.{◌≡◌, ℕ, ℤ, pos, suc, ◌-◌, ◌<◌, ◌≤◌, ◌≤ℤ◌, length};
ghost use Rattle.fixdec.specs.Ends.{InCap};
ghost use Rattle.firstorder.specs.Advances.{EnclosesAdvance};
ghost use Rattle.firstorder.specs.Stepped as stepped;
ghost use Rattle.lensmodel.specs.Equations.Dispersion.{IsKnown};
ghost use Rattle.lensmodel.specs.Paraxial.Trace.{even_coefficient};
ghost use Rattle.lensmodel.specs.Paraxial.TraceRows as rows;
ghost use Rattle.lensmodel.specs.Rows.Constants.{residual_units as units_of_residual};
ghost use Rattle.lensmodel.specs.Rows.Preparation.{medium_row};
ghost use Rattle.lensmodel.specs.Setup.Values as values;
ghost use Rattle.lensmodel.specs.Setup.WellFormed.{IsWellFormed};

use enclose::arith::Arith;
use exactdec::scale;
use fixdec::dec::Dec;
use fixdec::step::Step;
use fixdec::val;
use lensmodel::glass::Medium;
use lensmodel::setup::Setup;
use lensmodel::surface::{Surface, SurfaceKind};
use sagform::constant::{decimal, residual_units, whole};
use sagform::index::index;
use sagform::layout::{medium, surface, travel};
use std::marker::Model;

/// What a surface makes of a paraxial ray. The indices carry the sign of travel: they are below 0
/// where rays go against the axis.
#[derive(Clone, Copy, Debug)]
pub struct Parax<T> {
    /// The curvature at the vertex, with that of the first even term.
    pub cv: Step<T>,
    /// The signed index before the surface.
    pub n: Step<T>,
    /// The signed index behind the surface.
    pub n2: Step<T>,
    /// The slope behind the surface.
    pub u: Step<T>,
    /// The height at the next surface, in lens units.
    pub next: Step<T>,
}

impl<T> Model for Parax<T> {
    ghost use Rattle.lensmodel.specs.Paraxial.TraceRows.{Parax as Advanced};

    ghost Value = { Advanced T };

    ghost view = { λ p. record { cv = p.cv; n = p.n; n2 = p.n2; u = p.u; next = p.next } };

    ghost inverse = { λ p. record { cv = p.cv; n = p.n; n2 = p.n2; u = p.u; next = p.next } };
}

/// The coefficient of the first even term; 0 of a standard surface.
fn first_even(f: &Surface) -> Dec
    ensures { result ≡ even_coefficient f.now.kind f.now.a1 }
{
    match f.kind {
        SurfaceKind::Standard => Dec { mant: 0, exp: 0 },
        SurfaceKind::EvenAsph => f.a1,
    }
}

/// The curvature of surface `j` at its vertex.
pub(crate) fn vertex_curvature<T: Arith>(s: &Setup, j: u32) -> Step<T>
    requires scale { T.SCALE ≤ 15 }
    requires surface { j < length s.now.lens.surfaces.items }
    ensures { result ≡ rows.vertex_curvature_row T.ops T.SCALE (values.surface_at s.now j) }
{
    let f = surface(s, j);
    let a1 = val!(decimal::<T>(&first_even(f)));
    let c = val!(decimal::<T>(&f.curv));
    c.plus(val!(a1.plus(a1)))
}

/// The index of a medium at a wavelength.
fn medium_index<T: Arith>(m: &Medium, wave: &Dec, e: i128) -> Step<T>
    requires scale { T.SCALE ≤ 15 }
    requires low { pos 0 ≤ℤ e }
    requires high { InCap e }
    requires known { IsKnown m.now }
    ensures { result ≡ medium_row T.ops T.SCALE m.now wave.now e }
{
    match m {
        Medium::Air => whole(1),
        Medium::Of(_) => index(m, val!(scale::span(wave, T::SCALE)), e),
    }
}

/// An index with the sign of travel.
fn signed<T: Arith>(sign: i32, n: T) -> Step<T>
    requires { T.SCALE ≤ 15 }
    ensures { result ≡ rows.signed_row T.ops T.SCALE sign n }
{
    if sign >= 0 {
        Step::Val(n)
    } else {
        val!(whole::<T>(0)).minus(n)
    }
}

/// The signed index behind surface `j`, which isn't the image. No tolerance moves it.
pub(crate) fn signed_index<T: Arith>(s: &Setup, j: u32) -> Step<T>
    requires scale { T.SCALE ≤ 15 }
    requires well { IsWellFormed s.now }
    requires surface { j < values.image s.now }
    ensures { result ≡ rows.signed_index_row T.ops T.SCALE s.now
        (units_of_residual T.SCALE s.now.res) j }
{
    let n = val!(medium_index::<T>(medium(s, j), &s.wave, residual_units(T::SCALE, s.res)));
    signed(travel(s, j), n)
}

/// The slope behind a surface, of a ray that arrives with height `y` and slope `u`.
fn slope_behind<T: Arith>(y: T, u: T, cv: T, n: T, n2: T, e: i128) -> Step<T>
    requires scale { T.SCALE ≤ 15 }
    requires low { pos 0 ≤ℤ e }
    requires high { InCap e }
    ensures { result ≡ rows.slope_behind_row T.ops T.SCALE y u cv n n2 e }
{
    let straight = val!(n.times(u));
    let power = val!(val!(y.times(cv)).times(val!(n2.minus(n))));
    val!(val!(straight.minus(power)).widen(e)).over(n2)
}

/// The height at the surface after `j`, of a ray that leaves with height `y` and slope `u`.
fn next_height<T: Arith>(s: &Setup, j: u32, y: T, u: T, e: i128) -> Step<T>
    requires scale { T.SCALE ≤ 15 }
    requires surface { j < length s.now.lens.surfaces.items }
    requires low { pos 0 ≤ℤ e }
    requires high { InCap e }
    ensures { result ≡ rows.next_height_row T.ops T.SCALE (values.surface_at s.now j) y u e }
{
    let thickness = surface(s, j).thick.unwrap_or(Dec { mant: 0, exp: 0 });
    let d = val!(decimal::<T>(&thickness));
    val!(y.plus(val!(d.times(u)))).widen(e)
}

/// The slope behind a surface, from steps that may be lost.
pub(crate) fn slope_from<T: Arith>(
    y: Step<T>,
    u: Step<T>,
    cv: Step<T>,
    n: Step<T>,
    n2: Step<T>,
    e: i128,
) -> Step<T>
    requires scale { T.SCALE ≤ 15 }
    requires low { pos 0 ≤ℤ e }
    requires high { InCap e }
    ensures { result ≡ stepped.slope_from T.ops T.SCALE y u cv n n2 e }
{
    let y = val!(y);
    let u = val!(u);
    let cv = val!(cv);
    let n = val!(n);
    let n2 = val!(n2);
    slope_behind(y, u, cv, n, n2, e)
}

/// The height at the surface after `j`, from steps that may be lost.
pub(crate) fn height_from<T: Arith>(s: &Setup, j: u32, y: Step<T>, u: Step<T>, e: i128) -> Step<T>
    requires scale { T.SCALE ≤ 15 }
    requires surface { j < length s.now.lens.surfaces.items }
    requires low { pos 0 ≤ℤ e }
    requires high { InCap e }
    ensures { result ≡ stepped.height_from T.ops T.SCALE (values.surface_at s.now j) y u e }
{
    let y = val!(y);
    let u = val!(u);
    next_height(s, j, y, u, e)
}

/// The rows at surface `j`.
fn rows_at<T: Arith>(s: &Setup, j: u32, before: u32, y: T, u: T) -> Parax<T>
    requires scale { T.SCALE ≤ 15 }
    requires well { IsWellFormed s.now }
    requires next { j ≡ suc before }
    requires surface { j < values.image s.now }
    ensures { result ≡ rows.advance_rows T.ops T.SCALE s.now (units_of_residual T.SCALE s.now.res)
        before y u }
{
    let e = residual_units(T::SCALE, s.res);
    let cv = vertex_curvature(s, j);
    let n = signed_index(s, before);
    let n2 = signed_index(s, j);
    let behind = slope_from(Step::Val(y), Step::Val(u), cv, n, n2, e);
    let next = height_from(s, j, Step::Val(y), behind, e);
    Parax {
        cv,
        n,
        n2,
        u: behind,
        next,
    }
}

/// What surface `j` makes of a paraxial ray that arrives with height `y` and slope `u`; `j` is from
/// 1 to the surface before the image. Tolerances move nothing.
pub fn advance<T: Arith>(s: &Setup, j: u32, y: T, u: T) -> Parax<T>
    requires scale { T.SCALE ≤ 15 }
    requires well { IsWellFormed s.now }
    requires low { 1 ≤ j }
    requires high { j < values.image s.now }
    ensures exact { result
        ≡ rows.advance_rows T.ops T.SCALE s.now (units_of_residual T.SCALE s.now.res) (j - 1) y u }

    // For members of the height and the slope, each answer holds the value that the equations give.
    ensures encloses { EnclosesAdvance T.member s.now (j - 1) y u result }
{
    rows_at(s, j, j - 1, y, u)
}
