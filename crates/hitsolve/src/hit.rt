//! Where a ray meets a surface.

ghost use Rattle.std.specs.Prelude.{◌≡◌, ℕ, ℤ, pos, ◌≤◌, ◌≤ℤ◌};
ghost use Rattle.fixdec.specs.Ends.{InCap};
ghost use Rattle.lensmodel.specs.Claims.Closeness.{AspheresAreClose, StandardAreClose};
ghost use Rattle.lensmodel.specs.Claims.Enclosure.{CoversResidual, EnclosesCrossing};
ghost use Rattle.lensmodel.specs.Rows.Crossing as rows;
ghost use Rattle.lensmodel.specs.Rows.Hit as hits;
ghost use Rattle.lensmodel.specs.Setup.WellFormed.{IsWellFormed};
ghost use Rattle.lensmodel.specs.declared.setup.Setup.{Setup};
ghost use Rattle.lensmodel.specs.declared.surface.SurfaceKind.TheVariants.{EvenAsph, Standard};
ghost use Rattle.hitsolve.specs.Caps as caps;

use crate::line::{Arrival, Line, along, arrive, path_to, rho_at};
use crate::rounds::within_zone;
use crate::{asphere, standard};
use enclose::arith::Arith;
use fixdec::span::{CAP, Span};
use fixdec::step::Step;
use fixdec::val;
use lensmodel::surface::SurfaceKind;
use sagform::constant::whole;
use sagform::face::Face;
use sagform::ray::{Hit, Ray};
use sagform::sag::w_at;

/// `1 - (ck*z)`.
fn unclipped_w<T: Arith>(f: &Face<T>, z: T) -> Step<T>
    requires { T.SCALE ≤ 15 }
    ensures { result ≡ caps.unclipped_w_row T.ops T.SCALE f.now z }
{
    let one = val!(whole::<T>(1));
    one.minus(val!(f.ck().times(z)))
}

/// A value clipped to the numbers that aren't negative.
fn clipped<T: Arith>(v: Step<T>) -> Step<T>
    requires { T.SCALE ≤ 15 }
    ensures value { result ≡ caps.clipped_row T.ops v }
    ensures cap { caps.IsCapped T.ops v }
{
    let v = val!(v);
    let _capped = v.hull();
    v.clip(Span { lo: 0, hi: CAP })
}

/// `w = cl(1 - (ck*z))` of a standard surface.
fn standard_w<T: Arith>(f: &Face<T>, z: T) -> Step<T>
    requires { T.SCALE ≤ 15 }
    ensures value { result ≡ rows.standard_w_row T.ops T.SCALE f.now z }
    ensures cap { caps.IsCapped T.ops (caps.unclipped_w_row T.ops T.SCALE f.now z) }
{
    clipped(unclipped_w(f, z))
}

/// The point on a standard surface at `z`, once w is known.
fn standard_rest<T: Arith>(
    f: &Face<T>,
    r: &Ray<T>,
    a: Arrival<T>,
    z: T,
    w: Step<T>,
    e: i128,
) -> Step<Hit<T>>
    requires scale { T.SCALE ≤ 15 }
    requires low { pos 0 ≤ℤ e }
    requires high { InCap e }
    ensures { result ≡ caps.standard_point_rows T.ops T.SCALE f.now r.now a z w e }
{
    let line = a.line;
    let w = val!(w);
    let x = val!(along(line.x0, line.p, z));
    let y = val!(along(line.y0, line.q, z));
    let rho = val!(rho_at(x, y));
    let path = val!(path_to(f, r, a, z, e));
    Step::Val(Hit {
        x,
        y,
        z,
        rho,
        w,
        path,
    })
}

/// The point on a standard surface at `z`.
fn standard_point<T: Arith>(f: &Face<T>, r: &Ray<T>, a: Arrival<T>, z: T, e: i128) -> Step<Hit<T>>
    requires scale { T.SCALE ≤ 15 }
    requires low { pos 0 ≤ℤ e }
    requires high { InCap e }
    ensures value { result ≡ hits.point_rows T.ops T.SCALE Standard f.now r.now a z e }
    ensures cap { caps.IsCapped T.ops (caps.unclipped_w_row T.ops T.SCALE f.now z) }
{
    standard_rest(f, r, a, z, standard_w(f, z), e)
}

/// The point on an even asphere at `z`.
fn asphere_point<T: Arith>(f: &Face<T>, r: &Ray<T>, a: Arrival<T>, z: T, e: i128) -> Step<Hit<T>>
    requires scale { T.SCALE ≤ 15 }
    requires low { pos 0 ≤ℤ e }
    requires high { InCap e }
    ensures { result ≡ hits.point_rows T.ops T.SCALE EvenAsph f.now r.now a z e }
{
    let line = a.line;
    let x = val!(along(line.x0, line.p, z));
    let y = val!(along(line.y0, line.q, z));
    let rho = val!(val!(rho_at(x, y)).clip(within_zone(f)));
    let w = val!(w_at(f, rho, e));
    let path = val!(path_to(f, r, a, z, e));
    Step::Val(Hit {
        x,
        y,
        z,
        rho,
        w,
        path,
    })
}

/// The point on a surface at `z`.
fn point<T: Arith>(f: &Face<T>, r: &Ray<T>, a: Arrival<T>, z: T, e: i128) -> Step<Hit<T>>
    requires scale { T.SCALE ≤ 15 }
    requires low { pos 0 ≤ℤ e }
    requires high { InCap e }
    ensures value { result ≡ hits.point_rows T.ops T.SCALE f.now.kind f.now r.now a z e }
    ensures cap { caps.CapsW T.ops T.SCALE f.now z }
{
    match f.kind() {
        SurfaceKind::Standard => standard_point(f, r, a, z, e),
        SurfaceKind::EvenAsph => asphere_point(f, r, a, z, e),
    }
}

/// The point where a line meets a surface, once its z is known.
fn met<T: Arith>(f: &Face<T>, r: &Ray<T>, a: Arrival<T>, z: Step<T>, e: i128) -> Step<Hit<T>>
    requires scale { T.SCALE ≤ 15 }
    requires low { pos 0 ≤ℤ e }
    requires high { InCap e }
    ensures value { result ≡ caps.met_rows T.ops T.SCALE f.now r.now a z e }
    ensures cap { caps.CapsMet T.ops T.SCALE f.now z }
{
    point(f, r, a, val!(z), e)
}

/// The rows of a crossing phase, once the line is known.
fn crossed<T: Arith>(f: &Face<T>, r: &Ray<T>, a: Step<Arrival<T>>, e: i128) -> Step<Hit<T>>
    requires scale { T.SCALE ≤ 15 }
    requires low { pos 0 ≤ℤ e }
    requires high { InCap e }
    ensures value { result ≡ caps.crossed_rows T.ops T.SCALE f.now r.now a e }
    ensures cap { caps.CapsCrossed T.ops T.SCALE f.now e a }
{
    let a = val!(a);
    let line = a.line;
    met(f, r, a, meet_on(f, line, e), e)
}

/// Where a line meets a surface.
#[tactic(auto, unfolding(lensmodel::specs::Rows::Hit::meet_rows))]
fn meet_on<T: Arith>(f: &Face<T>, line: Line<T>, e: i128) -> Step<T>
    requires scale { T.SCALE ≤ 15 }
    requires low { pos 0 ≤ℤ e }
    requires high { InCap e }
    ensures { result ≡ hits.meet_rows T.ops T.SCALE f.now line e }
{
    match f.kind() {
        SurfaceKind::Standard => standard::meet(f, line, e),
        SurfaceKind::EvenAsph => asphere::meet(f, line, e),
    }
}

/// Where a line meets a surface: z from the vertex, the line being given by its foot in the vertex
/// plane and its slopes. The residual is `e` units, `e` from 0 to the cap.
pub fn meet<T: Arith>(f: &Face<T>, x0: T, y0: T, p: T, q: T, e: i128) -> Step<T>
    requires scale { T.SCALE ≤ 15 }
    requires low { pos 0 ≤ℤ e }
    requires high { InCap e }
    ensures { result ≡ hits.meet_rows T.ops T.SCALE f.now
        (record { x0 = x0; y0 = y0; p = p; q = q }) e }
{
    meet_on(f, Line { x0, y0, p, q }, e)
}

/// The rows of a crossing phase.
#[tactic(auto, unfolding(lensmodel::specs::Rows::Hit::hit_rows))]
fn hit_rows<T: Arith>(f: &Face<T>, r: &Ray<T>, e: i128) -> Step<Hit<T>>
    requires scale { T.SCALE ≤ 15 }
    requires low { pos 0 ≤ℤ e }
    requires high { InCap e }
    ensures value { result ≡ hits.hit_rows T.ops T.SCALE f.now r.now e }
    ensures cap { caps.CapsCrossed T.ops T.SCALE f.now e (rows.arrival_rows T.ops f.now r.now e) }
    ensures side { caps.IsInCap (T.ops.hull r.now.n) }
{
    let _side = r.n.hull();
    crossed(f, r, arrive(f, r, e), e)
}

/// Where a ray meets a surface. The residual is `e` units, `e` from 0 to the cap. Empty only where no
/// ray that is held meets the surface; on an even asphere only within the zone.
pub fn hit<T: Arith>(f: &Face<T>, r: &Ray<T>, e: i128) -> Step<Hit<T>>
    requires scale { T.SCALE ≤ 15 }
    requires low { pos 0 ≤ℤ e }
    requires high { InCap e }
    ensures exact { result ≡ hits.hit_rows T.ops T.SCALE f.now r.now e }

    // Every crossing of a chain that is held is held by the answer.
    ensures encloses { (s : Setup) → IsWellFormed s → (j : ℕ) → CoversResidual T.SCALE s e
        → EnclosesCrossing T.member s j f.now r.now result }

    // Two chains that the ray holds, on one line, cross a standard surface close by each other.
    ensures close { (s : Setup) → (j : ℕ) → CoversResidual T.SCALE s e
        → StandardAreClose T.ops T.SCALE T.member s j f.now r.now e }

    // So they cross an even asphere.
    ensures close_asphere { (s : Setup) → IsWellFormed s → (j : ℕ) → CoversResidual T.SCALE s e
        → AspheresAreClose T.ops T.SCALE T.member s j f.now r.now e }
{
    hit_rows(f, r, e)
}
