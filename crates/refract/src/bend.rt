//! The bending of a ray at a surface.

ghost use Rattle.std.specs.Prelude.{◌≡◌, ℤ, pos, ◌≤◌, ◌≤ℤ◌};
ghost use Rattle.fixdec.specs.Ends.{InCap};
ghost use Rattle.lensmodel.specs.Rows.Bending as rows;
ghost use Rattle.refract.specs.BendLaws.{EnclosesBend};
ghost use Rattle.refract.specs.Incidence.{ClipsInCap};

use crate::incidence::{Normal, incidence};
use crate::reflection::reflection;
use crate::refraction::refraction;
use enclose::arith::Arith;
use fixdec::step::{Step, Why};
use fixdec::val;
use sagform::face::Face;
use sagform::ray::{Dir, Hit, Ray};

/// The direction behind a surface, from the normal.
fn bent<T: Arith>(f: &Face<T>, r: &Ray<T>, h: &Hit<T>, normal: &Normal<T>, e: i128) -> Step<Dir<T>>
    requires scale { T.SCALE ≤ 15 }
    requires low { pos 0 ≤ℤ e }
    requires high { InCap e }
    ensures { result ≡ rows.bend_by T.ops T.SCALE f.now.mirror f.now.n2 f.now r.now h.now
        normal.now e }
{
    if f.mirror() {
        return reflection(f, r, h, normal, e);
    }
    match f.n2() {
        Some(n2) => refraction(f, n2, r, h, normal, e),
        None => Step::Lost(Why::Root),
    }
}

/// The rows of the bending.
#[tactic(auto, unfolding(lensmodel::specs::Rows::Bending::bend_rows))]
fn rows_of<T: Arith>(f: &Face<T>, r: &Ray<T>, h: &Hit<T>, e: i128) -> Step<Dir<T>>
    requires scale { T.SCALE ≤ 15 }
    requires low { pos 0 ≤ℤ e }
    requires high { InCap e }
    ensures exact { result ≡ rows.bend_rows T.ops T.SCALE f.now r.now h.now e }
    ensures kept { ClipsInCap T.ops T.SCALE f.now r.now h.now e }
{
    bent(f, r, h, &val!(incidence(f, r, h, e)), e)
}

/// The direction in which a ray that meets a surface leaves it: reflected by a mirror, and refracted
/// by every other surface. The residual is `e` units, `e` from 0 to the cap. Empty only where no ray
/// leaves, which is total reflection. Lost where a step has no value, and at a surface without an
/// index behind it.
pub fn bend<T: Arith>(f: &Face<T>, r: &Ray<T>, h: &Hit<T>, e: i128) -> Step<Dir<T>>
    requires scale { T.SCALE ≤ 15 }
    requires low { pos 0 ≤ℤ e }
    requires high { InCap e }
    ensures exact { result ≡ rows.bend_rows T.ops T.SCALE f.now r.now h.now e }

    // Each direction in which a chain leaves the surface is a member, and where there is one the
    // answer isn't Empty.
    ensures encloses { EnclosesBend T.SCALE T.member f.now r.now h.now e result }
{
    rows_of(f, r, h, e)
}
