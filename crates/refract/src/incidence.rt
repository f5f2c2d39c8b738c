//! The normal of a surface where a ray meets it, and the cosine of incidence.

ghost use Rattle.std.specs.Prelude.{◌≡◌, ℤ, pos, ◌≤◌, ◌≤ℤ◌};
ghost use Rattle.fixdec.specs.Ends.{InCap};
ghost use Rattle.lensmodel.specs.Rows.Bending as rows;
ghost use Rattle.refract.specs.Clipping.{IfVal, AreInCap};
ghost use Rattle.refract.specs.Incidence.{ClipsInCap, unclipped_row};

use crate::clip::{clipped, side};
use crate::sign::turned;
use enclose::arith::Arith;
use fixdec::span::{CAP, Span};
use fixdec::step::Step;
use fixdec::val;
use sagform::constant::whole;
use sagform::face::Face;
use sagform::ray::{Hit, Ray};
use sagform::sag;
use std::marker::Model;

/// How a ray meets a surface.
#[derive(Clone, Copy, Debug)]
pub(crate) struct Normal<T> {
    /// The slope of the normal over the height.
    pub(crate) e: T,
    /// The length of the normal.
    pub(crate) g: T,
    /// The cosine of incidence.
    pub(crate) cos: T,
    /// The ray's cosine along the axis, on the side to which rays travel.
    pub(crate) n: T,
}

impl<T> Model for Normal<T> {
    ghost Value = { rows.Normal T };

    ghost view = { λ a. record { e = a.e; g = a.g; cos = a.cos; n = a.n } };

    ghost inverse = { λ a. record { e = a.e; g = a.g; cos = a.cos; n = a.n } };
}

/// `g = rt(wd(1 + (sq(E)*rho)))`.
fn length<T: Arith>(slope: T, rho: T, e: i128) -> Step<T>
    requires scale { T.SCALE ≤ 15 }
    requires low { pos 0 ≤ℤ e }
    requires high { InCap e }
    ensures { result ≡ rows.length_row T.ops T.SCALE slope rho e }
{
    let one = val!(whole::<T>(1));
    val!(val!(one.plus(val!(val!(slope.square()).times(rho)))).widen(e)).root()
}

/// `E*((x*L) + (y*M))`.
fn along_normal<T: Arith>(slope: T, r: &Ray<T>, h: &Hit<T>) -> Step<T>
    requires { T.SCALE ≤ 15 }
    ensures { result ≡ rows.along_normal_row T.ops slope r.now h.now }
{
    slope.times(val!(val!(h.x.times(r.l)).plus(val!(h.y.times(r.m)))))
}

/// `wd(N - along)/g`.
fn unclipped<T: Arith>(sign: i32, n: T, along: T, g: T, e: i128) -> Step<T>
    requires scale { T.SCALE ≤ 15 }
    requires low { pos 0 ≤ℤ e }
    requires high { InCap e }
    ensures { result ≡ unclipped_row T.ops sign n along g e }
{
    val!(val!(turned(sign, n, along)).widen(e)).over(g)
}

/// `C = cl(wd(N - along)/g)`.
pub(crate) fn cosine<T: Arith>(sign: i32, n: T, along: T, g: T, e: i128) -> Step<T>
    requires scale { T.SCALE ≤ 15 }
    requires low { pos 0 ≤ℤ e }
    requires high { InCap e }
    ensures exact { result ≡ rows.cosine_row T.ops sign n along g e }
    ensures kept { IfVal (unclipped_row T.ops sign n along g e) (λ c. AreInCap (T.ops.hull c)) }
{
    clipped(
        val!(unclipped(sign, n, along, g, e)),
        Span { lo: 0, hi: CAP },
    )
}

/// E, g, C and N.
#[tactic(auto, unfolding(lensmodel::specs::Rows::Bending::incidence_rows))]
pub(crate) fn incidence<T: Arith>(f: &Face<T>, r: &Ray<T>, h: &Hit<T>, e: i128) -> Step<Normal<T>>
    requires scale { T.SCALE ≤ 15 }
    requires low { pos 0 ≤ℤ e }
    requires high { InCap e }
    ensures exact { result ≡ rows.incidence_rows T.ops T.SCALE f.now r.now h.now e }
    ensures kept { ClipsInCap T.ops T.SCALE f.now r.now h.now e }
{
    let n = val!(clipped(r.n, side(f.sign())));
    let slope = val!(sag::normal(f, h, e));
    let g = val!(length(slope, h.rho, e));
    let along = val!(along_normal(slope, r, h));
    let cos = val!(cosine(f.sign(), n, along, g, e));
    Step::Val(Normal {
        e: slope,
        g,
        cos,
        n,
    })
}
