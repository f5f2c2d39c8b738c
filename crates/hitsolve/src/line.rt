//! The line on which a ray arrives at a surface, and its points.

ghost use Rattle.std.specs.Prelude.{◌≡◌, ℤ, pos, ◌≤◌, ◌≤ℤ◌};
ghost use Rattle.fixdec.specs.Ends.{InCap};
ghost use Rattle.lensmodel.specs.Rows.Crossing as rows;
ghost use Rattle.lensmodel.specs.Rows.Spans.{side_of};

use enclose::arith::Arith;
use fixdec::span::{CAP, Span};
use fixdec::step::Step;
use fixdec::val;
use sagform::face::Face;
use sagform::ray::Ray;
use std::marker::Model;

/// A line by its foot in the vertex plane of a surface, and its slopes.
#[derive(Clone, Copy)]
pub(crate) struct Line<T> {
    pub(crate) x0: T,
    pub(crate) y0: T,
    pub(crate) p: T,
    pub(crate) q: T,
}

impl<T> Model for Line<T> {
    ghost Value = { rows.Line T };

    ghost view = { λ l. record { x0 = l.x0; y0 = l.y0; p = l.p; q = l.q } };

    ghost inverse = { λ l. record { x0 = l.x0; y0 = l.y0; p = l.p; q = l.q } };
}

/// The line on which a ray arrives, its cosine along the axis clipped to the side of travel, and the
/// distance along the axis from its last point to the vertex.
#[derive(Clone, Copy)]
pub(crate) struct Arrival<T> {
    pub(crate) n: T,
    pub(crate) s: T,
    pub(crate) line: Line<T>,
}

impl<T> Model for Arrival<T> {
    ghost Value = { rows.Arrival T };

    ghost view = { λ a. record { n = a.n; s = a.s; line = a.line } };

    ghost inverse = { λ a. record { n = a.n; s = a.s; line = a.line } };
}

/// The raw numbers on the side to which rays travel.
fn side(sign: i32) -> Span
    ensures { result ≡ side_of sign }
{
    if sign >= 0 {
        Span { lo: 0, hi: CAP }
    } else {
        Span { lo: -CAP, hi: 0 }
    }
}

/// The height of the foot: `x0 = wd(x + (p*wd(s)))`.
fn foot<T: Arith>(x: T, p: T, s: T, e: i128) -> Step<T>
    requires scale { T.SCALE ≤ 15 }
    requires low { pos 0 ≤ℤ e }
    requires high { InCap e }
    ensures { result ≡ rows.foot_row T.ops x p s e }
{
    let wide = val!(s.widen(e));
    val!(x.plus(val!(p.times(wide)))).widen(e)
}

/// The line on which a ray arrives.
#[tactic(auto, unfolding(lensmodel::specs::Rows::Crossing::arrival_rows))]
pub(crate) fn arrive<T: Arith>(f: &Face<T>, r: &Ray<T>, e: i128) -> Step<Arrival<T>>
    requires scale { T.SCALE ≤ 15 }
    requires low { pos 0 ≤ℤ e }
    requires high { InCap e }
    ensures { result ≡ rows.arrival_rows T.ops f.now r.now e }
{
    let n = val!(r.n.clip(side(f.sign())));
    let p = val!(r.l.over(n));
    let q = val!(r.m.over(n));
    let s = val!(f.d().minus(r.z));
    let x0 = val!(foot(r.x, p, s, e));
    let y0 = val!(foot(r.y, q, s, e));
    Step::Val(Arrival {
        n,
        s,
        line: Line { x0, y0, p, q },
    })
}

/// The point of a line at `z`: `x = x0 + (p*z)`.
pub(crate) fn along<T: Arith>(x0: T, p: T, z: T) -> Step<T>
    requires { T.SCALE ≤ 15 }
    ensures { result ≡ rows.along_row T.ops x0 p z }
{
    x0.plus(val!(p.times(z)))
}

/// `rho = sq(x) + sq(y)`.
pub(crate) fn rho_at<T: Arith>(x: T, y: T) -> Step<T>
    requires { T.SCALE ≤ 15 }
    ensures { result ≡ rows.rho_row T.ops x y }
{
    val!(x.square()).plus(val!(y.square()))
}

/// The length along the ray: `t = wd(s + z)/N`.
fn length_to<T: Arith>(s: T, z: T, n: T, e: i128) -> Step<T>
    requires scale { T.SCALE ≤ 15 }
    requires low { pos 0 ≤ℤ e }
    requires high { InCap e }
    ensures { result ≡ rows.length_row T.ops s z n e }
{
    val!(val!(s.plus(z)).widen(e)).over(n)
}

/// The optical path at the surface: `wd(path + (n*t))`.
pub(crate) fn path_to<T: Arith>(f: &Face<T>, r: &Ray<T>, a: Arrival<T>, z: T, e: i128) -> Step<T>
    requires scale { T.SCALE ≤ 15 }
    requires low { pos 0 ≤ℤ e }
    requires high { InCap e }
    ensures { result ≡ rows.path_rows T.ops f.now r.now a z e }
{
    let t = val!(length_to(a.s, z, a.n, e));
    val!(r.path.plus(val!(f.n().times(t)))).widen(e)
}
