//! The rows of the Seidel sums at a surface, over rows that may be lost.

ghost use Rattle.std.specs.Prelude.{◌≡◌, ℤ, pos, ◌≤◌, ◌≤ℤ◌};
ghost use Rattle.firstorder.specs.Workings.{worked};
ghost use Rattle.fixdec.specs.Ends.{InCap};
ghost use Rattle.seidel.specs.Surfaces as surfaces;

use crate::rows::{
    asphericity, invariant, lagrange, petzval, s1, s2, s3, s4, s5, slope_change, square_change,
};
use enclose::arith::Arith;
use firstorder::worked::Worked;
use fixdec::step::Step;
use fixdec::val;
use lensmodel::surface::Surface;

/// The refraction invariant of a ray, from steps.
fn invariant_if<T: Arith>(n: Step<T>, y: Step<T>, cv: Step<T>, u: Step<T>) -> Step<T>
    requires { T.SCALE ≤ 15 }
    ensures { result ≡ surfaces.invariant_if T.ops T.SCALE n y cv u }
{
    invariant(val!(n), val!(y), val!(cv), val!(u))
}

/// The refraction invariant of a ray, as row `row`.
pub(crate) fn invariant_of<T: Arith>(
    row: u32,
    n: Worked<T>,
    y: Worked<T>,
    cv: Worked<T>,
    u: Worked<T>,
) -> Worked<T>
    requires { T.SCALE ≤ 15 }
    ensures { worked result
        ≡ surfaces.invariant_of T.ops T.SCALE row (worked n) (worked y) (worked cv) (worked u) }
{
    let answer = invariant_if(n.step(), y.step(), cv.step(), u.step());
    n.earlier(y).earlier(cv).earlier(u).needed(row, answer)
}

/// Lagrange's invariant, from steps.
fn lagrange_if<T: Arith>(ab: Step<T>, y: Step<T>, a: Step<T>, yb: Step<T>) -> Step<T>
    requires { T.SCALE ≤ 15 }
    ensures { result ≡ surfaces.lagrange_if T.ops T.SCALE ab y a yb }
{
    lagrange(val!(ab), val!(y), val!(a), val!(yb))
}

/// Lagrange's invariant, as row `row`.
pub(crate) fn lagrange_of<T: Arith>(
    row: u32,
    ab: Worked<T>,
    y: Worked<T>,
    a: Worked<T>,
    yb: Worked<T>,
) -> Worked<T>
    requires { T.SCALE ≤ 15 }
    ensures { worked result
        ≡ surfaces.lagrange_of T.ops T.SCALE row (worked ab) (worked y) (worked a) (worked yb) }
{
    let answer = lagrange_if(ab.step(), y.step(), a.step(), yb.step());
    ab.earlier(y).earlier(a).earlier(yb).needed(row, answer)
}

/// The Petzval term, from steps.
fn petzval_if<T: Arith>(cv: Step<T>, n: Step<T>, n2: Step<T>) -> Step<T>
    requires { T.SCALE ≤ 15 }
    ensures { result ≡ surfaces.petzval_if T.ops T.SCALE cv n n2 }
{
    petzval(val!(cv), val!(n), val!(n2))
}

/// The Petzval term, as row `row`.
pub(crate) fn petzval_of<T: Arith>(
    row: u32,
    cv: Worked<T>,
    n: Worked<T>,
    n2: Worked<T>,
) -> Worked<T>
    requires { T.SCALE ≤ 15 }
    ensures { worked result
        ≡ surfaces.petzval_of T.ops T.SCALE row (worked cv) (worked n) (worked n2) }
{
    let answer = petzval_if(cv.step(), n.step(), n2.step());
    cv.earlier(n).earlier(n2).needed(row, answer)
}

/// The change of `u/n`, from steps.
fn slope_change_if<T: Arith>(behind: Step<T>, n2: Step<T>, u: Step<T>, n: Step<T>) -> Step<T>
    requires { T.SCALE ≤ 15 }
    ensures { result ≡ surfaces.slope_change_if T.ops T.SCALE behind n2 u n }
{
    slope_change(val!(behind), val!(n2), val!(u), val!(n))
}

/// The change of `u/n`, as row `row`.
pub(crate) fn slope_change_of<T: Arith>(
    row: u32,
    behind: Worked<T>,
    n2: Worked<T>,
    u: Worked<T>,
    n: Worked<T>,
) -> Worked<T>
    requires { T.SCALE ≤ 15 }
    ensures { worked result ≡ surfaces.slope_change_of T.ops T.SCALE row
        (worked behind) (worked n2) (worked u) (worked n) }
{
    let answer = slope_change_if(behind.step(), n2.step(), u.step(), n.step());
    behind.earlier(n2).earlier(u).earlier(n).needed(row, answer)
}

/// The change of `1/n^2`, from steps.
fn square_change_if<T: Arith>(n: Step<T>, n2: Step<T>) -> Step<T>
    requires { T.SCALE ≤ 15 }
    ensures { result ≡ surfaces.square_change_if T.ops T.SCALE n n2 }
{
    square_change(val!(n), val!(n2))
}

/// The change of `1/n^2`, as row `row`.
pub(crate) fn square_change_of<T: Arith>(row: u32, n: Worked<T>, n2: Worked<T>) -> Worked<T>
    requires { T.SCALE ≤ 15 }
    ensures { worked result ≡ surfaces.square_change_of T.ops T.SCALE row (worked n) (worked n2) }
{
    let answer = square_change_if(n.step(), n2.step());
    n.earlier(n2).needed(row, answer)
}

/// The aspheric term, from steps.
fn asphericity_if<T: Arith>(f: &Surface, cv: Step<T>, n: Step<T>, n2: Step<T>) -> Step<T>
    requires { T.SCALE ≤ 15 }
    ensures { result ≡ surfaces.asphericity_if T.ops T.SCALE f.now cv n n2 }
{
    asphericity(f, val!(cv), val!(n), val!(n2))
}

/// The aspheric term, as row `row`.
pub(crate) fn asphericity_of<T: Arith>(
    row: u32,
    f: &Surface,
    cv: Worked<T>,
    n: Worked<T>,
    n2: Worked<T>,
) -> Worked<T>
    requires { T.SCALE ≤ 15 }
    ensures { worked result
        ≡ surfaces.asphericity_of T.ops T.SCALE row f.now (worked cv) (worked n) (worked n2) }
{
    let answer = asphericity_if(f, cv.step(), n.step(), n2.step());
    cv.earlier(n).earlier(n2).needed(row, answer)
}

/// A square, from steps.
fn square_if<T: Arith>(y: Step<T>) -> Step<T>
    requires { T.SCALE ≤ 15 }
    ensures { result ≡ surfaces.square_if T.ops T.SCALE y }
{
    val!(y).square()
}

/// A square, as row `row`.
pub(crate) fn square_of<T: Arith>(row: u32, y: Worked<T>) -> Worked<T>
    requires { T.SCALE ≤ 15 }
    ensures { worked result ≡ surfaces.square_of T.ops T.SCALE row (worked y) }
{
    let answer = square_if(y.step());
    y.needed(row, answer)
}

/// Spherical aberration, from steps.
fn s1_if<T: Arith>(
    k8: Step<T>,
    yy: Step<T>,
    a: Step<T>,
    y: Step<T>,
    dun: Step<T>,
    e: i128,
) -> Step<T>
    requires scale { T.SCALE ≤ 15 }
    requires low { pos 0 ≤ℤ e }
    requires high { InCap e }
    ensures { result ≡ surfaces.s1_if T.ops T.SCALE k8 yy a y dun e }
{
    s1(val!(k8), val!(yy), val!(a), val!(y), val!(dun), e)
}

/// Spherical aberration, as row `row`.
pub(crate) fn s1_of<T: Arith>(
    row: u32,
    k8: Worked<T>,
    yy: Worked<T>,
    a: Worked<T>,
    y: Worked<T>,
    dun: Worked<T>,
    e: i128,
) -> Worked<T>
    requires scale { T.SCALE ≤ 15 }
    requires low { pos 0 ≤ℤ e }
    requires high { InCap e }
    ensures { worked result ≡ surfaces.s1_of T.ops T.SCALE row
        (worked k8) (worked yy) (worked a) (worked y) (worked dun) e }
{
    let answer = s1_if(k8.step(), yy.step(), a.step(), y.step(), dun.step(), e);
    k8.earlier(yy)
        .earlier(a)
        .earlier(y)
        .earlier(dun)
        .needed(row, answer)
}

/// Coma, from steps.
fn s2_if<T: Arith>(
    k8: Step<T>,
    yy: Step<T>,
    y: Step<T>,
    yb: Step<T>,
    a: Step<T>,
    ab: Step<T>,
    dun: Step<T>,
    e: i128,
) -> Step<T>
    requires scale { T.SCALE ≤ 15 }
    requires low { pos 0 ≤ℤ e }
    requires high { InCap e }
    ensures { result ≡ surfaces.s2_if T.ops T.SCALE k8 yy y yb a ab dun e }
{
    s2(
        val!(k8),
        val!(yy),
        val!(y),
        val!(yb),
        val!(a),
        val!(ab),
        val!(dun),
        e,
    )
}

/// Coma, as row `row`.
pub(crate) fn s2_of<T: Arith>(
    row: u32,
    k8: Worked<T>,
    yy: Worked<T>,
    y: Worked<T>,
    yb: Worked<T>,
    a: Worked<T>,
    ab: Worked<T>,
    dun: Worked<T>,
    e: i128,
) -> Worked<T>
    requires scale { T.SCALE ≤ 15 }
    requires low { pos 0 ≤ℤ e }
    requires high { InCap e }
    ensures { worked result ≡ surfaces.s2_of T.ops T.SCALE row
        (worked k8) (worked yy) (worked y) (worked yb) (worked a) (worked ab) (worked dun) e }
{
    let answer = s2_if(
        k8.step(),
        yy.step(),
        y.step(),
        yb.step(),
        a.step(),
        ab.step(),
        dun.step(),
        e,
    );
    k8.earlier(yy)
        .earlier(y)
        .earlier(yb)
        .earlier(a)
        .earlier(ab)
        .earlier(dun)
        .needed(row, answer)
}

/// Astigmatism, from steps.
fn s3_if<T: Arith>(
    k8: Step<T>,
    yy: Step<T>,
    bb: Step<T>,
    ab: Step<T>,
    y: Step<T>,
    dun: Step<T>,
    e: i128,
) -> Step<T>
    requires scale { T.SCALE ≤ 15 }
    requires low { pos 0 ≤ℤ e }
    requires high { InCap e }
    ensures { result ≡ surfaces.s3_if T.ops T.SCALE k8 yy bb ab y dun e }
{
    s3(
        val!(k8),
        val!(yy),
        val!(bb),
        val!(ab),
        val!(y),
        val!(dun),
        e,
    )
}

/// Astigmatism, as row `row`.
pub(crate) fn s3_of<T: Arith>(
    row: u32,
    k8: Worked<T>,
    yy: Worked<T>,
    bb: Worked<T>,
    ab: Worked<T>,
    y: Worked<T>,
    dun: Worked<T>,
    e: i128,
) -> Worked<T>
    requires scale { T.SCALE ≤ 15 }
    requires low { pos 0 ≤ℤ e }
    requires high { InCap e }
    ensures { worked result ≡ surfaces.s3_of T.ops T.SCALE row
        (worked k8) (worked yy) (worked bb) (worked ab) (worked y) (worked dun) e }
{
    let answer = s3_if(
        k8.step(),
        yy.step(),
        bb.step(),
        ab.step(),
        y.step(),
        dun.step(),
        e,
    );
    k8.earlier(yy)
        .earlier(bb)
        .earlier(ab)
        .earlier(y)
        .earlier(dun)
        .needed(row, answer)
}

/// Petzval curvature, from steps.
fn s4_if<T: Arith>(h: Step<T>, p: Step<T>, e: i128) -> Step<T>
    requires scale { T.SCALE ≤ 15 }
    requires low { pos 0 ≤ℤ e }
    requires high { InCap e }
    ensures { result ≡ surfaces.s4_if T.ops T.SCALE h p e }
{
    s4(val!(h), val!(p), e)
}

/// Petzval curvature, as row `row`.
pub(crate) fn s4_of<T: Arith>(row: u32, h: Worked<T>, p: Worked<T>, e: i128) -> Worked<T>
    requires scale { T.SCALE ≤ 15 }
    requires low { pos 0 ≤ℤ e }
    requires high { InCap e }
    ensures { worked result ≡ surfaces.s4_of T.ops T.SCALE row (worked h) (worked p) e }
{
    let answer = s4_if(h.step(), p.step(), e);
    h.earlier(p).needed(row, answer)
}

/// Distortion, from steps.
fn s5_if<T: Arith>(
    k8: Step<T>,
    y: Step<T>,
    yb: Step<T>,
    bb: Step<T>,
    ab: Step<T>,
    dn2: Step<T>,
    p: Step<T>,
    h: Step<T>,
    e: i128,
) -> Step<T>
    requires scale { T.SCALE ≤ 15 }
    requires low { pos 0 ≤ℤ e }
    requires high { InCap e }
    ensures { result ≡ surfaces.s5_if T.ops T.SCALE k8 y yb bb ab dn2 p h e }
{
    s5(
        val!(k8),
        val!(y),
        val!(yb),
        val!(bb),
        val!(ab),
        val!(dn2),
        val!(p),
        val!(h),
        e,
    )
}

/// Distortion, as row `row`.
pub(crate) fn s5_of<T: Arith>(
    row: u32,
    k8: Worked<T>,
    y: Worked<T>,
    yb: Worked<T>,
    bb: Worked<T>,
    ab: Worked<T>,
    dn2: Worked<T>,
    p: Worked<T>,
    h: Worked<T>,
    e: i128,
) -> Worked<T>
    requires scale { T.SCALE ≤ 15 }
    requires low { pos 0 ≤ℤ e }
    requires high { InCap e }
    ensures { worked result ≡ surfaces.s5_of T.ops T.SCALE row
        (worked k8) (worked y) (worked yb) (worked bb) (worked ab) (worked dn2) (worked p)
        (worked h) e }
{
    let answer = s5_if(
        k8.step(),
        y.step(),
        yb.step(),
        bb.step(),
        ab.step(),
        dn2.step(),
        p.step(),
        h.step(),
        e,
    );
    k8.earlier(y)
        .earlier(yb)
        .earlier(bb)
        .earlier(ab)
        .earlier(dn2)
        .earlier(p)
        .earlier(h)
        .needed(row, answer)
}
