//! Sags of even aspheres, and the slopes of normals.

ghost use Rattle.std.specs.Prelude.{◌≡◌, ℤ, pos, ◌<◌, ◌≤◌, ◌≤ℤ◌};
ghost use Rattle.fixdec.specs.Ends.{InCap};
ghost use Rattle.fixdec.specs.declared.step.Step.TheVariants.{Val};
ghost use Rattle.lensmodel.specs.Rows.Bending as bending;
ghost use Rattle.lensmodel.specs.Rows.Sag as rows;
ghost use Rattle.sagform.specs.Polynomials as polynomials;
ghost use Rattle.sagform.specs.SagLaws.{EnclosesSag, EnclosesSlope};
ghost use Rattle.sagform.specs.Used.{zero_of};

use crate::constant::whole;
use crate::face::Face;
use crate::ray::Hit;
use crate::terms::Terms;
use enclose::arith::Arith;
use fixdec::step::Step;
use fixdec::val;
use lensmodel::surface::SurfaceKind;

/// `f = wd(c*rho)`, twice the sag of the paraxial sphere.
pub fn double_sag<T: Arith>(f: &Face<T>, rho: T, e: i128) -> Step<T>
    requires scale { T.SCALE ≤ 15 }
    requires low { pos 0 ≤ℤ e }
    requires high { InCap e }
    ensures { result ≡ rows.double_sag_row T.ops f.now rho e }
{
    val!(f.c().times(rho)).widen(e)
}

/// `w = rt(1 - (ck*f))`, where `f` is twice the sag of the paraxial sphere.
pub fn conic_w<T: Arith>(face: &Face<T>, f: T) -> Step<T>
    requires { T.SCALE ≤ 15 }
    ensures { result ≡ rows.conic_w_row T.ops T.SCALE face.now f }
{
    let one = val!(whole::<T>(1));
    val!(one.minus(val!(face.ck().times(f)))).root()
}

/// `w` at `rho`.
pub fn w_at<T: Arith>(f: &Face<T>, rho: T, e: i128) -> Step<T>
    requires scale { T.SCALE ≤ 15 }
    requires low { pos 0 ≤ℤ e }
    requires high { InCap e }
    ensures { result ≡ rows.w_row T.ops T.SCALE f.now rho e }
{
    conic_w(f, val!(double_sag(f, rho, e)))
}

/// The sag of the conic at `rho`: `zc = f/(1 + w)`.
pub fn conic_sag<T: Arith>(face: &Face<T>, rho: T, e: i128) -> Step<T>
    requires scale { T.SCALE ≤ 15 }
    requires low { pos 0 ≤ℤ e }
    requires high { InCap e }
    ensures { result ≡ rows.conic_rows T.ops T.SCALE face.now rho e }
{
    let f = val!(double_sag(face, rho, e));
    let w = val!(conic_w(face, f));
    let one = val!(whole::<T>(1));
    f.over(val!(one.plus(w)))
}

/// `b + (u*v)`.
fn term<T: Arith>(b: T, u: T, v: T) -> Step<T>
    requires { T.SCALE ≤ 15 }
    ensures { result ≡ polynomials.term_row T.ops T.SCALE b u v }
{
    b.plus(val!(u.times(v)))
}

/// `b + (u*v)`: coefficient `i`, and the value behind it, which is zero unless more than `i`
/// coefficients are in use. Only then is anything computed.
pub fn term_at<T: Arith>(used: usize, i: usize, b: T, u: T, v: T) -> Step<T>
    requires scale { T.SCALE ≤ 15 }
    requires none { used ≤ i → v ≡ zero_of T.ops }
    ensures value { result ≡ polynomials.term_row T.ops T.SCALE b u v }
    ensures same { used ≤ i → result ≡ Val b }
{
    if used <= i {
        b.leaves_zero();
        u.leaves_zero();
        Step::Val(b)
    } else {
        term(b, u, v)
    }
}

/// `b1 + (u*(b2 + ..))`, from the last coefficient in use down.
fn last_value<T: Arith>(b: &Terms<T>, u: T) -> Step<T>
    requires { T.SCALE ≤ 15 }
    ensures { result ≡ polynomials.last_value T.ops T.SCALE u b.now }
{
    let used = b.used;
    let v7 = val!(term_at(used, 7, b.b7, u, b.b8));
    let v6 = val!(term_at(used, 6, b.b6, u, v7));
    let v5 = val!(term_at(used, 5, b.b5, u, v6));
    let v4 = val!(term_at(used, 4, b.b4, u, v5));
    let v3 = val!(term_at(used, 3, b.b3, u, v4));
    let v2 = val!(term_at(used, 2, b.b2, u, v3));
    term_at(used, 1, b.b1, u, v2)
}

/// V1 of the even terms.
fn polynomial<T: Arith>(b: &Terms<T>, u: T) -> Step<T>
    requires { T.SCALE ≤ 15 }
    ensures { result ≡ rows.polynomial_row T.ops T.SCALE u b.now }
{
    last_value(b, u)
}

/// `i*b`.
fn weighted<T: Arith>(i: u32, b: T) -> Step<T>
    requires { T.SCALE ≤ 15 }
    ensures { result ≡ polynomials.weighted_row T.ops T.SCALE i b }
{
    val!(whole::<T>(i)).times(b)
}

/// `(i*b) + (u*w)`.
fn slope_term<T: Arith>(i: u32, b: T, u: T, w: T) -> Step<T>
    requires { T.SCALE ≤ 15 }
    ensures { result ≡ polynomials.slope_term_row T.ops T.SCALE i b u w }
{
    val!(weighted(i, b)).plus(val!(u.times(w)))
}

/// `i*b`, which is zero unless at least `i` coefficients are in use.
fn weighted_at<T: Arith>(used: usize, i: u32, b: T) -> Step<T>
    requires scale { T.SCALE ≤ 15 }
    requires index { i ≤ 8 }
    requires none { used < i → b ≡ zero_of T.ops }
    ensures value { result ≡ polynomials.weighted_row T.ops T.SCALE i b }
    ensures same { used < i → result ≡ Val b }
{
    if used < i as usize {
        Step::Val(b)
    } else {
        weighted(i, b)
    }
}

/// `(i*b) + (u*w)`, where `w` is zero unless more than `i` coefficients are in use.
fn slope_term_at<T: Arith>(used: usize, i: u32, b: T, u: T, w: T) -> Step<T>
    requires scale { T.SCALE ≤ 15 }
    requires index { i ≤ 8 }
    requires none { used < i → b ≡ zero_of T.ops }
    requires none_behind { used ≤ i → w ≡ zero_of T.ops }
    ensures value { result ≡ polynomials.slope_term_row T.ops T.SCALE i b u w }
    ensures same { used < i → result ≡ Val b }
{
    if used <= i as usize {
        let own = val!(weighted_at(used, i, b));
        own.leaves_zero();
        u.leaves_zero();
        Step::Val(own)
    } else {
        slope_term(i, b, u, w)
    }
}

/// W1 of the slope of the even terms, from the last coefficient in use down.
fn slope<T: Arith>(b: &Terms<T>, u: T) -> Step<T>
    requires { T.SCALE ≤ 15 }
    ensures { result ≡ rows.slope_row T.ops T.SCALE 1 u b.now }
{
    let used = b.used;
    let w8 = val!(weighted_at(used, 8, b.b8));
    let w7 = val!(slope_term_at(used, 7, b.b7, u, w8));
    let w6 = val!(slope_term_at(used, 6, b.b6, u, w7));
    let w5 = val!(slope_term_at(used, 5, b.b5, u, w6));
    let w4 = val!(slope_term_at(used, 4, b.b4, u, w5));
    let w3 = val!(slope_term_at(used, 3, b.b3, u, w4));
    let w2 = val!(slope_term_at(used, 2, b.b2, u, w3));
    slope_term_at(used, 1, b.b1, u, w2)
}

/// The rows of the sag.
#[tactic(auto, unfolding(lensmodel::specs::Rows::Sag::sag_rows))]
fn sag_rows<T: Arith>(f: &Face<T>, rho: T, e: i128) -> Step<T>
    requires scale { T.SCALE ≤ 15 }
    requires low { pos 0 ≤ℤ e }
    requires high { InCap e }
    ensures { result ≡ rows.sag_rows T.ops T.SCALE f.now rho e }
{
    let zc = val!(conic_sag(f, rho, e));
    let u = val!(rho.shift(f.norm()));
    let v = val!(polynomial(f.terms(), u));
    zc.plus(val!(u.times(v)))
}

/// The sag of a surface at `rho`, the square of the distance from the axis: its conic's sag plus the
/// even terms. The residual is `e` units, `e` from 0 to the cap. Empty only where there is no sag.
pub fn sag<T: Arith>(f: &Face<T>, rho: T, e: i128) -> Step<T>
    requires scale { T.SCALE ≤ 15 }
    requires low { pos 0 ≤ℤ e }
    requires high { InCap e }
    ensures exact { result ≡ rows.sag_rows T.ops T.SCALE f.now rho e }

    // At each rho that is a member, each sag of the conic plus the even terms is one.
    ensures encloses { EnclosesSag T.SCALE T.member f.now rho e result }
{
    sag_rows(f, rho, e)
}

/// `sh(W1, D)`, the slope of the even terms over the height.
fn polynomial_slope<T: Arith>(f: &Face<T>, rho: T) -> Step<T>
    requires { T.SCALE ≤ 15 }
    ensures { result ≡ bending.polynomial_slope_row T.ops T.SCALE f.now rho }
{
    let u = val!(rho.shift(f.norm()));
    val!(slope(f.terms(), u)).shift(f.norm())
}

/// `wd(c)/w`, the slope of the conic over the height.
fn conic_slope<T: Arith>(f: &Face<T>, w: T, e: i128) -> Step<T>
    requires scale { T.SCALE ≤ 15 }
    requires low { pos 0 ≤ℤ e }
    requires high { InCap e }
    ensures { result ≡ bending.conic_slope_row T.ops f.now w e }
{
    val!(f.wide_c(e)).over(w)
}

/// The rows of the normal's slope.
#[tactic(auto, unfolding(lensmodel::specs::Rows::Bending::normal_rows))]
fn normal_rows<T: Arith>(f: &Face<T>, h: &Hit<T>, e: i128) -> Step<T>
    requires scale { T.SCALE ≤ 15 }
    requires low { pos 0 ≤ℤ e }
    requires high { InCap e }
    ensures { result ≡ bending.normal_rows T.ops T.SCALE f.now h.now e }
{
    match f.kind() {
        SurfaceKind::Standard => conic_slope(f, h.w, e),
        SurfaceKind::EvenAsph => {
            let a = val!(polynomial_slope(f, h.rho));
            let conic = val!(conic_slope(f, h.w, e));
            conic.plus(val!(a.plus(a)))
        }
    }
}

/// The slope of the normal over the height, at the point where a ray meets the surface. The residual
/// is `e` units, `e` from 0 to the cap.
pub fn normal<T: Arith>(f: &Face<T>, h: &Hit<T>, e: i128) -> Step<T>
    requires scale { T.SCALE ≤ 15 }
    requires low { pos 0 ≤ℤ e }
    requires high { InCap e }
    ensures exact { result ≡ bending.normal_rows T.ops T.SCALE f.now h.now e }

    // Every slope of a chain's normal at the point is a member.
    ensures encloses { EnclosesSlope T.SCALE T.member f.now h.now e result }
{
    normal_rows(f, h, e)
}
