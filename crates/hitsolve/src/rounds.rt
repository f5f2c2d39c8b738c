//! The slope rounds, by which a window of z narrows to where a line meets an even asphere.

ghost use Rattle.std.specs.Prelude.{◌≡◌, ℤ, pos, ◌≤◌, ◌≤ℤ◌};
ghost use Rattle.fixdec.specs.Ends.{InCap};
ghost use Rattle.hitsolve.specs.Narrowed.{steepness_row, error_row};
ghost use Rattle.hitsolve.specs.Values.{IfVal};
ghost use Rattle.lensmodel.specs.Rows.Sag as sags;
ghost use Rattle.lensmodel.specs.Rows.SlopeRounds as rows;
ghost use Rattle.lensmodel.specs.Rows.Spans.{middle, up_to};
ghost use Rattle.sagform.specs.Used.{AreZeroFrom};

use crate::line::{Line, along, rho_at};
use crate::terms::{Terms, even_terms, quotient, values};
use enclose::arith::Arith;
use fixdec::div::floor_div;
use fixdec::span::Span;
use fixdec::step::{Step, Why};
use fixdec::val;
use sagform::constant::whole;
use sagform::face::Face;
use sagform::sag::w_at;
use std::marker::Model;

/// The points of a line over a window, and at the middle of the window.
#[derive(Clone, Copy)]
struct Points<T> {
    x: T,
    mid_x: T,
    y: T,
    mid_y: T,
    rho: T,
    mid_rho: T,
}

impl<T> Model for Points<T> {
    ghost Value = { rows.Points T };

    ghost view = { λ k.
        record {
          x = k.x;
          mid_x = k.mid_x;
          y = k.y;
          mid_y = k.mid_y;
          rho = k.rho;
          mid_rho = k.mid_rho;
        } };

    ghost inverse = { λ k.
        record {
          x = k.x;
          mid_x = k.mid_x;
          y = k.y;
          mid_y = k.mid_y;
          rho = k.rho;
          mid_rho = k.mid_rho;
        } };
}

/// The conic at the middle of the window: its w and its sag.
#[derive(Clone, Copy)]
struct MidConic<T> {
    w: T,
    sag: T,
}

impl<T> Model for MidConic<T> {
    ghost Value = { rows.MidConic T };

    ghost view = { λ k. record { w = k.w; sag = k.sag } };

    ghost inverse = { λ k. record { w = k.w; sag = k.sag } };
}

/// The sag at the middle of the window, and the values of its even terms.
#[derive(Drop)]
struct MidSag<T> {
    sag: T,
    values: Terms<T>,
}

impl<T> Model for MidSag<T> {
    ghost Value = { rows.MidSag T };

    ghost view = { λ k. record { sag = k.sag; values = k.values } };
}

/// The slope of the residual over the window, and the sum of the roots that it has.
#[derive(Clone, Copy)]
struct Slope<T> {
    m: T,
    g: T,
}

impl<T> Model for Slope<T> {
    ghost Value = { rows.Slope T };

    ghost view = { λ k. record { m = k.m; g = k.g } };

    ghost inverse = { λ k. record { m = k.m; g = k.g } };
}

/// What the last row of a round needs: the middle of the window, the sag there, and the slope.
#[derive(Clone, Copy)]
struct Round<T> {
    middle: T,
    sag: T,
    m: T,
    g: T,
}

impl<T> Model for Round<T> {
    ghost Value = { rows.Round T };

    ghost view = { λ k. record { middle = k.middle; sag = k.sag; m = k.m; g = k.g } };

    ghost inverse = { λ k. record { middle = k.middle; sag = k.sag; m = k.m; g = k.g } };
}

/// The square of the zone, and 0 where there is none.
pub(crate) fn zone2_of<T: Arith>(f: &Face<T>) -> Span
    requires { T.SCALE ≤ 15 }
    ensures value { result ≡ rows.zone2_of T.ops f.now }
    ensures sign { pos 0 ≤ℤ result.hi }
{
    match f.zone2() {
        Some(zone2) => zone2.hull(),
        None => Span { lo: 0, hi: 0 },
    }
}

/// The squares of distances from the axis within the zone.
pub(crate) fn within_zone<T: Arith>(f: &Face<T>) -> Span
    requires { T.SCALE ≤ 15 }
    ensures { result ≡ up_to (rows.zone2_of T.ops f.now) }
{
    let zone2 = zone2_of(f);
    Span {
        lo: 0,
        hi: zone2.hi,
    }
}

/// The middle of a window.
fn middle_of(a: Span) -> i128
    ensures value { result ≡ middle a }
    ensures low { a.lo ≤ℤ result }
    ensures high { result ≤ℤ a.hi }
{
    floor_div(a.lo + a.hi, 2)
}

/// The middle of a window as a value of one number.
fn middle_value<T: Arith>(a: Span) -> T
    requires { T.SCALE ≤ 15 }
    ensures { result ≡ rows.middle_value T.ops a }
{
    let middle = middle_of(a);
    T::of_span(Span {
        lo: middle,
        hi: middle,
    })
}

/// The points of a line over a window and at its middle.
fn points_at<T: Arith>(f: &Face<T>, line: Line<T>, a: Span) -> Step<Points<T>>
    requires { T.SCALE ≤ 15 }
    ensures { result ≡ rows.points_rows T.ops (rows.zone2_of T.ops f.now) line a }
{
    let z = T::of_span(a);
    let mid_z = middle_value::<T>(a);
    let x = val!(along(line.x0, line.p, z));
    let mid_x = val!(along(line.x0, line.p, mid_z));
    let y = val!(along(line.y0, line.q, z));
    let mid_y = val!(along(line.y0, line.q, mid_z));
    let rho = val!(val!(rho_at(x, y)).clip(within_zone(f)));
    let mid_rho = val!(rho_at(mid_x, mid_y));
    Step::Val(Points {
        x,
        mid_x,
        y,
        mid_y,
        rho,
        mid_rho,
    })
}

/// `g* = 1 - (ck*f*)`, `Lost(Root)` where its least value is below 0.
fn mid_g<T: Arith>(face: &Face<T>, f: T) -> Step<T>
    requires { T.SCALE ≤ 15 }
    ensures { result ≡ rows.mid_g_row T.ops T.SCALE face.now f }
{
    let one = val!(whole::<T>(1));
    let g = val!(one.minus(val!(face.ck().times(f))));
    let hull = g.hull();
    if hull.lo < 0 {
        Step::Lost(Why::Root)
    } else {
        Step::Val(g)
    }
}

/// The sag of a conic: `zc = f/(1 + w)`.
fn conic_sag<T: Arith>(f: T, w: T) -> Step<T>
    requires { T.SCALE ≤ 15 }
    ensures { result ≡ sags.conic_sag_row T.ops T.SCALE f w }
{
    let one = val!(whole::<T>(1));
    f.over(val!(one.plus(w)))
}

/// The conic at the middle: `f* = c*rho*`, `w* = rt(wd(g*))` and `zc* = f*/(1 + w*)`.
fn conic_at<T: Arith>(face: &Face<T>, rho: T, e: i128) -> Step<MidConic<T>>
    requires scale { T.SCALE ≤ 15 }
    requires low { pos 0 ≤ℤ e }
    requires high { InCap e }
    ensures { result ≡ rows.mid_conic_rows T.ops T.SCALE face.now rho e }
{
    let f = val!(face.c().times(rho));
    let g = val!(mid_g(face, f));
    let w = val!(val!(g.widen(e)).root());
    let sag = val!(conic_sag(f, w));
    Step::Val(MidConic { w, sag })
}

/// `S = zc + (u*V1)`.
fn sum<T: Arith>(zc: T, u: T, v: T) -> Step<T>
    requires { T.SCALE ≤ 15 }
    ensures { result ≡ sags.sum_row T.ops zc u v }
{
    zc.plus(val!(u.times(v)))
}

/// The sag at the middle: `S* = zc* + (u* * V1*)`. Past `used` each coefficient is zero, and so is
/// each value.
fn sag_at<T: Arith>(f: &Face<T>, used: usize, u: T, zc: T) -> Step<MidSag<T>>
    requires scale { T.SCALE ≤ 15 }
    requires zero { AreZeroFrom T.ops used f.now.b }
    ensures value { result ≡ rows.mid_sag_rows T.ops T.SCALE f.now u zc }
    ensures zero { IfVal result (λ mid. AreZeroFrom T.ops used mid.values) }
{
    let b = even_terms(f);
    let values = val!(values(&b, used, u));
    let sag = val!(sum(zc, u, values.b1));
    Step::Val(MidSag { sag, values })
}

/// `B = (c/m) + sh(Q0, D)`.
fn bend<T: Arith>(f: &Face<T>, m: T, q0: T) -> Step<T>
    requires { T.SCALE ≤ 15 }
    ensures { result ≡ rows.row_B T.ops f.now m q0 }
{
    val!(f.c().over(m)).plus(val!(q0.shift(f.norm())))
}

/// `T = (p*(X + X*)) + (q*(Y + Y*))`.
fn tilt<T: Arith>(line: Line<T>, at: Points<T>) -> Step<T>
    requires { T.SCALE ≤ 15 }
    ensures { result ≡ rows.row_T T.ops line at }
{
    let x = val!(line.p.times(val!(at.x.plus(at.mid_x))));
    x.plus(val!(line.q.times(val!(at.y.plus(at.mid_y)))))
}

/// `1 - (t*b)`, `Lost(Root)` where its least value isn't above 0.
fn steepness<T: Arith>(t: T, b: T) -> Step<T>
    requires { T.SCALE ≤ 15 }
    ensures { result ≡ steepness_row T.ops T.SCALE t b }
{
    let one = val!(whole::<T>(1));
    let g = val!(one.minus(val!(t.times(b))));
    let hull = g.hull();
    if 0 < hull.lo {
        Step::Val(g)
    } else {
        Step::Lost(Why::Root)
    }
}

/// `m = w + w*` and `G = 1 - (T*B)`.
fn slope_of<T: Arith>(
    f: &Face<T>,
    line: Line<T>,
    at: Points<T>,
    w: T,
    mid_w: T,
    q0: T,
) -> Step<Slope<T>>
    requires { T.SCALE ≤ 15 }
    ensures { result ≡ rows.slope_rows T.ops T.SCALE f.now line at w mid_w q0 }
{
    let m = val!(w.plus(mid_w));
    let b = val!(bend(f, m, q0));
    let t = val!(tilt(line, at));
    let g = val!(steepness(t, b));
    Step::Val(Slope { m, g })
}

/// A round over a window, but for its last row.
#[tactic(auto, unfolding(lensmodel::specs::Rows::SlopeRounds::round_rows))]
fn round_over<T: Arith>(f: &Face<T>, line: Line<T>, e: i128, a: Span) -> Step<Round<T>>
    requires scale { T.SCALE ≤ 15 }
    requires low { pos 0 ≤ℤ e }
    requires high { InCap e }
    ensures { result ≡ rows.round_rows T.ops T.SCALE f.now line e a }
{
    let at = val!(points_at(f, line, a));
    let w = val!(w_at(f, at.rho, e));
    let conic = val!(conic_at(f, at.mid_rho, e));
    let u = val!(at.rho.shift(f.norm()));
    let mid_u = val!(at.mid_rho.shift(f.norm()));
    let used = f.used();
    let mid = val!(sag_at(f, used, mid_u, conic.sag));
    let q0 = val!(quotient(&mid.values, used, u));
    let slope = val!(slope_of(f, line, at, w, conic.w, q0));
    Step::Val(Round {
        middle: middle_value::<T>(a),
        sag: mid.sag,
        m: slope.m,
        g: slope.g,
    })
}

/// The part of the conic's residuals: `wd(wd(0))/m`.
fn error<T: Arith>(m: T, e: i128) -> Step<T>
    requires scale { T.SCALE ≤ 15 }
    requires low { pos 0 ≤ℤ e }
    requires high { InCap e }
    ensures { result ≡ error_row T.ops T.SCALE m e }
{
    let zero = val!(whole::<T>(0));
    val!(val!(zero.widen(e)).widen(e)).over(m)
}

/// `znew = z* + ((wd(S* - z*) + (wd(wd(0))/m))/G)`.
fn next_of<T: Arith>(r: Round<T>, e: i128) -> Step<T>
    requires scale { T.SCALE ≤ 15 }
    requires low { pos 0 ≤ℤ e }
    requires high { InCap e }
    ensures { result ≡ rows.next_row T.ops T.SCALE r e }
{
    let missed = val!(val!(r.sag.minus(r.middle)).widen(e));
    let error = val!(error(r.m, e));
    r.middle.plus(val!(val!(missed.plus(error)).over(r.g)))
}

/// Where in a window the line meets the surface.
#[tactic(auto, unfolding(lensmodel::specs::Rows::SlopeRounds::next_rows))]
pub(crate) fn next<T: Arith>(f: &Face<T>, line: Line<T>, e: i128, a: Span) -> Step<T>
    requires scale { T.SCALE ≤ 15 }
    requires low { pos 0 ≤ℤ e }
    requires high { InCap e }
    ensures { result ≡ rows.next_rows T.ops T.SCALE f.now line e a }
{
    next_of(val!(round_over(f, line, e, a)), e)
}
