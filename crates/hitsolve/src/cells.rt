//! The cells of a window of z in which a line may meet an even asphere. They run in plain intervals.
#![tactic(auto, unfolding(fixdec::specs::IntervalOperations::operations))]

ghost use Rattle.std.specs.Prelude.{◌≡◌, ℕ, ℤ, pos, neg_ℤ, ◌≤◌, ◌≤ℤ◌, IsTrue};
ghost use Rattle.enclose.specs.Zeros.{LeavesZero, single};
ghost use Rattle.fixdec.specs.Ends.{InCap};
ghost use Rattle.fixdec.specs.IntervalOperations.{operations};
ghost use Rattle.fixdec.specs.Scaled.{dec_span};
ghost use Rattle.fixdec.specs.declared.step.Step.TheVariants.{Val};
ghost use Rattle.lensmodel.specs.Rows.Cells as rows;
ghost use Rattle.lensmodel.specs.Rows.Crossing as crossing;
ghost use Rattle.lensmodel.specs.Rows.Sag as sags;
ghost use Rattle.hitsolve.specs.CellValues as values;
ghost use Rattle.hitsolve.specs.CellValues.{AreOrdered};
ghost use Rattle.hitsolve.specs.Used.{AreNoneFrom};
ghost use Rattle.sagform.specs.Polynomials as polynomials;

use crate::line::Line;
use crate::rounds::zone2_of;
use crate::terms::{Terms, even_terms, hulls};
use enclose::arith::Arith;
use enclose::spans::{
    iv_clip, iv_minus, iv_over, iv_plus, iv_root, iv_shift, iv_size, iv_square, iv_times, iv_widen,
};
use exactdec::scale;
use fixdec::dec::Dec;
use fixdec::span::Span;
use fixdec::step::Step;
use fixdec::val;
use sagform::face::Face;
use std::marker::Model;

/// What the cells of a surface and a line use, at a scale and a residual of `e` units.
#[derive(Drop)]
pub(crate) struct Cells {
    scale: u32,
    one: Step<Span>,
    e: i128,
    c: Span,
    ck: Span,
    norm: i32,
    b: Terms<Span>,
    // past this many of `b` each is the span of 0
    used: usize,
    zone2: Span,
    line: Line<Span>,
}

impl Model for Cells {
    ghost Value = { values.CellValues };

    ghost view = { λ k. values.values_of k.scale k.e k.c k.ck k.norm k.b k.zone2 k.line };

    ghost invariant = { λ k. (k.scale ≤ 15)
        × (k.one ≡ dec_span k.scale (record { mant = pos 1; exp = pos 0 })) × InCap k.e
        × (neg_ℤ (pos 6) ≤ℤ k.norm) × (k.norm ≤ℤ pos 6)
        × AreOrdered (values.values_of k.scale k.e k.c k.ck k.norm k.b k.zone2 k.line)
        × AreNoneFrom k.used k.b };
}

/// Whether a span is that of 0.
fn is_zero(a: Span) -> bool
    ensures { IsTrue result → a ≡ single (pos 0) }
{
    a.lo == 0 && a.hi == 0
}

/// How many spans there are up to the last that isn't that of 0.
fn used_of(b: &Terms<Span>) -> usize
    ensures { AreNoneFrom result b.now }
{
    let all = [b.b1, b.b2, b.b3, b.b4, b.b5, b.b6, b.b7, b.b8];
    let mut used = all.len();
    while 0 < used && is_zero(all[used - 1]) {
        used -= 1;
    }
    used
}

/// What the cells of a surface and a line use.
pub(crate) fn cells_of<T: Arith>(f: &Face<T>, line: Line<T>, e: i128) -> Cells
    requires scale { T.SCALE ≤ 15 }
    requires low { pos 0 ≤ℤ e }
    requires high { InCap e }
    ensures { result ≡ values.cell_values T.ops T.SCALE f.now line e }
{
    let b = hulls(&even_terms(f));
    let used = used_of(&b);
    Cells {
        scale: T::SCALE,
        one: scale::span(&Dec { mant: 1, exp: 0 }, T::SCALE),
        e,
        c: f.c().hull(),
        ck: f.ck().hull(),
        norm: f.norm(),
        b,
        used,
        zone2: zone2_of(f),
        line: Line {
            x0: line.x0.hull(),
            y0: line.y0.hull(),
            p: line.p.hull(),
            q: line.q.hull(),
        },
    }
}

/// The point of a line at z.
fn along(k: &Cells, x0: Span, p: Span, z: Span) -> Step<Span>
    ensures { result ≡ crossing.along_row (operations k.now.scale) x0 p z }
{
    iv_plus(k.scale, x0, val!(iv_times(k.scale, p, z)))
}

/// The square of a point of a line at z.
fn squared(k: &Cells, x0: Span, p: Span, z: Span) -> Step<Span>
    ensures { result ≡ values.squared_row k.now.scale x0 p z }
{
    iv_square(k.scale, val!(along(k, x0, p, z)))
}

/// The sag of the conic at `rho`.
fn conic(k: &Cells, rho: Span) -> Step<Span>
    ensures { result ≡ sags.conic_rows (operations k.now.scale) k.now.scale k.now.face rho k.now.e }
{
    let f = val!(iv_widen(val!(iv_times(k.scale, k.c, rho)), k.e));
    let w = val!(conic_w(k, f));
    let one = val!(k.one);
    iv_over(k.scale, f, val!(iv_plus(k.scale, one, w)))
}

/// w of the conic, where `f` is twice the sag of the paraxial sphere.
fn conic_w(k: &Cells, f: Span) -> Step<Span>
    ensures { result ≡ sags.conic_w_row (operations k.now.scale) k.now.scale k.now.face f }
{
    let one = val!(k.one);
    let t = val!(iv_times(k.scale, k.ck, f));
    iv_root(k.scale, val!(iv_minus(k.scale, one, t)))
}

/// `b + (u*v)`.
fn term(scale: u32, b: Span, u: Span, v: Span) -> Step<Span>
    requires { scale ≤ 15 }
    ensures { result ≡ polynomials.term_row (operations scale) scale b u v }
{
    iv_plus(scale, b, val!(iv_times(scale, u, v)))
}

/// A fact for proofs, without work: the span times 0 is 0, and plus 0 is the span.
#[inline(always)]
fn leaves_zero(_scale: u32, a: Span)
    ensures { LeavesZero (operations _scale) a }
{
    let _lo = a.lo; // so that its ends are known to be within the cap
}

/// `b + (u*v)`: coefficient `i`, and the value behind it, which is 0 unless more than `i`
/// coefficients are in use. Only then is anything computed.
fn term_at(scale: u32, used: usize, i: usize, b: Span, u: Span, v: Span) -> Step<Span>
    requires scale { scale ≤ 15 }
    requires zero { used ≤ i → v ≡ single (pos 0) }
    ensures value { result ≡ polynomials.term_row (operations scale) scale b u v }
    ensures same { used ≤ i → result ≡ Val b }
{
    if used <= i {
        leaves_zero(scale, b);
        leaves_zero(scale, u);
        Step::Val(b)
    } else {
        term(scale, b, u, v)
    }
}

/// V1 of the even terms, from the last coefficient in use down.
fn last_value(k: &Cells, u: Span) -> Step<Span>
    ensures { result ≡ polynomials.last_value (operations k.now.scale) k.now.scale u k.now.face.b }
{
    let b = &k.b;
    let v7 = val!(term_at(k.scale, k.used, 7, b.b7, u, b.b8));
    let v6 = val!(term_at(k.scale, k.used, 6, b.b6, u, v7));
    let v5 = val!(term_at(k.scale, k.used, 5, b.b5, u, v6));
    let v4 = val!(term_at(k.scale, k.used, 4, b.b4, u, v5));
    let v3 = val!(term_at(k.scale, k.used, 3, b.b3, u, v4));
    let v2 = val!(term_at(k.scale, k.used, 2, b.b2, u, v3));
    term_at(k.scale, k.used, 1, b.b1, u, v2)
}

/// V1 of the even terms.
fn polynomial(k: &Cells, u: Span) -> Step<Span>
    ensures { result ≡ sags.polynomial_row (operations k.now.scale) k.now.scale u k.now.face.b }
{
    last_value(k, u)
}

/// The sag of the surface at `rho`.
#[tactic(auto, unfolding(fixdec::specs::IntervalOperations::operations, lensmodel::specs::Rows::Sag::sag_rows))]
fn sag(k: &Cells, rho: Span) -> Step<Span>
    ensures { result ≡ sags.sag_rows (operations k.now.scale) k.now.scale k.now.face rho k.now.e }
{
    let zc = val!(conic(k, rho));
    let u = val!(iv_shift(rho, k.norm));
    let v = val!(polynomial(k, u));
    iv_plus(k.scale, zc, val!(iv_times(k.scale, u, v)))
}

/// The squares of distances from the axis within the zone, over an interval of z.
fn rho_over(k: &Cells, z: Span) -> Step<Span>
    ensures { result ≡ values.rho_row k.now z }
{
    let x2 = val!(squared(k, k.line.x0, k.line.p, z));
    let y2 = val!(squared(k, k.line.y0, k.line.q, z));
    let zone = Span {
        lo: 0,
        hi: k.zone2.hi,
    };
    iv_clip(val!(iv_plus(k.scale, x2, y2)), zone)
}

/// The sag at `rho`, widened by `e`, which is the residual.
fn wide_sag(k: &Cells, rho: Span, e: i128) -> Step<Span>
    requires residual { e ≡ k.now.e }
    requires low { pos 0 ≤ℤ e }
    requires high { InCap e }
    ensures { result ≡ values.wide_sag_row k.now rho }
{
    iv_widen(val!(sag(k, rho)), e)
}

/// The sags over an interval of z, widened, in two steps.
fn sags_over(k: &Cells, z: Span) -> Step<Span>
    ensures value { result ≡ values.sags_row k.now z }
    ensures ordered { AreOrdered k.now }
{
    let e = k.e;
    wide_sag(k, val!(rho_over(k, z)), e)
}

/// The sags over an interval of z, widened.
fn cell(k: &Cells, z: Span) -> Step<Span>
    ensures value { result
        ≡ rows.cell_rows k.now.scale k.now.face k.now.zone2 k.now.line k.now.e z }
    ensures ordered { AreOrdered k.now }
{
    sags_over(k, z)
}

/// Whether the surface may be met within an interval of z.
pub(crate) fn keeps(k: &Cells, z: Span) -> bool
    ensures value { result ≡ rows.keeps k.now.scale k.now.face k.now.zone2 k.now.line k.now.e z }
    ensures ordered { AreOrdered k.now }
{
    match cell(k, z) {
        Step::Val(w) => w.lo <= z.hi && z.lo <= w.hi,
        Step::Empty => false,
        Step::Lost(_) => true,
    }
}

/// The sizes of the coefficients, added to a first term.
fn added_sizes(k: &Cells, sum: Span) -> Step<Span>
    ensures { result ≡ rows.added_sizes k.now.scale sum k.now.face.b }
{
    let b = &k.b;
    let s1 = val!(iv_plus(k.scale, sum, iv_size(b.b1)));
    let s2 = val!(iv_plus(k.scale, s1, iv_size(b.b2)));
    let s3 = val!(iv_plus(k.scale, s2, iv_size(b.b3)));
    let s4 = val!(iv_plus(k.scale, s3, iv_size(b.b4)));
    let s5 = val!(iv_plus(k.scale, s4, iv_size(b.b5)));
    let s6 = val!(iv_plus(k.scale, s5, iv_size(b.b6)));
    let s7 = val!(iv_plus(k.scale, s6, iv_size(b.b7)));
    iv_plus(k.scale, s7, iv_size(b.b8))
}

/// `Bd = wd(wd(|c|*zone2 + |b1| + .. + |b8|))`.
fn bound(k: &Cells) -> Step<Span>
    ensures value { result ≡ rows.bound_row k.now.scale k.now.face k.now.zone2 k.now.e }
    ensures ordered { AreOrdered k.now }
{
    let first = val!(iv_times(k.scale, iv_size(k.c), k.zone2));
    let sum = val!(added_sizes(k, first));
    iv_widen(val!(iv_widen(sum, k.e)), k.e)
}

/// The window `[-Bd.hi, Bd.hi]` of a bound.
fn around(bound: Span) -> Span
    requires { pos 0 ≤ℤ bound.hi }
    ensures { result ≡ record { lo = neg_ℤ bound.hi; hi = bound.hi } }
{
    Span {
        lo: -bound.hi,
        hi: bound.hi,
    }
}

/// The window of z.
pub(crate) fn window(k: &Cells) -> Step<Span>
    ensures { result ≡ rows.window_row k.now.scale k.now.face k.now.zone2 k.now.e }
{
    match bound(k) {
        Step::Val(bound) => Step::Val(around(bound)),
        Step::Empty => Step::Empty,
        Step::Lost(why) => Step::Lost(why),
    }
}
