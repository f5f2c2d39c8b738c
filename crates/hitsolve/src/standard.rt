//! Where a line meets a standard surface. Its z is a root of `A z^2 - 2 H z + F = 0`.

ghost use Rattle.std.specs.Prelude.{◌≡◌, ℤ, pos, ◌≤◌, ◌≤ℤ◌};
ghost use Rattle.fixdec.specs.Ends.{InCap};
ghost use Rattle.lensmodel.specs.Rows.Crossing as rows;

use crate::line::{Line, rho_at};
use enclose::arith::Arith;
use fixdec::step::Step;
use fixdec::val;
use sagform::constant::whole;
use sagform::face::Face;
use std::marker::Model;

/// F, H and R, the root of the quarter of the discriminant.
#[derive(Clone, Copy)]
struct Root<T> {
    f: T,
    h: T,
    r: T,
}

impl<T> Model for Root<T> {
    ghost Value = { rows.Root T };

    ghost view = { λ k. record { f = k.f; h = k.h; r = k.r } };

    ghost inverse = { λ k. record { f = k.f; h = k.h; r = k.r } };
}

/// `A = c*((sq(p) + sq(q)) + kappa)`.
fn quadratic<T: Arith>(f: &Face<T>, l: Line<T>) -> Step<T>
    requires { T.SCALE ≤ 15 }
    ensures { result ≡ rows.row_A T.ops T.SCALE f.now l }
{
    let slopes = val!(val!(l.p.square()).plus(val!(l.q.square())));
    f.c().times(val!(slopes.plus(f.kappa())))
}

/// `H = 1 - (c*((p*x0) + (q*y0)))`.
fn half_linear<T: Arith>(f: &Face<T>, l: Line<T>) -> Step<T>
    requires { T.SCALE ≤ 15 }
    ensures { result ≡ rows.row_H T.ops T.SCALE f.now l }
{
    let one = val!(whole::<T>(1));
    let tilt = val!(val!(l.p.times(l.x0)).plus(val!(l.q.times(l.y0))));
    one.minus(val!(f.c().times(tilt)))
}

/// `F = wd(c*(sq(x0) + sq(y0)))`.
fn constant<T: Arith>(f: &Face<T>, l: Line<T>, e: i128) -> Step<T>
    requires scale { T.SCALE ≤ 15 }
    requires low { pos 0 ≤ℤ e }
    requires high { InCap e }
    ensures { result ≡ rows.row_F T.ops T.SCALE f.now l e }
{
    let rho = val!(rho_at(l.x0, l.y0));
    val!(f.c().times(rho)).widen(e)
}

/// `R = rt(sq(H) - (A*F))`.
fn root_of<T: Arith>(a: T, h: T, f: T) -> Step<T>
    requires { T.SCALE ≤ 15 }
    ensures { result ≡ rows.row_R T.ops T.SCALE a h f }
{
    val!(val!(h.square()).minus(val!(a.times(f)))).root()
}

/// F, H and R of a line.
fn roots<T: Arith>(f: &Face<T>, l: Line<T>, e: i128) -> Step<Root<T>>
    requires scale { T.SCALE ≤ 15 }
    requires low { pos 0 ≤ℤ e }
    requires high { InCap e }
    ensures { result ≡ rows.root_rows T.ops T.SCALE f.now l e }
{
    let a = val!(quadratic(f, l));
    let h = val!(half_linear(f, l));
    let constant = val!(constant(f, l, e));
    let r = val!(root_of(a, h, constant));
    Step::Val(Root { f: constant, h, r })
}

/// Where a line meets a standard surface: `z = F/(H + R)`.
#[tactic(auto, unfolding(lensmodel::specs::Rows::Crossing::meet_standard_rows))]
pub(crate) fn meet<T: Arith>(f: &Face<T>, l: Line<T>, e: i128) -> Step<T>
    requires scale { T.SCALE ≤ 15 }
    requires low { pos 0 ≤ℤ e }
    requires high { InCap e }
    ensures { result ≡ rows.meet_standard_rows T.ops T.SCALE f.now l e }
{
    let k = val!(roots(f, l, e));
    k.f.over(val!(k.h.plus(k.r)))
}
