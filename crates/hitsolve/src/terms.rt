//! The coefficients of the even terms, and the values of their polynomial.

ghost use Rattle.std.specs.Prelude.{◌≡◌, ◌≤◌, List, [], ◌∷◌, map};
ghost use Rattle.hitsolve.specs.Quotients as quotients;
ghost use Rattle.hitsolve.specs.Values.{IfVal};
ghost use Rattle.lensmodel.specs.Rows.Sag as sags;
ghost use Rattle.lensmodel.specs.Rows.SlopeRounds as rows;
ghost use Rattle.sagform.specs.Used.{AreZeroFrom};

use enclose::arith::Arith;
use fixdec::span::Span;
use fixdec::step::Step;
use fixdec::val;
use sagform::face::Face;
use sagform::sag::term_at;
use std::marker::Model;

/// Eight values that belong to the even terms of a surface, from the term in `u` to that in `u^8`.
/// Contracts see their list.
#[derive(Drop)]
pub(crate) struct Terms<T> {
    pub(crate) b1: T,
    pub(crate) b2: T,
    pub(crate) b3: T,
    pub(crate) b4: T,
    pub(crate) b5: T,
    pub(crate) b6: T,
    pub(crate) b7: T,
    pub(crate) b8: T,
}

impl<T> Model for Terms<T> {
    ghost Value = { List T };

    ghost view = { λ f. f.b1 ∷ f.b2 ∷ f.b3 ∷ f.b4 ∷ f.b5 ∷ f.b6 ∷ f.b7 ∷ f.b8 ∷ [] };
}

/// The coefficients of a prepared surface.
pub(crate) fn even_terms<T: Arith>(f: &Face<T>) -> Terms<T>
    ensures { result ≡ f.now.b }
{
    Terms {
        b1: f.b1(),
        b2: f.b2(),
        b3: f.b3(),
        b4: f.b4(),
        b5: f.b5(),
        b6: f.b6(),
        b7: f.b7(),
        b8: f.b8(),
    }
}

/// The hulls of coefficients.
pub(crate) fn hulls<T: Arith>(b: &Terms<T>) -> Terms<Span>
    requires { T.SCALE ≤ 15 }
    ensures { result ≡ map T.ops.hull b.now }
{
    Terms {
        b1: b.b1.hull(),
        b2: b.b2.hull(),
        b3: b.b3.hull(),
        b4: b.b4.hull(),
        b5: b.b5.hull(),
        b6: b.b6.hull(),
        b7: b.b7.hull(),
        b8: b.b8.hull(),
    }
}

/// V8 down to V1, once V8 is known. Past `used` each coefficient is zero, and so is each value.
fn values_down<T: Arith>(b: &Terms<T>, used: usize, u: T) -> Step<Terms<T>>
    requires scale { T.SCALE ≤ 15 }
    requires zero { AreZeroFrom T.ops used b.now }
    ensures value { result ≡ quotients.values_down T.ops T.SCALE u b.now }
    ensures zero { IfVal result (λ vs. AreZeroFrom T.ops used vs) }
{
    let b8 = b.b8;
    let b7 = val!(term_at(used, 7, b.b7, u, b8));
    let b6 = val!(term_at(used, 6, b.b6, u, b7));
    let b5 = val!(term_at(used, 5, b.b5, u, b6));
    let b4 = val!(term_at(used, 4, b.b4, u, b5));
    let b3 = val!(term_at(used, 3, b.b3, u, b4));
    let b2 = val!(term_at(used, 2, b.b2, u, b3));
    let b1 = val!(term_at(used, 1, b.b1, u, b2));
    Step::Val(Terms {
        b1,
        b2,
        b3,
        b4,
        b5,
        b6,
        b7,
        b8,
    })
}

/// `V8 = b8`, `Vi = bi + (u*V(i+1))`. Past `used` each coefficient is zero, and so is each value.
pub(crate) fn values<T: Arith>(b: &Terms<T>, used: usize, u: T) -> Step<Terms<T>>
    requires scale { T.SCALE ≤ 15 }
    requires zero { AreZeroFrom T.ops used b.now }
    ensures value { result ≡ sags.horner_rows T.ops u b.now }
    ensures zero { IfVal result (λ vs. AreZeroFrom T.ops used vs) }
{
    values_down(b, used, u)
}

/// `Q7 = V8`, `Qi = V(i+1) + (u*Q(i+1))`: the value Q0, by which the polynomial at `u` differs from
/// that at the place of the values V. Past `used` each value is zero.
pub(crate) fn quotient<T: Arith>(v: &Terms<T>, used: usize, u: T) -> Step<T>
    requires scale { T.SCALE ≤ 15 }
    requires zero { AreZeroFrom T.ops used v.now }
    ensures { result ≡ rows.quotient_row T.ops T.SCALE u v.now }
{
    let q6 = val!(term_at(used, 7, v.b7, u, v.b8));
    let q5 = val!(term_at(used, 6, v.b6, u, q6));
    let q4 = val!(term_at(used, 5, v.b5, u, q5));
    let q3 = val!(term_at(used, 4, v.b4, u, q4));
    let q2 = val!(term_at(used, 3, v.b3, u, q3));
    let q1 = val!(term_at(used, 2, v.b2, u, q2));
    term_at(used, 1, v.b1, u, q1)
}
