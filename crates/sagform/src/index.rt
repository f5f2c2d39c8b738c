//! The refractive index of a medium.

ghost use Rattle.std.specs.Prelude.{◌≡◌, pos, ◌≤◌, ◌≤ℤ◌};
ghost use Rattle.fixdec.specs.Ends.{InCap};
ghost use Rattle.lensmodel.specs.Equations.Dispersion.{IsKnown};
ghost use Rattle.lensmodel.specs.Rows.Index as rows;
ghost use Rattle.sagform.specs.IndexLaws.{EnclosesIndex};

use crate::constant::{decimal, whole};
use enclose::arith::Arith;
use fixdec::dec::Dec;
use fixdec::span::Span;
use fixdec::step::Step;
use fixdec::val;
use lensmodel::glass::{Glass, Medium};

/// Schott's formula at the square `v` of the wavelength.
fn schott<T: Arith>(g: &Glass, v: T) -> Step<T>
    requires { T.SCALE ≤ 15 }
    ensures { result ≡ rows.schott_rows T.ops T.SCALE g.now v }
{
    let r = val!(val!(whole::<T>(1)).over(v));
    let h4 = val!(val!(val!(decimal::<T>(&g.c5)).times(r)).plus(val!(decimal(&g.c4))));
    let h3 = val!(val!(h4.times(r)).plus(val!(decimal(&g.c3))));
    let h2 = val!(val!(h3.times(r)).plus(val!(decimal(&g.c2))));
    let low = val!(val!(decimal::<T>(&g.c0)).plus(val!(val!(decimal::<T>(&g.c1)).times(v))));
    low.plus(val!(h2.times(r)))
}

/// A term of Sellmeier's formula at the square `v` of the wavelength.
fn resonance<T: Arith>(k: &Dec, l: &Dec, v: T) -> Step<T>
    requires { T.SCALE ≤ 15 }
    ensures { result ≡ rows.resonance_row T.ops T.SCALE k.now l.now v }
{
    val!(decimal::<T>(k)).times(val!(v.over(val!(v.minus(val!(decimal(l)))))))
}

/// Sellmeier's formula at the square `v` of the wavelength.
fn sellmeier<T: Arith>(g: &Glass, v: T) -> Step<T>
    requires { T.SCALE ≤ 15 }
    ensures { result ≡ rows.sellmeier_rows T.ops T.SCALE g.now v }
{
    let t1 = val!(resonance(&g.c0, &g.c1, v));
    let t2 = val!(resonance(&g.c2, &g.c3, v));
    let t3 = val!(resonance(&g.c4, &g.c5, v));
    val!(val!(val!(whole::<T>(1)).plus(t1)).plus(t2)).plus(t3)
}

/// The glass's formula at the square `v` of the wavelength.
fn formula<T: Arith>(g: &Glass, v: T) -> Step<T>
    requires { T.SCALE ≤ 15 }
    ensures { result ≡ rows.formula_rows T.ops T.SCALE g.now v }
{
    if g.formula == 1 {
        schott(g, v)
    } else {
        sellmeier(g, v)
    }
}

/// The rows of the index.
#[tactic(auto, unfolding(lensmodel::specs::Rows::Index::index_rows))]
fn rows_of<T: Arith>(m: &Medium, wave: Span, e: i128) -> Step<T>
    requires scale { T.SCALE ≤ 15 }
    requires low { pos 0 ≤ℤ e }
    requires high { InCap e }
    ensures { result ≡ rows.index_rows T.ops T.SCALE m.now wave e }
{
    match m {
        Medium::Air => whole(1),
        Medium::Of(g) => {
            let v = val!(T::of_span(wave).square());
            val!(val!(formula(g, v)).widen(e)).root()
        }
    }
}

/// The index of a medium at a wavelength, whose span in micrometres is `wave` at T's scale. The
/// square of the index is widened by `e` units before its root, `e` from 0 to the cap. The medium
/// is air, or a glass of formula 1 or 2.
pub fn index<T: Arith>(m: &Medium, wave: Span, e: i128) -> Step<T>
    requires scale { T.SCALE ≤ 15 }
    requires low { pos 0 ≤ℤ e }
    requires high { InCap e }
    requires known { IsKnown m.now }
    ensures exact { result ≡ rows.index_rows T.ops T.SCALE m.now wave e }

    // Every index of the medium is a member, and where there is one the answer isn't Empty.
    ensures encloses { EnclosesIndex T.SCALE T.member m.now wave e result }
{
    rows_of(m, wave, e)
}
