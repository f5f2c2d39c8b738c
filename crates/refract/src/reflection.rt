//! Reflection.

ghost use Rattle.std.specs.Prelude.{◌≡◌, ℤ, pos, ◌≤◌, ◌≤ℤ◌};
ghost use Rattle.fixdec.specs.Ends.{InCap};
ghost use Rattle.lensmodel.specs.Rows.Bending as rows;
ghost use Rattle.refract.specs.Reflection.{mirrored_from};

use crate::incidence::Normal;
use crate::sign::{against_sign, with_sign};
use enclose::arith::Arith;
use fixdec::step::Step;
use fixdec::val;
use sagform::face::Face;
use sagform::ray::{Dir, Hit, Ray};

/// `wd(a + (k*x))/g`, with the sign of travel.
pub(crate) fn mirrored<T: Arith>(sign: i32, a: T, k: T, x: T, g: T, e: i128) -> Step<T>
    requires scale { T.SCALE ≤ 15 }
    requires low { pos 0 ≤ℤ e }
    requires high { InCap e }
    ensures { result ≡ mirrored_from T.ops sign a k x g e }
{
    let b = val!(k.times(x));
    val!(val!(with_sign(sign, a, b)).widen(e)).over(g)
}

/// `N' = wd((g*N) - G2)/g`, with the sign of travel.
pub(crate) fn returned<T: Arith>(sign: i32, g: T, n: T, g2: T, e: i128) -> Step<T>
    requires scale { T.SCALE ≤ 15 }
    requires low { pos 0 ≤ℤ e }
    requires high { InCap e }
    ensures { result ≡ rows.returned_row T.ops sign g n g2 e }
{
    let a = val!(g.times(n));
    val!(val!(against_sign(sign, a, g2)).widen(e)).over(g)
}

/// The direction behind a mirror.
#[tactic(auto, unfolding(lensmodel::specs::Rows::Bending::reflection_rows))]
pub(crate) fn reflection<T: Arith>(
    f: &Face<T>,
    r: &Ray<T>,
    h: &Hit<T>,
    normal: &Normal<T>,
    e: i128,
) -> Step<Dir<T>>
    requires scale { T.SCALE ≤ 15 }
    requires low { pos 0 ≤ℤ e }
    requires high { InCap e }
    ensures { result ≡ rows.reflection_rows T.ops f.now r.now h.now normal.now e }
{
    let sign = f.sign();
    let g = normal.g;
    let g2 = val!(normal.cos.plus(normal.cos));
    let a = val!(g.times(r.l));
    let k = val!(g2.times(normal.e));
    let l = val!(mirrored(sign, a, k, h.x, g, e));
    let b = val!(g.times(r.m));
    let m = val!(mirrored(sign, b, k, h.y, g, e));
    let n = val!(returned(sign, g, normal.n, g2, e));
    Step::Val(Dir { l, m, n })
}
