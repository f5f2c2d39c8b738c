//! Refraction: Snell's law in vectors.

ghost use Rattle.std.specs.Prelude.{◌≡◌, ℤ, pos, ◌≤◌, ◌≤ℤ◌, Some};
ghost use Rattle.fixdec.specs.Ends.{InCap};
ghost use Rattle.lensmodel.specs.Rows.Bending as rows;
ghost use Rattle.refract.specs.Refraction.{across_from, refracted_rows, snell_from};

use crate::incidence::Normal;
use crate::sign::{against_sign, with_sign};
use enclose::arith::Arith;
use fixdec::step::Step;
use fixdec::val;
use sagform::constant::whole;
use sagform::face::Face;
use sagform::ray::{Dir, Hit, Ray};

/// `Kp = rt(wd(behind - (before*(1 - sq(C)))))`, by the squares of the indices behind and before.
pub(crate) fn snell<T: Arith>(behind: T, before: T, cos: T, e: i128) -> Step<T>
    requires scale { T.SCALE ≤ 15 }
    requires low { pos 0 ≤ℤ e }
    requires high { InCap e }
    ensures { result ≡ snell_from T.ops T.SCALE behind before cos e }
{
    let one = val!(whole::<T>(1));
    let sine = val!(before.times(val!(one.minus(val!(cos.square())))));
    val!(val!(behind.minus(sine)).widen(e)).root()
}

/// `wd(a - (ke*x))/mg`, with the sign of travel.
fn across<T: Arith>(sign: i32, a: T, ke: T, x: T, mg: T, e: i128) -> Step<T>
    requires scale { T.SCALE ≤ 15 }
    requires low { pos 0 ≤ℤ e }
    requires high { InCap e }
    ensures { result ≡ across_from T.ops sign a ke x mg e }
{
    let b = val!(ke.times(x));
    val!(val!(against_sign(sign, a, b)).widen(e)).over(mg)
}

/// `N' = wd((ng*N) + K)/mg`, with the sign of travel.
fn onward<T: Arith>(sign: i32, ng: T, n: T, k: T, mg: T, e: i128) -> Step<T>
    requires scale { T.SCALE ≤ 15 }
    requires low { pos 0 ≤ℤ e }
    requires high { InCap e }
    ensures { result ≡ rows.onward_row T.ops sign ng n k mg e }
{
    let a = val!(ng.times(n));
    val!(val!(with_sign(sign, a, k)).widen(e)).over(mg)
}

/// L', M' and N', from `ng`, `mg` and K.
pub(crate) fn refracted<T: Arith>(
    sign: i32,
    ng: T,
    mg: T,
    k: T,
    r: &Ray<T>,
    h: &Hit<T>,
    normal: &Normal<T>,
    e: i128,
) -> Step<Dir<T>>
    requires scale { T.SCALE ≤ 15 }
    requires low { pos 0 ≤ℤ e }
    requires high { InCap e }
    ensures { result ≡ refracted_rows T.ops sign ng mg k r.now h.now normal.now e }
{
    let a = val!(ng.times(r.l));
    let ke = val!(k.times(normal.e));
    let l = val!(across(sign, a, ke, h.x, mg, e));
    let b = val!(ng.times(r.m));
    let m = val!(across(sign, b, ke, h.y, mg, e));
    let n = val!(onward(sign, ng, normal.n, k, mg, e));
    Step::Val(Dir { l, m, n })
}

/// The direction behind a surface with the index `n2` behind it.
#[tactic(auto, unfolding(lensmodel::specs::Rows::Bending::refraction_rows))]
pub(crate) fn refraction<T: Arith>(
    f: &Face<T>,
    n2: T,
    r: &Ray<T>,
    h: &Hit<T>,
    normal: &Normal<T>,
    e: i128,
) -> Step<Dir<T>>
    requires scale { T.SCALE ≤ 15 }
    requires low { pos 0 ≤ℤ e }
    requires high { InCap e }
    requires behind { f.now.n2 ≡ Some n2 }
    ensures { result ≡ rows.refraction_rows T.ops T.SCALE f.now n2 r.now h.now normal.now e }
{
    let behind = val!(f.n2_square());
    let before = val!(f.n_square());
    let kp = val!(snell(behind, before, normal.cos, e));
    let k = val!(kp.minus(val!(f.n().times(normal.cos))));
    let ng = val!(f.n().times(normal.g));
    let mg = val!(n2.times(normal.g));
    refracted(f.sign(), ng, mg, k, r, h, normal, e)
}
