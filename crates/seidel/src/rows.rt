//! The rows of the Seidel sums at a surface, over values.

ghost use Rattle.std.specs.Prelude.{◌≡◌, ℤ, pos, ◌≤◌, ◌≤ℤ◌};
ghost use Rattle.fixdec.specs.Ends.{InCap};
ghost use Rattle.lensmodel.specs.Paraxial.SeidelRows as rows;
ghost use Rattle.lensmodel.specs.Paraxial.Trace.{even_coefficient};
ghost use Rattle.seidel.specs.Surfaces.{aspheric_row, conic_row, cube_row, even_row, field_row, turned_row};

use enclose::arith::Arith;
use fixdec::dec::Dec;
use fixdec::step::Step;
use fixdec::val;
use lensmodel::surface::{Surface, SurfaceKind};
use sagform::constant::{decimal, whole};

/// `A = n*((y*cv) + u)`, the refraction invariant of a ray.
pub(crate) fn invariant<T: Arith>(n: T, y: T, cv: T, u: T) -> Step<T>
    requires { T.SCALE ≤ 15 }
    ensures { result ≡ rows.invariant_row T.ops T.SCALE n y cv u }
{
    n.times(val!(val!(y.times(cv)).plus(u)))
}

/// `H = (Ab*y) - (A*yb)`, Lagrange's invariant.
pub(crate) fn lagrange<T: Arith>(ab: T, y: T, a: T, yb: T) -> Step<T>
    requires { T.SCALE ≤ 15 }
    ensures { result ≡ rows.lagrange_row T.ops T.SCALE ab y a yb }
{
    val!(ab.times(y)).minus(val!(a.times(yb)))
}

/// `P = cv*((1/n') - (1/n))`.
pub(crate) fn petzval<T: Arith>(cv: T, n: T, n2: T) -> Step<T>
    requires { T.SCALE ≤ 15 }
    ensures { result ≡ rows.petzval_row T.ops T.SCALE cv n n2 }
{
    let behind = val!(val!(whole::<T>(1)).over(n2));
    let before = val!(val!(whole::<T>(1)).over(n));
    cv.times(val!(behind.minus(before)))
}

/// `dun = (u'/n') - (u/n)`.
pub(crate) fn slope_change<T: Arith>(behind: T, n2: T, u: T, n: T) -> Step<T>
    requires { T.SCALE ≤ 15 }
    ensures { result ≡ rows.slope_change_row T.ops T.SCALE behind n2 u n }
{
    val!(behind.over(n2)).minus(val!(u.over(n)))
}

/// `dn2 = (1/sq(n')) - (1/sq(n))`.
pub(crate) fn square_change<T: Arith>(n: T, n2: T) -> Step<T>
    requires { T.SCALE ≤ 15 }
    ensures { result ≡ rows.square_change_row T.ops T.SCALE n n2 }
{
    let behind = val!(val!(whole::<T>(1)).over(val!(n2.square())));
    let before = val!(val!(whole::<T>(1)).over(val!(n.square())));
    behind.minus(before)
}

/// The coefficient of the second even term; 0 of a standard surface.
fn second_even(f: &Surface) -> Dec
    ensures { result ≡ even_coefficient f.now.kind f.now.a2 }
{
    match f.kind {
        SurfaceKind::Standard => Dec { mant: 0, exp: 0 },
        SurfaceKind::EvenAsph => f.a2,
    }
}

/// `c*sq(c)`.
fn cube<T: Arith>(c: T) -> Step<T>
    requires { T.SCALE ≤ 15 }
    ensures { result ≡ cube_row T.ops T.SCALE c }
{
    c.times(val!(c.square()))
}

/// `kappa*(c*sq(c))`, kappa being 1 and the conic constant.
fn conic<T: Arith>(f: &Surface) -> Step<T>
    requires { T.SCALE ≤ 15 }
    ensures { result ≡ conic_row T.ops T.SCALE f.now }
{
    let kappa = val!(val!(whole::<T>(1)).plus(val!(decimal::<T>(&f.conic))));
    let c = val!(decimal::<T>(&f.curv));
    kappa.times(val!(cube(c)))
}

/// `8*a2`.
fn even<T: Arith>(f: &Surface) -> Step<T>
    requires { T.SCALE ≤ 15 }
    ensures { result ≡ even_row T.ops T.SCALE f.now }
{
    val!(whole::<T>(8)).times(val!(decimal::<T>(&second_even(f))))
}

/// `k8 = (((kappa*(c*sq(c))) + (8*a2)) - (cv*sq(cv)))*(n' - n)`.
pub(crate) fn asphericity<T: Arith>(f: &Surface, cv: T, n: T, n2: T) -> Step<T>
    requires { T.SCALE ≤ 15 }
    ensures { result ≡ rows.asphericity_row T.ops T.SCALE f.now cv n n2 }
{
    let conic = val!(conic::<T>(f));
    let even = val!(even::<T>(f));
    let shape = val!(val!(conic.plus(even)).minus(val!(cube(cv))));
    shape.times(val!(n2.minus(n)))
}

/// `S1 = wd((k8*sq(yy)) - ((sq(A)*y)*dun))`: spherical aberration.
pub(crate) fn s1<T: Arith>(k8: T, yy: T, a: T, y: T, dun: T, e: i128) -> Step<T>
    requires scale { T.SCALE ≤ 15 }
    requires low { pos 0 ≤ℤ e }
    requires high { InCap e }
    ensures { result ≡ rows.s1_row T.ops T.SCALE k8 yy a y dun e }
{
    let aspheric = val!(k8.times(val!(yy.square())));
    let spheric = val!(val!(val!(a.square()).times(y)).times(dun));
    val!(aspheric.minus(spheric)).widen(e)
}

/// `S2 = wd((k8*((yy*y)*yb)) - (((A*Ab)*y)*dun))`: coma.
pub(crate) fn s2<T: Arith>(k8: T, yy: T, y: T, yb: T, a: T, ab: T, dun: T, e: i128) -> Step<T>
    requires scale { T.SCALE ≤ 15 }
    requires low { pos 0 ≤ℤ e }
    requires high { InCap e }
    ensures { result ≡ rows.s2_row T.ops T.SCALE k8 yy y yb a ab dun e }
{
    let aspheric = val!(k8.times(val!(val!(yy.times(y)).times(yb))));
    let spheric = val!(val!(val!(a.times(ab)).times(y)).times(dun));
    val!(aspheric.minus(spheric)).widen(e)
}

/// `S3 = wd((k8*(yy*bb)) - ((sq(Ab)*y)*dun))`: astigmatism.
pub(crate) fn s3<T: Arith>(k8: T, yy: T, bb: T, ab: T, y: T, dun: T, e: i128) -> Step<T>
    requires scale { T.SCALE ≤ 15 }
    requires low { pos 0 ≤ℤ e }
    requires high { InCap e }
    ensures { result ≡ rows.s3_row T.ops T.SCALE k8 yy bb ab y dun e }
{
    let aspheric = val!(k8.times(val!(yy.times(bb))));
    let spheric = val!(val!(val!(ab.square()).times(y)).times(dun));
    val!(aspheric.minus(spheric)).widen(e)
}

/// `S4 = wd(0 - (sq(H)*P))`: Petzval curvature.
pub(crate) fn s4<T: Arith>(h: T, p: T, e: i128) -> Step<T>
    requires scale { T.SCALE ≤ 15 }
    requires low { pos 0 ≤ℤ e }
    requires high { InCap e }
    ensures { result ≡ rows.s4_row T.ops T.SCALE h p e }
{
    let zero = val!(whole::<T>(0));
    val!(zero.minus(val!(val!(h.square()).times(p)))).widen(e)
}

/// `k8*((y*yb)*bb)`.
fn aspheric<T: Arith>(k8: T, y: T, yb: T, bb: T) -> Step<T>
    requires { T.SCALE ≤ 15 }
    ensures { result ≡ aspheric_row T.ops T.SCALE k8 y yb bb }
{
    k8.times(val!(val!(y.times(yb)).times(bb)))
}

/// `(sq(Ab)*y)*dn2`.
fn turned<T: Arith>(ab: T, y: T, dn2: T) -> Step<T>
    requires { T.SCALE ≤ 15 }
    ensures { result ≡ turned_row T.ops T.SCALE ab y dn2 }
{
    val!(val!(ab.square()).times(y)).times(dn2)
}

/// `(P*yb)*(H + (Ab*y))`.
fn field<T: Arith>(p: T, yb: T, h: T, ab: T, y: T) -> Step<T>
    requires { T.SCALE ≤ 15 }
    ensures { result ≡ field_row T.ops T.SCALE p yb h ab y }
{
    val!(p.times(yb)).times(val!(h.plus(val!(ab.times(y)))))
}

/// `S5 = wd((k8*((y*yb)*bb)) - (Ab*(((sq(Ab)*y)*dn2) - ((P*yb)*(H + (Ab*y))))))`: distortion.
pub(crate) fn s5<T: Arith>(k8: T, y: T, yb: T, bb: T, ab: T, dn2: T, p: T, h: T, e: i128) -> Step<T>
    requires scale { T.SCALE ≤ 15 }
    requires low { pos 0 ≤ℤ e }
    requires high { InCap e }
    ensures { result ≡ rows.s5_row T.ops T.SCALE k8 y yb bb ab dn2 p h e }
{
    let aspheric = val!(aspheric(k8, y, yb, bb));
    let turned = val!(turned(ab, y, dn2));
    let field = val!(field(p, yb, h, ab, y));
    let rest = val!(ab.times(val!(turned.minus(field))));
    val!(aspheric.minus(rest)).widen(e)
}
