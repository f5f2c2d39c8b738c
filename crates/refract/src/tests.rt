//! How rays leave surfaces, with the values that an independent program of the same rules gives.

ghost use Rattle.std.specs.Prelude.{◌≡◌, ◌≤◌, ◌<◌, ◌≤ℤ◌, ℤ, pos, negsuc, length, None};
ghost use Rattle.fixdec.specs.Ends.{InCap};
ghost use Rattle.lensmodel.specs.Setup.Values as values;
ghost use Rattle.lensmodel.specs.Setup.WellFormed.{IsWellFormed};
ghost use Rattle.refract.specs.Samples as samples;

use crate::bend::bend;
use arrayvec::ArrayVec;
use enclose::arith::Arith;
use enclose::iv::Iv;
use fixdec::dec::Dec;
use fixdec::span::Span;
use fixdec::step::Step;
use fixdec::val;
use forms::form::Form;
use lensmodel::glass::{Glass, Medium};
use lensmodel::prescription::Prescription;
use lensmodel::setup::Setup;
use lensmodel::surface::{Surface, SurfaceKind};
use lensmodel::tolerance::{Tol, TolBox, TolKind};
use sagform::prepare::face;
use sagform::ray::{Hit, Ray};
use sagform::steps::Steps;
use std::marker::Brand;
use std::sync::ledger::{Blank, Ledger};

const ZERO: Dec = Dec { mant: 0, exp: 0 };

/// A plane with the image 4 behind it.
fn flat() -> Surface
    ensures { result ≡ samples.flat }
{
    Surface {
        kind: SurfaceKind::Standard,
        curv: ZERO,
        conic: ZERO,
        thick: Some(Dec { mant: 4, exp: 0 }),
        glass: None,
        semi: None,
        rim: false,
        mirror: false,
        a1: ZERO,
        a2: ZERO,
        a3: ZERO,
        a4: ZERO,
        a5: ZERO,
        a6: ZERO,
        a7: ZERO,
        a8: ZERO,
    }
}

/// A sphere of radius 10.
fn sphere() -> Surface
    ensures { result ≡ samples.sphere }
{
    let mut surface = flat();
    surface.curv = Dec { mant: 1, exp: -1 };
    surface.thick = Some(Dec { mant: 10, exp: 0 });
    surface
}

/// The fourth surface of the triplet.
fn back() -> Surface
    ensures { result ≡ samples.back }
{
    let mut surface = flat();
    surface.curv = Dec { mant: 493, exp: -4 };
    surface.thick = Some(Dec { mant: 475, exp: -2 });
    surface
}

/// A parabola that reflects into its focus.
fn parabola() -> Surface
    ensures { result ≡ samples.parabola }
{
    let mut surface = flat();
    surface.curv = Dec { mant: -1, exp: -1 };
    surface.conic = Dec { mant: -1, exp: 0 };
    surface.thick = Some(Dec { mant: -5, exp: 0 });
    surface.mirror = true;
    surface
}

/// A sphere that reflects what comes from the parabola.
fn second() -> Surface
    ensures { result ≡ samples.second }
{
    let mut surface = flat();
    surface.curv = Dec { mant: -25, exp: -2 };
    surface.thick = Some(Dec { mant: 6, exp: 0 });
    surface.mirror = true;
    surface
}

/// A glass whose index has the same square at every wavelength.
fn glass(square: Dec) -> Medium
    ensures { result ≡ samples.glass square }
{
    Medium::Of(Glass {
        name: ArrayVec::new(),
        formula: 1,
        c0: square,
        c1: ZERO,
        c2: ZERO,
        c3: ZERO,
        c4: ZERO,
        c5: ZERO,
        low: None,
        high: None,
    })
}

/// The glass of index 1.5.
fn flat_glass() -> Medium
    ensures { result ≡ samples.flat_glass }
{
    glass(Dec { mant: 225, exp: -2 })
}

/// The glass in the middle of the triplet.
fn heavy_glass() -> Medium
    ensures { result ≡ samples.heavy_glass }
{
    glass(Dec {
        mant: 26569,
        exp: -4,
    })
}

/// A lens of these surfaces and media, without a rim.
fn sample(
    surfaces: ArrayVec<Surface, 64>,
    media: ArrayVec<Medium, 64>,
    res: u32,
    toler: Option<TolBox>,
) -> Setup
    ensures { result ≡ samples.sample surfaces.items media.items res toler }
{
    Setup {
        lens: Prescription {
            surfaces,
            stop: 1,
            waves: ArrayVec::new(),
            primary: 1,
        },
        media,
        wave: Dec { mant: 5, exp: -1 },
        res,
        width: Dec { mant: 1, exp: -3 },
        toler,
    }
}

/// An object at infinity.
fn object() -> Surface
    ensures { result ≡ samples.object }
{
    let mut surface = flat();
    surface.thick = None;
    surface
}

/// The last surface.
fn image() -> Surface
    ensures { result ≡ values.plane }
{
    let mut surface = flat();
    surface.thick = Some(ZERO);
    surface
}

/// A surface between two media.
fn single(
    surface: Surface,
    before: Medium,
    behind: Medium,
    res: u32,
    toler: Option<TolBox>,
) -> Setup
    ensures { result ≡ samples.single surface before behind res toler }
{
    let mut surfaces: ArrayVec<Surface, 64> = ArrayVec::new();
    surfaces.push(object());
    surfaces.push(surface);
    surfaces.push(image());
    let mut media: ArrayVec<Medium, 64> = ArrayVec::new();
    media.push(before);
    media.push(behind);
    sample(surfaces, media, res, toler)
}

/// Two surfaces in air.
fn folded(first: Surface, second: Surface) -> Setup
    ensures { result ≡ samples.folded first second }
{
    let mut surfaces: ArrayVec<Surface, 64> = ArrayVec::new();
    surfaces.push(object());
    surfaces.push(first);
    surfaces.push(second);
    surfaces.push(image());
    let mut media: ArrayVec<Medium, 64> = ArrayVec::new();
    media.push(Medium::Air);
    media.push(Medium::Air);
    media.push(Medium::Air);
    sample(surfaces, media, 12, None)
}

/// Tolerances on the curvature of surface 1 and on the index behind it.
fn curvature_and_index() -> TolBox
    ensures { result ≡ samples.box }
{
    let mut list: ArrayVec<Tol, 32> = ArrayVec::new();
    list.push(Tol {
        kind: TolKind::Curv,
        surface: 1,
        delta: Dec { mant: 1, exp: -4 },
    });
    list.push(Tol {
        kind: TolKind::Indx,
        surface: 1,
        delta: Dec { mant: 1, exp: -3 },
    });
    TolBox { list }
}

/// The sphere in front of glass.
fn glass_lens() -> Setup
    ensures well { IsWellFormed result }
    ensures count { length result.lens.surfaces.items ≡ 3 }
{
    single(sphere(), Medium::Air, flat_glass(), 12, None)
}

/// The same in its box.
fn boxed_lens() -> Setup
    ensures well { IsWellFormed result }
    ensures count { length result.lens.surfaces.items ≡ 3 }
{
    single(
        sphere(),
        Medium::Air,
        flat_glass(),
        12,
        Some(curvature_and_index()),
    )
}

/// The plane in air.
fn plane_lens() -> Setup
    ensures well { IsWellFormed result }
    ensures count { length result.lens.surfaces.items ≡ 3 }
{
    single(flat(), Medium::Air, Medium::Air, 12, None)
}

/// The plane behind glass.
fn inside_glass() -> Setup
    ensures well { IsWellFormed result }
    ensures count { length result.lens.surfaces.items ≡ 3 }
{
    single(flat(), flat_glass(), Medium::Air, 12, None)
}

/// The fourth surface of the triplet, whose residual is 10^-9.
fn back_lens() -> Setup
    ensures well { IsWellFormed result }
    ensures count { length result.lens.surfaces.items ≡ 3 }
{
    single(back(), heavy_glass(), Medium::Air, 9, None)
}

/// The parabola and the sphere that reflect.
fn mirror_lens() -> Setup
    ensures well { IsWellFormed result }
    ensures count { length result.lens.surfaces.items ≡ 4 }
{
    folded(parabola(), second())
}

/// A value of these ends.
fn value<T: Arith>(lo: i128, hi: i128) -> T
    requires scale { T.SCALE ≤ 15 }
    requires order { lo ≤ℤ hi }
    requires low { InCap lo }
    requires high { InCap hi }
{
    T::of_span(Span { lo, hi })
}

/// A ray in this direction; from where and after which path is no matter.
fn toward<T: Arith>(l: T, m: T, n: T) -> Ray<T>
    requires { T.SCALE ≤ 15 }
{
    Ray {
        x: value(0, 0),
        y: value(0, 0),
        z: value(0, 0),
        l,
        m,
        n,
        path: value(0, 0),
    }
}

/// A point on a surface, with `rho` and `w` there; its sag and its path are no matter.
fn point<T: Arith>(x: T, y: T, rho: T, w: T) -> Hit<T>
    requires { T.SCALE ≤ 15 }
{
    Hit {
        x,
        y,
        z: value(0, 0),
        rho,
        w,
        path: value(0, 0),
    }
}

/// The ends of a value.
fn ends<T: Arith>(v: &T) -> (i128, i128)
    requires { T.SCALE ≤ 15 }
{
    let hull = v.hull();
    (hull.lo, hull.hi)
}

/// The ends of L, M and N behind surface `j`.
fn leaves_by<T: Arith, L: Ledger>(
    lens: &Setup,
    j: u32,
    r: &Ray<T>,
    h: &Hit<T>,
    e: i128,
    blank: Blank,
) -> Step<[(i128, i128); 3]>
    requires scale { T.SCALE ≤ 15 }
    requires well { IsWellFormed lens.now }
    requires first { 1 ≤ j }
    requires last { j < length lens.now.lens.surfaces.items }
    requires low { pos 0 ≤ℤ e }
    requires high { InCap e }
    requires name { blank.name ≡ L.name }
    requires parts { blank.parts ≡ L.parts }
    requires some { 0 < L.parts }
{
    let mut steps = Steps::<L>::start(blank);
    let f = val!(face::<T, L>(lens, j, &mut steps));
    let d = val!(bend(&f, r, h, e));
    Step::Val([ends(&d.l), ends(&d.m), ends(&d.n)])
}

/// The same over a ledger of its own.
fn leaves<T: Arith>(
    lens: &Setup,
    j: u32,
    r: &Ray<T>,
    h: &Hit<T>,
    e: i128,
) -> Step<[(i128, i128); 3]>
    requires scale { T.SCALE ≤ 15 }
    requires well { IsWellFormed lens.now }
    requires first { 1 ≤ j }
    requires last { j < length lens.now.lens.surfaces.items }
    requires low { pos 0 ≤ℤ e }
    requires high { InCap e }
{
    leaves_by::<T, Brand>(lens, j, r, h, e, Blank::new(1))
}

/// The ray along the axis.
fn axial<T: Arith>(one: i128) -> Ray<T>
    requires scale { T.SCALE ≤ 15 }
    requires low { pos 1 ≤ℤ one }
    requires high { one ≤ℤ pos 1_000_000_000_000_000 }
{
    toward(value(-1, 1), value(-1, 1), value(one - 1, one + 1))
}

#[test]
fn glass_on_the_axis(rt: HostRuntime) {
    let r = axial::<Iv<9>>(1_000_000_000);
    let h = point(
        value(-3, 3),
        value(-3, 3),
        value(0, 2),
        value(999999999, 1000000001),
    );
    assert_eq!(rt;
        leaves(&glass_lens(), 1, &r, &h, 1),
        Step::Val([(-3, 3), (-3, 3), (999999989, 1000000012)])
    );
}

/// The height 6 on the sphere, at scale 9.
fn at_height<T: Arith>() -> Hit<T>
    requires { T.SCALE ≤ 15 }
{
    point(
        value(-7, 7),
        value(5999999993, 6000000007),
        value(35999999916, 36000000086),
        value(799999998, 800000001),
    )
}

#[test]
fn glass_off_the_axis(rt: HostRuntime) {
    assert_eq!(rt;
        leaves(
            &glass_lens(),
            1,
            &axial::<Iv<9>>(1_000_000_000),
            &at_height(),
            1
        ),
        Step::Val([(-3, 3), (-229909103, -229909063), (973212074, 973212148)])
    );
}

#[test]
fn glass_in_linear_forms(rt: HostRuntime) {
    let r = axial::<Form<9>>(1_000_000_000);
    let h = at_height();
    assert_eq!(rt;
        leaves(&glass_lens(), 1, &r, &h, 1),
        Step::Val([(-4, 4), (-229909122, -229909042), (973212038, 973212182)])
    );
    assert_eq!(rt;
        leaves(&boxed_lens(), 1, &r, &h, 1),
        Step::Val([(-4, 4), (-230389262, -229428902), (973097497, 973326723)])
    );
}

#[test]
fn slanted_plane(rt: HostRuntime) {
    let r = toward::<Iv<9>>(
        value(-1, 1),
        value(599999998, 600000002),
        value(799999999, 800000001),
    );
    let h = point(
        value(-3, 3),
        value(-3, 3),
        value(0, 2),
        value(1000000000, 1000000000),
    );
    assert_eq!(rt;
        leaves(&plane_lens(), 1, &r, &h, 1),
        Step::Val([(-5, 5), (599999994, 600000006), (799999986, 800000013)])
    );
}

#[test]
fn slanted_plane_at_scale_6(rt: HostRuntime) {
    let r = toward::<Iv<6>>(value(-1, 1), value(599998, 600002), value(799999, 800001));
    let h = point(
        value(-3, 3),
        value(-3, 3),
        value(0, 2),
        value(1000000, 1000000),
    );
    assert_eq!(rt;
        leaves(&plane_lens(), 1, &r, &h, 1),
        Step::Val([(-5, 5), (599994, 600006), (799986, 800013)])
    );
}

/// The vertex of the plane behind glass, at scale 9.
fn at_vertex(y: i128) -> Hit<Iv<9>>
    requires low { pos 0 ≤ℤ y }
    requires high { y ≤ℤ pos 1000 }
{
    point(
        value(-3, 3),
        value(-y, y),
        value(0, 2),
        value(1000000000, 1000000000),
    )
}

#[test]
fn total_reflection(rt: HostRuntime) {
    let r = toward::<Iv<9>>(
        value(-1, 1),
        value(768221277, 768221281),
        value(640184399, 640184400),
    );
    assert_eq!(rt;
        leaves(&inside_glass(), 1, &r, &at_vertex(5), 1),
        Step::Empty
    );
    let grazing = toward::<Iv<9>>(
        value(-1, 1),
        value(666666663, 666666670),
        value(745355991, 745355994),
    );
    assert_eq!(rt;
        leaves(&inside_glass(), 1, &grazing, &at_vertex(3), 1),
        Step::Val([(-5, 5), (999999989, 1000000012), (-15, 141437)])
    );
}

#[test]
fn mirror(rt: HostRuntime) {
    let h = point(
        value(-3, 3),
        value(1999999997, 2000000003),
        value(3999999988, 4000000014),
        value(1000000000, 1000000000),
    );
    assert_eq!(rt;
        leaves(&mirror_lens(), 1, &axial::<Iv<9>>(1_000_000_000), &h, 1),
        Step::Val([(-4, 4), (-384615398, -384615371), (-923076948, -923076900)])
    );
}

#[test]
fn second_mirror(rt: HostRuntime) {
    let r = toward::<Iv<9>>(
        value(-178908076, -178908059),
        value(-410170329, -410170304),
        value(-894288686, -894288642),
    );
    let h = point(
        value(46674443, 46674600),
        value(-172326150, -172325887),
        value(31874714, 31874821),
        value(999003415, 999003419),
    );
    assert_eq!(rt;
        leaves(&mirror_lens(), 2, &r, &h, 1),
        Step::Val([
            (-158422334, -158422240),
            (-485805517, -485805358),
            (859590168, 859590403)
        ])
    );
}

#[test]
fn surface_of_the_triplet(rt: HostRuntime) {
    let r = toward::<Iv<9>>(
        value(99380797, 99380801),
        value(-49690401, -49690398),
        value(993807989, 993807991),
    );
    let h = point(
        value(1012363145, 1012363151),
        value(1993818423, 1993818429),
        value(5000191040, 5000191078),
        value(993904968, 993904969),
    );
    assert_eq!(rt;
        leaves(&back_lens(), 1, &r, &h, 1),
        Step::Val([
            (194082618, 194082638),
            (-17791291, -17791269),
            (980823795, 980823883)
        ])
    );
}
