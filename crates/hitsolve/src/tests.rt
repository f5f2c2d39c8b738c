//! Where rays meet surfaces, with the values that an independent program of the same rules gives.

ghost use Rattle.std.specs.Prelude.{◌≡◌, ℤ, pos, negsuc, ◌<◌, ◌≤◌, ◌≤ℤ◌, length};
ghost use Rattle.fixdec.specs.Ends.{InCap};
ghost use Rattle.hitsolve.specs.Samples as samples;
ghost use Rattle.lensmodel.specs.Setup.Values.{plane};
ghost use Rattle.lensmodel.specs.Setup.WellFormed.{IsWellFormed};

use crate::hit::hit;
use arrayvec::ArrayVec;
use enclose::arith::Arith;
use enclose::iv::Iv;
use fixdec::dec::Dec;
use fixdec::span::Span;
use fixdec::step::Step;
use fixdec::val;
use forms::form::Form;
use lensmodel::glass::Medium;
use lensmodel::prescription::Prescription;
use lensmodel::setup::Setup;
use lensmodel::surface::{Surface, SurfaceKind};
use sagform::prepare::face;
use sagform::ray::Ray;
use sagform::steps::Steps;
use std::marker::Brand;
use std::process::Abort;
use std::sync::ledger::{Blank, Ledger};

/// A plane in air.
fn flat() -> Surface
    ensures { result ≡ plane }
{
    let zero = Dec { mant: 0, exp: 0 };
    Surface {
        kind: SurfaceKind::Standard,
        curv: zero,
        conic: zero,
        thick: Some(zero),
        glass: None,
        semi: None,
        rim: false,
        mirror: false,
        a1: zero,
        a2: zero,
        a3: zero,
        a4: zero,
        a5: zero,
        a6: zero,
        a7: zero,
        a8: zero,
    }
}

/// An object at infinity, a surface and the image.
fn behind_object(surface: Surface) -> ArrayVec<Surface, 64>
    ensures { result.items ≡ samples.behind_object surface }
{
    let mut object = flat();
    object.thick = None;
    let mut surfaces: ArrayVec<Surface, 64> = ArrayVec::new();
    surfaces.push(object);
    surfaces.push(surface);
    surfaces.push(flat());
    surfaces
}

/// Air before and behind the surface.
fn air() -> ArrayVec<Medium, 64>
    ensures { result.items ≡ samples.air }
{
    let mut media: ArrayVec<Medium, 64> = ArrayVec::new();
    media.push(Medium::Air);
    media.push(Medium::Air);
    media
}

/// A surface in air, behind an object at infinity.
fn sample(surface: Surface) -> Setup
    ensures { result ≡ samples.sample surface }
{
    Setup {
        lens: Prescription {
            surfaces: behind_object(surface),
            stop: 1,
            waves: ArrayVec::new(),
            primary: 1,
        },
        media: air(),
        wave: Dec { mant: 5, exp: -1 },
        res: 12,
        width: Dec { mant: 1, exp: -3 },
        toler: None,
    }
}

/// A sphere of radius 10.
fn sphere() -> Surface
    ensures { result ≡ samples.sphere }
{
    let mut surface = flat();
    surface.curv = Dec { mant: 1, exp: -1 };
    surface.thick = Some(Dec { mant: 10, exp: 0 });
    surface
}

/// The same as an even asphere.
fn spherical() -> Surface
    ensures { result ≡ samples.spherical }
{
    let mut surface = sphere();
    surface.kind = SurfaceKind::EvenAsph;
    surface.semi = Some(Dec { mant: 8, exp: 0 });
    surface
}

/// That with a second coefficient.
fn bent() -> Surface
    ensures { result ≡ samples.bent }
{
    let mut surface = spherical();
    surface.a2 = Dec { mant: 1, exp: -5 };
    surface
}

/// A plane with a rim of radius 5.
fn rimmed() -> Surface
    ensures { result ≡ samples.rimmed }
{
    let mut surface = flat();
    surface.thick = Some(Dec { mant: 4, exp: 0 });
    surface.semi = Some(Dec { mant: 5, exp: 0 });
    surface.rim = true;
    surface
}

/// A parabola that reflects into its focus.
fn mirror() -> Surface
    ensures { result ≡ samples.mirror }
{
    let mut surface = flat();
    surface.curv = Dec { mant: -1, exp: -1 };
    surface.conic = Dec { mant: -1, exp: 0 };
    surface.thick = Some(Dec { mant: -5, exp: 0 });
    surface.mirror = true;
    surface
}

/// The sphere in air.
fn sphere_lens() -> Setup
    ensures well { IsWellFormed result }
    ensures count { length result.lens.surfaces.items ≡ 3 }
{
    sample(sphere())
}

/// The even asphere without coefficients in air.
fn spherical_lens() -> Setup
    ensures well { IsWellFormed result }
    ensures count { length result.lens.surfaces.items ≡ 3 }
{
    sample(spherical())
}

/// The bent asphere in air.
fn bent_lens() -> Setup
    ensures well { IsWellFormed result }
    ensures count { length result.lens.surfaces.items ≡ 3 }
{
    sample(bent())
}

/// The plane with a rim in air.
fn rimmed_lens() -> Setup
    ensures well { IsWellFormed result }
    ensures count { length result.lens.surfaces.items ≡ 3 }
{
    sample(rimmed())
}

/// The mirror in air.
fn mirror_lens() -> Setup
    ensures well { IsWellFormed result }
    ensures count { length result.lens.surfaces.items ≡ 3 }
{
    sample(mirror())
}

/// A value of these ends.
fn value<T: Arith>(lo: i128, hi: i128) -> T
    requires scale { T.SCALE ≤ 15 }
    requires order { lo ≤ℤ hi }
    requires low { InCap lo }
    requires high { InCap hi }
{
    T::of_span(Span { lo, hi })
}

/// A ray along the axis at the height `y`, in units of which `one` are 1, whose cosines hold 0 within
/// `e` units and 1 within `n`.
fn level<T: Arith>(one: i128, y: i128, e: i128, n: i128) -> Ray<T>
    requires scale { T.SCALE ≤ 15 }
    requires unit_low { pos 0 ≤ℤ one }
    requires unit_high { one ≤ℤ pos 1_000_000_000_000_000 }
    requires height { InCap y }
    requires low { pos 0 ≤ℤ e }
    requires high { e ≤ℤ pos 1000 }
    requires near { pos 0 ≤ℤ n }
    requires far { n ≤ℤ pos 1000 }
{
    Ray {
        x: value(0, 0),
        y: value(y, y),
        z: value(0, 0),
        l: value(-e, e),
        m: value(-e, e),
        n: value(one - n, one + n),
        path: value(0, 0),
    }
}

/// The ends of a value.
fn ends<T: Arith>(v: &T) -> (i128, i128)
    requires { T.SCALE ≤ 15 }
{
    let hull = v.hull();
    (hull.lo, hull.hi)
}

/// The ends of z, rho, w and the path where a ray meets surface 1.
fn met<T: Arith, L: Ledger>(
    lens: &Setup,
    ray: &Ray<T>,
    e: i128,
    steps: &mut Steps<L>,
) -> Step<[(i128, i128); 4]>
    requires scale { T.SCALE ≤ 15 }
    requires well { IsWellFormed lens.now }
    requires count { length lens.now.lens.surfaces.items ≡ 3 }
    requires low { pos 0 ≤ℤ e }
    requires high { InCap e }
{
    let f = val!(face::<T, L>(lens, 1, steps));
    let h = val!(hit(&f, ray, e));
    Step::Val([ends(&h.z), ends(&h.rho), ends(&h.w), ends(&h.path)])
}

/// A sphere at the height 6, where z is 2, and past it.
fn meets_a_sphere<R: Abort, L: Ledger>(rt: &R, blank: Blank)
    requires name { blank.name ≡ L.name }
    requires parts { blank.parts ≡ L.parts }
    requires some { 0 < L.parts }
{
    let lens = sphere_lens();
    let mut steps = Steps::<L>::start(blank);
    assert_eq!(rt;
        met::<Iv<6>, L>(&lens, &level(1000000, 6000000, 1, 1), 1, &mut steps),
        Step::Val([
            (1999991, 2000012),
            (35999916, 36000086),
            (799998, 800001),
            (1999987, 2000017)
        ])
    );
    assert_eq!(rt;
        met::<Iv<6>, L>(&lens, &level(1000000, 11000000, 1, 1), 1, &mut steps),
        Step::Empty
    );
}

/// The same sphere as an even asphere.
fn meets_the_same_asphere<R: Abort, L: Ledger>(rt: &R, blank: Blank)
    requires name { blank.name ≡ L.name }
    requires parts { blank.parts ≡ L.parts }
    requires some { 0 < L.parts }
{
    let lens = spherical_lens();
    let mut steps = Steps::<L>::start(blank);
    assert_eq!(rt;
        met::<Iv<9>, L>(&lens, &level(1000000000, 6000000000, 1, 1), 1, &mut steps),
        Step::Val([
            (1999999989, 2000000011),
            (35999999916, 36000000086),
            (799999999, 800000001),
            (1999999985, 2000000016)
        ])
    );
    assert_eq!(rt;
        met::<Iv<12>, L>(
            &lens,
            &level(1000000000000, 6000000000000, 1, 1),
            1,
            &mut steps
        ),
        Step::Val([
            (1999999999989, 2000000000011),
            (35999999999916, 36000000000086),
            (799999999999, 800000000001),
            (1999999999985, 2000000000016)
        ])
    );
}

/// An even asphere within its zone and past it.
fn meets_a_bent_asphere<R: Abort, L: Ledger>(rt: &R, blank: Blank)
    requires name { blank.name ≡ L.name }
    requires parts { blank.parts ≡ L.parts }
    requires some { 0 < L.parts }
{
    let lens = bent_lens();
    let mut steps = Steps::<L>::start(blank);
    assert_eq!(rt;
        met::<Iv<15>, L>(
            &lens,
            &level(1000000000000000, 6000000000000000, 1000, 500),
            1000,
            &mut steps
        ),
        Step::Val([
            (2012959999994763, 2012960000005237),
            (35999999999963808, 36000000000036194),
            (799999999999711, 800000000000289),
            (2012959999991756, 2012960000008244)
        ])
    );
    assert_eq!(rt;
        met::<Iv<6>, L>(&lens, &level(1000000, 9000000, 1, 1), 1, &mut steps),
        Step::Empty
    );
}

/// A plane at its rim.
fn meets_a_rim<R: Abort, L: Ledger>(rt: &R, blank: Blank)
    requires name { blank.name ≡ L.name }
    requires parts { blank.parts ≡ L.parts }
    requires some { 0 < L.parts }
{
    let lens = rimmed_lens();
    let mut steps = Steps::<L>::start(blank);
    assert_eq!(rt;
        met::<Iv<15>, L>(
            &lens,
            &level(1000000000000000, 5000000000000000, 1000, 500),
            1000,
            &mut steps
        ),
        Step::Val([
            (-500, 500),
            (24999999999989980, 25000000000010022),
            (1000000000000000, 1000000000000000),
            (-2501, 2501)
        ])
    );
}

/// A mirror.
fn meets_a_mirror<R: Abort, L: Ledger>(rt: &R, blank: Blank)
    requires name { blank.name ≡ L.name }
    requires parts { blank.parts ≡ L.parts }
    requires some { 0 < L.parts }
{
    let lens = mirror_lens();
    let mut steps = Steps::<L>::start(blank);
    assert_eq!(rt;
        met::<Iv<6>, L>(&lens, &level(1000000, 2000000, 1, 1), 1, &mut steps),
        Step::Val([
            (-200002, -199998),
            (3999988, 4000014),
            (1000000, 1000000),
            (-200005, -199995)
        ])
    );
}

/// The same where the height of the ray has the symbol 0, by `delta` units.
fn met_within<T: Arith, L: Ledger>(
    lens: &Setup,
    ray: &Ray<T>,
    delta: i128,
    e: i128,
    steps: &mut Steps<L>,
) -> Step<[(i128, i128); 4]>
    requires scale { T.SCALE ≤ 15 }
    requires well { IsWellFormed lens.now }
    requires count { length lens.now.lens.surfaces.items ≡ 3 }
    requires sign { pos 0 ≤ℤ delta }
    requires cap { InCap delta }
    requires low { pos 0 ≤ℤ e }
    requires high { InCap e }
{
    let delta = Span {
        lo: delta,
        hi: delta,
    };
    let mut ray = *ray;
    ray.y = val!(ray.y.symbol(0, delta));
    met(lens, &ray, e, steps)
}

/// The sphere at the height 6, in linear forms.
fn meets_a_sphere_in_forms<R: Abort, L: Ledger>(rt: &R, blank: Blank)
    requires name { blank.name ≡ L.name }
    requires parts { blank.parts ≡ L.parts }
    requires some { 0 < L.parts }
{
    let lens = sphere_lens();
    let mut steps = Steps::<L>::start(blank);
    assert_eq!(rt;
        met::<Form<6>, L>(&lens, &level(1000000, 6000000, 1, 1), 1, &mut steps),
        Step::Val([
            (1999985, 2000015),
            (35999914, 36000086),
            (799998, 800002),
            (1999980, 2000020)
        ])
    );
    assert_eq!(rt;
        met_within::<Form<9>, L>(
            &lens,
            &level(1000000000, 6000000000, 1, 1),
            1000000,
            1,
            &mut steps
        ),
        Step::Val([
            (1999249889, 2000750111),
            (35987998914, 36012001086),
            (799924988, 800075012),
            (1999249884, 2000750116)
        ])
    );
}

/// The bent asphere at the height 6, in linear forms.
fn meets_a_bent_asphere_in_forms<R: Abort, L: Ledger>(rt: &R, blank: Blank)
    requires name { blank.name ≡ L.name }
    requires parts { blank.parts ≡ L.parts }
    requires some { 0 < L.parts }
{
    let lens = bent_lens();
    let mut steps = Steps::<L>::start(blank);
    assert_eq!(rt;
        met::<Form<15>, L>(
            &lens,
            &level(1000000000000000, 6000000000000000, 1000, 500),
            1000,
            &mut steps
        ),
        Step::Val([
            (2012959999994761, 2012960000005239),
            (35999999999963806, 36000000000036194),
            (799999999999710, 800000000000290),
            (2012959999991753, 2012960000008247)
        ])
    );
    assert_eq!(rt;
        met_within::<Form<9>, L>(
            &lens,
            &level(1000000000, 6000000000, 1, 1),
            1000000,
            1,
            &mut steps
        ),
        Step::Val([
            (2012201246, 2013718754),
            (35987998914, 36012001086),
            (799924989, 800075011),
            (2012201240, 2013718760)
        ])
    );
}

#[test]
fn sphere_height_and_past_it(rt: HostRuntime) {
    meets_a_sphere::<HostRuntime, Brand>(&rt, Blank::new(1));
}

#[test]
fn sphere_as_an_asphere(rt: HostRuntime) {
    meets_the_same_asphere::<HostRuntime, Brand>(&rt, Blank::new(1));
}

#[test]
fn asphere_and_past_its_zone(rt: HostRuntime) {
    meets_a_bent_asphere::<HostRuntime, Brand>(&rt, Blank::new(1));
}

#[test]
fn rim_tie(rt: HostRuntime) {
    meets_a_rim::<HostRuntime, Brand>(&rt, Blank::new(1));
}

#[test]
fn mirror_before_its_vertex(rt: HostRuntime) {
    meets_a_mirror::<HostRuntime, Brand>(&rt, Blank::new(1));
}

#[test]
fn sphere_in_linear_forms(rt: HostRuntime) {
    meets_a_sphere_in_forms::<HostRuntime, Brand>(&rt, Blank::new(1));
}

#[test]
fn asphere_in_linear_forms(rt: HostRuntime) {
    meets_a_bent_asphere_in_forms::<HostRuntime, Brand>(&rt, Blank::new(1));
}
