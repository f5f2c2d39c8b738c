//! Prepared surfaces, their sags and normals, with the values that an independent program of the
//! same rules gives.

ghost use Rattle.std.specs.Prelude.{◌≡◌, pos, ◌-◌, ◌<◌, ◌≤◌, ◌≤ℤ◌, length};
ghost use Rattle.fixdec.specs.Ends.{InCap};
ghost use Rattle.lensmodel.specs.Setup.WellFormed.{IsWellFormed};

use super::lenses::{asphere_lens, mirror_lens, plate_lens};
use crate::face::Face;
use crate::prepare::face;
use crate::ray::Hit;
use crate::sag::{normal, sag};
use crate::steps::Steps;
use enclose::arith::Arith;
use enclose::iv::Iv;
use fixdec::span::Span;
use fixdec::step::Step;
use fixdec::val;
use lensmodel::setup::Setup;
use std::marker::Brand;
use std::process::Abort;
use std::sync::ledger::{Blank, Ledger};

/// The ends of a value.
fn ends<T: Arith>(v: T) -> (i128, i128)
    requires { T.SCALE ≤ 15 }
{
    let hull = v.hull();
    (hull.lo, hull.hi)
}

/// The value of one number.
fn exactly<T: Arith>(v: i128) -> T
    requires scale { T.SCALE ≤ 15 }
    requires range { InCap v }
{
    T::of_span(Span { lo: v, hi: v })
}

/// The sag of a surface and the slope of its normal, where rho and w are these numbers.
fn shape<T: Arith>(f: &Face<T>, rho: i128, w: i128) -> Step<[(i128, i128); 2]>
    requires scale { T.SCALE ≤ 15 }
    requires rho { InCap rho }
    requires w { InCap w }
{
    let z = val!(sag(f, exactly(rho), 1));
    let hit = Hit {
        x: exactly(0),
        y: exactly(0),
        z,
        rho: exactly(rho),
        w: exactly(w),
        path: exactly(0),
    };
    let slope = val!(normal(f, &hit, 1));
    Step::Val([ends(z), ends(slope)])
}

/// Of surface `j` the distance, the curvature, the conic factor, the product of both and the index
/// before it.
fn prepared<T: Arith, L: Ledger>(s: &Setup, j: u32, steps: &mut Steps<L>) -> Step<[(i128, i128); 5]>
    requires scale { T.SCALE ≤ 15 }
    requires well { IsWellFormed s.now }
    requires low { 1 ≤ j }
    requires high { j < length s.now.lens.surfaces.items }
{
    let f = val!(face::<T, L>(s, j, steps));
    Step::Val([
        ends(f.d()),
        ends(f.c()),
        ends(f.kappa()),
        ends(f.ck()),
        ends(f.n()),
    ])
}

/// The shape of surface `j`.
fn shaped<T: Arith, L: Ledger>(
    s: &Setup,
    j: u32,
    rho: i128,
    w: i128,
    steps: &mut Steps<L>,
) -> Step<[(i128, i128); 2]>
    requires scale { T.SCALE ≤ 15 }
    requires well { IsWellFormed s.now }
    requires low { 1 ≤ j }
    requires high { j < length s.now.lens.surfaces.items }
    requires rho { InCap rho }
    requires w { InCap w }
{
    let f = val!(face::<T, L>(s, j, steps));
    shape(&f, rho, w)
}

/// The sign of travel before surface `j`, whether it reflects, and the index behind it.
fn headed<T: Arith, L: Ledger>(
    s: &Setup,
    j: u32,
    steps: &mut Steps<L>,
) -> Step<(i32, bool, Option<(i128, i128)>)>
    requires scale { T.SCALE ≤ 15 }
    requires well { IsWellFormed s.now }
    requires low { 1 ≤ j }
    requires high { j < length s.now.lens.surfaces.items }
{
    let f = val!(face::<T, L>(s, j, steps));
    let behind = match f.n2() {
        Some(n2) => Some(ends(n2)),
        None => None,
    };
    Step::Val((f.sign(), f.mirror(), behind))
}

/// The power of ten of surface 1, the square of its zone and its first three coefficients.
fn zoned<T: Arith, L: Ledger>(s: &Setup, steps: &mut Steps<L>) -> Step<(i32, [(i128, i128); 4])>
    requires scale { T.SCALE ≤ 15 }
    requires well { IsWellFormed s.now }
    requires count { 1 < length s.now.lens.surfaces.items }
{
    let f = val!(face::<T, L>(s, 1, steps));
    let Some(zone2) = f.zone2() else {
        return Step::Empty;
    };
    Step::Val((
        f.norm(),
        [ends(zone2), ends(f.b1()), ends(f.b2()), ends(f.b3())],
    ))
}

/// An even asphere, at the height 6.
fn knows_an_asphere<R: Abort, L: Ledger>(rt: &R, blank: Blank)
    requires name { blank.name ≡ L.name }
    requires parts { blank.parts ≡ L.parts }
    requires some { 0 < L.parts }
{
    let lens = asphere_lens();
    let mut steps = Steps::<L>::start(blank);
    assert_eq!(rt;
        prepared::<Iv<9>, L>(&lens, 1, &mut steps),
        Step::Val([
            (0, 0),
            (100000000, 100000000),
            (1000000000, 1000000000),
            (100000000, 100000000),
            (1000000000, 1000000000)
        ])
    );
    assert_eq!(rt;
        zoned::<Iv<9>, L>(&lens, &mut steps),
        Step::Val((
            2,
            [
                (77440000000, 77440000000),
                (0, 0),
                (100000000, 100000000),
                (0, 0)
            ]
        ))
    );
    assert_eq!(rt;
        shaped::<Iv<9>, L>(&lens, 1, 36000000000, 800000000, &mut steps),
        Step::Val([(2012959998, 2012960002), (126439998, 126440002)])
    );
}

/// The second surface of a plate, before which the index has a tolerance.
fn knows_a_plate<R: Abort, L: Ledger>(rt: &R, blank: Blank)
    requires name { blank.name ≡ L.name }
    requires parts { blank.parts ≡ L.parts }
    requires some { 0 < L.parts }
{
    let lens = plate_lens();
    let mut steps = Steps::<L>::start(blank);
    assert_eq!(rt;
        prepared::<Iv<9>, L>(&lens, 2, &mut steps),
        Step::Val([
            (4000000000, 4000000000),
            (0, 0),
            (1000000000, 1000000000),
            (0, 0),
            (1489999999, 1510000001)
        ])
    );
    assert_eq!(rt;
        headed::<Iv<9>, L>(&lens, 2, &mut steps),
        Step::Val((1, false, Some((1000000000, 1000000000))))
    );
    assert_eq!(rt;
        shaped::<Iv<9>, L>(&lens, 2, 9000000000, 1000000000, &mut steps),
        Step::Val([(-1, 1), (-1, 1)])
    );
}

/// A mirror at the height 2, and the image behind it.
fn knows_a_mirror<R: Abort, L: Ledger>(rt: &R, blank: Blank)
    requires name { blank.name ≡ L.name }
    requires parts { blank.parts ≡ L.parts }
    requires some { 0 < L.parts }
{
    let lens = mirror_lens();
    let mut steps = Steps::<L>::start(blank);
    assert_eq!(rt;
        headed::<Iv<9>, L>(&lens, 1, &mut steps),
        Step::Val((1, true, Some((1000000000, 1000000000))))
    );
    assert_eq!(rt;
        shaped::<Iv<9>, L>(&lens, 1, 4000000000, 1000000000, &mut steps),
        Step::Val([(-200000001, -199999999), (-100000001, -99999999)])
    );
    assert_eq!(rt;
        prepared::<Iv<9>, L>(&lens, 2, &mut steps),
        Step::Val([
            (-5000000000, -5000000000),
            (0, 0),
            (1000000000, 1000000000),
            (0, 0),
            (1000000000, 1000000000)
        ])
    );
    assert_eq!(rt;
        headed::<Iv<9>, L>(&lens, 2, &mut steps),
        Step::Val((-1, false, None))
    );
}

#[test]
fn asphere_at_six(rt: HostRuntime) {
    knows_an_asphere::<HostRuntime, Brand>(&rt, Blank::new(1));
}

#[test]
fn plate_with_a_tolerance(rt: HostRuntime) {
    knows_a_plate::<HostRuntime, Brand>(&rt, Blank::new(1));
}

#[test]
fn mirror_and_image(rt: HostRuntime) {
    knows_a_mirror::<HostRuntime, Brand>(&rt, Blank::new(1));
}
