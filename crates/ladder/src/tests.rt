//! Rows with the values that an independent program of the same rules gives.

ghost use Rattle.std.specs.Prelude.{◌≡◌, ◌≢◌, pos, ◌<◌, ◌≤ℤ◌, None, Some};
ghost use Rattle.ladder.specs.Samples as samples;
ghost use Rattle.lensmodel.specs.Setup.WellFormed.{IsWellFormed};

mod rows;

use crate::bench::Bench;
use arrayvec::ArrayVec;
use fixdec::dec::Dec;
use fixdec::span::Span;
use lensmodel::glass::Medium;
use lensmodel::launch::Launch;
use lensmodel::prescription::Prescription;
use lensmodel::row::{Place, Row, Word};
use lensmodel::setup::Setup;
use lensmodel::surface::{Surface, SurfaceKind};
use lensmodel::tolerance::{Tol, TolBox, TolKind};
use sagform::steps::Steps;
use skewtrace::prepared::PrepFull;
use std::alloc::Global;
use std::marker::Brand;
use std::sync::ledger::{Blank, Ledger};
use std::test::Fail;

const ZERO: Dec = Dec { mant: 0, exp: 0 };

/// A plane in air, with the image `thick` behind it.
fn flat(thick: i64) -> Surface
    ensures { result ≡ samples.flat thick }
{
    Surface {
        kind: SurfaceKind::Standard,
        curv: ZERO,
        conic: ZERO,
        thick: Some(Dec {
            mant: i128::from(thick),
            exp: 0,
        }),
        glass: None,
        semi: None,
        rim: false,
        mirror: false,
        a1: ZERO,
        a2: ZERO,
        a3: ZERO,
        a4: ZERO,
        a5: ZERO,
        a6: ZERO,
        a7: ZERO,
        a8: ZERO,
    }
}

/// A sphere of radius 10.
fn sphere() -> Surface
    ensures { result ≡ samples.sphere }
{
    let mut surface = flat(10);
    surface.curv = Dec { mant: 1, exp: -1 };
    surface
}

/// A plane with a rim of radius 5.
fn rimmed() -> Surface
    ensures { result ≡ samples.rimmed }
{
    let mut surface = flat(4);
    surface.semi = Some(Dec { mant: 5, exp: 0 });
    surface.rim = true;
    surface
}

/// An object at infinity, a surface and the image.
fn behind_object(surface: Surface) -> ArrayVec<Surface, 64>
    ensures { result.items ≡ samples.behind_object surface }
{
    let mut object = flat(0);
    object.thick = None;
    let mut surfaces: ArrayVec<Surface, 64> = ArrayVec::new();
    surfaces.push(object);
    surfaces.push(surface);
    surfaces.push(flat(0));
    surfaces
}

/// Air before and behind the surface.
fn air() -> ArrayVec<Medium, 64>
    ensures { result.items ≡ samples.air }
{
    let mut media: ArrayVec<Medium, 64> = ArrayVec::new();
    media.push(Medium::Air);
    media.push(Medium::Air);
    media
}

/// A surface in air, behind an object at infinity.
fn sample(surface: Surface, width: Dec, toler: Option<TolBox>) -> Setup
    ensures { result ≡ samples.sample surface width toler }
{
    Setup {
        lens: Prescription {
            surfaces: behind_object(surface),
            stop: 1,
            waves: ArrayVec::new(),
            primary: 1,
        },
        media: air(),
        wave: Dec { mant: 5, exp: -1 },
        res: 12,
        width,
        toler,
    }
}

/// A tolerance on surface 1.
fn boxed(kind: TolKind, delta: Dec) -> TolBox
    ensures { result ≡ samples.boxed kind delta }
{
    let mut list: ArrayVec<Tol, 32> = ArrayVec::new();
    list.push(Tol {
        kind,
        surface: 1,
        delta,
    });
    TolBox { list }
}

/// The bound of most jobs.
fn narrow() -> Dec
    ensures { result ≡ samples.narrow }
{
    Dec { mant: 1, exp: -3 }
}

/// The plane with the image 4 behind it.
fn plane_lens() -> Setup
    ensures { IsWellFormed result }
{
    sample(flat(4), narrow(), None)
}

/// The sphere.
fn sphere_lens() -> Setup
    ensures { IsWellFormed result }
{
    sample(sphere(), narrow(), None)
}

/// The plane with a rim.
fn rimmed_lens() -> Setup
    ensures { IsWellFormed result }
{
    sample(rimmed(), narrow(), None)
}

/// The plane with the image far behind it.
fn far_lens() -> Setup
    ensures { IsWellFormed result }
{
    sample(flat(10_000_000), narrow(), None)
}

/// The plane in a box without width.
fn zero_box() -> Setup
    ensures { IsWellFormed result }
{
    sample(flat(4), narrow(), Some(boxed(TolKind::Curv, ZERO)))
}

/// The plane with a tolerance on its thickness.
fn thickness_box() -> Setup
    ensures { IsWellFormed result }
{
    let tenth = Dec { mant: 1, exp: -1 };
    sample(
        flat(4),
        Dec { mant: 2, exp: 0 },
        Some(boxed(TolKind::Thic, tenth)),
    )
}

/// A ray in the plane of y and z, at the height `y` with the slope `q`.
fn ray(y: Dec, q: Dec) -> Launch {
    Launch::Plain {
        x: ZERO,
        y,
        p: ZERO,
        q,
    }
}

/// The ray that leaves the vertex with a slope of 0.75.
fn slanted() -> Launch {
    ray(ZERO, Dec { mant: 75, exp: -2 })
}

/// The ray along the axis at the height `y`, in tenths.
fn level(y: i64) -> Launch
    requires { y ≢ pos 0 }
{
    let height = Dec {
        mant: i128::from(y),
        exp: -1,
    };
    ray(height, ZERO)
}

/// The row of a ray over a bench that is filled once.
fn row_by<L: Ledger>(alloc: Global, s: &Setup, q: &Launch, blank: Blank) -> Result<Row, PrepFull>
    requires well { IsWellFormed s.now }
    requires name { blank.name ≡ L.name }
    requires parts { blank.parts ≡ L.parts }
    requires some { 0 < L.parts }
{
    let mut steps = Steps::<L>::start(blank);
    let mut bench = Bench::room(alloc)?;
    bench.fill(s, &mut steps);
    Ok(bench.row(s, q))
}

/// The same over a ledger of its own.
fn row_of(alloc: Global, s: &Setup, q: &Launch) -> Result<Row, PrepFull>
    requires { IsWellFormed s.now }
{
    row_by::<Brand>(alloc, s, q, Blank::new(1))
}

/// The ends of an interval.
fn ends(a: &Span) -> (i128, i128) {
    (a.lo, a.hi)
}

/// The ends of rho, x, y, z and the path of a place.
fn at(p: &Place) -> [(i128, i128); 5] {
    [
        ends(&p.rho),
        ends(&p.x),
        ends(&p.y),
        ends(&p.z),
        ends(&p.path),
    ]
}

/// The ends of L, M and N of a place.
fn to(p: &Place) -> Option<[(i128, i128); 3]> {
    match &p.heading {
        None => None,
        Some(h) => Some([ends(&h.l), ends(&h.m), ends(&h.n)]),
    }
}

#[test]
fn slanted_plane(rt: HostRuntime) -> Result<(), Fail> {
    let row = row_of(rt.alloc(), &plane_lens(), &slanted())?;
    assert_eq!(rt; row.scale, 6);
    assert_eq!(rt; row.word, Word::Passes);
    assert_eq!(rt; row.places.len(), 2);
    let places = row.places.as_slice();
    assert_eq!(rt;
        at(&places[0]),
        [(0, 2), (-3, 3), (-3, 3), (-1, 1), (-4, 4)]
    );
    assert_eq!(rt;
        to(&places[0]),
        Some([(-1, 1), (599998, 600002), (799999, 800001)])
    );
    assert_eq!(rt;
        at(&places[1]),
        [
            (8999862, 9000140),
            (-14, 14),
            (2999977, 3000023),
            (-1, 1),
            (4999985, 5000016)
        ]
    );
    assert_eq!(rt; to(&places[1]), None);
    Ok(())
}

#[test]
fn sphere_height_and_past_it(rt: HostRuntime) -> Result<(), Fail> {
    let lens = sphere_lens();
    let row = row_of(rt.alloc(), &lens, &level(60))?;
    assert_eq!(rt; (row.scale, row.word), (6, Word::Passes));
    assert_eq!(rt; row.places.len(), 2);
    assert_eq!(rt; ends(&row.places.as_slice()[0].z), (1999991, 2000012));
    let past = row_of(rt.alloc(), &lens, &level(110))?;
    assert_eq!(rt;
        (past.scale, past.word, past.places.len()),
        (6, Word::Outside(1), 0)
    );
    let edge = row_of(rt.alloc(), &lens, &level(100))?;
    assert_eq!(rt; (edge.scale, edge.word), (12, Word::Passes));
    Ok(())
}

#[test]
fn rim_tie(rt: HostRuntime) -> Result<(), Fail> {
    let lens = rimmed_lens();
    let tie = row_of(rt.alloc(), &lens, &level(50))?;
    let rho = Span {
        lo: 24_999_999_999_989_980,
        hi: 25_000_000_000_010_022,
    };
    let rim2 = Span {
        lo: 25_000_000_000_000_000,
        hi: 25_000_000_000_000_000,
    };
    assert_eq!(rt; (tie.scale, tie.word), (15, Word::Undecided(1, rho, rim2)));
    let inside = row_of(rt.alloc(), &lens, &level(49))?;
    assert_eq!(rt; (inside.scale, inside.word), (6, Word::Passes));
    let outside = row_of(rt.alloc(), &lens, &level(51))?;
    assert_eq!(rt; (outside.scale, outside.word), (6, Word::Vignetted(1)));
    Ok(())
}

#[test]
fn far_image(rt: HostRuntime) -> Result<(), Fail> {
    let row = row_of(rt.alloc(), &far_lens(), &ray(ZERO, ZERO))?;
    assert_eq!(rt; (row.scale, row.word, row.places.len()), (9, Word::Wide, 2));
    Ok(())
}

#[test]
fn boxes(rt: HostRuntime) -> Result<(), Fail> {
    let zero = row_of(rt.alloc(), &zero_box(), &slanted())?;
    assert_eq!(rt;
        (zero.scale, zero.word, zero.places.len()),
        (6, Word::Passes, 2)
    );
    assert_eq!(rt;
        at(&zero.places.as_slice()[1]),
        [
            (8999788, 9000212),
            (-18, 18),
            (2999965, 3000035),
            (-1, 1),
            (4999976, 5000024)
        ]
    );
    let thick = row_of(rt.alloc(), &thickness_box(), &slanted())?;
    assert_eq!(rt;
        (thick.scale, thick.word, thick.places.len()),
        (6, Word::Passes, 2)
    );
    assert_eq!(rt;
        at(&thick.places.as_slice()[1]),
        [
            (8544152, 9455848),
            (-18, 18),
            (2924964, 3075036),
            (-1, 1),
            (4874976, 5125024)
        ]
    );
    Ok(())
}
