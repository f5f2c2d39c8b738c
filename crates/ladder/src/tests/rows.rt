//! Worked rows of lenses with glass, with an even asphere, with a mirror and of many surfaces.

ghost use Rattle.std.specs.Prelude.{◌≡◌, ◌≢◌, pos, negsuc, ◌<◌, ◌≤ℤ◌};
ghost use Rattle.ladder.specs.RowSamples as samples;
ghost use Rattle.ladder.specs.Samples as lenses;
ghost use Rattle.lensmodel.specs.Setup.WellFormed.{IsWellFormed};

use super::{ZERO, at, ends, flat, level, narrow, ray, rimmed, row_of, sample, sphere, to};
use crate::row::row;
use arrayvec::ArrayVec;
use fixdec::dec::Dec;
use fixdec::step::Why;
use lensmodel::glass::{Glass, Medium};
use lensmodel::launch::{Launch, Ratio};
use lensmodel::prescription::Prescription;
use lensmodel::row::{Row, Word};
use lensmodel::setup::Setup;
use lensmodel::surface::{Surface, SurfaceKind};
use lensmodel::tolerance::{Tol, TolBox, TolKind};
use sagform::steps::Steps;
use std::marker::Brand;
use std::sync::ledger::{Blank, Ledger};
use std::test::Fail;

/// A glass whose index has the same square at every wavelength.
fn glass(square: Dec) -> Medium
    ensures { result ≡ samples.glass square }
{
    Medium::Of(Glass {
        name: ArrayVec::new(),
        formula: 1,
        c0: square,
        c1: ZERO,
        c2: ZERO,
        c3: ZERO,
        c4: ZERO,
        c5: ZERO,
        low: None,
        high: None,
    })
}

/// The glass of index 1.5.
fn flat_glass() -> Medium
    ensures { result ≡ samples.flat_glass }
{
    glass(Dec { mant: 225, exp: -2 })
}

/// A surface between two media.
fn between(surface: Surface, before: Medium, behind: Medium) -> Setup
    ensures { result ≡ samples.between surface before behind }
{
    let mut media: ArrayVec<Medium, 64> = ArrayVec::new();
    media.push(before);
    media.push(behind);
    let mut setup = sample(surface, narrow(), None);
    setup.media = media;
    setup
}

/// The sphere as an even asphere.
fn spherical() -> Surface
    ensures { result ≡ samples.spherical }
{
    let mut surface = sphere();
    surface.kind = SurfaceKind::EvenAsph;
    surface.semi = Some(Dec { mant: 8, exp: 0 });
    surface
}

/// A bowl as an even asphere.
fn bowl() -> Surface
    ensures { result ≡ samples.bowl }
{
    let mut surface = flat(4);
    surface.kind = SurfaceKind::EvenAsph;
    surface.semi = Some(Dec { mant: 5, exp: 0 });
    surface.a1 = Dec { mant: 1, exp: -1 };
    surface
}

/// The same bowl as a parabola.
fn paraboloid() -> Surface
    ensures { result ≡ samples.paraboloid }
{
    let mut surface = flat(4);
    surface.curv = Dec { mant: 2, exp: -1 };
    surface.conic = Dec { mant: -1, exp: 0 };
    surface
}

/// A parabola that reflects into its focus.
fn mirror() -> Surface
    ensures { result ≡ samples.mirror }
{
    let mut surface = flat(-5);
    surface.curv = Dec { mant: -1, exp: -1 };
    surface.conic = Dec { mant: -1, exp: 0 };
    surface.mirror = true;
    surface
}

/// The sphere in front of glass.
fn glass_lens() -> Setup
    ensures { IsWellFormed result }
{
    between(sphere(), Medium::Air, flat_glass())
}

/// The plane behind glass.
fn inside_glass() -> Setup
    ensures { IsWellFormed result }
{
    between(flat(4), flat_glass(), Medium::Air)
}

/// The sphere as an even asphere in air.
fn spherical_lens() -> Setup
    ensures { IsWellFormed result }
{
    sample(spherical(), narrow(), None)
}

/// The bowl as an even asphere in air.
fn bowl_lens() -> Setup
    ensures { IsWellFormed result }
{
    sample(bowl(), narrow(), None)
}

/// The bowl as a parabola in air.
fn paraboloid_lens() -> Setup
    ensures { IsWellFormed result }
{
    sample(paraboloid(), narrow(), None)
}

/// The mirror in air.
fn mirror_lens() -> Setup
    ensures { IsWellFormed result }
{
    sample(mirror(), narrow(), None)
}

/// The plane with a rim, whose residual is the least.
fn finest_lens() -> Setup
    ensures { IsWellFormed result }
{
    let mut setup = sample(rimmed(), narrow(), None);
    setup.res = 14;
    setup
}

/// A surface with a rim.
fn element(curv: Dec, thick: Dec, semi: Dec) -> Surface
    ensures { result ≡ samples.element curv thick semi }
{
    let mut surface = flat(0);
    surface.curv = curv;
    surface.thick = Some(thick);
    surface.semi = Some(semi);
    surface.rim = true;
    surface
}

/// A decimal that isn't 0.
fn dec(mant: i64, exp: i32) -> Dec
    requires some { mant ≢ pos 0 }
    requires low { negsuc 59 ≤ℤ exp }
    requires high { exp ≤ℤ pos 30 }
    ensures { result ≡ lenses.decimal mant exp }
{
    Dec {
        mant: i128::from(mant),
        exp,
    }
}

/// The surfaces of the triplet.
fn elements() -> ArrayVec<Surface, 64>
    ensures { result.items ≡ samples.elements }
{
    let mut object = flat(0);
    object.thick = None;
    let mut surfaces: ArrayVec<Surface, 64> = ArrayVec::new();
    surfaces.push(object);
    surfaces.push(element(dec(454, -4), dec(326, -2), dec(95, -1)));
    surfaces.push(element(dec(-23, -4), dec(601, -2), dec(95, -1)));
    surfaces.push(element(dec(-45, -3), dec(1, 0), dec(6, 0)));
    surfaces.push(element(dec(493, -4), dec(475, -2), dec(6, 0)));
    surfaces.push(element(dec(1255, -5), dec(295, -2), dec(9, 0)));
    surfaces.push(element(dec(-5436, -5), dec(422, -1), dec(9, 0)));
    surfaces.push(flat(0));
    surfaces
}

/// The glass of the outer elements.
fn crown() -> Medium
    ensures { result ≡ samples.crown }
{
    glass(dec(26244, -4))
}

/// The glass of the middle element.
fn flint() -> Medium
    ensures { result ≡ samples.flint }
{
    glass(dec(26569, -4))
}

/// The media of the triplet.
fn glasses() -> ArrayVec<Medium, 64>
    ensures { result.items ≡ samples.glasses }
{
    let mut media: ArrayVec<Medium, 64> = ArrayVec::new();
    media.push(Medium::Air);
    media.push(crown());
    media.push(Medium::Air);
    media.push(flint());
    media.push(Medium::Air);
    media.push(crown());
    media.push(Medium::Air);
    media
}

/// The triplet, whose residual is 10^-9.
fn triplet(toler: Option<TolBox>) -> Setup
    ensures { result ≡ samples.triplet toler }
{
    Setup {
        lens: Prescription {
            surfaces: elements(),
            stop: 3,
            waves: ArrayVec::new(),
            primary: 1,
        },
        media: glasses(),
        wave: dec(5, -1),
        res: 9,
        width: dec(5, -1),
        toler,
    }
}

/// A tolerance on the curvature of a surface.
fn on_curvature(surface: u32) -> Tol
    ensures { result ≡ samples.on_curvature surface }
{
    Tol {
        kind: TolKind::Curv,
        surface,
        delta: dec(2, -5),
    }
}

/// A tolerance on the thickness behind a surface.
fn on_thickness(surface: u32) -> Tol
    ensures { result ≡ samples.on_thickness surface }
{
    Tol {
        kind: TolKind::Thic,
        surface,
        delta: dec(1, -2),
    }
}

/// A tolerance on the index behind a surface.
fn on_index(surface: u32) -> Tol
    ensures { result ≡ samples.on_index surface }
{
    Tol {
        kind: TolKind::Indx,
        surface,
        delta: dec(5, -4),
    }
}

/// The box of the triplet.
fn tolerances() -> TolBox
    ensures { result ≡ samples.box }
{
    let mut list: ArrayVec<Tol, 32> = ArrayVec::new();
    list.push(on_curvature(1));
    list.push(on_curvature(2));
    list.push(on_curvature(3));
    list.push(on_curvature(4));
    list.push(on_curvature(5));
    list.push(on_curvature(6));
    list.push(on_thickness(1));
    list.push(on_thickness(2));
    list.push(on_thickness(3));
    list.push(on_thickness(4));
    list.push(on_thickness(5));
    list.push(on_index(1));
    list.push(on_index(3));
    list.push(on_index(5));
    TolBox { list }
}

/// The triplet without a box.
fn triplet_lens() -> Setup
    ensures { IsWellFormed result }
{
    triplet(None)
}

/// The triplet in its box.
fn triplet_box() -> Setup
    ensures { IsWellFormed result }
{
    triplet(Some(tolerances()))
}

/// A coordinate in the pupil, in fifths.
fn fifths(num: i64) -> Ratio
    requires { num ≢ pos 0 }
{
    Ratio {
        num: dec(num, 0),
        den: 5,
    }
}

/// The middle of the pupil.
fn middle() -> Ratio {
    Ratio { num: ZERO, den: 1 }
}

/// A ray along the axis through a point of the triplet's pupil.
fn through(px: Ratio, py: Ratio) -> Launch {
    Launch::Pupil {
        p: ZERO,
        q: ZERO,
        px,
        py,
        z: dec(1, 1),
        r: dec(4, 0),
    }
}

/// The row of a ray by surfaces that are prepared for it alone.
fn alone_by<L: Ledger>(s: &Setup, q: &Launch, blank: Blank) -> Row
    requires well { IsWellFormed s.now }
    requires name { blank.name ≡ L.name }
    requires parts { blank.parts ≡ L.parts }
    requires some { 0 < L.parts }
{
    let mut steps = Steps::<L>::start(blank);
    row(s, q, &mut steps)
}

/// The same over a ledger of its own.
fn alone(s: &Setup, q: &Launch) -> Row
    requires { IsWellFormed s.now }
{
    alone_by::<Brand>(s, q, Blank::new(1))
}

#[test]
fn glass_axis(rt: HostRuntime) -> Result<(), Fail> {
    let row = row_of(rt.alloc(), &glass_lens(), &ray(ZERO, ZERO))?;
    assert_eq!(rt;
        (row.scale, row.word, row.places.len()),
        (6, Word::Passes, 2)
    );
    let places = row.places.as_slice();
    assert_eq!(rt;
        at(&places[0]),
        [(0, 2), (-3, 3), (-3, 3), (-1, 2), (-4, 5)]
    );
    assert_eq!(rt; to(&places[0]), Some([(-3, 3), (-3, 3), (999989, 1000012)]));
    assert_eq!(rt;
        at(&places[1]),
        [(0, 2), (-46, 46), (-46, 46), (-1, 1), (14999799, 15000188)]
    );
    Ok(())
}

#[test]
fn total_reflection(rt: HostRuntime) -> Result<(), Fail> {
    let lens = inside_glass();
    let steep = row_of(rt.alloc(), &lens, &ray(ZERO, dec(12, -1)))?;
    assert_eq!(rt;
        (steep.scale, steep.word, steep.places.len()),
        (6, Word::Tir(1), 1)
    );
    assert_eq!(rt; to(&steep.places.as_slice()[0]), None);
    let grazing = row_of(rt.alloc(), &lens, &ray(ZERO, dec(894427190999916, -15)))?;
    assert_eq!(rt;
        (grazing.scale, grazing.word, grazing.places.len()),
        (15, Word::Lost(2, Why::Zero), 1)
    );
    assert_eq!(rt;
        to(&grazing.places.as_slice()[0]),
        Some([
            (-2503, 2503),
            (999999999995772, 1000000000004231),
            (-5245, 2704261151)
        ])
    );
    Ok(())
}

#[test]
fn sphere_as_an_asphere(rt: HostRuntime) -> Result<(), Fail> {
    let row = row_of(rt.alloc(), &spherical_lens(), &level(60))?;
    assert_eq!(rt;
        (row.scale, row.word, row.places.len()),
        (6, Word::Passes, 2)
    );
    assert_eq!(rt;
        at(&row.places.as_slice()[0]),
        [
            (35999916, 36000086),
            (-7, 7),
            (5999993, 6000007),
            (1999989, 2000011),
            (1999985, 2000016)
        ]
    );
    assert_eq!(rt; ends(&row.places.as_slice()[1].path), (9999963, 10000039));
    Ok(())
}

#[test]
fn bowl_by_both_kinds(rt: HostRuntime) -> Result<(), Fail> {
    let steep = ray(dec(375, -3), dec(5, 0));
    let lost = row_of(rt.alloc(), &bowl_lens(), &steep)?;
    assert_eq!(rt;
        (lost.scale, lost.word, lost.places.len()),
        (15, Word::Lost(1, Why::Range), 0)
    );
    let met = row_of(rt.alloc(), &paraboloid_lens(), &steep)?;
    assert_eq!(rt; (met.scale, met.word), (9, Word::Passes));
    assert_eq!(rt; met.places.len(), 2);
    assert_eq!(rt;
        at(&met.places.as_slice()[0]),
        [
            (249999970, 250000032),
            (-3, 3),
            (499999970, 500000030),
            (24999996, 25000004),
            (127475460, 127475516)
        ]
    );
    Ok(())
}

#[test]
fn triplet_along_the_axis(rt: HostRuntime) -> Result<(), Fail> {
    let row = row_of(rt.alloc(), &triplet_lens(), &through(middle(), fifths(-5)))?;
    assert_eq!(rt; (row.scale, row.word), (9, Word::Passes));
    assert_eq!(rt; row.places.len(), 7);
    let places = row.places.as_slice();
    assert_eq!(rt;
        at(&places[3]),
        [
            (9448038984, 9448044463),
            (-84, 84),
            (-3073767145, -3073766254),
            (234246743, 234246882),
            (13256196688, 13256200946)
        ]
    );
    assert_eq!(rt;
        to(&places[3]),
        Some([(-18, 18), (-67412029, -67411385), (997723345, 997727141)])
    );
    assert_eq!(rt;
        at(&places[6]),
        [
            (16647122, 16750729),
            (-1671, 1671),
            (-129424603, -129023728),
            (-1, 1),
            (64644510776, 64646141877)
        ]
    );
    Ok(())
}

#[test]
fn triplet_in_its_box(rt: HostRuntime) -> Result<(), Fail> {
    let row = row_of(rt.alloc(), &triplet_box(), &through(fifths(5), middle()))?;
    assert_eq!(rt; (row.scale, row.word), (9, Word::Passes));
    assert_eq!(rt; row.places.len(), 7);
    let places = row.places.as_slice();
    assert_eq!(rt;
        at(&places[0]),
        [
            (15999999974, 16000000026),
            (3999999997, 4000000003),
            (-3, 3),
            (366080795, 366408947),
            (366080791, 366408951)
        ]
    );
    assert_eq!(rt;
        to(&places[5]),
        Some([(-78426257, -77197255), (-46, 46), (996715587, 997220539)])
    );
    assert_eq!(rt;
        at(&places[6]),
        [
            (6874352, 26523374),
            (95588246, 162859920),
            (-2360, 2360),
            (-1, 1),
            (64563044121, 64727608899)
        ]
    );
    Ok(())
}

#[test]
fn finest_residual(rt: HostRuntime) -> Result<(), Fail> {
    let row = row_of(
        rt.alloc(),
        &finest_lens(),
        &ray(dec(49999999999, -10), ZERO),
    )?;
    assert_eq!(rt;
        (row.scale, row.word, row.places.len()),
        (12, Word::Passes, 2)
    );
    assert_eq!(rt;
        at(&row.places.as_slice()[0]),
        [
            (24999999998970, 24999999999032),
            (-3, 3),
            (4999999999897, 4999999999903),
            (-1, 1),
            (-4, 4)
        ]
    );
    Ok(())
}

#[test]
fn mirror_to_its_focus(rt: HostRuntime) -> Result<(), Fail> {
    let row = row_of(rt.alloc(), &mirror_lens(), &level(20))?;
    assert_eq!(rt;
        (row.scale, row.word, row.places.len()),
        (6, Word::Passes, 2)
    );
    let places = row.places.as_slice();
    assert_eq!(rt;
        at(&places[0]),
        [
            (3999988, 4000014),
            (-3, 3),
            (1999997, 2000003),
            (-200002, -199998),
            (-200005, -199995)
        ]
    );
    assert_eq!(rt;
        to(&places[0]),
        Some([(-4, 4), (-384629, -384602), (-923102, -923055)])
    );
    assert_eq!(rt;
        at(&places[1]),
        [(0, 2), (-30, 30), (-128, 135), (-1, 1), (4999848, 5000134)]
    );
    Ok(())
}

#[test]
fn alike_without_a_bench(rt: HostRuntime) -> Result<(), Fail> {
    let lens = mirror_lens();
    let benched = row_of(rt.alloc(), &lens, &level(20))?;
    assert_eq!(rt; alone(&lens, &level(20)), benched);
    Ok(())
}
