//! The values of whole lenses, as an independent program of the same rules gives them.

ghost use Rattle.std.specs.Prelude.{◌≡◌, ◌≤ℤ◌};
ghost use Rattle.fixdec.specs.Ends.{InCap};
ghost use Rattle.firstorder.specs.Samples as lenses;
ghost use Rattle.lensmodel.specs.Setup.Values as values;
ghost use Rattle.lensmodel.specs.Setup.WellFormed.{IsWellFormed};
ghost use Rattle.refract.specs.Samples as samples;

use crate::first::first_order;
use arrayvec::ArrayVec;
use fixdec::dec::Dec;
use fixdec::span::Span;
use fixdec::step::{Step, Why};
use lensmodel::glass::{Glass, Medium};
use lensmodel::paraxial::FirstOut;
use lensmodel::prescription::Prescription;
use lensmodel::setup::Setup;
use lensmodel::surface::{Surface, SurfaceKind};

const ZERO: Dec = Dec { mant: 0, exp: 0 };

const ONE: Dec = Dec { mant: 1, exp: 0 };

/// A plane in air, of thickness 0.
fn plane() -> Surface
    ensures { result ≡ values.plane }
{
    Surface {
        kind: SurfaceKind::Standard,
        curv: ZERO,
        conic: ZERO,
        thick: Some(ZERO),
        glass: None,
        semi: None,
        rim: false,
        mirror: false,
        a1: ZERO,
        a2: ZERO,
        a3: ZERO,
        a4: ZERO,
        a5: ZERO,
        a6: ZERO,
        a7: ZERO,
        a8: ZERO,
    }
}

/// An object at infinity.
fn object() -> Surface
    ensures { result ≡ samples.object }
{
    let mut surface = plane();
    surface.thick = None;
    surface
}

/// The front of the lens, a sphere of radius 10.
fn front() -> Surface
    ensures { result ≡ lenses.front }
{
    let mut surface = plane();
    surface.curv = Dec { mant: 1, exp: -1 };
    surface.thick = Some(Dec { mant: 3, exp: 0 });
    surface
}

/// The back of the lens, a sphere of radius -20.
fn back() -> Surface
    ensures { result ≡ lenses.back }
{
    let mut surface = plane();
    surface.curv = Dec { mant: -5, exp: -2 };
    surface.thick = Some(Dec { mant: 12, exp: 0 });
    surface
}

/// A parabola that reflects into its focus.
fn parabola() -> Surface
    ensures { result ≡ samples.parabola }
{
    let mut surface = plane();
    surface.curv = Dec { mant: -1, exp: -1 };
    surface.conic = Dec { mant: -1, exp: 0 };
    surface.thick = Some(Dec { mant: -5, exp: 0 });
    surface.mirror = true;
    surface
}

/// A glass of index 1.5 at every wavelength.
fn flat_glass() -> Medium
    ensures { result ≡ samples.flat_glass }
{
    Medium::Of(Glass {
        name: ArrayVec::new(),
        formula: 1,
        c0: Dec { mant: 225, exp: -2 },
        c1: ZERO,
        c2: ZERO,
        c3: ZERO,
        c4: ZERO,
        c5: ZERO,
        low: None,
        high: None,
    })
}

/// A lens of these surfaces and media.
fn sample(surfaces: ArrayVec<Surface, 64>, media: ArrayVec<Medium, 64>, stop: u32) -> Setup
    ensures { result ≡ lenses.stopped stop surfaces.items media.items }
{
    Setup {
        lens: Prescription {
            surfaces,
            stop,
            waves: ArrayVec::new(),
            primary: 1,
        },
        media,
        wave: Dec { mant: 5, exp: -1 },
        res: 12,
        width: Dec { mant: 1, exp: -3 },
        toler: None,
    }
}

/// Two surfaces in air with a medium between them. The second is the stop.
fn pair(first: Surface, second: Surface, medium: Medium) -> Setup
    ensures { result ≡ lenses.pair first second medium }
{
    let mut surfaces: ArrayVec<Surface, 64> = ArrayVec::new();
    surfaces.push(object());
    surfaces.push(first);
    surfaces.push(second);
    surfaces.push(plane());
    let mut media: ArrayVec<Medium, 64> = ArrayVec::new();
    media.push(Medium::Air);
    media.push(medium);
    media.push(Medium::Air);
    sample(surfaces, media, 2)
}

/// A surface in air. The object is the stop.
fn alone(surface: Surface) -> Setup
    ensures { result ≡ lenses.alone surface }
{
    let mut surfaces: ArrayVec<Surface, 64> = ArrayVec::new();
    surfaces.push(object());
    surfaces.push(surface);
    surfaces.push(plane());
    let mut media: ArrayVec<Medium, 64> = ArrayVec::new();
    media.push(Medium::Air);
    media.push(Medium::Air);
    sample(surfaces, media, 0)
}

/// A lens of glass in air, whose back is the stop.
fn singlet() -> Setup
    ensures { IsWellFormed result }
{
    pair(front(), back(), flat_glass())
}

/// A mirror in air. The object is the stop.
fn mirror() -> Setup
    ensures { IsWellFormed result }
{
    alone(parabola())
}

/// An interval, in units of scale 15.
fn between(lo: i128, hi: i128) -> Step<Span>
    requires order { lo ≤ℤ hi }
    requires low { InCap lo }
    requires high { InCap hi }
{
    Step::Val(Span { lo, hi })
}

#[test]
fn a_lens_of_glass(rt: HostRuntime) {
    let mut trail: ArrayVec<(Step<Span>, Step<Span>), 64> = ArrayVec::new();
    trail.push((
        between(1_000_000_000_000_000, 1_000_000_000_000_000),
        between(-33_333_333_334_031, -33_333_333_332_636),
    ));
    trail.push((
        between(899_999_999_996_907, 900_000_000_003_092),
        between(-72_500_000_002_151, -72_499_999_997_849),
    ));
    trail.push((
        between(29_999_999_970_095, 30_000_000_029_904),
        between(-72_500_000_002_151, -72_499_999_997_849),
    ));
    let expected = FirstOut {
        scale: 15,
        efl: between(13_793_103_447_852_841, 13_793_103_448_698_883),
        bfl: between(12_413_793_103_023_516, 12_413_793_103_873_022),
        ffl: between(-13_103_448_276_300_021, -13_103_448_275_424_103),
        front: between(689_655_171_552_820, 689_655_173_274_780),
        back: between(-1_379_310_345_675_367, -1_379_310_343_979_819),
        enp: between(2_222_222_222_209_646, 2_222_222_222_234_800),
        trail,
    };
    assert_eq!(rt; first_order(&singlet(), &ONE, &ZERO), expected);
}

#[test]
fn a_mirror_has_no_entrance_pupil_at_its_object(rt: HostRuntime) {
    let slope = Dec { mant: 5, exp: -2 };
    let mut trail: ArrayVec<(Step<Span>, Step<Span>), 64> = ArrayVec::new();
    trail.push((
        between(1_000_000_000_000_000, 1_000_000_000_000_000),
        between(149_999_999_999_000, 150_000_000_001_000),
    ));
    trail.push((
        between(249_999_999_994_000, 250_000_000_006_000),
        between(149_999_999_999_000, 150_000_000_001_000),
    ));
    let expected = FirstOut {
        scale: 15,
        efl: between(-5_000_000_000_030_001, -4_999_999_999_970_000),
        bfl: between(-5_000_000_000_030_001, -4_999_999_999_970_000),
        ffl: between(-5_000_000_000_035_001, -4_999_999_999_965_000),
        front: between(-65_001, 65_001),
        back: between(-60_001, 60_001),
        enp: Step::Lost(Why::Root),
        trail,
    };
    assert_eq!(rt; first_order(&mirror(), &ONE, &slope), expected);
}
