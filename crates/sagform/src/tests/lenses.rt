//! Sample lenses.

ghost use Rattle.std.specs.Prelude.{◌≡◌, length};
ghost use Rattle.lensmodel.specs.Setup.WellFormed.{IsWellFormed};
ghost use Rattle.sagform.specs.Samples as samples;

use arrayvec::ArrayVec;
use fixdec::dec::Dec;
use lensmodel::glass::{Glass, Medium};
use lensmodel::prescription::Prescription;
use lensmodel::setup::Setup;
use lensmodel::surface::{Surface, SurfaceKind};
use lensmodel::tolerance::{Tol, TolBox, TolKind};

const ZERO: Dec = Dec { mant: 0, exp: 0 };

/// A plane in air, with its distance to the next vertex.
fn flat(thick: i64) -> Surface
    ensures { result ≡ samples.flat thick }
{
    Surface {
        kind: SurfaceKind::Standard,
        curv: ZERO,
        conic: ZERO,
        thick: Some(Dec {
            mant: i128::from(thick),
            exp: 0,
        }),
        glass: None,
        semi: None,
        rim: false,
        mirror: false,
        a1: ZERO,
        a2: ZERO,
        a3: ZERO,
        a4: ZERO,
        a5: ZERO,
        a6: ZERO,
        a7: ZERO,
        a8: ZERO,
    }
}

/// An object at infinity.
fn object() -> Surface
    ensures { result ≡ samples.object }
{
    let mut surface = flat(0);
    surface.thick = None;
    surface
}

/// A sphere of radius 10 with a second coefficient.
fn asphere() -> Surface
    ensures { result ≡ samples.asphere }
{
    let mut surface = flat(10);
    surface.kind = SurfaceKind::EvenAsph;
    surface.curv = Dec { mant: 1, exp: -1 };
    surface.semi = Some(Dec { mant: 8, exp: 0 });
    surface.a2 = Dec { mant: 1, exp: -5 };
    surface
}

/// A parabola that reflects into its focus.
fn mirror() -> Surface
    ensures { result ≡ samples.mirror }
{
    let mut surface = flat(-5);
    surface.curv = Dec { mant: -1, exp: -1 };
    surface.conic = Dec { mant: -1, exp: 0 };
    surface.mirror = true;
    surface
}

/// A glass of index 1.5.
fn glass() -> Glass
    ensures { result ≡ samples.glass }
{
    Glass {
        name: ArrayVec::new(),
        formula: 1,
        c0: Dec { mant: 225, exp: -2 },
        c1: ZERO,
        c2: ZERO,
        c3: ZERO,
        c4: ZERO,
        c5: ZERO,
        low: None,
        high: None,
    }
}

/// A tolerance of 0.01 on the index behind surface 1.
fn box_of_index() -> TolBox
    ensures { result ≡ samples.box }
{
    let mut list: ArrayVec<Tol, 32> = ArrayVec::new();
    list.push(Tol {
        kind: TolKind::Indx,
        surface: 1,
        delta: Dec { mant: 1, exp: -2 },
    });
    TolBox { list }
}

/// Surfaces and the media behind them.
fn setup(
    surfaces: ArrayVec<Surface, 64>,
    media: ArrayVec<Medium, 64>,
    toler: Option<TolBox>,
) -> Setup
    ensures { result ≡ samples.setup surfaces.items media.items toler }
{
    Setup {
        lens: Prescription {
            surfaces,
            stop: 1,
            waves: ArrayVec::new(),
            primary: 1,
        },
        media,
        wave: Dec { mant: 5, exp: -1 },
        res: 12,
        width: Dec { mant: 1, exp: -3 },
        toler,
    }
}

/// One surface in air.
fn alone(surface: Surface) -> Setup
    ensures { result ≡ samples.alone surface }
{
    let mut surfaces: ArrayVec<Surface, 64> = ArrayVec::new();
    surfaces.push(object());
    surfaces.push(surface);
    surfaces.push(flat(0));
    let mut media: ArrayVec<Medium, 64> = ArrayVec::new();
    media.push(Medium::Air);
    media.push(Medium::Air);
    setup(surfaces, media, None)
}

/// The even asphere in air.
pub fn asphere_lens() -> Setup
    ensures well { IsWellFormed result }
    ensures count { length result.lens.surfaces.items ≡ 3 }
{
    alone(asphere())
}

/// The mirror in air.
pub fn mirror_lens() -> Setup
    ensures well { IsWellFormed result }
    ensures count { length result.lens.surfaces.items ≡ 3 }
{
    alone(mirror())
}

/// A plate of glass, with a tolerance on its index.
fn plate() -> Setup
    ensures { result ≡ samples.plate }
{
    let mut surfaces: ArrayVec<Surface, 64> = ArrayVec::new();
    surfaces.push(object());
    surfaces.push(flat(4));
    surfaces.push(flat(1));
    surfaces.push(flat(0));
    let mut media: ArrayVec<Medium, 64> = ArrayVec::new();
    media.push(Medium::Air);
    media.push(Medium::Of(glass()));
    media.push(Medium::Air);
    setup(surfaces, media, Some(box_of_index()))
}

/// The plate in air.
pub fn plate_lens() -> Setup
    ensures well { IsWellFormed result }
    ensures count { length result.lens.surfaces.items ≡ 4 }
{
    plate()
}
