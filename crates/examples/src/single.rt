//! Setups of one surface, between an object and the image.

ghost use Rattle.std.specs.Prelude.{◌≡◌, [], ◌∷◌};
ghost use Rattle.lensmodel.specs.Setup.Values.{plane, zero_decimal};
ghost use Rattle.examples.specs.Worked.{flat_name, flat_glass, far_object, rim_plane, setup_of, sphere_setup};

use arrayvec::ArrayVec;
use fixdec::dec::Dec;
use lensmodel::glass::{Glass, Medium};
use lensmodel::launch::Launch;
use lensmodel::name::Name;
use lensmodel::prescription::Prescription;
use lensmodel::setup::Setup;
use lensmodel::surface::{Surface, SurfaceKind};

/// The name FLAT.
pub fn flat() -> Name
    ensures { result ≡ flat_name }
{
    let mut name: Name = ArrayVec::new();
    name.push(70);
    name.push(76);
    name.push(65);
    name.push(84);
    name
}

/// The glass FLAT, of index 3/2 at every wavelength.
pub fn flat_medium() -> Medium
    ensures { result ≡ Medium.Of flat_glass }
{
    let zero = Dec { mant: 0, exp: 0 };
    Medium::Of(Glass {
        name: flat(),
        formula: 1,
        c0: Dec { mant: 225, exp: -2 },
        c1: zero,
        c2: zero,
        c3: zero,
        c4: zero,
        c5: zero,
        low: None,
        high: None,
    })
}

/// A plane in air of this thickness, None being infinite.
pub fn plane_surface(thick: Option<Dec>) -> Surface
    ensures { result ≡ record plane { thick = thick } }
{
    let zero = Dec { mant: 0, exp: 0 };
    Surface {
        kind: SurfaceKind::Standard,
        curv: zero,
        conic: zero,
        thick,
        glass: None,
        semi: None,
        rim: false,
        mirror: false,
        a1: zero,
        a2: zero,
        a3: zero,
        a4: zero,
        a5: zero,
        a6: zero,
        a7: zero,
        a8: zero,
    }
}

/// The image, a plane in air.
fn image_surface() -> Surface
    ensures { result ≡ plane }
{
    plane_surface(Some(Dec { mant: 0, exp: 0 }))
}

/// The setup of an object, one surface and the image, with the media behind the first two.
pub fn setup_between(object: Surface, surface: Surface, before: Medium, behind: Medium) -> Setup
    ensures { result ≡ setup_of (object ∷ surface ∷ plane ∷ []) (before ∷ behind ∷ []) }
{
    let mut surfaces: ArrayVec<Surface, 64> = ArrayVec::new();
    surfaces.push(object);
    surfaces.push(surface);
    surfaces.push(image_surface());
    let mut media: ArrayVec<Medium, 64> = ArrayVec::new();
    media.push(before);
    media.push(behind);
    Setup {
        lens: Prescription {
            surfaces,
            stop: 1,
            waves: ArrayVec::new(),
            primary: 1,
        },
        media,
        wave: Dec { mant: 5, exp: -1 },
        res: 12,
        width: Dec { mant: 1, exp: -3 },
        toler: None,
    }
}

/// A ray from the height `y`, with the slope `q` in y.
pub fn ray_in_y(y: Dec, q: Dec) -> Launch
    ensures { result ≡ Launch.Plain zero_decimal y zero_decimal q }
{
    let zero = Dec { mant: 0, exp: 0 };
    Launch::Plain {
        x: zero,
        y,
        p: zero,
        q,
    }
}

/// This surface in air, behind an object at infinity.
pub fn setup_in_air(surface: Surface) -> Setup
    ensures { result ≡ setup_of (far_object ∷ surface ∷ plane ∷ []) (Medium.Air ∷ Medium.Air ∷ []) }
{
    setup_between(plane_surface(None), surface, Medium::Air, Medium::Air)
}

/// The plane whose image is 4 behind it, with a rim of radius 5.
pub fn rim_surface() -> Surface
    ensures { result ≡ rim_plane }
{
    let mut surface = plane_surface(Some(Dec { mant: 4, exp: 0 }));
    surface.semi = Some(Dec { mant: 5, exp: 0 });
    surface.rim = true;
    surface
}

/// The sphere of curvature 1/10 into glass of index 3/2, and the image 10 behind it.
pub fn sphere() -> Setup
    ensures { result ≡ sphere_setup }
{
    let mut surface = plane_surface(Some(Dec { mant: 1, exp: 1 }));
    surface.curv = Dec { mant: 1, exp: -1 };
    surface.glass = Some(flat());
    setup_between(plane_surface(None), surface, Medium::Air, flat_medium())
}
