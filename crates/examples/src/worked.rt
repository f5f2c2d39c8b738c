//! Worked setups, each with a ray and a chain that can be checked by hand.

ghost use Rattle.std.specs.Prelude.{◌≡◌, pos, negsuc, IsTrue, IsFalse};
ghost use Rattle.fixdec.specs.Frac.{Frac, ◌≈◌, ◌≤Q◌, ◌<Q◌, ◌+Q◌, whole};
ghost use Rattle.fixdec.specs.Member.{Symbols};
ghost use Rattle.lensmodel.specs.Equations.Chains.{IsChainTo, IsWhole, Clears, ClearsAll};
ghost use Rattle.lensmodel.specs.Claims.RowClaims.{HoldsPlace, HoldsHeading, WordHolds};
ghost use Rattle.lensmodel.specs.Equations.Crossing.{zone_of};
ghost use Rattle.lensmodel.specs.Setup.Media.{equal_media};
ghost use Rattle.lensmodel.specs.Equations.Residual.{IsWithin};
ghost use Rattle.lensmodel.specs.Setup.Values.{surface_at, owner, travel, eps};
ghost use Rattle.examples.specs.Worked.{whole_decimal, plane_setup, slanted_ray, sphere_setup, axis_ray, glass_setup, steep_ray, rim_setup, level_ray, high_height, low_height, mirror_setup, bowl_setup, bowl_ray};
ghost use Rattle.examples.specs.WorkedChains.{slanted_chain, slanted_to, axis_chain, height_chain, steep_chain, level_chain, mirror_chain, bowl_near, bowl_far};
ghost use Rattle.examples.specs.WorkedRow.{slanted_vertex, slanted_heading, slanted_image, axis_vertex, axis_heading, axis_image};

use crate::single::{
    flat, flat_medium, plane_surface, ray_in_y, rim_surface, setup_between, setup_in_air, sphere,
};
use fixdec::dec::Dec;
use lensmodel::glass::Medium;
use lensmodel::launch::Launch;
use lensmodel::row::Word;
use lensmodel::setup::Setup;
use lensmodel::surface::SurfaceKind;

/// A setup and a ray of it.
#[derive(Debug, PartialEq, Eq, Drop)]
pub struct Worked {
    /// The setup.
    pub setup: Setup,
    /// The ray.
    pub ray: Launch,
}

/// A plane in air, the image 4 behind it, and a ray from its vertex with the slope 3/4: its chain
/// has the sides 3, 4 and 5, and lies in the intervals that are printed of it.
pub fn slanted_plane() -> Worked
    ensures setup { result.setup ≡ plane_setup }
    ensures ray { result.ray ≡ slanted_ray }
    ensures media { IsTrue (equal_media result.setup 0) }
    ensures chain { (symbols : Symbols) → IsWhole result.setup result.ray (slanted_chain symbols) }
    ensures vertex { (symbols : Symbols) → HoldsPlace 6 slanted_vertex (slanted_chain symbols) 1 }
    ensures heading { (symbols : Symbols)
        → HoldsHeading 6 slanted_heading (slanted_chain symbols) 1 }
    ensures image { (symbols : Symbols) → HoldsPlace 6 slanted_image (slanted_chain symbols) 2 }
    // The height at the image may be off by the residual, and not by more than twice that.
    ensures within { (y : Frac) (symbols : Symbols) → IsWithin (eps result.setup) y (whole (pos 3))
        → IsWhole result.setup result.ray (slanted_to y symbols) }
    ensures beyond { (y : Frac) (symbols : Symbols)
        → IsWhole result.setup result.ray (slanted_to y symbols)
        → IsWithin (eps result.setup +Q eps result.setup) y (whole (pos 3)) }
{
    Worked {
        setup: setup_in_air(plane_surface(Some(Dec { mant: 4, exp: 0 }))),
        ray: ray_in_y(Dec { mant: 0, exp: 0 }, Dec { mant: 75, exp: -2 }),
    }
}

/// A sphere of curvature 1/10 into glass of index 3/2, the image 10 behind it, and the ray along
/// its axis: the optical path at the image is 15. The chain lies in the intervals that are printed.
pub fn glass_axis() -> Worked
    ensures setup { result.setup ≡ sphere_setup }
    ensures ray { result.ray ≡ axis_ray }
    ensures media { IsFalse (equal_media result.setup 0) }
    ensures chain { (symbols : Symbols) → IsWhole result.setup result.ray (axis_chain symbols) }
    ensures path { (symbols : Symbols) → (axis_chain symbols).path 2 ≈ whole (pos 15) }
    ensures vertex { (symbols : Symbols) → HoldsPlace 6 axis_vertex (axis_chain symbols) 1 }
    ensures heading { (symbols : Symbols) → HoldsHeading 6 axis_heading (axis_chain symbols) 1 }
    ensures image { (symbols : Symbols) → HoldsPlace 6 axis_image (axis_chain symbols) 2 }
{
    let zero = Dec { mant: 0, exp: 0 };
    Worked {
        setup: sphere(),
        ray: ray_in_y(zero, zero),
    }
}

/// The same sphere, and a level ray at the height 6: it crosses at the sag 2, where the sphere
/// faces it, and is bent by Snell's law.
pub fn glass_height() -> Worked
    ensures setup { result.setup ≡ sphere_setup }
    ensures ray { result.ray ≡ level_ray (whole_decimal (pos 6)) }
    ensures chain { (symbols : Symbols) → IsWhole result.setup result.ray (height_chain symbols) }
    ensures sag { (symbols : Symbols) → (height_chain symbols).z 1 ≈ whole (pos 2) }
{
    Worked {
        setup: sphere(),
        ray: ray_in_y(Dec { mant: 6, exp: 0 }, Dec { mant: 0, exp: 0 }),
    }
}

/// A plane between glass of index 3/2 and air, the image 4 behind it, and a ray from its vertex,
/// in the glass, with the slope 6/5: a chain reaches the plane, and none leaves it.
pub fn total_reflection() -> Worked
    ensures setup { result.setup ≡ glass_setup }
    ensures ray { result.ray ≡ steep_ray }
    ensures reaches { (symbols : Symbols)
        → IsChainTo result.setup result.ray 1 (steep_chain symbols) }
    ensures tir { WordHolds (Word.Tir 1) result.setup result.ray }
{
    let mut object = plane_surface(None);
    object.glass = Some(flat());
    let surface = plane_surface(Some(Dec { mant: 4, exp: 0 }));
    Worked {
        setup: setup_between(object, surface, flat_medium(), Medium::Air),
        ray: ray_in_y(Dec { mant: 0, exp: 0 }, Dec { mant: 12, exp: -1 }),
    }
}

/// A plane with a rim of radius 5, and a level ray at that height: a tie clears, but a chain may
/// lie off by the residual, so there are chains that clear and chains that don't.
pub fn rim_tie() -> Worked
    ensures setup { result.setup ≡ rim_setup }
    ensures ray { result.ray ≡ level_ray (whole_decimal (pos 5)) }
    ensures chains { (y : Frac) (symbols : Symbols) → IsWithin (eps result.setup) y (whole (pos 5))
        → IsWhole result.setup result.ray (level_chain y symbols) }
    ensures clears { (y : Frac) (symbols : Symbols) → whole (pos 0) ≤Q y → y ≤Q whole (pos 5)
        → ClearsAll result.setup (level_chain y symbols) }
    ensures misses { (y : Frac) (symbols : Symbols) → whole (pos 5) <Q y
        → Clears result.setup (level_chain y symbols) 1 → ⊥ }
{
    Worked {
        setup: setup_in_air(rim_surface()),
        ray: ray_in_y(Dec { mant: 5, exp: 0 }, Dec { mant: 0, exp: 0 }),
    }
}

/// The same plane, and a level ray at the height 5.1: no chain clears it.
pub fn rim_past() -> Worked
    ensures setup { result.setup ≡ rim_setup }
    ensures ray { result.ray ≡ level_ray high_height }
    ensures vignetted { WordHolds (Word.Vignetted 1) result.setup result.ray }
{
    Worked {
        setup: setup_in_air(rim_surface()),
        ray: ray_in_y(Dec { mant: 51, exp: -1 }, Dec { mant: 0, exp: 0 }),
    }
}

/// The same plane, and a level ray at the height 4.9: every whole chain clears every rim.
pub fn rim_within() -> Worked
    ensures setup { result.setup ≡ rim_setup }
    ensures ray { result.ray ≡ level_ray low_height }
    ensures passes { WordHolds Word.Passes result.setup result.ray }
{
    Worked {
        setup: setup_in_air(rim_surface()),
        ray: ray_in_y(Dec { mant: 49, exp: -1 }, Dec { mant: 0, exp: 0 }),
    }
}

/// A parabola of curvature -1/10 that reflects, the image in its focus, 5 before it, and a level ray
/// at the height 2: its chain comes back to the focus with the sides 5, 12 and 13.
pub fn mirror_focus() -> Worked
    ensures setup { result.setup ≡ mirror_setup }
    ensures ray { result.ray ≡ level_ray (whole_decimal (pos 2)) }
    ensures travel { travel result.setup 1 ≡ negsuc 0 }
    ensures owner { owner result.setup 1 ≡ 0 }
    ensures chain { (symbols : Symbols) → IsWhole result.setup result.ray (mirror_chain symbols) }
{
    let mut surface = plane_surface(Some(Dec { mant: -5, exp: 0 }));
    surface.curv = Dec { mant: -1, exp: -1 };
    surface.conic = Dec { mant: -1, exp: 0 };
    surface.mirror = true;
    Worked {
        setup: setup_in_air(surface),
        ray: ray_in_y(Dec { mant: 2, exp: 0 }, Dec { mant: 0, exp: 0 }),
    }
}

/// The bowl `z = (x^2 + y^2) / 10` as an even asphere, and a ray of slope 5 that meets it at the
/// heights 1/2 and 3/2: both crossings are on chains.
pub fn bowl_twice() -> Worked
    ensures setup { result.setup ≡ bowl_setup }
    ensures ray { result.ray ≡ bowl_ray }
    ensures zone { zone_of (surface_at result.setup 1).semi ≈ record { num = pos 11; less = 1 } }
    ensures near { (symbols : Symbols) → IsWhole result.setup result.ray (bowl_near symbols) }
    ensures far { (symbols : Symbols) → IsWhole result.setup result.ray (bowl_far symbols) }
{
    let mut surface = plane_surface(Some(Dec { mant: 4, exp: 0 }));
    surface.kind = SurfaceKind::EvenAsph;
    surface.semi = Some(Dec { mant: 5, exp: 0 });
    surface.a1 = Dec { mant: 1, exp: -1 };
    Worked {
        setup: setup_in_air(surface),
        ray: ray_in_y(Dec { mant: 375, exp: -3 }, Dec { mant: 5, exp: 0 }),
    }
}
