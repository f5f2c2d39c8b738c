//! Values that an independent program of the same rules gives.

ghost use Rattle.std.specs.Prelude.{◌≡◌, ℤ, pos, negsuc, ◌≤ℤ◌};
ghost use Rattle.lensmodel.specs.Setup.WellFormed.{IsWrittenIf, IsWrittenSurface};

use crate::asphere::{asphere_fault, is_great, norm, scaled, zone};
use crate::media::{has_index_tolerance, same_medium};
use crate::print::line;
use arrayvec::{ArrayString, ArrayVec};
use fixdec::dec::Dec;
use lensmodel::fault::ZmxFault;
use lensmodel::glass::{Glass, Medium};
use lensmodel::name::Name;
use lensmodel::prescription::Prescription;
use lensmodel::surface::{Surface, SurfaceKind};
use lensmodel::tolerance::{Tol, TolKind};

fn asphere(semi: Dec) -> Surface
    ensures { result.kind ≡ SurfaceKind.EvenAsph }
{
    let mut s = Surface::default();
    s.kind = SurfaceKind::EvenAsph;
    s.semi = Some(semi);
    s
}

fn name(letters: &[u8]) -> Name {
    let mut units: Name = ArrayVec::new();
    for letter in letters {
        let _ = units.try_push(u16::from(*letter));
    }
    units
}

#[test]
fn zones_and_norms(rt: HostRuntime) {
    for (mant, exp, raw, power) in [
        (5i128, 0, 5500000000i128, 2),
        (3333333333, -10, 366666667, 0),
        (909090909, -6, 999999999900, 6),
        (1, -60, 1, -6),
    ] {
        let s = asphere(Dec { mant, exp });
        let found = zone(&s);
        assert_eq!(rt; found.map(|span| span.hi), Some(raw));
        if found.is_some() {
            assert_eq!(rt; norm(&s), power);
        }
    }
}

#[test]
fn great_coefficients(rt: HostRuntime) {
    for (mant, exp, great) in [
        (1i128, 9, false),
        (1000000001, 0, true),
        (-1000000001, 0, true),
        (1, 10, true),
        (0, 0, false),
        (100000000000000000000000000000, -20, false),
        (100000000000000000000000000001, -20, true),
        (999999999999999999999999999999, -22, false),
    ] {
        assert_eq!(rt; is_great(&Dec { mant, exp }), great);
    }
}

/// An even asphere of the zone 5.5, so that D is 2.
fn bulged() -> Surface {
    let mut s = asphere(Dec { mant: 5, exp: 0 });
    s.curv = Dec { mant: -25, exp: -3 };
    s.conic = Dec { mant: -1, exp: 0 };
    s.a2 = Dec { mant: 5, exp: -8 };
    s.a8 = Dec {
        mant: -25,
        exp: -20,
    };
    s
}

/// A surface of this form with a semi-diameter and an eighth coefficient of -25 times a power of ten.
fn bent(kind: SurfaceKind, semi: Option<Dec>, exp: i32) -> Surface
    requires semi { IsWrittenIf semi }
    requires low { negsuc 59 ≤ℤ exp }
    requires high { exp ≤ℤ pos 30 }
    ensures { IsWrittenSurface result }
{
    let zero = Dec { mant: 0, exp: 0 };
    Surface {
        kind,
        curv: zero,
        conic: zero,
        thick: Some(zero),
        glass: None,
        semi,
        rim: false,
        mirror: false,
        a1: zero,
        a2: zero,
        a3: zero,
        a4: zero,
        a5: zero,
        a6: zero,
        a7: zero,
        a8: Dec { mant: -25, exp },
    }
}

#[test]
fn faults_of_aspheres(rt: HostRuntime) {
    let sound = bent(SurfaceKind::EvenAsph, Some(Dec { mant: 5, exp: 0 }), -9);
    assert_eq!(rt; asphere_fault(&sound, 3), None);
    let steep = bent(SurfaceKind::EvenAsph, Some(Dec { mant: 5, exp: 0 }), -8);
    let fault = ZmxFault::Coefficient { surface: 3, i: 8 };
    assert_eq!(rt; asphere_fault(&steep, 3), Some(fault));
    let endless = bent(SurfaceKind::EvenAsph, None, -9);
    let fault = ZmxFault::NoZone { surface: 3 };
    assert_eq!(rt; asphere_fault(&endless, 3), Some(fault));
    let standard = bent(SurfaceKind::Standard, None, -8);
    assert_eq!(rt; asphere_fault(&standard, 3), None);
}

fn glass(letters: &[u8]) -> Medium {
    let zero = Dec::default();
    Medium::Of(Glass {
        name: name(letters),
        formula: 2,
        c0: zero,
        c1: zero,
        c2: zero,
        c3: zero,
        c4: zero,
        c5: zero,
        low: None,
        high: None,
    })
}

#[test]
fn media_by_their_names(rt: HostRuntime) {
    assert_eq!(rt; same_medium(&Medium::Air, &Medium::Air), true);
    assert_eq!(rt; same_medium(&Medium::Air, &glass(b"N-BK7")), false);
    assert_eq!(rt; same_medium(&glass(b"n-bk7"), &glass(b"N-BK7")), true);
    assert_eq!(rt; same_medium(&glass(b"N-BK7"), &glass(b"N-BK70")), false);
}

#[test]
fn tolerances_on_index(rt: HostRuntime) {
    let delta = Dec { mant: 1, exp: -4 };
    let list = [
        Tol {
            kind: TolKind::Curv,
            surface: 1,
            delta,
        },
        Tol {
            kind: TolKind::Indx,
            surface: 2,
            delta,
        },
    ];
    assert_eq!(rt; has_index_tolerance(&list, 1), false);
    assert_eq!(rt; has_index_tolerance(&list, 2), true);
}

#[test]
fn lines_of_surfaces(rt: HostRuntime) {
    let mut lens = Prescription {
        surfaces: ArrayVec::new(),
        stop: 1,
        waves: ArrayVec::new(),
        primary: 1,
    };
    let mut object = Surface::default();
    object.thick = None;
    let _ = lens.surfaces.try_push(object);
    let mut front = bulged();
    front.rim = true;
    front.glass = Some(name(b"n-bk7"));
    let _ = lens.surfaces.try_push(front);
    let mut mirror = asphere(Dec { mant: 5, exp: 0 });
    mirror.mirror = true;
    mirror.thick = Some(Dec {
        mant: -125,
        exp: -1,
    });
    let _ = lens.surfaces.try_push(mirror);
    for (j, text) in [
        (0u32, "surf 0 STANDARD c 0 k 0 d INFINITY rim - glass -\n"),
        (1, "surf 1 EVENASPH c -25e-3 k -1 d 0 rim 5 glass n-bk7\n"),
        (2, "surf 2 EVENASPH c 0 k 0 d -125e-1 rim - glass MIRROR\n"),
    ] {
        let mut out = ArrayString::<1024>::new();
        if (j as usize) < lens.surfaces.len() {
            line(&lens, j, &mut out);
        }
        assert_eq!(rt; out.as_str(), text);
    }
}

#[test]
fn scaled_coefficients(rt: HostRuntime) {
    let mut s = asphere(Dec { mant: 5, exp: 0 });
    s.a2 = Dec { mant: 5, exp: -8 };
    if zone(&s).is_some() {
        assert_eq!(rt; scaled(&s, 2), Dec { mant: 5, exp: -4 });
    }
}
