//! The sums of an aspheric mirror, with the values that an independent program of the same rules
//! gives.

ghost use Rattle.std.specs.Prelude.{◌≤ℤ◌};
ghost use Rattle.fixdec.specs.Ends.{InCap};

use crate::surface::{sums_at, terms_at};
use enclose::arith::Arith;
use enclose::iv::Iv;
use firstorder::ray::Passing;
use firstorder::worked::Worked;
use fixdec::dec::Dec;
use fixdec::span::Span;
use fixdec::step::{Step, Why};
use lensmodel::paraxial::Five;
use lensmodel::surface::{Surface, SurfaceKind};

const ZERO: Dec = Dec { mant: 0, exp: 0 };

/// A number that is known exactly, in units of scale 15.
fn exactly(raw: i128) -> Worked<Iv<15>>
    requires { InCap raw }
{
    Worked::Done(Iv::of_span(Span { lo: raw, hi: raw }))
}

/// An interval, in units of scale 15.
fn between(lo: i128, hi: i128) -> Step<Span>
    requires order { lo ≤ℤ hi }
    requires low { InCap lo }
    requires high { InCap hi }
{
    Step::Val(Span { lo, hi })
}

/// An even asphere with curvature 1/50, conic constant -1/2 and a2 of 1/10000.
fn asphere() -> Surface {
    Surface {
        kind: SurfaceKind::EvenAsph,
        curv: Dec { mant: 2, exp: -2 },
        conic: Dec { mant: -5, exp: -1 },
        thick: Some(ZERO),
        glass: None,
        semi: Some(Dec { mant: 5, exp: 0 }),
        rim: false,
        mirror: true,
        a1: ZERO,
        a2: Dec { mant: 1, exp: -4 },
        a3: ZERO,
        a4: ZERO,
        a5: ZERO,
        a6: ZERO,
        a7: ZERO,
        a8: ZERO,
    }
}

/// A ray at a mirror in air, with the curvature of the asphere.
fn at_mirror(y: Worked<Iv<15>>, u: Worked<Iv<15>>, behind: Worked<Iv<15>>) -> Passing<Iv<15>> {
    Passing {
        y,
        u,
        cv: exactly(20_000_000_000_000),
        n: exactly(1_000_000_000_000_000),
        n2: exactly(-1_000_000_000_000_000),
        behind,
        next: Worked::default(),
    }
}

#[test]
fn an_aspheric_mirror(rt: HostRuntime) {
    let m = at_mirror(
        exactly(2_000_000_000_000_000),
        exactly(100_000_000_000_000),
        exactly(-180_000_000_000_000),
    );
    let b = at_mirror(
        exactly(500_000_000_000_000),
        exactly(-300_000_000_000_000),
        Worked::default(),
    );
    let terms = terms_at(&asphere(), 1, &m, &b);
    let sums = sums_at(1, &m, &b, &terms, 1000);
    let expected = Five {
        s1: between(-28_608_000_001_000, -28_607_999_999_000),
        s2: between(127_999_999_000, 128_000_001_000),
        s3: between(-15_048_000_001_000, -15_047_999_999_000),
        s4: between(16_899_999_999_000, 16_900_000_001_000),
        s5: between(-7_532_000_001_000, -7_531_999_999_000),
    };
    assert_eq!(rt; sums.five(), expected);
}

#[test]
fn a_lost_slope_leaves_two_sums(rt: HostRuntime) {
    let m = at_mirror(
        exactly(2_000_000_000_000_000),
        exactly(100_000_000_000_000),
        Worked::Gone(113, Why::Zero),
    );
    let b = at_mirror(
        exactly(500_000_000_000_000),
        exactly(-300_000_000_000_000),
        Worked::Gone(123, Why::Root),
    );
    let terms = terms_at(&asphere(), 1, &m, &b);
    let sums = sums_at(1, &m, &b, &terms, 1000);
    let expected = Five {
        s1: Step::Lost(Why::Zero),
        s2: Step::Lost(Why::Zero),
        s3: Step::Lost(Why::Zero),
        s4: between(16_899_999_999_000, 16_900_000_001_000),
        s5: between(-7_532_000_001_000, -7_531_999_999_000),
    };
    assert_eq!(rt; sums.five(), expected);
}
