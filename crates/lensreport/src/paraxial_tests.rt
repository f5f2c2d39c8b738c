//! Lines of first-order values and of Seidel sums, with texts written by hand.

ghost use Rattle.std.specs.Prelude.{◌≤ℤ◌};
ghost use Rattle.fixdec.specs.Ends.{InCap};

use crate::first::{print_first_head, print_trail_head, print_trail_line};
use crate::pieces::Line;
use crate::seidel::{print_seidel_head, print_set_head, print_sums, print_whole};
use arrayvec::ArrayVec;
use fixdec::span::Span;
use fixdec::step::{Step, Why};
use lensmodel::paraxial::{FirstOut, Five};

/// An interval.
fn between(lo: i128, hi: i128) -> Step<Span>
    requires order { lo ≤ℤ hi }
    requires low { InCap lo }
    requires high { InCap hi }
{
    Step::Val(Span { lo, hi })
}

#[test]
fn values(rt: HostRuntime) {
    let values = FirstOut {
        scale: 9,
        efl: between(29_999_998_470, 30_000_002_131),
        bfl: between(29_999_998_470, 30_000_002_131),
        ffl: between(-20_000_001_471, -19_999_998_920),
        front: between(-2505, 2515),
        back: between(-3661, 3661),
        enp: Step::Lost(Why::Root),
        trail: ArrayVec::new(),
    };
    let mut out = Line::new();
    print_first_head(&values, &mut out);
    assert_eq!(rt;
        out.as_str(),
        "first scale 9\nefl [29.999998470,30.000002131]\nbfl [29.999998470,30.000002131]\nffl [-20.000001471,-19.999998920]\nfront [-0.000002505,0.000002515]\nback [-0.000003661,0.000003661]\nenp lost root\n"
    );
}

#[test]
fn trails(rt: HostRuntime) {
    let mut out = Line::new();
    print_trail_head(2, 6, &mut out);
    assert_eq!(rt; out.as_str(), "ray 2 scale 6\n");
    let mut out = Line::new();
    let at = (Step::Lost(Why::Range), between(-1, 1));
    print_trail_line(6, 2, &at, &mut out);
    assert_eq!(rt; out.as_str(), "at 2 y lost range u [-0.000001,0.000001]\n");
}

#[test]
fn sums(rt: HostRuntime) {
    let sums = Five {
        s1: Step::Lost(Why::Range),
        s2: between(-51_567_899_000_000, -51_567_897_000_000),
        s3: between(0, 1),
        s4: Step::Lost(Why::Zero),
        s5: between(55_555_399_999, 55_555_700_001),
    };
    let mut out = Line::new();
    print_seidel_head(12, &mut out);
    assert_eq!(rt; out.as_str(), "seidel lines 12\n");
    let mut out = Line::new();
    print_set_head(3, 6, &mut out);
    assert_eq!(rt; out.as_str(), "set 3 scale 6\n");
    let mut out = Line::new();
    print_sums(6, 1, &sums, &mut out);
    assert_eq!(rt;
        out.as_str(),
        "surf 1 S1 lost range S2 [-51567899.000000,-51567897.000000] S3 [0.000000,0.000001] S4 lost zero S5 [55555.399999,55555.700001]\n"
    );
    let mut out = Line::new();
    print_whole(6, &sums, &mut out);
    assert_eq!(rt;
        out.as_str(),
        "whole S1 lost range S2 [-51567899.000000,-51567897.000000] S3 [0.000000,0.000001] S4 lost zero S5 [55555.399999,55555.700001]\n"
    );
}
