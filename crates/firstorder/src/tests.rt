//! Rows that are lost, and a slope by hand.

ghost use Rattle.fixdec.specs.Ends.{InCap};

mod lenses;

use crate::surface::slope_from;
use crate::worked::{Worked, hull_of};
use enclose::arith::Arith;
use enclose::iv::Iv;
use fixdec::span::Span;
use fixdec::step::{Step, Why};

/// A number that is known exactly.
fn exactly(raw: i128) -> Step<Iv<15>>
    requires { InCap raw }
{
    Step::Val(Iv::of_span(Span { lo: raw, hi: raw }))
}

#[test]
fn the_first_loss_is_kept(rt: HostRuntime) {
    let done: Worked<u8> = Worked::of_step(101, Step::Val(7));
    let root: Worked<u8> = Worked::of_step(103, Step::Empty);
    let zero: Worked<u8> = Worked::of_step(102, Step::Lost(Why::Zero));
    assert_eq!(rt; done.earlier(root).earlier(zero), zero);
    assert_eq!(rt; zero.earlier(root).needed(104, Step::Val(7)), zero);
    assert_eq!(rt;
        done.needed(104, Step::Lost(Why::Range)),
        Worked::Gone(104, Why::Range)
    );
    assert_eq!(rt; root.step(), Step::Lost(Why::Root));
    assert!(rt; !zero.is_by_range());
}

#[test]
fn a_ray_bends_towards_the_axis(rt: HostRuntime) {
    let y = exactly(1_000_000_000_000_000);
    let u = exactly(0);
    let cv = exactly(10_000_000_000_000);
    let n = exactly(1_000_000_000_000_000);
    let n2 = exactly(1_500_000_000_000_000);
    let behind = Worked::of_step(103, slope_from(y, u, cv, n, n2, 0));
    let expected = Span {
        lo: -3_333_333_333_334,
        hi: -3_333_333_333_333,
    };
    assert_eq!(rt; hull_of(behind), Step::Val(expected));
}
