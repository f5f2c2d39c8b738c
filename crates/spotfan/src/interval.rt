//! Intervals at scale 12.

ghost use Rattle.std.specs.Prelude.{◌≡◌, ◌≤◌, ℤ, pos, ◌≤ℤ◌};
ghost use Rattle.fixdec.specs.Interval as interval;
ghost use Rattle.lensmodel.specs.Rows.Spot as spot;

use enclose::spans::{iv_plus, iv_shift, iv_square};
use fixdec::span::{CAP, Span};
use fixdec::step::{Step, Why};
use fixdec::val;

/// The scale of the statistics.
pub(crate) const SCALE: u32 = 12;

/// The interval of these two ends; `Lost(Range)` where one of them is past the cap.
#[tactic(auto, unfolding(fixdec::specs::Interval::ends))]
pub(crate) fn ends(lo: i128, hi: i128) -> Step<Span>
    requires { lo ≤ℤ hi }
    ensures { result ≡ interval.ends lo hi }
{
    if -CAP <= lo && hi <= CAP {
        Step::Val(Span { lo, hi })
    } else {
        Step::Lost(Why::Range)
    }
}

/// An interval at a scale from 6 to 15 brought to scale 12, rounded outward from a greater one.
pub(crate) fn at_12(scale: u32, a: Span) -> Step<Span>
    requires low { 6 ≤ scale }
    requires high { scale ≤ 15 }
    ensures { result ≡ spot.at_12 scale a }
{
    iv_shift(a, scale as i32 - SCALE as i32)
}

/// The sum of the squares of two intervals.
pub(crate) fn square_distance(x: Span, y: Span) -> Step<Span>
    ensures { result ≡ spot.square_distance x y }
{
    let x_square = val!(iv_square(SCALE, x));
    let y_square = val!(iv_square(SCALE, y));
    iv_plus(SCALE, x_square, y_square)
}
