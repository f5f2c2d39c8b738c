//! Sums of intervals, which have no cap.

ghost use Rattle.std.specs.Prelude.{◌≡◌, ◌+◌, ◌<◌, ◌≤◌};
ghost use Rattle.fixdec.specs.Ends.{Ends};
ghost use Rattle.spotfan.specs.Sums.{IsSum, IsSumIf, mean_of, sum_of_two, sum_with};

use crate::interval::ends;
use fixdec::div::{ceil_div, floor_div};
use fixdec::span::Span;
use fixdec::step::Step;
use fixdec::val;
use std::marker::Model;

/// The sums of the least and of the greatest numbers of some intervals.
#[derive(Clone, Copy, Debug, PartialEq, Eq)]
pub(crate) struct Total {
    lo: i128,
    hi: i128,
}

impl Model for Total {
    ghost Value = { Ends };

    ghost view = { λ t. record { lo = t.lo; hi = t.hi } };

    ghost inverse = { λ e. record { lo = e.lo; hi = e.hi } };
}

impl Total {
    /// The sums of no intervals.
    pub(crate) const NONE: Total = Total { lo: 0, hi: 0 };

    /// The sums of `count` intervals with those of one more.
    fn plus(self, a: Span, count: u32) -> Total
        requires few { count < 10_000 }
        requires sums { IsSum count self }
        ensures value { result ≡ sum_of_two self a }
        ensures sums { IsSum (count + 1) result }
    {
        Total {
            lo: self.lo + a.lo,
            hi: self.hi + a.hi,
        }
    }

    /// The mean of `count` intervals by their sums: the least numbers' rounded down, the greatest
    /// numbers' rounded up.
    pub(crate) fn mean(self, count: u32) -> Step<Span>
        requires some { 1 ≤ count }
        requires few { count ≤ 10_000 }
        requires sums { IsSum count self }
        ensures { result ≡ mean_of count self }
    {
        let count = i128::from(count);
        ends(floor_div(self.lo, count), ceil_div(self.hi, count))
    }
}

/// The sums of `count` intervals with those of one more, where both are there.
pub(crate) fn sum_with(so_far: &Step<Total>, next: &Step<Span>, count: u32) -> Step<Total>
    requires few { count < 10_000 }
    requires sums { IsSumIf count so_far.now }
    ensures value { result ≡ sum_with so_far.now next.now }
    ensures sums { IsSumIf (count + 1) result }
{
    let so_far = val!(*so_far);
    Step::Val(so_far.plus(val!(*next), count))
}
