//! Intervals.
#![tactic(auto, unfolding(fixdec::specs::IntervalOperations::operations))]

ghost use Rattle.std.specs.Prelude.{◌≡◌, ℕ, ℤ, pos, negsuc, ◌≤◌, ◌<◌, ◌≤ℤ◌, ◌+ℤ◌};
ghost use Rattle.fixdec.specs.Ends.{Ends, InCap};
ghost use Rattle.fixdec.specs.IntervalOperations.{operations};
ghost use Rattle.enclose.specs.IvLaws.{iv_member, iv_lawful};
ghost use Rattle.enclose.specs.Zeros as zeros;

use crate::arith::Arith;
use crate::spans;
use fixdec::span::Span;
use fixdec::step::Step;
use std::marker::Model;

/// An interval at the scale `S`. Its members are the numbers between its two ends.
#[derive(Clone, Copy, Debug, PartialEq, Eq)]
pub struct Iv<const S: u32> {
    span: Span,
}

impl<const S: u32> Model for Iv<S> {
    ghost Value = { Ends };

    ghost view = { λ a. a.span };

    ghost inverse = { λ e. record { span = e } };
}

/// The step of a span as one of an interval.
#[inline(always)]
fn of_step<const S: u32>(r: Step<Span>) -> Step<Iv<S>>
    ensures { result ≡ r }
{
    match r {
        Step::Val(span) => Step::Val(Iv { span }),
        Step::Empty => Step::Empty,
        Step::Lost(why) => Step::Lost(why),
    }
}

impl<const S: u32> Arith for Iv<S> {
    const SCALE: u32 = S;

    ghost SCALE = { S };

    ghost ops = { operations S };

    ghost member = { iv_member S };

    ghost lawful = { λ _. iv_lawful S };

    ghost number_leaves_zero = { λ _. zeros.number_leaves_zero S };

    #[inline(always)]
    fn of_span(s: Span) -> Iv<S> {
        Iv { span: s }
    }

    #[inline(always)]
    fn hull(&self) -> Span {
        self.span
    }

    #[inline(always)]
    fn plus(self, o: Iv<S>) -> Step<Iv<S>> {
        of_step(spans::iv_plus(S, self.span, o.span))
    }

    #[inline(always)]
    fn minus(self, o: Iv<S>) -> Step<Iv<S>> {
        of_step(spans::iv_minus(S, self.span, o.span))
    }

    #[inline(always)]
    fn times(self, o: Iv<S>) -> Step<Iv<S>> {
        of_step(spans::iv_times(S, self.span, o.span))
    }

    #[inline(always)]
    fn square(self) -> Step<Iv<S>> {
        of_step(spans::iv_square(S, self.span))
    }

    #[inline(always)]
    fn over(self, o: Iv<S>) -> Step<Iv<S>> {
        of_step(spans::iv_over(S, self.span, o.span))
    }

    #[inline(always)]
    fn root(self) -> Step<Iv<S>> {
        of_step(spans::iv_root(S, self.span))
    }

    #[inline(always)]
    fn widen(self, e: i128) -> Step<Iv<S>> {
        of_step(spans::iv_widen(self.span, e))
    }

    #[inline(always)]
    fn shift(self, k: i32) -> Step<Iv<S>> {
        of_step(spans::iv_shift(self.span, k))
    }

    #[inline(always)]
    fn clip(self, s: Span) -> Step<Iv<S>> {
        of_step(spans::iv_clip(self.span, s))
    }

    #[inline(always)]
    fn symbol(self, _i: usize, delta: Span) -> Step<Iv<S>> {
        of_step(spans::iv_widen(self.span, delta.hi))
    }

    #[inline(always)]
    fn leaves_zero(&self) {
        let _lo = self.span.lo; // so that its ends are known to be within the cap
    }
}

#[cfg(test)]
mod tests {
    use super::*;
    use fixdec::span::CAP;
    use fixdec::step::Why;

    fn span(lo: i128, hi: i128) -> Span
        requires order { lo ≤ℤ hi }
        requires low { InCap lo }
        requires high { InCap hi }
    {
        Span { lo, hi }
    }

    fn val(lo: i128, hi: i128) -> Step<Span>
        requires order { lo ≤ℤ hi }
        requires low { InCap lo }
        requires high { InCap hi }
    {
        Step::Val(span(lo, hi))
    }

    fn hull_of<T: Arith>(answer: Step<T>) -> Step<Span>
        requires { T.SCALE ≤ 15 }
    {
        match answer {
            Step::Val(v) => Step::Val(v.hull()),
            Step::Empty => Step::Empty,
            Step::Lost(why) => Step::Lost(why),
        }
    }

    // what each operation answers on two spans
    fn answers<T: Arith>(a: Span, b: Span) -> [Step<Span>; 10]
        requires { T.SCALE ≤ 15 }
    {
        let x = T::of_span(a);
        let y = T::of_span(b);
        let delta = Span { lo: 2, hi: 3 };
        [
            hull_of(x.plus(y)),
            hull_of(x.minus(y)),
            hull_of(x.times(y)),
            hull_of(x.square()),
            hull_of(x.over(y)),
            hull_of(x.root()),
            hull_of(x.widen(7)),
            hull_of(x.shift(2)),
            hull_of(x.clip(b)),
            hull_of(x.symbol(31, delta)),
        ]
    }

    #[test]
    fn answers_at_six(rt: HostRuntime) {
        let want = [
            val(2_639_579, 3_093_352),
            val(-297_756, 156_017),
            val(1_740_364, 2_380_253),
            val(1_844_853, 2_065_953),
            val(820_196, 1_121_763),
            val(1_165_441, 1_198_892),
            val(1_358_247, 1_437_349),
            val(13_582, 14_374),
            val(1_358_254, 1_437_342),
            val(1_358_251, 1_437_345),
        ];
        assert_eq!(rt;
            answers::<Iv<6>>(span(1_358_254, 1_437_342), span(1_281_325, 1_656_010)),
            want
        );
        let want = [
            val(-1_437_347, 999_999_999_998_641_746),
            Step::Lost(Why::Range),
            Step::Lost(Why::Range),
            val(1_844_853, 2_065_953),
            Step::Lost(Why::Zero),
            Step::Empty,
            val(-1_437_349, -1_358_247),
            val(-14_374, -13_582),
            Step::Empty,
            val(-1_437_345, -1_358_251),
        ];
        assert_eq!(rt;
            answers::<Iv<6>>(span(-1_437_342, -1_358_254), span(-5, CAP)),
            want
        );
    }

    #[test]
    fn answers_at_twelve(rt: HostRuntime) {
        let want = [
            val(-491_334_679_468, 150_088_034_821),
            val(2_309_388_541_308, 2_950_811_255_597),
            val(-2_168_949_596_353, -1_326_611_564_615),
            val(1_150_891_685_569, 1_922_882_467_048),
            val(-1_121_372_282_313, -685_873_678_418),
            val(1_035_758_755_433, 1_177_573_936_818),
            val(1_072_796_199_450, 1_386_680_376_679),
            val(10_727_961_994, 13_866_803_767),
            Step::Empty,
            val(1_072_796_199_454, 1_386_680_376_675),
        ];
        assert_eq!(rt;
            answers::<Iv<12>>(
                span(1_072_796_199_457, 1_386_680_376_672),
                span(-1_564_130_878_925, -1_236_592_341_851)
            ),
            want
        );
        let want = [
            Step::Lost(Why::Range),
            Step::Lost(Why::Range),
            val(-5_000_000, 5_000_000),
            Step::Lost(Why::Range),
            Step::Lost(Why::Range),
            val(0, 1_000_000_000_000_000),
            Step::Lost(Why::Range),
            val(-10_000_000_000_000_000, 10_000_000_000_000_000),
            val(-5, -3),
            Step::Lost(Why::Range),
        ];
        assert_eq!(rt; answers::<Iv<12>>(span(-CAP, CAP), span(-5, -3)), want);
    }
}
