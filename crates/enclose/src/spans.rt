//! Interval arithmetic on spans. At a scale, a number of at most 15, the raw number `v` stands for
//! `v / 10^scale`.
//!
//! Each call encloses: what is computed from numbers of the arguments lies in the answer, whose
//! ends are rounded outward. An answer is `Lost(Range)` exactly where one of its ends would pass
//! the cap.

ghost use Rattle.std.specs.Prelude.{◌≡◌, false, ℕ, ℤ, pos, negsuc, ◌≤◌, ◌<◌, ◌≤ℤ◌, ◌+ℤ◌, ◌*ℤ◌, ◌*◌, ◌^◌, unsigned_abs};
ghost use Rattle.fixdec.specs.Ends.{Ends, InCap};
ghost use Rattle.fixdec.specs.Frac.{Frac, ◌≈◌, ◌≤Q◌, ◌+Q◌, ◌-Q◌, ◌*Q◌, size, whole};
ghost use Rattle.fixdec.specs.Interval as spec;
ghost use Rattle.fixdec.specs.Member.{IsMember, IsNear, IsShifted};
ghost use Rattle.fixdec.specs.Steps.{OnVal};
ghost use Rattle.fixdec.specs.Rounding.{floor, ceil};

use crate::signs;
use crate::signs::product;
use fixdec::div::{ceil_div, floor_div, pow10};
use fixdec::root::{isqrt_ceil, isqrt_floor};
use fixdec::span::{CAP, Span};
use fixdec::step::{Step, Why};
use fixdec::tens::{ceil_pow10, floor_pow10};

#[inline(always)]
#[tactic(auto, unfolding(fixdec::specs::Interval::ends))]
fn ends(lo: i128, hi: i128) -> Step<Span>
    requires { lo ≤ℤ hi }
    ensures { result ≡ spec.ends lo hi }
{
    if -CAP <= lo && hi <= CAP {
        Step::Val(Span { lo, hi })
    } else {
        Step::Lost(Why::Range)
    }
}

// the same in 64 bits
#[inline(always)]
#[tactic(auto, unfolding(fixdec::specs::Interval::ends))]
fn short_ends(lo: i64, hi: i64) -> Step<Span>
    requires { lo ≤ℤ hi }
    ensures { result ≡ spec.ends lo hi }
{
    const SHORT_CAP: i64 = CAP as i64;
    if -SHORT_CAP <= lo && hi <= SHORT_CAP {
        Step::Val(Span {
            lo: lo as i128,
            hi: hi as i128,
        })
    } else {
        Step::Lost(Why::Range)
    }
}

// the number, which 64 bits hold
#[inline(always)]
fn short(z: i128) -> i64
    requires { InCap z }
    ensures value { result ≡ z }
    ensures bound { InCap result }
{
    z as i64
}

// both ends over 10^k, rounded outward
#[inline(always)]
fn outward(lo: i128, hi: i128, k: u32) -> Step<Span>
    requires power { k ≤ 15 }
    requires order { lo ≤ℤ hi }
    requires low { unsigned_abs lo ≤ 10 ^ 36 }
    requires high { unsigned_abs hi ≤ 10 ^ 36 }
    ensures { result ≡ spec.ends (floor lo (pos (10 ^ k))) (ceil hi (pos (10 ^ k))) }
{
    ends(floor_pow10(lo, k), ceil_pow10(hi, k))
}

/// The sum, which is the same at each scale. `Lost(Range)` exactly where an end passes the cap.
#[inline(always)]
pub fn iv_plus(_scale: u32, a: Span, b: Span) -> Step<Span>
    requires { _scale ≤ 15 }
    ensures exact { result ≡ spec.iv_plus a b }
    ensures encloses { (u v : Frac) → IsMember _scale a u → IsMember _scale b v
        → OnVal result (λ r. IsMember _scale r (u +Q v)) }
{
    short_ends(short(a.lo) + short(b.lo), short(a.hi) + short(b.hi))
}

/// The difference, which is the same at each scale. `Lost(Range)` exactly where an end passes the
/// cap.
#[inline(always)]
pub fn iv_minus(_scale: u32, a: Span, b: Span) -> Step<Span>
    requires { _scale ≤ 15 }
    ensures exact { result ≡ spec.iv_minus a b }
    ensures encloses { (u v : Frac) → IsMember _scale a u → IsMember _scale b v
        → OnVal result (λ r. IsMember _scale r (u -Q v)) }
{
    short_ends(short(a.lo) - short(b.hi), short(a.hi) - short(b.lo))
}

#[inline(always)]
fn least_product(a: Span, b: Span) -> i128
    ensures value { result ≡ spec.least_product a b }
    ensures bound { unsigned_abs result ≤ 10 ^ 36 }
{
    signs::least_product(short(a.lo), short(a.hi), short(b.lo), short(b.hi))
}

#[inline(always)]
fn greatest_product(a: Span, b: Span) -> i128
    ensures value { result ≡ spec.greatest_product a b }
    ensures bound { unsigned_abs result ≤ 10 ^ 36 }
{
    signs::greatest_product(short(a.lo), short(a.hi), short(b.lo), short(b.hi))
}

/// The product: the least and the greatest of the four products of ends, over the unit of the scale
/// and rounded outward. `Lost(Range)` exactly where an end passes the cap.
#[inline(always)]
pub fn iv_times(scale: u32, a: Span, b: Span) -> Step<Span>
    requires { scale ≤ 15 }
    ensures exact { result ≡ spec.iv_times scale a b }
    ensures encloses { (u v : Frac) → IsMember scale a u → IsMember scale b v
        → OnVal result (λ r. IsMember scale r (u *Q v)) }
{
    outward(least_product(a, b), greatest_product(a, b), scale)
}

#[inline(always)]
fn holds_zero(a: Span) -> bool
    ensures { result ≡ spec.holds_zero a }
{
    a.lo <= 0 && 0 <= a.hi
}

#[inline(always)]
fn least_size(a: Span) -> i128
    ensures value { result ≡ pos (spec.least_size a) }
    ensures bound { InCap result }
{
    if 0 <= a.lo {
        a.lo
    } else if a.hi <= 0 {
        -a.hi
    } else {
        0
    }
}

#[inline(always)]
fn greatest_size(a: Span) -> i128
    ensures value { result ≡ pos (spec.greatest_size a) }
    ensures bound { InCap result }
{
    if 0 <= a.lo {
        a.hi
    } else if a.hi <= 0 {
        -a.lo
    } else {
        a.hi.max(-a.lo)
    }
}

/// The sizes of the numbers of a span: from 0 where it holds 0, else from the smaller size of its
/// ends, to the larger.
#[inline(always)]
pub fn iv_size(a: Span) -> Span
    ensures exact { result ≡ spec.iv_size a }
    ensures encloses { (scale : ℕ) (u : Frac) → IsMember scale a u
        → IsMember scale result (size u) }
{
    Span {
        lo: least_size(a),
        hi: greatest_size(a),
    }
}

/// The square: the squares of the least and the greatest size, over the unit of the scale and
/// rounded outward. `Lost(Range)` exactly where an end passes the cap.
#[inline(always)]
pub fn iv_square(scale: u32, a: Span) -> Step<Span>
    requires { scale ≤ 15 }
    ensures exact { result ≡ spec.iv_square scale a }
    ensures encloses { (u : Frac) → IsMember scale a u
        → OnVal result (λ r. IsMember scale r (u *Q u)) }
{
    let smallest = short(least_size(a));
    let largest = short(greatest_size(a));
    outward(
        product(smallest, smallest),
        product(largest, largest),
        scale,
    )
}

// the number times 10^k
#[inline(always)]
fn raised(z: i128, k: u32) -> i128
    requires number { InCap z }
    requires power { k ≤ 15 }
    ensures value { result ≡ z *ℤ pos (10 ^ k) }
    ensures bound { unsigned_abs result ≤ 10 ^ 33 }
{
    short(z) as i128 * pow10(k)
}

#[inline(always)]
fn least_quotient(scale: u32, a: Span, b: Span) -> i128
    requires scale { scale ≤ 15 }
    requires divisor { spec.holds_zero b ≡ false }
    ensures { result ≡ spec.least_quotient scale a b }
{
    let lo = raised(a.lo, scale);
    let hi = raised(a.hi, scale);
    let (number, divisor) = signs::least_quotient(lo, hi, b.lo, b.hi);
    floor_div(number, divisor)
}

#[inline(always)]
fn greatest_quotient(scale: u32, a: Span, b: Span) -> i128
    requires scale { scale ≤ 15 }
    requires divisor { spec.holds_zero b ≡ false }
    ensures { result ≡ spec.greatest_quotient scale a b }
{
    let lo = raised(a.lo, scale);
    let hi = raised(a.hi, scale);
    let (number, divisor) = signs::greatest_quotient(lo, hi, b.lo, b.hi);
    ceil_div(number, divisor)
}

/// The quotient: the least and the greatest of the four quotients of ends, times the unit of the
/// scale and rounded outward. `Lost(Zero)` exactly where `b` holds 0, else `Lost(Range)` exactly
/// where an end passes the cap.
#[inline(always)]
pub fn iv_over(scale: u32, a: Span, b: Span) -> Step<Span>
    requires { scale ≤ 15 }
    ensures exact { result ≡ spec.iv_over scale a b }
    ensures encloses { (u v q : Frac) → IsMember scale a u → IsMember scale b v → q *Q v ≈ u
        → OnVal result (λ r. IsMember scale r q) }
{
    if holds_zero(b) {
        return Step::Lost(Why::Zero);
    }
    ends(least_quotient(scale, a, b), greatest_quotient(scale, a, b))
}

// the greater of z and 0, times the unit of the scale
#[inline(always)]
fn radicand(scale: u32, z: i128) -> u128
    requires scale { scale ≤ 15 }
    requires bound { InCap z }
    ensures value { result ≡ spec.positive_part z * 10 ^ scale }
    ensures bound { result ≤ 10 ^ 33 }
{
    raised(z.max(0), scale) as u128
}

/// The root that isn't negative, of the numbers of the span that aren't, its ends rounded outward.
/// `Empty` exactly where every number of the span is below 0.
#[inline(always)]
pub fn iv_root(scale: u32, a: Span) -> Step<Span>
    requires { scale ≤ 15 }
    ensures exact { result ≡ spec.iv_root scale a }
    ensures encloses { (u : Frac) → whole (pos 0) ≤Q u → IsMember scale a (u *Q u)
        → OnVal result (λ r. IsMember scale r u) }
{
    if a.hi < 0 {
        return Step::Empty;
    }
    let lo = isqrt_floor(radicand(scale, a.lo));
    let hi = isqrt_ceil(radicand(scale, a.hi));
    ends(lo as i128, hi as i128)
}

/// The span with its ends moved outward by `e` raw units, `e` from 0 to the cap. `Lost(Range)`
/// exactly where an end passes the cap.
#[inline(always)]
pub fn iv_widen(a: Span, e: i128) -> Step<Span>
    requires low { pos 0 ≤ℤ e }
    requires high { InCap e }
    ensures exact { result ≡ spec.iv_widen a e }
    ensures encloses { (scale : ℕ) (u v : Frac) → IsMember scale a u → IsNear scale e u v
        → OnVal result (λ r. IsMember scale r v) }
{
    short_ends(short(a.lo) - short(e), short(a.hi) + short(e))
}

/// The span times `10^-k`, `k` from -6 to 6: rounded outward where `k` is above 0, else exact.
/// `Lost(Range)` exactly where an end passes the cap.
#[inline(always)]
pub fn iv_shift(a: Span, k: i32) -> Step<Span>
    requires low { negsuc 5 ≤ℤ k }
    requires high { k ≤ℤ pos 6 }
    ensures exact { result ≡ spec.iv_shift a k }
    ensures encloses { (scale : ℕ) (u v : Frac) → IsMember scale a u → IsShifted k u v
        → OnVal result (λ r. IsMember scale r v) }
{
    if k < 0 {
        let power = k.unsigned_abs();
        return ends(raised(a.lo, power), raised(a.hi, power));
    }
    outward(a.lo, a.hi, k as u32)
}

/// The numbers that `a` and `s` have in common. `Empty` exactly where there is none.
#[inline(always)]
pub fn iv_clip(a: Span, s: Span) -> Step<Span>
    ensures exact { result ≡ spec.iv_clip a s }
    ensures encloses { (scale : ℕ) (u : Frac) → IsMember scale a u → IsMember scale s u
        → OnVal result (λ r. IsMember scale r u) }
{
    let lo = short(a.lo).max(short(s.lo));
    let hi = short(a.hi).min(short(s.hi));
    if lo <= hi {
        Step::Val(Span {
            lo: lo as i128,
            hi: hi as i128,
        })
    } else {
        Step::Empty
    }
}

#[cfg(test)]
mod tests {
    use super::*;

    fn span(lo: i128, hi: i128) -> Span
        requires order { lo ≤ℤ hi }
        requires low { InCap lo }
        requires high { InCap hi }
    {
        Span { lo, hi }
    }

    fn val(lo: i128, hi: i128) -> Step<Span>
        requires order { lo ≤ℤ hi }
        requires low { InCap lo }
        requires high { InCap hi }
    {
        Step::Val(span(lo, hi))
    }

    #[test]
    fn times_by_table(rt: HostRuntime) {
        for (scale, a, b, want) in [
            (
                6,
                span(1_358_254, 1_437_342),
                span(-1_681_325, -1_656_010),
                val(-2_416_640, -2_249_282),
            ),
            (
                9,
                span(-311_111_476, 287_699_462),
                span(404_285_458, 600_613_201),
                val(-186_857_660, 172_796_095),
            ),
            (
                12,
                span(-255_906_125_918, 278_785_056_149),
                span(-164_130_878_925, 236_592_341_851),
                val(-60_545_429_625, 65_958_409_308),
            ),
            (
                15,
                span(-365_663_460_355_008, -314_599_560_533_148),
                span(-1_981_556_676_821_406, -1_911_864_108_871_375),
                val(601_471_608_450_033, 724_582_871_336_086),
            ),
            (
                6,
                span(1, 100_000_000),
                span(1_000_000_000_000_000, 10_000_000_000_000_000),
                val(1_000_000_000, CAP),
            ),
            (
                6,
                span(1, 100_000_001),
                span(1, 9_999_999_900_000_001),
                Step::Lost(Why::Range),
            ),
            (
                6,
                span(-100_000_001, -1),
                span(1, 9_999_999_900_000_001),
                Step::Lost(Why::Range),
            ),
            (
                15,
                span(CAP, CAP),
                span(1_000_000_000_000_000, 1_000_000_000_000_000),
                val(CAP, CAP),
            ),
            (
                15,
                span(CAP, CAP),
                span(1_000_000_000_000_000, 1_000_000_000_000_001),
                Step::Lost(Why::Range),
            ),
        ] {
            assert!(rt; scale <= 15);
            assert_eq!(rt; iv_times(scale, a, b), want);
        }
    }

    #[test]
    fn over_by_table(rt: HostRuntime) {
        for (scale, a, b, want) in [
            (
                6,
                span(936_333, 1_266_962),
                span(-2_937_304, -2_631_646),
                val(-481_434, -318_772),
            ),
            (
                9,
                span(-265_695_474, 309_829_786),
                span(2_514_881_270, 2_727_847_480),
                val(-105_649_312, 123_198_574),
            ),
            (
                12,
                span(-362_298_773_566, -202_813_002_129),
                span(633_160_380_995, 699_907_118_639),
                val(-572_206_954_890, -289_771_309_260),
            ),
            (
                15,
                span(-1_389_278_343_423_577, 101_742_114_486_933),
                span(-2_828_928_703_671_464, -2_619_290_543_053_795),
                val(-38_843_386_334_803, 530_402_534_803_885),
            ),
            (6, span(1, 2), span(-1, 1), Step::Lost(Why::Zero)),
            (6, span(1, 2), span(0, 3), Step::Lost(Why::Zero)),
            (9, span(1, 2), span(-3, 0), Step::Lost(Why::Zero)),
            (6, span(0, 0), span(0, 0), Step::Lost(Why::Zero)),
            (6, span(CAP, CAP), span(1_000_000, 1_000_000), val(CAP, CAP)),
            (
                6,
                span(CAP, CAP),
                span(999_999, 1_000_000),
                Step::Lost(Why::Range),
            ),
            (12, span(1_000_000, 1_000_000), span(1, 1), val(CAP, CAP)),
            (
                12,
                span(1_000_000, 1_000_001),
                span(1, 1),
                Step::Lost(Why::Range),
            ),
            (
                12,
                span(-7, 5),
                span(-3, -2),
                val(-2_500_000_000_000, 3_500_000_000_000),
            ),
        ] {
            assert!(rt; scale <= 15);
            assert_eq!(rt; iv_over(scale, a, b), want);
        }
    }

    #[test]
    fn square_by_table(rt: HostRuntime) {
        for (scale, a, want) in [
            (6, span(408_654, 695_829), val(166_998, 484_178)),
            (
                9,
                span(-572_669_520, -269_676_600),
                val(72_725_468, 327_950_380),
            ),
            (
                12,
                span(-2_718_970_283_445, 271_467_525_600),
                val(0, 7_392_799_402_257),
            ),
            (
                15,
                span(2_394_657_643_213_141, 2_656_767_961_637_956),
                val(5_734_385_228_199_114, 7_058_416_001_985_900),
            ),
            (6, span(-3, 2), val(0, 1)),
            (6, span(1_000_000_000_000, 1_000_000_000_000), val(CAP, CAP)),
            (6, span(-1_000_000_000_001, 0), Step::Lost(Why::Range)),
            (
                15,
                span(-31_622_776_601_683_793, 0),
                val(0, 999_999_999_999_999_980),
            ),
            (15, span(-31_622_776_601_683_794, 0), Step::Lost(Why::Range)),
        ] {
            assert!(rt; scale <= 15);
            assert_eq!(rt; iv_square(scale, a), want);
        }
    }

    #[test]
    fn root_by_table(rt: HostRuntime) {
        for (scale, a, want) in [
            (6, span(2_456_025, 2_693_624), val(1_567_171, 1_641_227)),
            (9, span(-1_552_984_409, 160_936_182), val(0, 401_168_521)),
            (
                12,
                span(1_072_796_199_457, 1_386_680_376_672),
                val(1_035_758_755_433, 1_177_573_936_818),
            ),
            (
                15,
                span(2_365_274_139_205_718, 2_527_368_132_684_944),
                val(1_537_944_777_684_074, 1_589_769_836_386_684),
            ),
            (6, span(-5, -1), Step::Empty),
            (6, span(-5, 0), val(0, 0)),
            (6, span(4_000_000, 9_000_000), val(2_000_000, 3_000_000)),
            (9, span(2, 3), val(44_721, 54_773)),
            (
                15,
                span(CAP, CAP),
                val(31_622_776_601_683_793, 31_622_776_601_683_794),
            ),
            (
                12,
                span(CAP - 1, CAP),
                val(999_999_999_999_999, 1_000_000_000_000_000),
            ),
        ] {
            assert!(rt; scale <= 15);
            assert_eq!(rt; iv_root(scale, a), want);
        }
    }

    #[test]
    fn plus_by_table(rt: HostRuntime) {
        for (scale, a, b, want) in [
            (6, span(-3, 5), span(7, 11), val(4, 16)),
            (9, span(CAP - 1, CAP - 1), span(0, 1), val(CAP - 1, CAP)),
            (
                12,
                span(CAP - 1, CAP - 1),
                span(1, 2),
                Step::Lost(Why::Range),
            ),
            (15, span(-CAP, 0), span(-1, 0), Step::Lost(Why::Range)),
            (15, span(-CAP, CAP), span(0, 0), val(-CAP, CAP)),
        ] {
            assert!(rt; scale <= 15);
            assert_eq!(rt; iv_plus(scale, a, b), want);
        }
    }

    #[test]
    fn minus_by_table(rt: HostRuntime) {
        for (scale, a, b, want) in [
            (6, span(-3, 5), span(7, 11), val(-14, -2)),
            (9, span(1 - CAP, 0), span(0, 1), val(-CAP, 0)),
            (12, span(1 - CAP, 0), span(0, 2), Step::Lost(Why::Range)),
            (15, span(0, CAP), span(-1, 0), Step::Lost(Why::Range)),
            (15, span(CAP, CAP), span(CAP, CAP), val(0, 0)),
        ] {
            assert!(rt; scale <= 15);
            assert_eq!(rt; iv_minus(scale, a, b), want);
        }
    }

    #[test]
    fn widen_by_table(rt: HostRuntime) {
        for (a, e, want) in [
            (span(-3, 5), 2, val(-5, 7)),
            (span(-3, 5), 0, val(-3, 5)),
            (span(1 - CAP, CAP - 1), 1, val(-CAP, CAP)),
            (span(1 - CAP, CAP - 1), 2, Step::Lost(Why::Range)),
            (span(0, 0), CAP, val(-CAP, CAP)),
            (span(1, 1), CAP, Step::Lost(Why::Range)),
        ] {
            assert!(rt; 0 <= e && e <= CAP);
            assert_eq!(rt; iv_widen(a, e), want);
        }
    }

    #[test]
    fn shift_by_table(rt: HostRuntime) {
        for (a, k, want) in [
            (span(-123_456_789, 987_654_321), 3, val(-123_457, 987_655)),
            (span(-1, 1), 6, val(-1, 1)),
            (span(-7, 7), 0, val(-7, 7)),
            (span(-7, 8), -2, val(-700, 800)),
            (
                span(1_000_000_000_000, 1_000_000_000_000),
                -6,
                val(CAP, CAP),
            ),
            (span(0, 1_000_000_000_001), -6, Step::Lost(Why::Range)),
            (
                span(CAP, CAP),
                1,
                val(100_000_000_000_000_000, 100_000_000_000_000_000),
            ),
        ] {
            assert!(rt; -6 <= k && k <= 6);
            assert_eq!(rt; iv_shift(a, k), want);
        }
    }

    #[test]
    fn clip_by_table(rt: HostRuntime) {
        for (a, s, want) in [
            (span(-3, 5), span(2, 9), val(2, 5)),
            (span(-3, 5), span(5, 9), val(5, 5)),
            (span(-3, 5), span(6, 9), Step::Empty),
            (span(-3, 5), span(-9, -4), Step::Empty),
            (span(-3, 5), span(-1, 1), val(-1, 1)),
            (span(-CAP, CAP), span(-CAP, CAP), val(-CAP, CAP)),
        ] {
            assert_eq!(rt; iv_clip(a, s), want);
        }
    }

    #[test]
    fn size_by_table(rt: HostRuntime) {
        for (a, want) in [
            (span(-3, 5), span(0, 5)),
            (span(3, 5), span(3, 5)),
            (span(-5, -3), span(3, 5)),
            (span(0, 4), span(0, 4)),
            (span(-CAP, 2), span(0, CAP)),
        ] {
            assert_eq!(rt; iv_size(a), want);
        }
    }
}
