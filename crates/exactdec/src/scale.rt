//! Decimals at a scale, and times a power of ten.

ghost use Rattle.std.specs.Prelude.{◌≡◌, ℕ, ℤ, pos, ◌<◌, ◌≤◌, ◌^◌, ◌≤ℤ◌, ◌*ℤ◌, neg_ℤ, unsigned_abs};
ghost use Rattle.fixdec.specs.Decimal.{value, ten_power};
ghost use Rattle.fixdec.specs.Frac.{◌≈◌, ◌*Q◌};
ghost use Rattle.fixdec.specs.Interval.{ends as ends_in_cap, fits_cap};
ghost use Rattle.fixdec.specs.Member.{IsMember, units};
ghost use Rattle.fixdec.specs.Rounding.{IsFloor, IsCeil};
ghost use Rattle.fixdec.specs.Scaled.{dec_floor, dec_ceil, dec_span, dec_shifted, floor_times, ceil_times};
ghost use Rattle.fixdec.specs.Steps.{OnVal};
ghost use Rattle.fixdec.specs.Word.{IsReadable};

use fixdec::dec::Dec;
use fixdec::div::{ceil_div, floor_div, pow10};
use fixdec::span::{CAP, Span};
use fixdec::step::{Step, Why};

/// The value at a scale of at most 15, rounded down and up; `Lost(Range)` where one of the two is
/// past `CAP`.
pub fn span(v: &Dec, scale: u32) -> Step<Span>
    requires { scale ≤ 15 }
    ensures value { result ≡ dec_span scale v.now }
    // The two ends are the floor and the ceiling of the value in units of the scale.
    ensures floor { IsFloor (value v.now *Q units scale) (dec_floor scale v.now) }
    ensures ceiling { IsCeil (value v.now *Q units scale) (dec_ceil scale v.now) }
    ensures member { OnVal result (λ s. IsMember scale s (value v.now)) }
{
    ends(v.mant, v.exp + scale as i32)
}

/// The decimal times `10^k`, with `k` from -48 to 48. Its exponent is one that is read, from -60
/// to 30.
pub fn shifted(v: &Dec, k: i32) -> Dec
    requires exponent { IsReadable v.now.exp }
    requires low { neg_ℤ (pos 48) ≤ℤ k }
    requires high { k ≤ℤ pos 48 }
    ensures value { result ≡ dec_shifted v.now k }
    ensures exact { value result ≈ value v.now *Q ten_power k }
{
    if v.mant == 0 {
        return *v;
    }
    Dec {
        mant: v.mant,
        exp: v.exp + k,
    }
}

/// `mant * 10^k`, rounded down and up.
pub(crate) fn ends(mant: i128, k: i32) -> Step<Span>
    requires size { unsigned_abs mant < 10 ^ 32 }
    requires low { neg_ℤ (pos 200) ≤ℤ k }
    ensures { result ≡ ends_in_cap (floor_times mant k) (ceil_times mant k) }
{
    if k >= 0 {
        return product(mant, k as u32);
    }
    let unit = pow10(k.unsigned_abs().min(38));
    let lo = floor_div(mant, unit);
    let hi = ceil_div(mant, unit);
    in_cap(lo, hi)
}

fn product(mant: i128, k: u32) -> Step<Span>
    ensures { result ≡ ends_in_cap (mant *ℤ pos (10 ^ k)) (mant *ℤ pos (10 ^ k)) }
{
    if mant == 0 {
        return in_cap(0, 0);
    }
    if k > 18 {
        return Step::Lost(Why::Range);
    }
    if !is_in_cap(mant) {
        return Step::Lost(Why::Range);
    }
    let v = mant * pow10(k);
    in_cap(v, v)
}

fn in_cap(lo: i128, hi: i128) -> Step<Span>
    requires { lo ≤ℤ hi }
    ensures { result ≡ ends_in_cap lo hi }
{
    if is_in_cap(lo) && is_in_cap(hi) {
        Step::Val(Span { lo, hi })
    } else {
        Step::Lost(Why::Range)
    }
}

fn is_in_cap(v: i128) -> bool
    ensures { result ≡ fits_cap v }
{
    v.unsigned_abs() <= CAP as u128
}
