//! Products and powers of ten of forms, rounded.

ghost use Rattle.std.specs.Prelude.{◌≡◌, ℤ, pos, negsuc, ◌≤◌, ◌<◌, ◌*◌, ◌+◌, ◌^◌, ◌≤ℤ◌, ◌<ℤ◌, ◌*ℤ◌, ◌+ℤ◌, cond, map, unsigned_abs};
ghost use Rattle.std.specs.Int.{div_ceil};
ghost use Rattle.fixdec.specs.Ends.{InCap};
ghost use Rattle.fixdec.specs.Form as spec;
ghost use Rattle.fixdec.specs.Rounding.{floor};
ghost use Rattle.forms.specs.Kept.{in_use};

use super::{Form, kept};
use crate::coefficients::{Rounded, counted_with, product, round_mixed};
use crate::rounding::Divisor;
use fixdec::div::pow10;
use fixdec::step::{Step, Why};

/// The form of the quotient of `n` by the divisor, rounded and moved by `q`, of rounded
/// coefficients, and of the radius `radius` and a unit for each remainder.
#[inline(always)]
pub fn divided<const S: u32>(
    q: i64,
    by: &Divisor,
    n: i128,
    coefficients: &[i64; 32],
    rounded: Rounded,
    radius: u128,
) -> Step<Form<S>>
    requires moved { InCap q }
    requires centre { unsigned_abs n ≤ 2 * 10 ^ 36 }
    requires size { rounded.counted.size ≡ spec.sizes coefficients.now }
    requires used { rounded.counted.used ≡ in_use coefficients.now }
    requires remainders { rounded.remainders ≤ 32 }
    requires radius { radius ≤ 5 * 10 ^ 36 }
    ensures { result ≡ spec.within_cap
        (record {
          centre = q +ℤ floor n by.now;
          coefficients = coefficients.now;
          radius = radius
              + (rounded.remainders + cond (spec.has_remainder by.now n) 1 0);
        }) }
{
    let centre = by.quotient(n);
    let rest = counted_with(rounded.remainders, centre.has_remainder);
    kept(
        q as i128 + centre.floor,
        coefficients,
        rounded.counted,
        radius + rest as u128,
    )
}

/// The number of units in one.
#[inline(always)]
pub fn unit(scale: u32) -> i64
    requires { scale ≤ 15 }
    ensures value { result ≡ pos (10 ^ scale) }
    ensures positive { pos 1 ≤ℤ result }
    ensures bound { unsigned_abs result ≤ 10 ^ 15 }
{
    pow10(scale) as i64
}

/// The product of two sizes within the cap.
#[inline(always)]
pub fn size_product(x: u64, y: u64) -> u128
    requires first { x ≤ 10 ^ 18 }
    requires second { y ≤ 10 ^ 18 }
    ensures value { result ≡ x * y }
    ensures bound { result ≤ 10 ^ 36 }
{
    x as u128 * y as u128
}

// what a product has beside its centre and its coefficients, times the unit of the scale
#[inline(always)]
fn beside<const S: u32>(a: &Form<S>, b: &Form<S>) -> u128
    ensures value { result ≡ spec.error_terms a.now b.now }
    ensures bound { result ≤ 3 * 10 ^ 36 }
{
    size_product(a.centre.unsigned_abs(), b.radius)
        + size_product(b.centre.unsigned_abs(), a.radius)
        + size_product(a.deviation, b.deviation)
}

/// The product.
#[tactic(auto, unfolding(fixdec::specs::Form::lin_times))]
pub fn times<const S: u32>(a: &Form<S>, b: &Form<S>) -> Step<Form<S>>
    requires { S ≤ 15 }
    ensures { result ≡ spec.lin_times S a.now b.now }
{
    let by = Divisor::new(unit(S));
    let mut coefficients = [0; 32];
    let Some(rounded) = round_mixed(
        &mut coefficients,
        &by,
        a.used.max(b.used),
        b.centre,
        &a.coefficients,
        a.centre,
        &b.coefficients,
    ) else {
        return Step::Lost(Why::Range);
    };
    let radius = by.ceiling(beside(a, b));
    let centre = product(a.centre, b.centre);
    divided(0, &by, centre, &coefficients, rounded, radius)
}

// the form times `factor` over `divisor`
#[inline(always)]
fn scaled<const S: u32>(a: &Form<S>, factor: i64, divisor: i64) -> Step<Form<S>>
    requires positive_factor { pos 0 <ℤ factor }
    requires factor { unsigned_abs factor ≤ 10 ^ 15 }
    requires positive_divisor { pos 0 <ℤ divisor }
    requires divisor { unsigned_abs divisor ≤ 10 ^ 15 }
    ensures { result ≡ spec.within_cap
        (spec.divided_form divisor (factor *ℤ a.now.centre)
        (map (λ k. factor *ℤ k) a.now.coefficients)
        (div_ceil (a.now.radius * unsigned_abs factor) (unsigned_abs divisor))) }
{
    let by = Divisor::new(divisor);
    let mut coefficients = [0; 32];
    let ks = &a.coefficients;
    let Some(rounded) = round_mixed(&mut coefficients, &by, a.used, factor, ks, 0, ks) else {
        return Step::Lost(Why::Range);
    };
    let radius = by.ceiling(size_product(a.radius, factor.unsigned_abs()));
    let centre = product(factor, a.centre);
    divided(0, &by, centre, &coefficients, rounded, radius)
}

/// The form times `10^-k`, `k` from -6 to 6.
#[tactic(auto, unfolding(fixdec::specs::Form::lin_shift))]
pub fn shift<const S: u32>(a: &Form<S>, k: i32) -> Step<Form<S>>
    requires low { negsuc 5 ≤ℤ k }
    requires high { k ≤ℤ pos 6 }
    ensures { result ≡ spec.lin_shift a.now k }
{
    let power = unit(k.unsigned_abs());
    if 0 < k {
        scaled(a, 1, power)
    } else {
        scaled(a, power, 1)
    }
}
