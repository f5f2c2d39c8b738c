//! Quotients of forms.

ghost use Rattle.std.specs.Prelude.{◌≡◌, pos, negsuc, ◌⊎◌, ◌≤◌, ◌<◌, ◌+◌, ◌-◌, ◌*◌, ◌^◌, ◌≤ℤ◌, ◌<ℤ◌, ◌*ℤ◌, neg_ℤ, unsigned_abs};
ghost use Rattle.fixdec.specs.Ends.{InCap};
ghost use Rattle.fixdec.specs.Form as spec;

use super::Form;
use super::rounded::{divided, size_product, unit};
use crate::coefficients::{mixed_at, narrow, product, round_mixed};
use crate::rounding::Divisor;
use fixdec::span::CAP;
use fixdec::step::{Step, Why};

// a number, turned where the divisor is below 0
#[inline(always)]
fn turned(divisor: i64, z: i64) -> i64
    requires { InCap z }
    ensures value { ((pos 0 ≤ℤ divisor) × (result ≡ z)) ⊎
        ((divisor <ℤ pos 0) × (result ≡ neg_ℤ z)) }
    ensures bound { unsigned_abs result ≡ unsigned_abs z }
{
    if divisor < 0 { -z } else { z }
}

// what a first quotient leaves of the radius: that of the dividend times the unit of the scale, and
// that of the divisor times the quotient's size
#[inline(always)]
fn left_radius(unit: i64, q: i64, ra: u64, rb: u64) -> u128
    requires unit { unsigned_abs unit ≤ 10 ^ 15 }
    requires quotient { InCap q }
    requires first { ra ≤ 10 ^ 18 }
    requires second { rb ≤ 10 ^ 18 }
    ensures value { result ≡ ra * unsigned_abs unit + unsigned_abs q * rb }
    ensures bound { result ≤ 2 * 10 ^ 36 }
{
    size_product(ra, unit.unsigned_abs()) + size_product(q.unsigned_abs(), rb)
}

// the quotient about a first quotient q of the centres, where `by` is the size of the divisor's
#[inline(always)]
fn quotient_about<const S: u32>(by: &Divisor, q: i64, a: &Form<S>, b: &Form<S>) -> Step<Form<S>>
    requires scale { S ≤ 15 }
    requires first { InCap q }
    requires divisor { spec.dev b.now < unsigned_abs b.now.centre }
    requires size { by.now ≡ pos (unsigned_abs b.now.centre) }
    ensures { result ≡ spec.quotient_about S q a.now b.now }
{
    let unit = turned(b.centre, unit(S));
    let factor = turned(b.centre, -q);
    let mut coefficients = [0; 32];
    let Some(rounded) = round_mixed(
        &mut coefficients,
        by,
        a.used.max(b.used),
        unit,
        &a.coefficients,
        factor,
        &b.coefficients,
    ) else {
        return Step::Lost(Why::Range);
    };
    let centre = mixed_at(unit, a.centre, factor, b.centre);
    let radius = left_radius(unit, q, a.radius, b.radius);
    let least = Divisor::new((b.centre.unsigned_abs() - b.deviation) as i64);
    let far = least.ceiling(centre.unsigned_abs() + rounded.numerators + radius);
    if CAP.unsigned_abs() < far {
        return Step::Lost(Why::Range);
    }
    let beside = by.ceiling(radius) + by.ceiling(size_product(far as u64, b.deviation));
    divided(q, by, centre, &coefficients, rounded, beside)
}

/// The quotient: `Lost(Zero)` exactly where the divisor's hull holds 0.
#[tactic(auto, unfolding(fixdec::specs::Form::lin_over))]
pub fn over<const S: u32>(a: &Form<S>, b: &Form<S>) -> Step<Form<S>>
    requires { S ≤ 15 }
    ensures { result ≡ spec.lin_over S a.now b.now }
{
    if b.centre.unsigned_abs() <= b.deviation {
        return Step::Lost(Why::Zero);
    }
    let by = Divisor::new(b.centre.unsigned_abs() as i64);
    let first = by
        .quotient(product(a.centre, turned(b.centre, unit(S))))
        .floor;
    if CAP.unsigned_abs() < first.unsigned_abs() {
        return Step::Lost(Why::Range);
    }
    quotient_about(&by, narrow(first), a, b)
}
