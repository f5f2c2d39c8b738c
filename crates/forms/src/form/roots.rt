//! Roots of forms.

ghost use Rattle.std.specs.Prelude.{◌≡◌, ℤ, pos, ◌≤◌, ◌<◌, ◌+◌, ◌-◌, ◌*◌, ◌^◌, ◌<ℤ◌, ◌-ℤ◌, ◌*ℤ◌, max, unsigned_abs};
ghost use Rattle.std.specs.Int.{div_ceil};
ghost use Rattle.fixdec.specs.Ends.{InCap};
ghost use Rattle.fixdec.specs.Form as spec;
ghost use Rattle.fixdec.specs.Root.{root, root_up_by};

use super::rounded::{divided, size_product, unit};
use super::spans::of_span;
use super::{Form, hull};
use crate::coefficients::{product, round_mixed};
use crate::rounding::Divisor;
use enclose::spans::iv_root;
use fixdec::root::{isqrt_ceil, isqrt_floor};
use fixdec::step::{Step, Why};

// the size of a number times the unit of the scale
fn radicand(scale: u32, z: i128) -> u128
    requires scale { scale ≤ 15 }
    requires bound { InCap z }
    ensures value { result ≡ unsigned_abs z * 10 ^ scale }
    ensures bound { result ≤ 10 ^ 33 }
{
    z.unsigned_abs() * unit(scale).unsigned_abs() as u128
}

// the root, rounded down, of a number's size
fn root_down(scale: u32, z: i128) -> u128
    requires scale { scale ≤ 15 }
    requires bound { InCap z }
    ensures value { result ≡ root (unsigned_abs z * 10 ^ scale) }
    ensures positive { 0 < unsigned_abs z → 0 < result }
    ensures bound { result ≤ 10 ^ 17 }
{
    isqrt_floor(radicand(scale, z))
}

// the root, rounded up, of a number's size
fn root_up(scale: u32, z: i128) -> u128
    requires scale { scale ≤ 15 }
    requires bound { InCap z }
    ensures value { result ≡ root_up_by (unsigned_abs z * 10 ^ scale) }
    ensures bound { result ≤ 10 ^ 17 }
{
    isqrt_ceil(radicand(scale, z))
}

// how far the root of a number between lo and hi is from s
fn reach(scale: u32, s: u128, lo: i128, hi: i128) -> u128
    requires scale { scale ≤ 15 }
    requires middle { s ≤ 10 ^ 17 }
    requires low { InCap lo }
    requires high { InCap hi }
    ensures value { result
        ≡ max (s - root (unsigned_abs lo * 10 ^ scale))
        (root_up_by (unsigned_abs hi * 10 ^ scale) - s) }
    ensures bound { result ≤ 10 ^ 17 }
{
    s.saturating_sub(root_down(scale, lo))
        .max(root_up(scale, hi).saturating_sub(s))
}

// what a first root s leaves of a number times the unit of the scale
#[inline(always)]
fn left(unit: i64, s: u64, z: i64) -> i128
    requires unit { InCap unit }
    requires root { s ≤ 10 ^ 17 }
    requires number { InCap z }
    ensures value { result ≡ z *ℤ unit -ℤ pos (s * s) }
    ensures bound { unsigned_abs result ≤ 2 * 10 ^ 36 }
{
    product(z, unit) - size_product(s, s) as i128
}

// the root of a form whose hull lies above 0
fn root_above<const S: u32>(a: &Form<S>) -> Step<Form<S>>
    requires scale { S ≤ 15 }
    requires above { pos 0 <ℤ (spec.lin_hull a.now).lo }
    ensures { result ≡ spec.within_cap (spec.root_above S a.now) }
{
    let hull = hull(a);
    let unit = unit(S);
    let first = root_down(S, a.centre as i128) as u64;
    let by = Divisor::new((2 * first) as i64);
    let mut coefficients = [0; 32];
    let ks = &a.coefficients;
    let Some(rounded) = round_mixed(&mut coefficients, &by, a.used, unit, ks, 0, ks) else {
        return Step::Lost(Why::Range);
    };
    let centre = left(unit, first, a.centre);
    let far = reach(S, first as u128, hull.lo, hull.hi) as u64;
    let radius = by.ceiling(size_product(a.radius, unit.unsigned_abs()))
        + by.ceiling(size_product(far, far));
    divided(first as i64, &by, centre, &coefficients, rounded, radius)
}

/// The root that isn't negative. `Empty` exactly where the hull lies below 0; the form of the hull's
/// root where the hull reaches down to 0.
#[tactic(auto, unfolding(fixdec::specs::Form::lin_root))]
pub fn root<const S: u32>(a: &Form<S>) -> Step<Form<S>>
    requires { S ≤ 15 }
    ensures { result ≡ spec.lin_root S a.now }
{
    let hull = hull(a);
    if 0 < hull.lo {
        return root_above(a);
    }
    match iv_root(S, hull) {
        Step::Val(ends) => Step::Val(of_span(ends)),
        Step::Empty => Step::Empty,
        Step::Lost(why) => Step::Lost(why),
    }
}
