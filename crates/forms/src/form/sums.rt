//! Sums and differences of forms, and what leaves the centre as it is.

ghost use Rattle.std.specs.Prelude.{◌≡◌, ◌<◌};
ghost use Rattle.fixdec.specs.Ends.{InCap};
ghost use Rattle.fixdec.specs.Form as spec;

use super::{Form, hull, kept};
use crate::coefficients::{Counted, add, added_at, narrow, sizes, subtract, used_of};
use fixdec::span::Span;
use fixdec::step::Step;

/// The sum.
#[inline(always)]
#[tactic(auto, unfolding(fixdec::specs::Form::lin_plus))]
pub fn plus<const S: u32>(a: &Form<S>, b: &Form<S>) -> Step<Form<S>>
    ensures { result ≡ spec.lin_plus a.now b.now }
{
    let mut coefficients = [0; 32];
    let counted = add(
        &mut coefficients,
        a.used.max(b.used),
        &a.coefficients,
        &b.coefficients,
    );
    kept(
        (a.centre + b.centre) as i128,
        &coefficients,
        counted,
        (a.radius + b.radius) as u128,
    )
}

/// The difference.
#[inline(always)]
#[tactic(auto, unfolding(fixdec::specs::Form::lin_minus))]
pub fn minus<const S: u32>(a: &Form<S>, b: &Form<S>) -> Step<Form<S>>
    ensures { result ≡ spec.lin_minus a.now b.now }
{
    let mut coefficients = [0; 32];
    let counted = subtract(
        &mut coefficients,
        a.used.max(b.used),
        &a.coefficients,
        &b.coefficients,
    );
    kept(
        (a.centre - b.centre) as i128,
        &coefficients,
        counted,
        (a.radius + b.radius) as u128,
    )
}

/// The form with its radius grown by `e`, from 0 to the cap.
#[inline(always)]
#[tactic(auto, unfolding(fixdec::specs::Form::lin_widen))]
pub fn widen<const S: u32>(a: &Form<S>, e: i128) -> Step<Form<S>>
    requires { InCap e }
    ensures { result ≡ spec.lin_widen a.now e }
{
    let counted = Counted {
        used: a.used,
        size: a.deviation - a.radius,
    };
    kept(
        a.centre as i128,
        &a.coefficients,
        counted,
        a.radius as u128 + e.unsigned_abs(),
    )
}

/// The form unchanged: `Empty` exactly where its hull and `s` have no number in common.
#[inline(always)]
#[tactic(auto, unfolding(fixdec::specs::Form::lin_clip))]
pub fn clip<const S: u32>(a: &Form<S>, s: Span) -> Step<Form<S>>
    ensures { result ≡ spec.lin_clip a.now s }
{
    let hull = hull(a);
    if hull.hi < s.lo || s.hi < hull.lo {
        Step::Empty
    } else {
        Step::Val(*a)
    }
}

/// The form plus a deviation, enclosed by `delta`, times symbol `i`.
#[tactic(auto, unfolding(fixdec::specs::Form::lin_symbol))]
pub fn symbol<const S: u32>(a: &Form<S>, i: usize, delta: Span) -> Step<Form<S>>
    requires { i < 32 }
    ensures { result ≡ spec.lin_symbol a.now i delta }
{
    let coefficients = added_at(i, narrow(delta.lo), &a.coefficients);
    let counted = Counted {
        used: used_of(&coefficients),
        size: sizes(&coefficients),
    };
    kept(
        a.centre as i128,
        &coefficients,
        counted,
        a.radius as u128 + (delta.hi - delta.lo).unsigned_abs(),
    )
}
