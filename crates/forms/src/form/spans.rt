//! Forms of spans.

ghost use Rattle.std.specs.Prelude.{◌≡◌, ℤ, pos, ◌≤◌, ◌+◌, ◌^◌, ◌≤ℤ◌, ◌+ℤ◌, ◌-ℤ◌, int_div, max, unsigned_abs};
ghost use Rattle.fixdec.specs.Ends.{InCap};
ghost use Rattle.fixdec.specs.Form as spec;

use super::Form;
use fixdec::span::Span;

// the middle of a span, rounded towards 0
fn middle(s: Span) -> i128
    ensures value { result ≡ int_div (s.lo +ℤ s.hi) (pos 2) }
    ensures bound { InCap result }
{
    (s.lo + s.hi) / 2
}

// the greater distance of two ends, in order, from their middle
fn reach(lo: i128, hi: i128, centre: i128) -> u128
    requires order { lo ≤ℤ hi }
    requires low { InCap lo }
    requires high { InCap hi }
    requires middle { centre ≡ int_div (lo +ℤ hi) (pos 2) }
    ensures value { result ≡ max (unsigned_abs (hi -ℤ centre)) (unsigned_abs (centre -ℤ lo)) }
    ensures bound { unsigned_abs centre + result ≤ 10 ^ 18 }
{
    (hi - centre)
        .unsigned_abs()
        .max((centre - lo).unsigned_abs())
}

/// The form of a span.
#[inline(always)]
#[tactic(auto, unfolding(fixdec::specs::Form::lin_of_span))]
pub fn of_span<const S: u32>(s: Span) -> Form<S>
    ensures { result ≡ spec.lin_of_span s }
{
    let centre = middle(s);
    let radius = reach(s.lo, s.hi, centre) as u64;
    Form {
        centre: centre as i64,
        radius,
        deviation: radius,
        used: 0,
        coefficients: [0; 32],
    }
}
