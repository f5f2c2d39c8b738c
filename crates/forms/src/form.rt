//! Linear forms. At a scale S the raw number `v` stands for `v / 10^S`, and a symbol is a number
//! from -1 to 1, the same wherever its number stands.

ghost use Rattle.std.specs.Prelude.{◌≡◌, pos, ◌≤◌, ◌<◌, ◌^◌, ◌+◌, unsigned_abs, slice_index_or};
ghost use Rattle.fixdec.specs.Form as spec;
ghost use Rattle.fixdec.specs.Form.{LinearForm};
ghost use Rattle.forms.specs.Kept.{in_use};

use crate::coefficients::Counted;
use fixdec::span::{CAP, Span};
use fixdec::step::{Step, Why};
use std::marker::Model;

mod arith;
mod quotients;
mod roots;
mod rounded;
mod spans;
mod sums;

/// A linear form at the scale `S`, of at most 15: a centre, a coefficient for each of the symbols 0
/// to 31, and a radius. Its members are the numbers within the radius of the centre plus the sum of
/// coefficients times symbols. The size of the centre and the deviation, which is the sum of the
/// coefficients' sizes and the radius, are together at most `CAP`.
#[derive(Clone, Copy, Debug, PartialEq, Eq)]
pub struct Form<const S: u32> {
    centre: i64,
    radius: u64,
    deviation: u64,
    // how many coefficients there are up to the last that isn't 0
    used: usize,
    coefficients: [i64; 32],
}

impl<const S: u32> Model for Form<S> {
    ghost use Rattle.fixdec.specs.Form.{LinearForm, dev};
    ghost use Rattle.forms.specs.Kept.{IsHeld, in_use};

    ghost Value = { LinearForm };

    ghost view = { λ f. record {
      centre = f.centre;
      coefficients = f.coefficients;
      radius = f.radius;
    } };

    ghost invariant = { λ f.
        IsHeld (record { centre = f.centre; coefficients = f.coefficients; radius = f.radius })
        f.deviation f.used };

    ghost inverse = { λ e. record {
      centre = e.centre;
      radius = e.radius;
      deviation = dev e;
      used = in_use e.coefficients;
      coefficients = e.coefficients;
    } };
}

impl<const S: u32> Form<S> {
    /// The coefficient of symbol `i`, a raw number.
    pub fn coefficient(&self, i: usize) -> i128
        requires { i < 32 }
        ensures { result ≡ slice_index_or self.now.coefficients i (pos 0) }
    {
        self.coefficients[i] as i128
    }
}

// the form, or Lost(Range) where its centre's size and deviation pass the cap
#[inline(always)]
fn kept<const S: u32>(
    centre: i128,
    coefficients: &[i64; 32],
    counted: Counted,
    radius: u128,
) -> Step<Form<S>>
    requires centre { unsigned_abs centre ≤ 10 ^ 37 }
    requires size { counted.size ≡ spec.sizes coefficients.now }
    requires used { counted.used ≡ in_use coefficients.now }
    requires radius { radius ≤ 10 ^ 37 }
    ensures { result ≡ spec.within_cap
        (record { centre = centre; coefficients = coefficients.now; radius = radius }) }
{
    let deviation = counted.size as u128 + radius;
    if centre.unsigned_abs() + deviation <= CAP.unsigned_abs() {
        Step::Val(Form {
            centre: centre as i64,
            radius: radius as u64,
            deviation: deviation as u64,
            used: counted.used,
            coefficients: *coefficients,
        })
    } else {
        Step::Lost(Why::Range)
    }
}

/// The least span that holds every member.
#[inline(always)]
pub(crate) fn hull<const S: u32>(a: &Form<S>) -> Span
    ensures { result ≡ spec.lin_hull a.now }
{
    Span {
        lo: (a.centre - a.deviation as i64) as i128,
        hi: (a.centre + a.deviation as i64) as i128,
    }
}

#[cfg(test)]
mod tests;
