//! Written numbers as values of an arithmetic, and the units of the residual.

ghost use Rattle.std.specs.Prelude.{◌≡◌, ℤ, pos, ◌≤◌, ◌≤ℤ◌};
ghost use Rattle.fixdec.specs.Ends.{InCap};
ghost use Rattle.lensmodel.specs.Rows.Constants as rows;

use enclose::arith::Arith;
use exactdec::scale;
use fixdec::dec::Dec;
use fixdec::div::pow10;
use fixdec::step::Step;
use fixdec::val;

/// A decimal as a value.
pub fn decimal<T: Arith>(v: &Dec) -> Step<T>
    requires { T.SCALE ≤ 15 }
    ensures { result ≡ rows.decimal_row T.ops T.SCALE v.now }
{
    Step::Val(T::of_span(val!(scale::span(v, T::SCALE))))
}

/// A whole number as a value.
pub fn whole<T: Arith>(n: u32) -> Step<T>
    requires { T.SCALE ≤ 15 }
    ensures { result ≡ rows.whole_row T.ops T.SCALE (pos n) }
{
    decimal(&Dec {
        mant: i128::from(n),
        exp: 0,
    })
}

/// The residual `10^-r` in units of a scale, or one unit where it is less.
pub fn residual_units(scale: u32, r: u32) -> i128
    requires { scale ≤ 15 }
    ensures value { result ≡ rows.residual_units scale r }
    ensures low { pos 0 ≤ℤ result }
    ensures high { InCap result }
{
    if r <= scale { pow10(scale - r) } else { 1 }
}
