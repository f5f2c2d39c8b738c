//! Rounded quotients by one divisor.

ghost use Rattle.std.specs.Prelude.{◌≡◌, ◌≢◌, not, pos, true, ◌≤◌, ◌<◌, ◌*◌, ◌^◌, ◌+◌, ◌≤ℤ◌, ◌<ℤ◌, ◌-ℤ◌, ◌*ℤ◌, unsigned_abs};
ghost use Rattle.std.specs.Int.{div_ceil};
ghost use Rattle.std.specs.Ordering.{int_eq};
ghost use Rattle.fixdec.specs.Form as spec;
ghost use Rattle.fixdec.specs.Rounding.{floor};

use fixdec::div::floor_div;
use std::marker::Model;

/// A divisor from 1 to `2 10^18`, with what makes quotients by it fast.
#[derive(Drop)]
pub struct Divisor {
    value: i64,
    // near 2^126 over the divisor, shifted so that its highest bit is bit 63: a wrong one costs
    // time alone
    inverse: i64,
    // how far a number is shifted before it is multiplied by the inverse
    shift: u32,
}

impl Model for Divisor {
    ghost use Rattle.std.specs.Prelude.{ℤ, pos, ◌<ℤ◌, ◌≤ℤ◌};

    ghost Value = { ℤ };

    ghost view = { λ d. d.value };

    ghost invariant = { λ d. (pos 0 <ℤ d.value) × (d.value ≤ℤ pos 2_000_000_000_000_000_000) };
}

/// A quotient rounded down, and whether it has a remainder.
#[derive(Clone, Copy)]
pub struct Quotient {
    /// The quotient, rounded down.
    pub floor: i128,
    /// Whether there is a remainder.
    pub has_remainder: bool,
}

// the low 64 bits
#[inline(always)]
fn low(x: i128) -> i64 {
    ((x.cast_unsigned() & 0xffff_ffff_ffff_ffff) as u64).cast_signed()
}

#[inline(always)]
fn wide_product(x: i64, y: i64) -> i128 {
    (x as i128).wrapping_mul(y as i128)
}

// near 2^125 over a number from 2^62 to 2^63: a guess of 9 bits, which three steps double
#[inline(always)]
fn near_inverse(shifted: i64) -> i64 {
    let top = shifted.unsigned_abs() >> 54;
    let middle = top.wrapping_mul(2).wrapping_add(1).max(1);
    let mut inverse = ((1 << 20) / middle << 52).cast_signed();
    for _ in 0..3 {
        let left = (1i128 << 125).wrapping_sub(wide_product(shifted, inverse));
        inverse = inverse.wrapping_add(low(wide_product(inverse, low(left >> 62)) >> 63));
    }
    inverse
}

#[inline(always)]
fn one_more_if(z: i64, more: bool) -> i64 {
    z.wrapping_add(more as i64)
}

#[inline(always)]
fn is_nonzero(z: i128) -> bool
    ensures { result ≡ not (int_eq z (pos 0)) }
{
    z != 0
}

// whether n / d, which is `q` rounded down, has a remainder
fn has_remainder(d: i128, n: i128, q: i128) -> bool
    requires nonzero { d ≢ pos 0 }
    requires divisor { unsigned_abs d ≤ 10 ^ 37 }
    requires number { unsigned_abs n ≤ 10 ^ 37 }
    requires quotient { q ≡ floor n d }
    ensures { result ≡ spec.has_remainder d n }
{
    q * d != n
}

impl Divisor {
    /// The divisor `value`.
    #[inline(always)]
    pub fn new(value: i64) -> Divisor
        requires positive { pos 0 <ℤ value }
        requires bound { value ≤ℤ pos 2_000_000_000_000_000_000 }
        ensures { result ≡ value }
    {
        let zeros = value.leading_zeros();
        Divisor {
            value,
            inverse: near_inverse(value.wrapping_shl(zeros.wrapping_sub(1))),
            shift: zeros.wrapping_add(3),
        }
    }

    // near the quotient n / d, rounded down, where it has at most 60 bits
    #[inline(always)]
    fn near_quotient(&self, n: i128) -> i64 {
        let high = low(n.wrapping_shl(self.shift) >> 64);
        low(wide_product(high, self.inverse) >> 65)
    }

    // q times the divisor
    #[inline(always)]
    fn multiple(&self, q: i64) -> i128
        ensures value { result ≡ q *ℤ self.now }
        ensures bound { unsigned_abs result ≤ 2 * 10 ^ 37 }
    {
        q as i128 * self.value as i128
    }

    // what q times the divisor leaves of n
    #[inline(always)]
    fn left(&self, n: i128, q: i64) -> i128
        requires { unsigned_abs n ≤ 10 ^ 37 }
        ensures { result ≡ n -ℤ q *ℤ self.now }
    {
        n - self.multiple(q)
    }

    #[cold]
    #[inline(never)]
    fn far_quotient(&self, n: i128) -> Quotient
        requires { unsigned_abs n ≤ 10 ^ 37 }
        ensures floor { result.floor ≡ floor n self.now }
        ensures remainder { result.has_remainder ≡ spec.has_remainder self.now n }
        ensures bound { unsigned_abs result.floor ≤ unsigned_abs n }
    {
        let divisor = self.value as i128;
        let floor = floor_div(n, divisor);
        Quotient {
            floor,
            has_remainder: has_remainder(divisor, n, floor),
        }
    }

    /// The quotient `n / d`.
    #[inline(always)]
    pub fn quotient(&self, n: i128) -> Quotient
        requires { unsigned_abs n ≤ 10 ^ 37 }
        ensures floor { result.floor ≡ floor n self.now }
        ensures remainder { result.has_remainder ≡ spec.has_remainder self.now n }
        ensures bound { unsigned_abs result.floor ≤ unsigned_abs n }
    {
        let near = self.near_quotient(n);
        let divisor = self.value as i128;
        let floor = one_more_if(near, divisor <= self.left(n, near));
        let left = self.left(n, floor);
        if 0 <= left && left < divisor {
            Quotient {
                floor: floor as i128,
                has_remainder: is_nonzero(left),
            }
        } else {
            self.far_quotient(n)
        }
    }

    /// The quotient `n / d`, rounded up.
    #[inline(always)]
    pub fn ceiling(&self, n: u128) -> u128
        requires { n ≤ 10 ^ 37 }
        ensures value { result ≡ div_ceil n (unsigned_abs self.now) }
        ensures bound { result ≤ n }
    {
        let _ = &self.value; // so that the divisor is known to be above 0
        let quotient = self.quotient(n as i128);
        if quotient.has_remainder {
            quotient.floor.unsigned_abs() + 1
        } else {
            quotient.floor.unsigned_abs()
        }
    }
}
