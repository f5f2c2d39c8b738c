//! Rounded quotients and powers of ten.

ghost use Rattle.std.specs.Prelude.{◌≡◌, ◌≢◌, IsTrue, ℕ, ℤ, pos, negsuc, ◌≤◌, ◌<◌, ◌^◌, ◌*◌, ◌/◌, ◌≤ℤ◌, ◌<ℤ◌, unsigned_abs};
ghost use Rattle.fixdec.specs.Rounding.{floor, ceil, ratio, IsFloor, IsCeil};

use crate::near::near_quotient;

// whether `q` is the quotient `n / d`, rounded down
#[inline(always)]
fn is_quotient(n: u128, d: u64, q: u64) -> bool
    requires { 0 < d }
    ensures { IsTrue result → q ≡ n / d }
{
    let product = q as u128 * d as u128;
    product <= n && n - product < d as u128
}

// the quotient `n / d`, rounded down, by a tested guess
#[inline(always)]
fn far_quotient(n: u128, d: u64) -> u128
    requires { 0 < d }
    ensures { result ≡ n / d }
{
    let near = near_quotient(n, d);
    if is_quotient(n, d, near) {
        near as u128
    } else {
        n / d as u128
    }
}

// the quotient `n / d`, rounded down
#[inline(always)]
pub(crate) fn quotient(n: u128, d: u64) -> u128
    requires { 0 < d }
    ensures { result ≡ n / d }
{
    if n <= u64::MAX as u128 {
        (n as u64 / d) as u128
    } else {
        far_quotient(n, d)
    }
}

// how far `a` lies from 0, or below -1: of a quotient rounded down the same holds
#[inline(always)]
pub(crate) fn distance(a: i128) -> u128
    ensures above { pos 0 ≤ℤ a → a ≡ pos result }
    ensures below { a <ℤ pos 0 → a ≡ negsuc result }
{
    if a < 0 { !a as u128 } else { a as u128 }
}

// the quotient `a / d`, rounded down
#[inline(always)]
fn floor_by(a: i128, d: u64) -> i128
    requires { 0 < d }
    ensures { result ≡ floor a (pos d) }
{
    let size = quotient(distance(a), d) as i128;
    if a < 0 { !size } else { size }
}

// the quotient where the divisor doesn't fit 64 bits
#[cold]
#[inline(never)]
fn wide_floor(a: i128, b: i128) -> i128
    requires nonzero { b ≢ pos 0 }
    requires bound { unsigned_abs a ≤ 10 ^ 38 }
    ensures { result ≡ floor a b }
{
    if 0 < b {
        a.div_euclid(b)
    } else {
        -(-a).div_euclid(b)
    }
}

/// The quotient `a / b`, rounded down.
#[inline(always)]
pub fn floor_div(a: i128, b: i128) -> i128
    requires nonzero { b ≢ pos 0 }
    requires bound { unsigned_abs a ≤ 10 ^ 38 }
    ensures value { result ≡ floor a b }
    ensures exact { IsFloor (ratio a b) result }
{
    const GREATEST: i128 = u64::MAX as i128;
    if 0 < b && b <= GREATEST {
        floor_by(a, b as u64)
    } else if -GREATEST <= b && b < 0 {
        floor_by(-a, (-b) as u64)
    } else {
        wide_floor(a, b)
    }
}

/// The quotient `a / b`, rounded up.
#[inline(always)]
pub fn ceil_div(a: i128, b: i128) -> i128
    requires nonzero { b ≢ pos 0 }
    requires bound { unsigned_abs a ≤ 10 ^ 38 }
    ensures value { result ≡ ceil a b }
    ensures exact { IsCeil (ratio a b) result }
{
    -floor_div(-a, b)
}

/// Ten to the power `k`.
#[inline(always)]
pub fn pow10(k: u32) -> i128
    requires { k ≤ 38 }
    ensures value { result ≡ pos (10 ^ k) }
    ensures lower_bound { pos 1 ≤ℤ result }
{
    match k {
        6 => 1_000_000,
        9 => 1_000_000_000,
        12 => 1_000_000_000_000,
        15 => 1_000_000_000_000_000,
        _ => 10u128.pow(k) as i128,
    }
}

#[cfg(test)]
mod tests {
    use super::*;

    #[test]
    fn quotients(rt: HostRuntime) {
        let most: i128 = 100_000_000_000_000_000_000_000_000_000_000_000_000;
        let third: i128 = 33_333_333_333_333_333_333_333_333_333_333_333_333;
        for (a, b, low, high) in [
            (7i128, 2i128, 3, 4),
            (-7, 2, -4, -3),
            (7, -2, -4, -3),
            (-7, -2, 3, 4),
            (6, -3, -2, -2),
            (-1, 1_000_000_000_000_000, -1, 0),
            (0, -5, 0, 0),
            (most, 3, third, third + 1),
            (-most, 3, -third - 1, -third),
        ] {
            assert!(rt; b != 0 && a.unsigned_abs() <= most.unsigned_abs());
            assert_eq!(rt; floor_div(a, b), low, "{a} over {b}");
            assert_eq!(rt; ceil_div(a, b), high, "{a} over {b}");
        }
    }

    #[test]
    fn powers(rt: HostRuntime) {
        assert_eq!(rt; pow10(0), 1);
        assert_eq!(rt; pow10(6), 1_000_000);
        assert_eq!(rt;
            pow10(38),
            100_000_000_000_000_000_000_000_000_000_000_000_000
        );
    }
}
