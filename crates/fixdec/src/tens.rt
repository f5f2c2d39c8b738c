//! Quotients by powers of ten, in steps of 64 bits.

ghost use Rattle.std.specs.Prelude.{◌≡◌, ℕ, ℤ, pos, negsuc, ◌≤◌, ◌<◌, ◌^◌, ◌+◌, ◌*◌, ◌/◌, unsigned_abs};
ghost use Rattle.fixdec.specs.Rounding.{floor, ceil};

use crate::div::{distance, quotient};

// numbers below it are divided by a constant in fewer instructions than all of 64 bits
const HALF: u128 = 1 << 63;

// the quotient `n / (low * odd)`
#[inline(always)]
fn in_one_step(n: u128, low: u128, odd: u64) -> u64
    requires factor { 0 < low }
    requires divisor { 0 < odd }
    requires number { n < 2 ^ 63 * low }
    ensures { result ≡ n / (low * odd) }
{
    (n / low % HALF) as u64 / odd
}

// the quotient `n / (low * odd)`: the second step divides what the first leaves, and the next part
// of `n`
#[inline(always)]
fn in_two_steps(n: u128, low: u128, part: u64, odd: u64) -> u64
    requires factor { 0 < low }
    requires parts { 0 < part }
    requires divisor { part ≤ odd }
    requires product { part * odd ≤ 2 ^ 64 }
    requires number { n < 2 ^ 63 * (low * part) }
    requires size { low * part < 2 ^ 64 }
    ensures { result ≡ n / (low * odd) }
{
    let head = (n / (low * part as u128) % HALF) as u64;
    let tail = (n / low % part as u128) as u64;
    head / odd * part + (head % odd * part + tail) / odd
}

// the quotient `n / 10^k`, of any size
#[inline(never)]
fn far_quotient(n: u128, k: u32) -> u128
    requires { k ≤ 15 }
    ensures { result ≡ n / 10 ^ k }
{
    quotient(n, 10u64.pow(k))
}

// the quotient `n / 10^k`, rounded down
#[inline(always)]
fn quotient_by_power(n: u128, k: u32) -> u128
    requires { k ≤ 15 }
    ensures { result ≡ n / 10 ^ k }
{
    match k {
        6 if n < 1 << 69 => in_one_step(n, 1 << 6, 15_625) as u128,
        9 if n < 1 << 72 => in_one_step(n, 1 << 9, 1_953_125) as u128,
        12 if n < 1 << 102 => in_two_steps(n, 1 << 12, 1 << 27, 244_140_625) as u128,
        15 if n < 1 << 107 => in_two_steps(n, 1 << 15, 1 << 29, 30_517_578_125) as u128,
        _ => far_quotient(n, k),
    }
}

/// The quotient `a / 10^k`, rounded down.
#[inline(always)]
pub fn floor_pow10(a: i128, k: u32) -> i128
    requires { k ≤ 15 }
    ensures { result ≡ floor a (pos (10 ^ k)) }
{
    let size = quotient_by_power(distance(a), k) as i128;
    if a < 0 { !size } else { size }
}

/// The quotient `a / 10^k`, rounded up.
#[inline(always)]
pub fn ceil_pow10(a: i128, k: u32) -> i128
    requires power { k ≤ 15 }
    requires bound { unsigned_abs a ≤ 10 ^ 38 }
    ensures { result ≡ ceil a (pos (10 ^ k)) }
{
    -floor_pow10(-a, k)
}

#[cfg(test)]
mod tests {
    use super::*;

    #[test]
    fn quotients(rt: HostRuntime) {
        for (a, k, low, high) in [
            (0, 6, 0, 0),
            (-1, 15, -1, 0),
            (1_234_567, 6, 1, 2),
            (-2_000_000_000, 9, -2, -2),
            (12_345, 4, 1, 2),
            (1 << 69, 6, 590_295_810_358_705, 590_295_810_358_706),
            (1 << 72, 9, 4_722_366_482_869, 4_722_366_482_870),
            (
                99_999_999_999_999_999_999_999_999_999,
                12,
                99_999_999_999_999_999,
                100_000_000_000_000_000,
            ),
            (
                -1_000_000_000_000_000_000_000_000_000_000_001,
                15,
                -1_000_000_000_000_000_001,
                -1_000_000_000_000_000_000,
            ),
        ] {
            assert!(rt; k <= 15 && -(1i128 << 120) < a && a < 1 << 120);
            assert_eq!(rt; floor_pow10(a, k), low, "{a} over 10^{k}");
            assert_eq!(rt; ceil_pow10(a, k), high, "{a} over 10^{k}");
        }
    }
}
