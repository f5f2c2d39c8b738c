//! The 32 coefficients of a form: what the operations compute on them as a whole. Past the count in
//! use each coefficient is 0.

ghost use Rattle.std.specs.Prelude.{◌≡◌, ◌≢◌, ℕ, pos, ◌+◌, ◌≤◌, ◌<◌, ◌*◌, ◌^◌, ◌+ℤ◌, ◌-ℤ◌, ◌*ℤ◌, IfSome, cond, replicate, unsigned_abs};
ghost use Rattle.fixdec.specs.Ends.{InCap};
ghost use Rattle.fixdec.specs.Form as spec;
ghost use Rattle.forms.specs.Kept.{in_use, weighted};

use crate::rounding::Divisor;
use fixdec::span::CAP;

/// What is kept of coefficients beside them.
#[derive(Clone, Copy)]
pub struct Counted {
    /// How many there are up to the last that isn't 0.
    pub used: usize,
    /// The sum of their sizes.
    pub size: u64,
}

// how many are in use of i coefficients and k, where `used` are of the i
#[inline(always)]
fn used_with(used: usize, i: usize, k: i64) -> usize
    requires { i < 32 }
    ensures with { k ≢ pos 0 → result ≡ i + 1 }
    ensures without { k ≡ pos 0 → result ≡ used }
{
    if k != 0 { i + 1 } else { used }
}

/// How many coefficients there are up to the last that isn't 0.
pub fn used_of(ks: &[i64; 32]) -> usize
    ensures { result ≡ in_use ks.now }
{
    let mut used = 0;
    for i in 0..32 {
        used = used_with(used, i, ks[i]);
    }
    used
}

/// The sum of the sizes.
pub fn sizes(ks: &[i64; 32]) -> u64
    requires { spec.sizes ks.now ≤ 10 ^ 19 }
    ensures { result ≡ spec.sizes ks.now }
{
    let mut total: u64 = 0;
    for k in ks {
        total += k.unsigned_abs();
    }
    total
}

#[inline(always)]
fn sum(x: i64, y: i64) -> i64
    requires first { InCap x }
    requires second { InCap y }
    ensures { result ≡ x +ℤ y }
{
    x + y
}

#[inline(always)]
fn difference(x: i64, y: i64) -> i64
    requires first { InCap x }
    requires second { InCap y }
    ensures { result ≡ x -ℤ y }
{
    x - y
}

/// Writes the coefficients added, pair by pair, over zeros.
#[inline(always)]
pub fn add(out: &mut [i64; 32], top: usize, ka: &[i64; 32], kb: &[i64; 32]) -> Counted
    requires empty { out.old ≡ replicate 32 (pos 0) }
    requires top { top ≤ 32 }
    requires first_use { in_use ka.now ≤ top }
    requires second_use { in_use kb.now ≤ top }
    requires first { spec.sizes ka.now ≤ 10 ^ 18 }
    requires second { spec.sizes kb.now ≤ 10 ^ 18 }
    ensures value { out.new ≡ spec.coefficientwise ◌+ℤ◌ ka.now kb.now }
    ensures used { result.used ≡ in_use out.new }
    ensures size { result.size ≡ spec.sizes out.new }
{
    let mut used = 0;
    let mut size: u64 = 0;
    for i in 0..top {
        let k = sum(ka[i], kb[i]);
        out[i] = k;
        size += k.unsigned_abs();
        used = used_with(used, i, k);
    }
    Counted { used, size }
}

/// Writes the coefficients subtracted, pair by pair, over zeros.
#[inline(always)]
pub fn subtract(out: &mut [i64; 32], top: usize, ka: &[i64; 32], kb: &[i64; 32]) -> Counted
    requires empty { out.old ≡ replicate 32 (pos 0) }
    requires top { top ≤ 32 }
    requires first_use { in_use ka.now ≤ top }
    requires second_use { in_use kb.now ≤ top }
    requires first { spec.sizes ka.now ≤ 10 ^ 18 }
    requires second { spec.sizes kb.now ≤ 10 ^ 18 }
    ensures value { out.new ≡ spec.coefficientwise ◌-ℤ◌ ka.now kb.now }
    ensures used { result.used ≡ in_use out.new }
    ensures size { result.size ≡ spec.sizes out.new }
{
    let mut used = 0;
    let mut size: u64 = 0;
    for i in 0..top {
        let k = difference(ka[i], kb[i]);
        out[i] = k;
        size += k.unsigned_abs();
        used = used_with(used, i, k);
    }
    Counted { used, size }
}

/// The coefficients with `d` added to that of symbol `i`.
pub fn added_at(i: usize, d: i64, ks: &[i64; 32]) -> [i64; 32]
    requires index { i < 32 }
    requires number { InCap d }
    requires sizes { spec.sizes ks.now ≤ 10 ^ 18 }
    ensures value { result ≡ spec.added_at i d ks.now }
    ensures bound { spec.sizes result ≤ 2 * 10 ^ 18 }
{
    let mut out = *ks;
    out[i] += d;
    out
}

/// The product of two numbers within the cap.
#[inline(always)]
pub fn product(x: i64, y: i64) -> i128
    requires first { InCap x }
    requires second { InCap y }
    ensures value { result ≡ x *ℤ y }
    ensures bound { unsigned_abs result ≤ 10 ^ 36 }
{
    x as i128 * y as i128
}

/// A factor times one number, and a factor times another.
#[inline(always)]
pub fn mixed_at(x: i64, k: i64, y: i64, l: i64) -> i128
    requires first_factor { InCap x }
    requires second_factor { InCap y }
    requires first { InCap k }
    requires second { InCap l }
    ensures value { result ≡ x *ℤ k +ℤ y *ℤ l }
    ensures bound { unsigned_abs result ≤ 2 * 10 ^ 36 }
{
    product(x, k) + product(y, l)
}

/// The same number in 64 bits.
#[inline(always)]
pub fn narrow(z: i128) -> i64
    requires { InCap z }
    ensures { result ≡ z }
{
    z as i64
}

/// The count, and one more where there is a remainder.
#[inline(always)]
pub fn counted_with(count: u64, has_remainder: bool) -> u64
    requires { count ≤ 32 }
    ensures { result ≡ count + cond has_remainder 1 0 }
{
    if has_remainder { count + 1 } else { count }
}

/// What quotients of coefficients leave beside them.
#[derive(Clone, Copy)]
pub struct Rounded {
    /// What is kept of the quotients.
    pub counted: Counted,
    /// How many of the quotients have a remainder.
    pub remainders: u64,
    /// The sum of the numerators' sizes.
    pub numerators: u128,
}

/// Writes the quotients of `x ka_i + y kb_i` by the divisor, rounded, over zeros. `None` exactly
/// where the sum of their sizes would pass the cap.
#[inline(always)]
pub fn round_mixed(
    out: &mut [i64; 32],
    by: &Divisor,
    top: usize,
    x: i64,
    ka: &[i64; 32],
    y: i64,
    kb: &[i64; 32],
) -> Option<Rounded>
    requires empty { out.old ≡ replicate 32 (pos 0) }
    requires top { top ≤ 32 }
    requires first_use { in_use ka.now ≤ top }
    requires second_use { in_use kb.now ≤ top }
    requires first_factor { InCap x }
    requires second_factor { InCap y }
    requires first { spec.sizes ka.now ≤ 10 ^ 18 }
    requires second { spec.sizes kb.now ≤ 10 ^ 18 }
    ensures lost { result ≡ None
        → 10 ^ 18 < spec.sizes (spec.quotients by.now (weighted x ka.now y kb.now)) }
    ensures value { IfSome result
        (λ r. out.new ≡ spec.quotients by.now (weighted x ka.now y kb.now)) }
    ensures used { IfSome result (λ r. r.counted.used ≡ in_use out.new) }
    ensures size { IfSome result (λ r. r.counted.size ≡ spec.sizes out.new) }
    ensures remainders { IfSome result
        (λ r. r.remainders ≡ spec.remainders by.now (weighted x ka.now y kb.now)) }
    ensures few { IfSome result (λ r. r.remainders ≤ 32) }
    ensures numerators { IfSome result
        (λ r. r.numerators ≡ spec.sizes (weighted x ka.now y kb.now)) }
    ensures bound { IfSome result (λ r. r.numerators ≤ 2 * 10 ^ 36) }
{
    let mut used = 0;
    let mut size: u64 = 0;
    let mut remainders: u64 = 0;
    let mut numerators: u128 = 0;
    for i in 0..top {
        let n = mixed_at(x, ka[i], y, kb[i]);
        let quotient = by.quotient(n);
        if CAP.unsigned_abs() < size as u128 + quotient.floor.unsigned_abs() {
            return None;
        }
        let k = narrow(quotient.floor);
        out[i] = k;
        size += k.unsigned_abs();
        remainders = counted_with(remainders, quotient.has_remainder);
        numerators += n.unsigned_abs();
        used = used_with(used, i, k);
    }
    Some(Rounded {
        counted: Counted { used, size },
        remainders,
        numerators,
    })
}
