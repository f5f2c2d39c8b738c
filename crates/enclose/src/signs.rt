//! The least and the greatest product and quotient of numbers of two intervals, by the signs of
//! their ends.

ghost use Rattle.std.specs.Prelude.{◌≡◌, ◌≢◌, ℕ, ℤ, pos, negsuc, ◌≤◌, ◌^◌, ◌≤ℤ◌, ◌<ℤ◌, ◌*ℤ◌, ◌⊎◌, unsigned_abs};
ghost use Rattle.fixdec.specs.Ends.{InCap};
ghost use Rattle.fixdec.specs.Interval as spec;
ghost use Rattle.fixdec.specs.Rounding.{floor, ceil};

/// The product, of twice the bits.
#[inline(always)]
pub fn product(x: i64, y: i64) -> i128
    requires first { InCap x }
    requires second { InCap y }
    ensures value { result ≡ x *ℤ y }
    ensures bound { unsigned_abs result ≤ 10 ^ 36 }
{
    x as i128 * y as i128
}

/// The least product of a number from `al` to `ah` and one from `bl` to `bh`.
#[inline(always)]
pub fn least_product(al: i64, ah: i64, bl: i64, bh: i64) -> i128
    requires first { al ≤ℤ ah }
    requires second { bl ≤ℤ bh }
    requires first_low { InCap al }
    requires first_high { InCap ah }
    requires second_low { InCap bl }
    requires second_high { InCap bh }
    ensures value { result ≡ spec.least (al *ℤ bl) (al *ℤ bh) (ah *ℤ bl) (ah *ℤ bh) }
    ensures bound { unsigned_abs result ≤ 10 ^ 36 }
{
    if 0 <= al {
        if 0 <= bl {
            product(al, bl)
        } else {
            product(ah, bl)
        }
    } else if ah <= 0 {
        if 0 <= bh {
            product(al, bh)
        } else {
            product(ah, bh)
        }
    } else if 0 <= bl {
        product(al, bh)
    } else if bh <= 0 {
        product(ah, bl)
    } else {
        product(al, bh).min(product(ah, bl))
    }
}

/// The greatest product of a number from `al` to `ah` and one from `bl` to `bh`.
#[inline(always)]
pub fn greatest_product(al: i64, ah: i64, bl: i64, bh: i64) -> i128
    requires first { al ≤ℤ ah }
    requires second { bl ≤ℤ bh }
    requires first_low { InCap al }
    requires first_high { InCap ah }
    requires second_low { InCap bl }
    requires second_high { InCap bh }
    ensures value { result ≡ spec.greatest (al *ℤ bl) (al *ℤ bh) (ah *ℤ bl) (ah *ℤ bh) }
    ensures bound { unsigned_abs result ≤ 10 ^ 36 }
{
    if 0 <= al {
        if 0 <= bh {
            product(ah, bh)
        } else {
            product(al, bh)
        }
    } else if ah <= 0 {
        if 0 <= bl {
            product(ah, bl)
        } else {
            product(al, bl)
        }
    } else if 0 <= bl {
        product(ah, bh)
    } else if bh <= 0 {
        product(al, bl)
    } else {
        product(al, bl).max(product(ah, bh))
    }
}

/// The ends whose quotient has the least floor: of the numbers from `al` to `ah`, and of the
/// divisors from `bl` to `bh`, which don't hold 0.
#[inline(always)]
pub fn least_quotient(al: i128, ah: i128, bl: i128, bh: i128) -> (i128, i128)
    requires first { al ≤ℤ ah }
    requires second { bl ≤ℤ bh }
    requires low { unsigned_abs al ≤ 10 ^ 33 }
    requires high { unsigned_abs ah ≤ 10 ^ 33 }
    requires divisor { (pos 0 <ℤ bl) ⊎ (bh <ℤ pos 0) }
    ensures value { floor result.0 result.1
        ≡ spec.least (floor al bl) (floor al bh) (floor ah bl) (floor ah bh) }
    ensures bound { unsigned_abs result.0 ≤ 10 ^ 33 }
    ensures divisor { result.1 ≢ pos 0 }
{
    if 0 < bl {
        if 0 <= al { (al, bh) } else { (al, bl) }
    } else if 0 <= ah {
        (ah, bh)
    } else {
        (ah, bl)
    }
}

/// The ends whose quotient has the greatest ceiling, likewise.
#[inline(always)]
pub fn greatest_quotient(al: i128, ah: i128, bl: i128, bh: i128) -> (i128, i128)
    requires first { al ≤ℤ ah }
    requires second { bl ≤ℤ bh }
    requires low { unsigned_abs al ≤ 10 ^ 33 }
    requires high { unsigned_abs ah ≤ 10 ^ 33 }
    requires divisor { (pos 0 <ℤ bl) ⊎ (bh <ℤ pos 0) }
    ensures value { ceil result.0 result.1
        ≡ spec.greatest (ceil al bl) (ceil al bh) (ceil ah bl) (ceil ah bh) }
    ensures bound { unsigned_abs result.0 ≤ 10 ^ 33 }
    ensures divisor { result.1 ≢ pos 0 }
{
    if 0 < bl {
        if 0 <= ah { (ah, bl) } else { (ah, bh) }
    } else if 0 <= al {
        (al, bl)
    } else {
        (al, bh)
    }
}
