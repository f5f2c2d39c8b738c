//! The order of decimals by their values.

ghost use Rattle.std.specs.Prelude.{◌≡◌, ℤ, pos, negsuc, ◌<◌, ◌^◌, ◌*ℤ◌, ◌≤ℤ◌, int_lt, unsigned_abs};
ghost use Rattle.lensmodel.specs.Files.Picking.{is_below_decimal};

use fixdec::dec::Dec;
use fixdec::div::{ceil_div, pow10};

/// Whether the value of `a` is below that of `b`.
pub fn is_below(a: &Dec, b: &Dec) -> bool
    ensures { result ≡ is_below_decimal a.now b.now }
{
    let k = a.exp - b.exp;
    if k >= 0 {
        is_multiple_below(a.mant, k.unsigned_abs(), b.mant)
    } else {
        is_multiple_below(-b.mant, k.unsigned_abs(), -a.mant)
    }
}

/// Whether `m * 10^k` is below `n`, a number of at most 30 digits. Then `m` is below the quotient
/// of `n`, rounded up; and no such number is past `10^30` in size, so a greater power tells no more.
fn is_multiple_below(m: i128, k: u32, n: i128) -> bool
    requires { unsigned_abs n < 10 ^ 30 }
    ensures { result ≡ int_lt (m *ℤ pos (10 ^ k)) n }
{
    m < ceil_div(n, pow10(k.min(30)))
}

#[cfg(test)]
mod tests {
    use super::*;

    fn dec(mant: i128, exp: i32) -> Dec
        requires size { unsigned_abs mant < 10 ^ 30 }
        requires low { negsuc 107 ≤ℤ exp }
        requires high { exp ≤ℤ pos 78 }
        requires zero { mant ≡ pos 0 → exp ≡ pos 0 }
    {
        Dec { mant, exp }
    }

    /// Whether the first is below the second, and the second below the first.
    fn both_ways(a: Dec, b: Dec) -> (bool, bool) {
        (is_below(&a, &b), is_below(&b, &a))
    }

    #[test]
    fn powers_far_apart(rt: HostRuntime) {
        assert_eq!(rt; both_ways(dec(1, -60), dec(1, 30)), (true, false));
        assert_eq!(rt; both_ways(dec(-1, 30), dec(-1, -60)), (true, false));
        assert_eq!(rt; both_ways(dec(-1, 30), dec(1, -60)), (true, false));
        assert_eq!(rt; both_ways(dec(-1, -108), dec(1, 78)), (true, false));
        assert_eq!(rt; both_ways(dec(0, 0), dec(1, -60)), (true, false));
        assert_eq!(rt; both_ways(dec(-1, -60), dec(0, 0)), (true, false));
        assert_eq!(rt; both_ways(dec(0, 0), dec(1, 30)), (true, false));
        assert_eq!(rt; both_ways(dec(0, 0), dec(0, 0)), (false, false));
    }

    #[test]
    fn equal_values_written_in_two_ways(rt: HostRuntime) {
        assert_eq!(rt; both_ways(dec(10, -1), dec(1, 0)), (false, false));
        assert_eq!(rt; both_ways(dec(-10, -1), dec(-1, 0)), (false, false));
        assert_eq!(rt; both_ways(dec(11, -1), dec(1, 0)), (false, true));
        assert_eq!(rt; both_ways(dec(-11, -1), dec(-1, 0)), (true, false));
        let thirty_digits = 100_000_000_000_000_000_000_000_000_000;
        assert_eq!(rt;
            both_ways(dec(thirty_digits, -29), dec(1, 0)),
            (false, false)
        );
        assert_eq!(rt; both_ways(dec(thirty_digits, 0), dec(1, 30)), (true, false));
        assert_eq!(rt;
            both_ways(dec(thirty_digits, 1), dec(1, 30)),
            (false, false)
        );
        assert_eq!(rt;
            both_ways(dec(10 * thirty_digits - 1, 0), dec(1, 30)),
            (true, false)
        );
    }
}
