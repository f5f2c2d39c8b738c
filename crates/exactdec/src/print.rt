//! Texts of raw numbers and decimals.

ghost use Rattle.std.specs.Prelude.{◌≡◌, ℕ, ℤ, pos, ◌+◌, ◌≤◌, ◌<◌, ◌^◌, [], ◌∷◌, ◌++◌, ◌/◌, ◌%◌, length};
ghost use Rattle.std.specs.Fmt.{decimal, signed_decimal};
ghost use Rattle.arrayvec.specs.ArrayString.{array_string_len};
ghost use Rattle.fixdec.specs.DecimalText.{fix_text, dec_text, last_digits, minus_sign};

use arrayvec::ArrayString;
use fixdec::dec::Dec;

/// Writes the raw number `raw` at a scale: sign, whole part, point, and `scale` digits. The buffer
/// is empty, and the scale is from 1 to 15.
pub fn print_fix(raw: i128, scale: u32, out: &mut ArrayString<64>)
    requires empty { out.old.bytes ≡ [] }
    requires low { 1 ≤ scale }
    requires high { scale ≤ 15 }
    ensures { out.new.bytes ≡ fix_text scale raw }
{
    push_minus(raw, out);
    let size = raw.unsigned_abs();
    push_number(whole_part(size, scale), out);
    push_byte(b'.', out);
    push_last_digits(size, scale, out);
}

/// Writes a decimal: the mantissa, then `e` and the exponent where it isn't 0. The buffer is empty.
pub fn print_dec(v: &Dec, out: &mut ArrayString<64>)
    requires { out.old.bytes ≡ [] }
    ensures { out.new.bytes ≡ dec_text v.now }
{
    push_signed(v.mant, out);
    if v.exp != 0 {
        push_byte(b'e', out);
        push_signed(v.exp as i128, out);
    }
}

fn push_signed(n: i128, out: &mut ArrayString<64>)
    requires { array_string_len out.old + length (signed_decimal n) ≤ 64 }
    ensures { out.new.bytes ≡ out.old.bytes ++ signed_decimal n }
{
    push_minus(n, out);
    push_number(n.unsigned_abs(), out);
}

fn push_minus(n: i128, out: &mut ArrayString<64>)
    requires { array_string_len out.old + length (minus_sign n) ≤ 64 }
    ensures { out.new.bytes ≡ out.old.bytes ++ minus_sign n }
{
    if n < 0 {
        push_byte(b'-', out);
    }
}

fn push_digit(n: u8, out: &mut ArrayString<64>)
    requires digit { n < 10 }
    requires room { array_string_len out.old < 64 }
    ensures { out.new.bytes ≡ out.old.bytes ++ (48 + n) ∷ [] }
{
    push_byte(b'0' + n, out);
}

fn push_byte(b: u8, out: &mut ArrayString<64>)
    requires ascii { b < 128 }
    requires room { array_string_len out.old < 64 }
    ensures { out.new.bytes ≡ out.old.bytes ++ b ∷ [] }
{
    out.push(char::from(b));
}

// numbers that fit are divided in 64 bits
fn whole_part(size: u128, scale: u32) -> u128
    requires { scale ≤ 15 }
    ensures { result ≡ size / 10 ^ scale }
{
    if size <= u64::MAX as u128 {
        (size as u64 / 10u64.pow(scale)) as u128
    } else {
        size / 10u128.pow(scale)
    }
}

// a number without its last digit
fn tenth(n: u128) -> u128
    ensures { result ≡ n / 10 }
{
    if n <= u64::MAX as u128 {
        (n as u64 / 10) as u128
    } else {
        n / 10
    }
}

fn last_digit(n: u128) -> u8
    ensures { result ≡ n % 10 }
{
    if n <= u64::MAX as u128 {
        (n as u64 % 10) as u8
    } else {
        (n % 10) as u8
    }
}

fn push_number(n: u128, out: &mut ArrayString<64>)
    requires { array_string_len out.old + length (decimal n) ≤ 64 }
    ensures { out.new.bytes ≡ out.old.bytes ++ decimal n }
{
    if n >= 10 {
        push_number(tenth(n), out);
    }
    push_digit(last_digit(n), out);
}

fn push_last_digits(n: u128, count: u32, out: &mut ArrayString<64>)
    requires { array_string_len out.old + count ≤ 64 }
    ensures { out.new.bytes ≡ out.old.bytes ++ last_digits count n }
{
    if count > 0 {
        push_last_digits(tenth(n), count - 1, out);
        push_digit(last_digit(n), out);
    }
}
