//! Decimal words.

ghost use Rattle.std.specs.Prelude.{◌≡◌, ◌==◌, ℕ, ℤ, pos, ◌+◌, ◌-◌, ◌^◌, ◌<◌, ◌≤◌, ◌+ℤ◌, ◌-ℤ◌, Bool, true, false, List, [], ◌++◌, length, take, drop, IfOk, IfErr, MatchOption, nat_lt};
ghost use Rattle.std.specs.Result.{result_ok};
ghost use Rattle.fixdec.specs.Decimal.{value};
ghost use Rattle.fixdec.specs.Frac.{◌≈◌};
ghost use Rattle.fixdec.specs.Word.{Parts as Written, Spells, AreDigits, written_decimal, signed as signed_number, number};
ghost use Rattle.fixdec.specs.Reading.{is_digit as is_digit_unit, is_sign, is_point, is_mark, unit_front, unit_after, digits_front, digits_after, mantissa_front, is_readable, decimal_of};
ghost use Rattle.exactdec.specs.Reading.{IsAnswer, reading, judged};
ghost use Rattle.exactdec.specs.Stages.{IsSplit, IsNotSplit, HasDigits, parts_of};

use crate::mantissa::{MINUS, Mantissa, ZERO, power_of, signed};
use fixdec::dec::Dec;

/// Why a word isn't read.
#[derive(Clone, Copy, Debug, PartialEq, Eq)]
pub enum DecFault {
    /// It isn't a decimal: `at` is the length of its longest front that begins one, so the place
    /// (from 0) of the first unit that doesn't fit, or the length of the word.
    NotNumber {
        /// The place.
        at: usize,
    },
    /// The mantissa has more than 30 digits.
    Digits,
    /// The exponent isn't from -60 to 30.
    Exponent,
}

/// The decimal of a word: an optional sign; digits with at most one point among, before or after
/// them, and at least one digit; optionally `e` or `E`, an optional sign and at least one digit.
///
/// The mantissa is kept without leading or trailing zeros, and zero has exponent 0. The faults
/// come in the order of `DecFault`.
pub fn read(word: &[u16]) -> Result<Dec, DecFault>
    // The grammar in both directions, and each fault by its cause.
    ensures answer { IsAnswer word.now result }
    // The same as a function of the word.
    ensures exact { result ≡ reading word.now }
    ensures decimal { result_ok result ≡ decimal_of word.now }
    // Whatever zeros it is written with, the value is mantissa times power of ten.
    ensures value { IfOk result
        (λ d. (p : Written) → Spells word.now p → value d ≈ value (written_decimal p)) }
{
    let parts = split(word)?;
    judge(&parts)
}

/// A word has its parts in one way only.
pub fn one_spelling()
    ensures { (word : List ℕ) (p q : Written) → Spells word p → Spells word q → p ≡ q }
{}

const PLUS: u16 = 43;

const POINT: u16 = 46;

const NINE: u16 = 57;

const CAPITAL_E: u16 = 69;

const SMALL_E: u16 = 101;

/// The parts of a word that its value is made of.
#[derive(Clone, Copy)]
struct Parts<'a> {
    sign: &'a [u16],
    whole: &'a [u16],
    part: &'a [u16],
    power_sign: &'a [u16],
    power: &'a [u16],
}

fn split(word: &[u16]) -> Result<Parts<'_>, DecFault>
    ensures found { IfOk result (λ p. IsSplit word.now (parts_of p)) }
    ensures fault { IfErr result (λ e. IsNotSplit word.now e) }
{
    let front = split_mantissa(word);
    if !front.has_digits() {
        return Err(not_number(word, front.rest));
    }
    let (mark, after) = split_mark(front.rest);
    if mark.is_empty() {
        if !front.rest.is_empty() {
            return Err(not_number(word, front.rest));
        }
        // With no mark there is no exponent: both its parts are empty.
        return Ok(front.with_power(mark, mark));
    }
    let (sign, after) = split_sign(after);
    let (power, after) = split_digits(after);
    if power.is_empty() {
        return Err(not_number(word, after));
    }
    if !after.is_empty() {
        return Err(not_number(word, after));
    }
    Ok(front.with_power(sign, power))
}

/// The fault of a word that doesn't go on at its rest.
fn not_number(word: &[u16], rest: &[u16]) -> DecFault
    requires { length rest.now ≤ length word.now }
    ensures { result ≡ DecFault.NotNumber (length word.now - length rest.now) }
{
    DecFault::NotNumber {
        at: word.len() - rest.len(),
    }
}

/// The parts of a mantissa in front of a word, and what follows them.
#[derive(Clone, Copy)]
struct Front<'a> {
    sign: &'a [u16],
    whole: &'a [u16],
    part: &'a [u16],
    rest: &'a [u16],
}

impl<'a> Front<'a> {
    fn has_digits(&self) -> bool
        ensures { result ≡ nat_lt 0 (length (self.now.whole.now ++ self.now.part.now)) }
    {
        !self.whole.is_empty() || !self.part.is_empty()
    }

    fn with_power(self, power_sign: &'a [u16], power: &'a [u16]) -> Parts<'a>
        ensures { parts_of result ≡ record {
          sign = self.entry.sign.now;
          whole = self.entry.whole.now;
          point = [];
          part = self.entry.part.now;
          mark = [];
          power_sign = power_sign.now;
          power = power.now;
        } }
    {
        Parts {
            sign: self.sign,
            whole: self.whole,
            part: self.part,
            power_sign,
            power,
        }
    }
}

fn split_mantissa(word: &[u16]) -> Front<'_>
    ensures sign { result.sign.now ≡ (mantissa_front word.now).parts.sign }
    ensures whole { result.whole.now ≡ (mantissa_front word.now).parts.whole }
    ensures part { result.part.now ≡ (mantissa_front word.now).parts.part }
    ensures rest { result.rest.now ≡ (mantissa_front word.now).rest }
    ensures within { length result.rest.now ≤ length word.now }
{
    let (sign, rest) = split_sign(word);
    let (whole, rest) = split_digits(rest);
    let (_, rest) = split_point(rest);
    let (part, rest) = split_digits(rest);
    Front {
        sign,
        whole,
        part,
        rest,
    }
}

fn split_sign(word: &[u16]) -> (&[u16], &[u16])
    ensures front { result.0.now ≡ unit_front is_sign word.now }
    ensures after { result.1.now ≡ unit_after is_sign word.now }
    ensures within { length result.1.now ≤ length word.now }
{
    match word {
        [PLUS | MINUS, ..] => word.split_at(1),
        _ => word.split_at(0),
    }
}

fn split_point(word: &[u16]) -> (&[u16], &[u16])
    ensures front { result.0.now ≡ unit_front is_point word.now }
    ensures after { result.1.now ≡ unit_after is_point word.now }
    ensures within { length result.1.now ≤ length word.now }
{
    match word {
        [POINT, ..] => word.split_at(1),
        _ => word.split_at(0),
    }
}

fn split_mark(word: &[u16]) -> (&[u16], &[u16])
    ensures front { result.0.now ≡ unit_front is_mark word.now }
    ensures after { result.1.now ≡ unit_after is_mark word.now }
    ensures within { length result.1.now ≤ length word.now }
{
    match word {
        [CAPITAL_E | SMALL_E, ..] => word.split_at(1),
        _ => word.split_at(0),
    }
}

fn split_digits(word: &[u16]) -> (&[u16], &[u16])
    ensures front { result.0.now ≡ digits_front word.now }
    ensures after { result.1.now ≡ digits_after word.now }
    ensures within { length result.1.now ≤ length word.now }
{
    word.split_at(count_digits(word))
}

/// How many digits the word begins with.
fn count_digits(word: &[u16]) -> usize
    ensures front { take result word.now ≡ digits_front word.now }
    ensures after { drop result word.now ≡ digits_after word.now }
    ensures within { result ≤ length word.now }
{
    for (i, c) in word.iter().enumerate() {
        if !is_digit(*c) {
            return i;
        }
    }
    word.len()
}

fn is_digit(c: u16) -> bool
    ensures { result ≡ is_digit_unit c }
{
    ZERO <= c && c <= NINE
}

fn judge(parts: &Parts<'_>) -> Result<Dec, DecFault>
    requires { HasDigits (parts_of parts.now) }
    ensures { result ≡ judged (parts_of parts.now) }
{
    let mantissa = Mantissa::of(parts.whole, parts.part);
    if mantissa.kept > 30 {
        return Err(DecFault::Digits);
    }
    if mantissa.kept == 0 {
        return Ok(Dec { mant: 0, exp: 0 });
    }
    let Some(exp) = exponent_of(parts, mantissa.seen - mantissa.kept) else {
        return Err(DecFault::Exponent);
    };
    Ok(Dec {
        mant: signed(parts.sign, mantissa.value),
        exp,
    })
}

/// The exponent where so many zeros are dropped at the end of the mantissa. None where it isn't
/// from -60 to 30.
fn exponent_of(parts: &Parts<'_>, zeros: usize) -> Option<i32>
    requires { AreDigits parts.now.power.now }
    ensures { let exp = signed_number parts.now.power_sign.now (number parts.now.power.now)
        -ℤ pos (length parts.now.part.now) +ℤ pos zeros in
        MatchOption result (is_readable exp ≡ false) (λ r. (r ≡ exp) × (is_readable exp ≡ true)) }
{
    let power = signed(parts.power_sign, power_of(parts.power));
    let digits = parts.part.len();
    readable(power - digits as i128 + zeros as i128)
}

/// The exponent, where it is from -60 to 30.
fn readable(exp: i128) -> Option<i32>
    ensures { MatchOption result (is_readable exp ≡ false)
        (λ r. (r ≡ exp) × (is_readable exp ≡ true)) }
{
    if exp < -60 || 30 < exp {
        return None;
    }
    Some(exp as i32)
}
