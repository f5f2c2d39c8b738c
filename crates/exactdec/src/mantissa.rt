//! Numbers of digits.

ghost use Rattle.std.specs.Prelude.{◌≡◌, ℕ, ◌+◌, ◌^◌, ◌<◌, ◌≤◌, List, ◌∷◌, [], ◌++◌, length, min};
ghost use Rattle.fixdec.specs.Word.{IsDigit, AreDigits, signed as signed_number, number};

pub(crate) const MINUS: u16 = 45;

pub(crate) const ZERO: u16 = 48;

/// The digits of a mantissa so far, from the first on that isn't 0.
#[derive(Clone, Copy)]
pub(crate) struct Mantissa {
    /// Their number without the zeros at the end, where those are at most 30 digits.
    pub value: u128,
    /// How many they are without the zeros at the end.
    pub kept: usize,
    /// How many they are.
    pub seen: usize,
    ghost ordered: { kept ≤ seen },
    ghost bounded: { kept ≤ 30 → value < 10 ^ kept },
}

impl Mantissa {
    ghost use Rattle.std.specs.Prelude.{◌≡◌, ℕ, ◌+◌, ◌-◌, ◌*◌, ◌^◌, ◌<◌, ◌≤◌, List, ◌∷◌, [], ◌++◌, length};
    ghost use Rattle.fixdec.specs.Word.{IsDigit, AreDigits};
    ghost use Rattle.exactdec.specs.Mantissas.{HasSeen};

    /// The mantissa of the digits before and after a point.
    pub fn of(whole: &[u16], part: &[u16]) -> Mantissa
        requires whole { AreDigits whole.now }
        requires part { AreDigits part.now }
        requires room { length whole.now + length part.now < 2 ^ 64 }
        ensures { HasSeen result (whole.now ++ part.now) }
    {
        let none = Mantissa {
            value: 0,
            kept: 0,
            seen: 0,
        };
        none.with_all(whole).with_all(part)
    }

    fn with_all(self, digits: &[u16]) -> Mantissa
        requires digits { AreDigits digits.now }
        requires room { self.seen + length digits.now < 2 ^ 64 }
        ensures holds { (ds : List ℕ) → HasSeen self ds → HasSeen result (ds ++ digits.now) }
        ensures room { result.seen ≤ self.seen + length digits.now }
    {
        let mut all = self;
        for c in digits {
            all = all.with(*c);
        }
        all
    }

    fn with(self, digit: u16) -> Mantissa
        requires digit { IsDigit digit }
        requires room { self.seen + 1 < 2 ^ 64 }
        ensures holds { (ds : List ℕ) → HasSeen self ds → HasSeen result (ds ++ digit ∷ []) }
        ensures room { result.seen ≤ self.seen + 1 }
    {
        if digit == ZERO {
            return self.with_zero();
        }
        let seen = self.seen + 1;
        Mantissa {
            value: self.value_with(digit),
            kept: seen,
            seen,
        }
    }

    fn with_zero(self) -> Mantissa
        requires { self.seen + 1 < 2 ^ 64 }
        ensures holds { (ds : List ℕ) → HasSeen self ds → HasSeen result (ds ++ 48 ∷ []) }
        ensures room { result.seen ≤ self.seen + 1 }
    {
        if self.seen == 0 {
            return self;
        }
        Mantissa {
            value: self.value,
            kept: self.kept,
            seen: self.seen + 1,
        }
    }

    /// The number with one more digit, which isn't 0.
    fn value_with(&self, digit: u16) -> u128
        requires { IsDigit digit }
        ensures { self.now.seen < 30
            → result ≡ self.now.value * 10 ^ (self.now.seen - self.now.kept + 1) + (digit - 48) }
    {
        if self.seen >= 30 {
            return 0;
        }
        let zeros = self.seen - self.kept;
        self.value * 10u128.pow(zeros as u32 + 1) + (digit - ZERO) as u128
    }
}

/// Past every exponent that is read, whatever digits stand in the word.
pub(crate) const POWER_LIMIT: u128 = 1_000_000_000_000_000_000_000_000_000_000;

/// The number of the digits, or `POWER_LIMIT` where it is less.
pub(crate) fn power_of(digits: &[u16]) -> u128
    requires { AreDigits digits.now }
    ensures { result ≡ min (number digits.now) POWER_LIMIT }
{
    let mut power = 0;
    for c in digits {
        power = (10 * power + (*c - ZERO) as u128).min(POWER_LIMIT);
    }
    power
}

/// The number of this size, below 0 after a minus sign.
pub(crate) fn signed(sign: &[u16], size: u128) -> i128
    requires { size < 2 ^ 127 }
    ensures { result ≡ signed_number sign.now size }
{
    match sign {
        [MINUS, ..] => -(size as i128),
        _ => size as i128,
    }
}
