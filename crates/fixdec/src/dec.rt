//! Decimals.

ghost use Rattle.std.specs.Prelude.{◌≡◌, ℕ, ℤ, pos, ◌≤ℤ◌};
ghost use Rattle.fixdec.specs.Decimal.{Decimal, IsKept};

use std::marker::Model;

/// The decimal `mant * 10^exp`: a mantissa of at most 30 digits and an exponent from -108 to 78,
/// which is 0 where the mantissa is. A decimal that was read has an exponent from -60 to 30.
#[derive(Clone, Copy, Debug, PartialEq, Eq)]
pub struct Dec {
    /// The mantissa.
    pub mant: i128,
    /// The power of ten.
    pub exp: i32,
}

impl Model for Dec {
    ghost Value = { Decimal };

    ghost view = { λ d. record { mant = d.mant; exp = d.exp } };

    ghost invariant = { λ d. IsKept (record { mant = d.mant; exp = d.exp }) };

    ghost inverse = { λ d. record { mant = d.mant; exp = d.exp } };
}

impl Default for Dec {
    ghost is_default = { λ d. d ≡ record { mant = pos 0; exp = pos 0 } };

    fn default() -> Dec {
        Dec { mant: 0, exp: 0 }
    }
}
