//! Spans: a least and a greatest raw number.

ghost use Rattle.std.specs.Prelude.{◌≡◌, ℕ, ℤ, pos, negsuc, ◌≤ℤ◌};
ghost use Rattle.fixdec.specs.Ends.{Ends, InCap};

use std::marker::Model;

/// The greatest size of a raw number that is kept.
pub const CAP: i128 = 1_000_000_000_000_000_000;

/// A least and a greatest raw number, in order, each at most `CAP` in size. At scale S the raw
/// number `v` stands for `v / 10^S`.
#[derive(Clone, Copy, Debug, PartialEq, Eq)]
pub struct Span {
    /// The least raw number.
    pub lo: i128,
    /// The greatest raw number.
    pub hi: i128,
}

impl Model for Span {
    ghost Value = { Ends };

    ghost view = { λ s. record { lo = s.lo; hi = s.hi } };

    ghost invariant = { λ s. (s.lo ≤ℤ s.hi) × InCap s.lo × InCap s.hi };

    ghost inverse = { λ e. record { lo = e.lo; hi = e.hi } };
}

impl Default for Span {
    ghost is_default = { λ s. s ≡ record { lo = pos 0; hi = pos 0 } };

    fn default() -> Span {
        Span { lo: 0, hi: 0 }
    }
}
