//! The arithmetic that generic rows are written in.

ghost use Rattle.std.specs.Prelude.{◌≡◌, ℕ, ℤ, pos, negsuc, ◌≤◌, ◌<◌, ◌≤ℤ◌, ◌+ℤ◌};
ghost use Rattle.fixdec.specs.Ends.{Ends, InCap};
ghost use Rattle.fixdec.specs.Frac.{Frac};
ghost use Rattle.fixdec.specs.Member.{Symbols};
ghost use Rattle.fixdec.specs.Operations.{Operations, IsLawful};
ghost use Rattle.enclose.specs.Zeros.{LeavesZero, single};

use fixdec::span::Span;
use fixdec::step::Step;

/// Arithmetic whose answers enclose: each operation on values that enclose exact numbers gives a
/// value that encloses the exact answer, or says why not. Values stand at the scale `SCALE`,
/// where the raw number `v` is `v / 10^SCALE`.
pub trait Arith: Copy {
    /// The scale, at most 15.
    const SCALE: u32;

    ghost SCALE: { ℕ };

    /// What each operation answers.
    ghost ops: { Operations Self };

    /// That a fraction is a member of a value under symbols.
    ghost member: { Self → Symbols → Frac → Type 0 };

    /// The value of a span.
    fn of_span(s: Span) -> Self
        requires { SCALE ≤ 15 }
        ensures { result ≡ ops.of_span s };

    /// The least span that holds every member.
    fn hull(&self) -> Span
        requires { SCALE ≤ 15 }
        ensures { result ≡ ops.hull self.now };

    /// The sum.
    fn plus(self, o: Self) -> Step<Self>
        requires { SCALE ≤ 15 }
        ensures { result ≡ ops.plus self o };

    /// The difference.
    fn minus(self, o: Self) -> Step<Self>
        requires { SCALE ≤ 15 }
        ensures { result ≡ ops.minus self o };

    /// The product.
    fn times(self, o: Self) -> Step<Self>
        requires { SCALE ≤ 15 }
        ensures { result ≡ ops.times self o };

    /// The square.
    fn square(self) -> Step<Self>
        requires { SCALE ≤ 15 }
        ensures { result ≡ ops.square self };

    /// The quotient.
    fn over(self, o: Self) -> Step<Self>
        requires { SCALE ≤ 15 }
        ensures { result ≡ ops.over self o };

    /// The root that isn't negative.
    fn root(self) -> Step<Self>
        requires { SCALE ≤ 15 }
        ensures { result ≡ ops.root self };

    /// The value with its ends moved outward by `e` units, `e` from 0 to the cap.
    fn widen(self, e: i128) -> Step<Self>
        requires scale { SCALE ≤ 15 }
        requires low { pos 0 ≤ℤ e }
        requires high { InCap e }
        ensures { result ≡ ops.widen self e };

    /// The value times `10^-k`, `k` from -6 to 6.
    fn shift(self, k: i32) -> Step<Self>
        requires scale { SCALE ≤ 15 }
        requires low { negsuc 5 ≤ℤ k }
        requires high { k ≤ℤ pos 6 }
        ensures { result ≡ ops.shift self k };

    /// What of the value lies in a span.
    fn clip(self, s: Span) -> Step<Self>
        requires { SCALE ≤ 15 }
        ensures { result ≡ ops.clip self s };

    /// The value plus a deviation, enclosed by `delta`, times symbol `i`.
    fn symbol(self, i: usize, delta: Span) -> Step<Self>
        requires scale { SCALE ≤ 15 }
        requires index { i < 32 }
        requires sign { pos 0 ≤ℤ delta.lo }
        requires narrow { delta.hi ≤ℤ (delta.lo +ℤ pos 1) }
        ensures { result ≡ ops.symbol self i delta };

    /// A fact for proofs, without work: the value times zero is zero, and plus zero is the value.
    fn leaves_zero(&self)
        requires { SCALE ≤ 15 }
        ensures { LeavesZero ops self.now };

    /// It holds of the value of each number within the cap.
    ghost number_leaves_zero: { SCALE ≤ 15 → (z : ℤ) → InCap z
        → LeavesZero ops (ops.of_span (single z)) };

    /// The laws, from which generic code is proved.
    ghost lawful: { SCALE ≤ 15 → IsLawful SCALE ops member };
}
