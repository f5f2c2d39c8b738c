//! Fixed point numbers, with their scale in the type.

ghost use Rattle.std.specs.Prelude.{◌≡◌, ◌≤◌, ◌+ℤ◌, ◌-ℤ◌, ◌↔◌, refl, IfSome, IsSome, neg_ℤ, ℕ, ℤ};
ghost use Rattle.std.specs.Cmp.{partial_equiv_from_equiv, int_eq_equiv, int_cmp_total, signed_po};
ghost use Rattle.std.specs.Ordering.{int_eq, int_cmp, as_partial_cmp};
ghost use Rattle.fixdec.specs.Ends.{InCap};

use crate::span::CAP;
use crate::step::{Step, Why};
use std::cmp::Ordering;
use std::marker::Model;
use std::ops::{Add, Neg, Sub};

/// The number `raw / 10^S`, with a scale `S` of at most 15 and a raw number of at most `CAP` in
/// size. Numbers of two scales don't mix: an operation takes both of one type.
#[derive(Clone, Copy, Debug)]
pub struct Fix<const S: u32> {
    raw: i128,
}

impl<const S: u32> Model for Fix<S> {
    ghost Value = { ℤ };

    ghost view = { λ f. f.raw };

    ghost invariant = { λ f. InCap f.raw × (S ≤ 15) };

    ghost inverse = { λ z. record { raw = z } };
}

impl<const S: u32> Fix<S> {
    /// The number with this raw number: None where that is past `CAP` in size.
    pub fn new(raw: i128) -> Option<Fix<S>>
        requires { S ≤ 15 }
        ensures exists { IsSome result ↔ InCap raw }
        ensures value { IfSome result (λ f. f ≡ raw) }
    {
        if -CAP <= raw && raw <= CAP {
            Some(Fix { raw })
        } else {
            None
        }
    }

    /// The raw number.
    pub fn raw(self) -> i128
        ensures value { result ≡ self.entry }
        ensures bound { InCap result }
    {
        self.raw
    }

    /// The sum: `Lost(Range)` where it is past `CAP` in size.
    pub fn try_add(self, o: Fix<S>) -> Step<Fix<S>>
        ensures val { InCap (self.entry +ℤ o.entry) → result ≡ Step.Val (self.entry +ℤ o.entry) }
        ensures lost { ¬ InCap (self.entry +ℤ o.entry) → result ≡ Step.Lost Why.Range }
    {
        match Fix::new(self.raw + o.raw) {
            Some(sum) => Step::Val(sum),
            None => Step::Lost(Why::Range),
        }
    }

    /// The difference: `Lost(Range)` where it is past `CAP` in size.
    pub fn try_sub(self, o: Fix<S>) -> Step<Fix<S>>
        ensures val { InCap (self.entry -ℤ o.entry) → result ≡ Step.Val (self.entry -ℤ o.entry) }
        ensures lost { ¬ InCap (self.entry -ℤ o.entry) → result ≡ Step.Lost Why.Range }
    {
        match Fix::new(self.raw - o.raw) {
            Some(difference) => Step::Val(difference),
            None => Step::Lost(Why::Range),
        }
    }
}

impl<const S: u32> Add for Fix<S> {
    type Output = Fix<S>;

    ghost can_add = { λ a b. InCap (a +ℤ b) };

    ghost add_gives = { λ a b r. r ≡ (a +ℤ b) };

    fn add(self, o: Fix<S>) -> Fix<S> {
        Fix {
            raw: self.raw + o.raw,
        }
    }
}

impl<const S: u32> Sub for Fix<S> {
    type Output = Fix<S>;

    ghost can_sub = { λ a b. InCap (a -ℤ b) };

    ghost sub_gives = { λ a b r. r ≡ (a -ℤ b) };

    fn sub(self, o: Fix<S>) -> Fix<S> {
        Fix {
            raw: self.raw - o.raw,
        }
    }
}

impl<const S: u32> Neg for Fix<S> {
    type Output = Fix<S>;

    ghost neg_gives = { λ a r. r ≡ neg_ℤ a };

    fn neg(self) -> Fix<S> {
        Fix { raw: -self.raw }
    }
}

impl<const S: u32> PartialEq for Fix<S> {
    ghost eq = { int_eq };

    ghost laws = { partial_equiv_from_equiv int_eq_equiv };

    fn eq(&self, o: &Fix<S>) -> bool {
        self.raw == o.raw
    }
}

impl<const S: u32> Eq for Fix<S> {
    ghost laws = { int_eq_equiv };
}

impl<const S: u32> PartialOrd for Fix<S> {
    ghost partial_cmp = { as_partial_cmp int_cmp };

    ghost laws = { signed_po };

    fn partial_cmp(&self, o: &Fix<S>) -> Option<Ordering> {
        Some(self.cmp(o))
    }
}

impl<const S: u32> Ord for Fix<S> {
    ghost cmp = { int_cmp };

    ghost total = { int_cmp_total };

    ghost matches_partial_cmp = { λ x y. refl };

    ghost matches_eq = { λ x y. refl };

    fn cmp(&self, o: &Fix<S>) -> Ordering {
        self.raw.cmp(&o.raw)
    }
}

#[cfg(test)]
mod tests {
    use super::*;
    use std::process::Abort;

    struct Alone;

    struct Together;

    trait Sums<R, How> {
        fn is_alone() -> bool;
    }

    impl<T, R> Sums<R, Alone> for T {
        fn is_alone() -> bool {
            true
        }
    }

    impl<T: Add<R>, R> Sums<R, Together> for T {
        fn is_alone() -> bool {
            false
        }
    }

    // Compiles only while numbers of two scales have no sum: with one, the `_` would have two answers.
    #[test]
    fn scales_do_not_mix(rt: HostRuntime) {
        assert!(rt; <Fix<6> as Sums<Fix<9>, _>>::is_alone());
        assert!(rt; <Fix<9> as Sums<Fix<6>, _>>::is_alone());
    }

    fn number<const S: u32>(rt: &impl Abort, raw: i128) -> Fix<S>
        requires { S ≤ 15 }
        ensures { result ≡ raw }
    {
        Fix::new(raw).expect(rt, "within the cap")
    }

    #[test]
    fn ends_at_the_cap(rt: HostRuntime) {
        for (raw, fits) in [
            (0, true),
            (CAP, true),
            (-CAP, true),
            (CAP + 1, false),
            (-CAP - 1, false),
        ] {
            assert_eq!(rt; Fix::<9>::new(raw).is_some(), fits, "{raw}");
        }
    }

    #[test]
    fn sums_and_differences(rt: HostRuntime) {
        let most: Fix<9> = number(&rt, CAP);
        let one: Fix<9> = number(&rt, 1);
        let next: Fix<9> = number(&rt, CAP - 1);
        assert!(rt; most.try_add(one) == Step::Lost(Why::Range));
        assert!(rt; next.try_add(one) == Step::Val(most));
        assert!(rt; most.try_sub(one) == Step::Val(next));
        assert!(rt; (-most).try_sub(one) == Step::Lost(Why::Range));
    }

    #[test]
    fn operators(rt: HostRuntime) {
        let a: Fix<6> = number(&rt, 1_500_000);
        let b: Fix<6> = number(&rt, -250_000);
        assert_eq!(rt; (a + b).raw(), 1_250_000);
        assert_eq!(rt; (a - b).raw(), 1_750_000);
        assert_eq!(rt; (-a).raw(), -1_500_000);
        assert!(rt; b < a && a != b && -a < b);
    }
}
