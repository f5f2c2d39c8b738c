//! The answer of one operation.

ghost use Rattle.std.specs.Prelude.{◌≡◌};

/// Why a value is lost: what the arithmetic can't enclose.
#[derive(Clone, Copy, Debug, PartialEq, Eq)]
pub enum Why {
    /// A root or a slope that isn't certain to exist.
    Root,
    /// A divisor that may be 0.
    Zero,
    /// A number past the greatest size that is kept.
    Range,
}

/// The answer of one operation: a value, the certainty that no number meets the row, or the loss
/// of the value.
#[derive(Clone, Copy, Debug, PartialEq, Eq)]
pub enum Step<T> {
    /// A value that encloses every exact answer.
    Val(T),
    /// No number meets the row.
    Empty,
    /// Nothing is known, and why.
    Lost(Why),
}

impl<T> Default for Step<T> {
    ghost use Rattle.fixdec.specs.declared.step.Step.TheVariants.{Empty};

    ghost is_default = { λ s. s ≡ Empty };

    fn default() -> Step<T> {
        Step::Empty
    }
}

/// The value of a step; a step without one is the answer of the function that asks.
#[macro_export]
macro_rules! val {
    ($step:expr) => {
        match $step {
            $crate::step::Step::Val(value) => value,
            $crate::step::Step::Empty => return $crate::step::Step::Empty,
            $crate::step::Step::Lost(why) => return $crate::step::Step::Lost(why),
        }
    };
}
