//! Values that are worked out row by row, though other rows are lost.

ghost use Rattle.std.specs.Prelude.{◌≡◌, ◌≤◌};
ghost use Rattle.firstorder.specs.Workings.{worked};
ghost use Rattle.lensmodel.specs.Paraxial.Losses as losses;

use enclose::arith::Arith;
use fixdec::span::Span;
use fixdec::step::{Step, Why};

/// The value of a row, or the first loss that it has met.
#[derive(Clone, Copy, Debug, PartialEq, Eq)]
pub enum Worked<T> {
    /// The value.
    Done(T),
    /// The value is lost: the number of the row that was lost, in the order of all rows, and why.
    Gone(u32, Why),
}

impl<T> Default for Worked<T> {
    ghost use Rattle.std.specs.Prelude.{◌≡◌};
    ghost use Rattle.fixdec.specs.declared.step.Why.TheVariants.{Root};
    ghost use Rattle.firstorder.specs.declared.worked.Worked.TheVariants.{Gone};

    ghost is_default = { λ w. w ≡ Gone 0 Root };

    fn default() -> Worked<T> {
        Worked::Gone(0, Why::Root)
    }
}

impl<T: Copy> Worked<T> {
    /// What the row with the number `row` gives by itself.
    pub fn of_step(row: u32, answer: Step<T>) -> Worked<T>
        ensures { worked result ≡ losses.of_step row answer }
    {
        match answer {
            Step::Val(value) => Worked::Done(value),
            Step::Empty => Worked::Gone(row, Why::Root),
            Step::Lost(why) => Worked::Gone(row, why),
        }
    }

    /// The value as a step.
    pub fn step(self) -> Step<T>
        ensures { result ≡ losses.to_step (worked self) }
    {
        match self {
            Worked::Done(value) => Step::Val(value),
            Worked::Gone(_, why) => Step::Lost(why),
        }
    }

    /// Of two rows the one that was lost first; the second where neither is.
    pub fn earlier(self, other: Worked<T>) -> Worked<T>
        ensures { worked result ≡ losses.earlier (worked self) (worked other) }
    {
        match (self, other) {
            (Worked::Done(_), _) => other,
            (Worked::Gone(..), Worked::Done(_)) => self,
            (Worked::Gone(first, _), Worked::Gone(second, _)) => {
                if first <= second { self } else { other }
            }
        }
    }

    /// The row with the number `row`, which needs this one: its answer, unless this one is lost.
    pub fn needed(self, row: u32, answer: Step<T>) -> Worked<T>
        ensures { worked result ≡ losses.unless_gone row (worked self) answer }
    {
        match self {
            Worked::Done(_) => Worked::of_step(row, answer),
            Worked::Gone(..) => self,
        }
    }

    /// Whether the value is lost because a number passed the cap.
    pub fn is_by_range(self) -> bool
        ensures { result ≡ losses.is_by_range (worked self) }
    {
        matches!(self, Worked::Gone(_, Why::Range))
    }
}

/// The interval of a value.
pub fn hull_of<T: Arith>(value: Worked<T>) -> Step<Span>
    requires { T.SCALE ≤ 15 }
    ensures { result ≡ losses.hull_step T.ops.hull (worked value) }
{
    match value {
        Worked::Done(value) => Step::Val(value.hull()),
        Worked::Gone(_, why) => Step::Lost(why),
    }
}
