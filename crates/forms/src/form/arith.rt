//! Forms as an arithmetic: what is computed from forms has as members what is computed from their
//! members under the same symbols, so that deviations of one symbol cancel.

ghost use Rattle.fixdec.specs.Form.{linear_operations};
ghost use Rattle.fixdec.specs.FormMember.{IsFormMember};
ghost use Rattle.forms.specs.FormLaws.{linear_lawful};
ghost use Rattle.forms.specs.FormZeros as zeros;

use super::{Form, quotients, roots, rounded, spans, sums};
use enclose::arith::Arith;
use fixdec::span::Span;
use fixdec::step::Step;

/// An answer is `Lost(Range)` exactly where the size of its centre and its deviation would pass the
/// cap together, and in a quotient also where the first quotient of the centres, or the bound on
/// how far a quotient lies from it, passes the cap.
impl<const S: u32> Arith for Form<S> {
    const SCALE: u32 = S;

    ghost SCALE = { S };

    ghost ops = { linear_operations S };

    ghost member = { IsFormMember S };

    ghost lawful = { λ _. linear_lawful S };

    ghost number_leaves_zero = { λ _. zeros.number_leaves_zero S };

    fn of_span(s: Span) -> Form<S> {
        spans::of_span(s)
    }

    fn hull(&self) -> Span {
        super::hull(self)
    }

    fn plus(self, o: Form<S>) -> Step<Form<S>> {
        sums::plus(&self, &o)
    }

    fn minus(self, o: Form<S>) -> Step<Form<S>> {
        sums::minus(&self, &o)
    }

    fn times(self, o: Form<S>) -> Step<Form<S>> {
        rounded::times(&self, &o)
    }

    fn square(self) -> Step<Form<S>> {
        rounded::times(&self, &self)
    }

    fn over(self, o: Form<S>) -> Step<Form<S>> {
        quotients::over(&self, &o)
    }

    fn root(self) -> Step<Form<S>> {
        roots::root(&self)
    }

    fn widen(self, e: i128) -> Step<Form<S>> {
        sums::widen(&self, e)
    }

    fn shift(self, k: i32) -> Step<Form<S>> {
        rounded::shift(&self, k)
    }

    fn clip(self, s: Span) -> Step<Form<S>> {
        sums::clip(&self, s)
    }

    fn symbol(self, i: usize, delta: Span) -> Step<Form<S>> {
        sums::symbol(&self, i, delta)
    }

    #[inline(always)]
    fn leaves_zero(&self) {
        let _centre = self.centre; // so that what holds of the form is known
    }
}
