//! The bound on the widths of a row.

ghost use Rattle.std.specs.Prelude.{◌≡◌, ◌≤◌, IsTrue};
ghost use Rattle.fixdec.specs.Scaled.{dec_floor};
ghost use Rattle.lensmodel.specs.Rows.Outcome as outcome;
ghost use Rattle.lensmodel.specs.Setup.Ranges.{is_width};
ghost use Rattle.skewtrace.specs.Words as words;

use exactdec::scale;
use fixdec::dec::Dec;
use fixdec::span::{CAP, Span};
use fixdec::step::Step;
use lensmodel::row::{Heading, Place};

/// A width bound in units of a scale, rounded down.
fn rounded(scale: u32, width: &Dec) -> i128
    requires scale { scale ≤ 15 }
    requires range { IsTrue (is_width width.now) }
    ensures { result ≡ dec_floor scale width.now }
{
    match scale::span(width, scale) {
        Step::Val(span) => span.lo,
        Step::Empty => CAP,
        Step::Lost(_) => CAP,
    }
}

/// A width bound at a scale.
#[derive(Drop)]
pub(crate) struct Bound {
    scale: u32,
    width: Dec,
    units: i128,
    ghost rounded: { units ≡ dec_floor scale width },
}

impl Bound {
    /// The bound of a job at a scale.
    pub(crate) fn at(scale: u32, width: &Dec) -> Bound
        requires scale { scale ≤ 15 }
        requires range { IsTrue (is_width width.now) }
        ensures scale { result.scale ≡ scale }
        ensures width { result.width ≡ width.now }
    {
        Bound {
            scale,
            width: *width,
            units: rounded(scale, width),
        }
    }

    /// Whether an interval is wider than the bound.
    fn is_below(&self, a: Span) -> bool
        ensures { result ≡ outcome.is_wider self.now.scale self.now.width a }
    {
        self.units < a.hi - a.lo
    }

    /// Whether an interval of a heading is.
    fn is_below_heading(&self, heading: &Option<Heading>) -> bool
        ensures { result ≡ outcome.has_wide_heading self.now.scale self.now.width heading.now }
    {
        match heading {
            None => false,
            Some(h) => self.is_below(h.l) || self.is_below(h.m) || self.is_below(h.n),
        }
    }

    /// Whether an interval of a place is.
    fn is_below_place(&self, p: &Place) -> bool
        ensures { result ≡ outcome.is_wide_place self.now.scale self.now.width p.now }
    {
        self.is_below(p.rho)
            || self.is_below(p.x)
            || self.is_below(p.y)
            || self.is_below(p.z)
            || self.is_below(p.path)
            || self.is_below_heading(&p.heading)
    }

    /// Whether an interval of some place is.
    pub(crate) fn is_below_some(&self, places: &[Place]) -> bool
        ensures { result ≡ words.any_wide self.now.scale self.now.width places.now }
    {
        for p in places {
            if self.is_below_place(p) {
                return true;
            }
        }
        false
    }
}
