//! The statistics of a grid: the centroid at the image, and the mean square distance from it.

ghost use Rattle.std.specs.Prelude.{◌≡◌, ◌++◌, ◌+◌, ◌<◌, ◌≤◌, [], ◌∷◌, List, map, if◌then◌else◌};
ghost use Rattle.std.specs.List.{All};
ghost use Rattle.lensmodel.specs.Claims.SpotClaims.{HoldsCentroid, HoldsSpread, IsTraced, Traced};
ghost use Rattle.lensmodel.specs.Rows.Spot as spot;
ghost use Rattle.lensmodel.specs.Setup.Values.{image};
ghost use Rattle.lensmodel.specs.declared.row.Row.{Row as RowValue};
ghost use Rattle.lensmodel.specs.declared.setup.Setup.{Setup};
ghost use Rattle.spotfan.specs.Chains.{HoldsCentreOf, HoldsSpreadOf};
ghost use Rattle.spotfan.specs.Sums.{IsSumIf, Sums, centre_of, spread_of, square_if, sums_of, with_heights, with_row};

use crate::interval::{SCALE, at_12, square_distance};
use crate::total::{Total, sum_with};
use enclose::spans::{iv_clip, iv_minus};
use fixdec::span::{CAP, Span};
use fixdec::step::Step;
use fixdec::val;
use lensmodel::row::{Row, Word};
use std::marker::Model;

/// What is kept of some rows, of which there are at most 10,000: sums of intervals at scale 12 over
/// those that pass. Contracts see the sums; the rows themselves aren't kept.
#[derive(Debug, Drop)]
pub struct Tally {
    rows: u32,
    passes: u32,
    x: Step<Total>,
    y: Step<Total>,
    squares: Step<Total>,
}

impl Model for Tally {
    ghost Value = { Sums };

    ghost view = { λ t. record {
      rows = t.rows;
      passes = t.passes;
      x = t.x;
      y = t.y;
      squares = t.squares;
    } };

    ghost invariant = { λ t. (t.passes ≤ t.rows) × (t.rows ≤ 10_000)
        × IsSumIf t.passes t.x × IsSumIf t.passes t.y × IsSumIf t.passes t.squares };
}

/// Whether a word says that its ray passes.
fn is_pass(word: &Word) -> bool
    ensures { result ≡ spot.is_pass word.now }
{
    matches!(word, Word::Passes)
}

/// Where a row meets the image, in units of its scale: its last place; 0 without a place.
fn landing(r: &Row) -> (Span, Span)
    ensures x { result.0 ≡ (spot.landing r.now).x }
    ensures y { result.1 ≡ (spot.landing r.now).y }
{
    match r.places.as_slice().last() {
        Some(place) => (place.x, place.y),
        None => (Span { lo: 0, hi: 0 }, Span { lo: 0, hi: 0 }),
    }
}

/// The sum of the squares of two heights that are there.
fn square_of(x: &Step<Span>, y: &Step<Span>) -> Step<Span>
    ensures { result ≡ square_if x.now y.now }
{
    square_distance(val!(*x), val!(*y))
}

impl Tally {
    /// The tally of no rows.
    pub fn new() -> Tally
        ensures { result ≡ sums_of [] }
    {
        Tally {
            rows: 0,
            passes: 0,
            x: Step::Val(Total::NONE),
            y: Step::Val(Total::NONE),
            squares: Step::Val(Total::NONE),
        }
    }

    /// How many of the rows pass.
    pub fn passes(&self) -> u32
        ensures { result ≡ self.now.passes }
    {
        self.passes
    }

    /// Adds a row, whose scale is 6, 9, 12 or 15, to fewer than 10,000 others. Its last place is that
    /// of the image where it passes; else it only counts.
    pub fn add(&mut self, r: &Row)
        requires few { self.old.rows < 10_000 }
        requires low { 6 ≤ r.now.scale }
        requires high { r.now.scale ≤ 15 }
        ensures sums { (rows : List RowValue) → self.old ≡ sums_of rows
            → self.new ≡ sums_of (rows ++ r.now ∷ []) }
        ensures rows { self.new.rows ≡ self.old.rows + 1 }
        ensures passes { self.new.passes ≡ self.old.passes + (if spot.passes r.now then 1 else 0) }
    {
        self.add_row(r);
    }

    fn add_row(&mut self, r: &Row)
        requires few { self.old.rows < 10_000 }
        requires low { 6 ≤ r.now.scale }
        requires high { r.now.scale ≤ 15 }
        ensures { self.new ≡ with_row self.old r.now }
    {
        self.rows += 1;
        if is_pass(&r.word) {
            let (x, y) = landing(r);
            self.add_heights(&at_12(r.scale, x), &at_12(r.scale, y));
        }
    }

    fn add_heights(&mut self, x: &Step<Span>, y: &Step<Span>)
        requires { self.old.passes < self.old.rows }
        ensures { self.new ≡ with_heights self.old x.now y.now }
    {
        self.x = sum_with(&self.x, x, self.passes);
        self.y = sum_with(&self.y, y, self.passes);
        self.squares = sum_with(&self.squares, &square_of(x, y), self.passes);
        self.passes += 1;
    }

    /// The centroid at scale 12: an interval for the mean of x and one for the mean of y over the rows
    /// that pass, of which there is at least one. `Lost(Range)` where a height at scale 12 is past the
    /// cap; never Empty.
    pub fn centre(&self) -> Step<(Span, Span)>
        requires { 0 < self.now.passes }
        ensures exact { (rows : List RowValue) → self.now ≡ sums_of rows
            → result ≡ spot.centroid rows }

        // The means of x and of y over one point of each row that passes lie in them.
        ensures encloses { (rows : List RowValue) → self.now ≡ sums_of rows
            → HoldsCentroid (spot.landings rows) result }

        // Of traced rays: so do the means over one whole chain of each ray that passes, where it meets the image.
        ensures chains { (s : Setup) (rays : List Traced) → 0 < image s → All (IsTraced s) rays
            → self.now ≡ sums_of (map (λ t. t.row) rays) → HoldsCentreOf s rays result }
    {
        self.mean_heights()
    }

    fn mean_heights(&self) -> Step<(Span, Span)>
        requires { 0 < self.now.passes }
        ensures { result ≡ centre_of self.now }
    {
        let x = val!(val!(self.x).mean(self.passes));
        let y = val!(val!(self.y).mean(self.passes));
        Step::Val((x, y))
    }

    /// The mean square distance from the centroid at scale 12, over the rows that pass, of which there
    /// is at least one. `Lost(Range)` where a square or a height at scale 12 is past the cap; never
    /// Empty.
    pub fn spread(&self) -> Step<Span>
        requires { 0 < self.now.passes }
        ensures exact { (rows : List RowValue) → self.now ≡ sums_of rows
            → result ≡ spot.mean_square rows }

        // The mean square distance of one point of each row that passes from their mean lies in it.
        ensures encloses { (rows : List RowValue) → self.now ≡ sums_of rows
            → HoldsSpread (spot.landings rows) result }

        // Of traced rays: so does that of one whole chain of each ray that passes, where it meets the image.
        ensures chains { (s : Setup) (rays : List Traced) → 0 < image s → All (IsTraced s) rays
            → self.now ≡ sums_of (map (λ t. t.row) rays) → HoldsSpreadOf s rays result }
    {
        self.mean_distance()
    }

    fn mean_distance(&self) -> Step<Span>
        requires { 0 < self.now.passes }
        ensures { result ≡ spread_of self.now }
    {
        let (x, y) = val!(self.mean_heights());
        let mean = val!(val!(self.squares).mean(self.passes));
        let spread = val!(iv_minus(SCALE, mean, val!(square_distance(x, y))));
        iv_clip(spread, Span { lo: 0, hi: CAP })
    }
}

#[cfg(test)]
mod tests {
    use super::*;
    use arrayvec::ArrayVec;
    use lensmodel::row::Place;
    use std::test::Fail;

    fn around(middle: i32, margin: u8) -> Span {
        Span {
            lo: i128::from(middle) - i128::from(margin),
            hi: i128::from(middle) + i128::from(margin),
        }
    }

    /// A row at scale 6 that ends at these heights, in whole lens units.
    fn row(word: Word, x: i8, y: i8, y_margin: u8) -> Row
        ensures { result.scale ≡ 6 }
    {
        let mut places: ArrayVec<Place, 64> = ArrayVec::new();
        places.push(Place {
            rho: Span { lo: 0, hi: 0 },
            x: around(i32::from(x) * 1_000_000, 14),
            y: around(i32::from(y) * 1_000_000, y_margin),
            z: Span { lo: -1, hi: 1 },
            path: Span { lo: 0, hi: 0 },
            heading: None,
        });
        Row {
            scale: 6,
            word,
            places,
        }
    }

    fn statistics(tally: &Tally) -> Result<(Span, Span, Span), Fail> {
        if tally.passes() == 0 {
            return Err("no ray passes".into());
        }
        match (tally.centre(), tally.spread()) {
            (Step::Val((x, y)), Step::Val(spread)) => Ok((x, y, spread)),
            _ => Err("lost".into()),
        }
    }

    #[test]
    fn a_grid_that_passes(rt: HostRuntime) -> Result<(), Fail> {
        let mut tally = Tally::new();
        let grid = [
            (-3, -3),
            (-3, 0),
            (-3, 3),
            (0, -3),
            (0, 0),
            (0, 3),
            (3, -3),
            (3, 0),
            (3, 3),
        ];
        for (x, y) in grid {
            tally.add(&row(Word::Passes, x, y, 14));
        }
        let (x, y, spread) = statistics(&tally)?;
        assert_eq!(rt; (x.lo, x.hi), (-14_000_000, 14_000_000));
        assert_eq!(rt; (y.lo, y.hi), (-14_000_000, 14_000_000));
        assert_eq!(rt;
            (spread.lo, spread.hi),
            (11_999_887_999_869, 12_000_112_000_392)
        );
        Ok(())
    }

    #[test]
    fn vignetted_rays_only_count(rt: HostRuntime) -> Result<(), Fail> {
        let mut tally = Tally::new();
        for (x, y) in [(-3, 3), (0, 0), (0, 3), (0, 6), (3, 3)] {
            tally.add(&row(Word::Passes, x, y, 23));
            tally.add(&row(Word::Vignetted(1), y, y, 3));
        }
        assert_eq!(rt; tally.passes(), 5);
        let (x, y, spread) = statistics(&tally)?;
        assert_eq!(rt; (x.lo, x.hi), (-14_000_000, 14_000_000));
        assert_eq!(rt; (y.lo, y.hi), (2_999_977_000_000, 3_000_023_000_000));
        assert_eq!(rt;
            (spread.lo, spread.hi),
            (7_199_690_399_776, 7_200_309_600_196)
        );
        Ok(())
    }
}
