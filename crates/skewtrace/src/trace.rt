//! The walk of a ray at one scale.

ghost use Rattle.std.specs.Prelude.{◌≡◌, ◌+◌, ◌≤◌, [], if◌then◌else◌};
ghost use Rattle.lensmodel.specs.Claims.RowClaims.{RowHolds};
ghost use Rattle.lensmodel.specs.Rows.Outcome.{outcome_at};
ghost use Rattle.lensmodel.specs.Setup.Values as values;
ghost use Rattle.lensmodel.specs.Setup.WellFormed.{IsWellFormed};
ghost use Rattle.skewtrace.specs.Enclosing.{IsSureFrom};
ghost use Rattle.skewtrace.specs.Goings as goings;
ghost use Rattle.skewtrace.specs.Words as words;
ghost use Rattle.skewtrace.specs.Words.{any_wide};

use crate::going::Going;
use crate::place::empty;
use crate::ready::kept;
use crate::start::start;
use crate::turn::pass;
use crate::width::Bound;
use arrayvec::ArrayVec;
use enclose::arith::Arith;
use fixdec::step::{Step, Why};
use lensmodel::launch::Launch;
use lensmodel::row::{Place, Row, Word};
use lensmodel::setup::Setup;
use sagform::prepare::face;
use sagform::ray::Ray;
use sagform::steps::Steps;
use std::sync::ledger::Ledger;

/// A row without places, for traces to be written into.
pub fn blank() -> Row
    ensures { result ≡ record { scale = 6; word = Word.Passes; places = record { items = [] } } }
{
    Row {
        scale: 6,
        word: Word::Passes,
        places: ArrayVec::new(),
    }
}

/// The word of a walk that came to the image, whose row has the word of the rims: wide where an interval
/// of a place is.
pub(crate) fn end_at_image<T: Arith>(s: &Setup, row: &mut Row)
    requires scale { T.SCALE ≤ 15 }
    requires well { IsWellFormed s.now }
    ensures word { row.new.word ≡ if any_wide T.SCALE s.now.width row.old.places.items
        then Word.Wide else row.old.word }
    ensures places { row.new.places.items ≡ row.old.places.items }
{
    if Bound::at(T::SCALE, &s.width).is_below_some(row.places.as_slice()) {
        row.word = Word::Wide;
    }
}

/// The walk of a ray that has started, preparing each surface as it comes.
fn walk<T: Arith, L: Ledger>(s: &Setup, start: Ray<T>, steps: &mut Steps<L>, row: &mut Row)
    requires scale { T.SCALE ≤ 15 }
    requires well { IsWellFormed s.now }
    ensures word { row.new.word ≡ (goings.outcome_first T.ops T.SCALE T.member s.now start).word }
    ensures places { row.new.places.items
        ≡ (goings.outcome_first T.ops T.SCALE T.member s.now start).places }
    ensures sure { IsSureFrom T.ops T.SCALE T.member s.now 1 start }
    ensures rises { steps.old ≤ steps.new }
    ensures ticks { steps.new ≤ steps.old + values.image s.now }
{
    empty(Word::Passes, row);
    let mut ray = start;
    for j in 1..s.lens.surfaces.len() as u32 {
        let face = kept(face::<T, L>(s, j, steps));
        match pass(s, j, &face, &ray, row) {
            Going::On(next) => ray = next,
            Going::Image => {}
            Going::Ended(word) => {
                row.word = word;
                return;
            }
        }
    }
    end_at_image::<T>(s, row);
}

/// The word and the places of a ray at T's scale, in a row whose scale isn't set.
fn outcome<T: Arith, L: Ledger>(s: &Setup, q: &Launch, steps: &mut Steps<L>, row: &mut Row)
    requires scale { T.SCALE ≤ 15 }
    requires well { IsWellFormed s.now }
    ensures word { row.new.word ≡ (outcome_at T.ops T.SCALE s.now q.now).word }
    ensures places { row.new.places.items ≡ (outcome_at T.ops T.SCALE s.now q.now).places }
    ensures encloses { RowHolds s.now q.now
        (record { scale = T.SCALE; word = row.new.word; places = row.new.places }) }
    ensures rises { steps.old ≤ steps.new }
    ensures ticks { steps.new ≤ steps.old + values.image s.now }
{
    match start::<T>(s, q) {
        Step::Val(ray) => walk(s, ray, steps, row),
        Step::Empty => empty(Word::Lost(1, Why::Root), row),
        Step::Lost(why) => empty(Word::Lost(1, why), row),
    }
}

/// The outcome of a ray at T's scale: its word, and its places from surface 1 on. Each surface to
/// which the walk comes counts one step.
pub fn trace<T: Arith, L: Ledger>(
    s: &Setup,
    q: &Launch,
    steps: &mut Steps<L>,
) -> (Word, ArrayVec<Place, 64>)
    requires scale { T.SCALE ≤ 15 }
    requires well { IsWellFormed s.now }
    ensures exact { let out = outcome_at T.ops T.SCALE s.now q.now in result
        ≡ (out.word, record { items = out.places }) }
    ensures encloses { RowHolds s.now q.now
        (record { scale = T.SCALE; word = result.0; places = result.1 }) }
    ensures rises { steps.old ≤ steps.new }
    ensures ticks { steps.new ≤ steps.old + values.image s.now }
{
    let mut row = blank();
    outcome::<T, L>(s, q, steps, &mut row);
    (row.word, row.places)
}
