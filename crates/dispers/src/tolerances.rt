//! Where tolerances stand, and the intervals that they widen.

ghost use Rattle.std.specs.Prelude.{◌≡◌, ◌<◌, ◌≤◌, length, IsTrue};
ghost use Rattle.std.specs.List.{All};
ghost use Rattle.fixdec.specs.IntervalOperations.{operations};
ghost use Rattle.lensmodel.specs.Rows.Preparation as rows;
ghost use Rattle.lensmodel.specs.Setup.Media as media;
ghost use Rattle.lensmodel.specs.Setup.Ranges.{is_not_negative};
ghost use Rattle.lensmodel.specs.Setup.Values as values;
ghost use Rattle.sagform.specs.Deviations.{symbol_row};

use enclose::arith::Arith;
use enclose::iv::Iv;
use exactdec::scale;
use fixdec::dec::Dec;
use fixdec::step::Step;
use fixdec::val;
use lensmodel::tolerance::{Tol, TolBox, TolKind};

/// The tolerances of a box: none without a box.
pub(crate) fn tolerances(toler: &Option<TolBox>) -> &[Tol]
    ensures { result.now ≡ values.tolerances toler.now }
{
    match toler {
        Some(list) => list.list.as_slice(),
        None => &[],
    }
}

/// Whether a tolerance stands on this value of surface `j`.
fn stands_on(kind: TolKind, j: u32, t: &Tol) -> bool
    ensures { result ≡ values.stands_on kind j t.now }
{
    t.kind == kind && t.surface == j
}

/// Whether a tolerance stands on the index behind surface `j`.
pub(crate) fn has_index_tolerance(list: &[Tol], j: u32) -> bool
    ensures { result ≡ media.has_tolerance list.now TolKind.Indx j }
{
    for t in list {
        if stands_on(TolKind::Indx, j, t) {
            return true;
        }
    }
    false
}

/// An interval with symbol `i`, whose tolerance is `delta`.
fn deviated(v: Iv<12>, i: usize, delta: &Dec) -> Step<Iv<12>>
    requires index { i < 32 }
    requires sign { IsTrue (is_not_negative delta.now) }
    ensures { result ≡ symbol_row (operations 12) 12 v i delta.now }
{
    let span = val!(scale::span(delta, 12));
    v.symbol(i, span)
}

/// The index behind surface `j` with the symbol of its tolerance, where it has one.
pub(crate) fn with_index_tolerance(list: &[Tol], j: u32, v: Iv<12>) -> Step<Iv<12>>
    requires count { length list.now ≤ 32 }
    requires signs { All (λ t. IsTrue (is_not_negative t.delta)) list.now }
    ensures { result ≡ rows.with_symbol_from (operations 12) 12 0 list.now TolKind.Indx j v }
{
    for (i, t) in list.iter().enumerate() {
        if stands_on(TolKind::Indx, j, t) {
            return deviated(v, i, &t.delta);
        }
    }
    Step::Val(v)
}
