//! The row of one ray, without memory.

ghost use Rattle.std.specs.Prelude.{◌≡◌, ◌+◌, ◌*◌, ◌≤◌};
ghost use Rattle.fixdec.specs.Form.{linear_operations};
ghost use Rattle.fixdec.specs.IntervalOperations.{operations};
ghost use Rattle.ladder.specs.Climbs.{climb_by};
ghost use Rattle.lensmodel.specs.Claims.RowClaims.{RowHolds};
ghost use Rattle.lensmodel.specs.Rows.Ray as ray;
ghost use Rattle.lensmodel.specs.Setup.Values as values;
ghost use Rattle.lensmodel.specs.Setup.WellFormed.{IsWellFormed};

use crate::kept::{last, rung};
use crate::scale::at_scale;
use enclose::iv::Iv;
use forms::form::Form;
use lensmodel::launch::Launch;
use lensmodel::row::Row;
use lensmodel::setup::Setup;
use sagform::steps::Steps;
use skewtrace::trace::trace;
use std::sync::ledger::Ledger;

/// The row of a ray in intervals.
fn by_intervals<L: Ledger>(s: &Setup, q: &Launch, steps: &mut Steps<L>) -> Row
    requires { IsWellFormed s.now }
    ensures exact { result ≡ climb_by operations s.now q.now }
    ensures encloses { RowHolds s.now q.now result }
    ensures rises { steps.old ≤ steps.new }
    ensures ticks { steps.new ≤ steps.old + 4 * values.image s.now }
{
    let mut kept = None;
    macro_rules! climb {
        ($scale:literal, $at:ident) => {
            rung!(kept, $scale, trace::<Iv<$scale>, L>(s, q, steps));
        };
    }
    at_scale!(climb);
    last(kept)
}

/// The row of a ray in linear forms.
fn by_forms<L: Ledger>(s: &Setup, q: &Launch, steps: &mut Steps<L>) -> Row
    requires { IsWellFormed s.now }
    ensures exact { result ≡ climb_by linear_operations s.now q.now }
    ensures encloses { RowHolds s.now q.now result }
    ensures rises { steps.old ≤ steps.new }
    ensures ticks { steps.new ≤ steps.old + 4 * values.image s.now }
{
    let mut kept = None;
    macro_rules! climb {
        ($scale:literal, $at:ident) => {
            rung!(kept, $scale, trace::<Form<$scale>, L>(s, q, steps));
        };
    }
    at_scale!(climb);
    last(kept)
}

/// The row of a ray: the outcome at the least scale that is definite; else at the greatest that isn't
/// lost; else at the greatest. In intervals where there is no box, and in linear forms where there is.
/// Each scale that is tried prepares the surfaces to which the ray comes there.
pub fn row<L: Ledger>(s: &Setup, q: &Launch, steps: &mut Steps<L>) -> Row
    requires { IsWellFormed s.now }
    ensures exact { result ≡ ray.row s.now q.now }
    // Every chain lies in the places, and the word holds of every chain.
    ensures encloses { RowHolds s.now q.now result }
    ensures rises { steps.old ≤ steps.new }
    ensures ticks { steps.new ≤ steps.old + 4 * values.image s.now }
{
    match s.toler {
        None => by_intervals(s, q, steps),
        Some(_) => by_forms(s, q, steps),
    }
}
