//! Surfaces prepared at the four scales, in one kind of arithmetic.

ghost use Rattle.std.specs.Prelude.{◌≡◌, ◌+◌, ◌*◌, ◌≤◌, IfOk};
ghost use Rattle.ladder.specs.Climbs.{climb};
ghost use Rattle.ladder.specs.Room.{HasNone, HasRoom};
ghost use Rattle.lensmodel.specs.Claims.RowClaims.{RowHolds};
ghost use Rattle.lensmodel.specs.Rows.Outcome.{outcome_at};
ghost use Rattle.lensmodel.specs.Setup.Values as values;
ghost use Rattle.lensmodel.specs.Setup.WellFormed.{IsWellFormed};
ghost use Rattle.skewtrace.specs.Filled.{all_faces};

use crate::kept::{is_definite, is_lost};
use crate::scale::at_scale;
use enclose::arith::Arith;
use lensmodel::launch::Launch;
use lensmodel::row::Row;
use lensmodel::setup::Setup;
use sagform::steps::Steps;
use skewtrace::prepared::{PrepFull, Prepared};
use std::alloc::Global;
use std::sync::ledger::Ledger;

/// The surfaces of a lens at the four scales, each in an arithmetic of its own.
#[derive(Drop)]
pub(crate) struct Rungs<A: Arith, B: Arith, C: Arith, D: Arith> {
    pub(crate) six: Prepared<A>,
    pub(crate) nine: Prepared<B>,
    pub(crate) twelve: Prepared<C>,
    pub(crate) fifteen: Prepared<D>,
}

impl<A: Arith, B: Arith, C: Arith, D: Arith> Rungs<A, B, C, D> {
    /// Room for 64 surfaces at each scale, with none prepared.
    pub(crate) fn room(alloc: Global) -> Result<Rungs<A, B, C, D>, PrepFull>
        ensures room { IfOk result (λ r. HasRoom r) }
        ensures none { IfOk result (λ r. HasNone r) }
    {
        Ok(Rungs {
            six: Prepared::room(alloc)?,
            nine: Prepared::room(alloc)?,
            twelve: Prepared::room(alloc)?,
            fifteen: Prepared::room(alloc)?,
        })
    }

    /// Prepares the surfaces of a lens at each scale.
    pub(crate) fn fill<L: Ledger>(&mut self, s: &Setup, steps: &mut Steps<L>)
        requires six { A.SCALE ≤ 15 }
        requires nine { B.SCALE ≤ 15 }
        requires twelve { C.SCALE ≤ 15 }
        requires fifteen { D.SCALE ≤ 15 }
        requires well { IsWellFormed s.now }
        requires room { HasRoom self.old }
        ensures six { self.new.six.list ≡ all_faces A.ops A.SCALE s.now }
        ensures nine { self.new.nine.list ≡ all_faces B.ops B.SCALE s.now }
        ensures twelve { self.new.twelve.list ≡ all_faces C.ops C.SCALE s.now }
        ensures fifteen { self.new.fifteen.list ≡ all_faces D.ops D.SCALE s.now }
        ensures ticks { steps.new ≡ steps.old + 4 * values.image s.now }
        ensures room { HasRoom self.new }
    {
        macro_rules! fill {
            ($scale:literal, $at:ident) => {
                self.$at.fill(s, steps);
            };
        }
        at_scale!(fill);
    }

    /// Writes the row of a ray, over surfaces that were prepared for the lens, in place of a row that the
    /// caller has.
    pub(crate) fn row_into(&self, s: &Setup, q: &Launch, row: &mut Row)
        requires six { A.SCALE ≡ 6 }
        requires nine { B.SCALE ≡ 9 }
        requires twelve { C.SCALE ≡ 12 }
        requires fifteen { D.SCALE ≡ 15 }
        requires well { IsWellFormed s.now }
        requires filled_six { self.now.six.list ≡ all_faces A.ops A.SCALE s.now }
        requires filled_nine { self.now.nine.list ≡ all_faces B.ops B.SCALE s.now }
        requires filled_twelve { self.now.twelve.list ≡ all_faces C.ops C.SCALE s.now }
        requires filled_fifteen { self.now.fifteen.list ≡ all_faces D.ops D.SCALE s.now }
        ensures exact { row.new ≡ climb
            (outcome_at A.ops A.SCALE s.now q.now) (outcome_at B.ops B.SCALE s.now q.now)
            (outcome_at C.ops C.SCALE s.now q.now) (outcome_at D.ops D.SCALE s.now q.now) }
        ensures encloses { RowHolds s.now q.now row.new }
    {
        self.six.trace_into(s, q, row);
        if is_definite(&row.word) {
            return;
        }
        let lost_at_six = is_lost(&row.word);
        self.nine.trace_into(s, q, row);
        if is_definite(&row.word) {
            return;
        }
        let lost_at_nine = is_lost(&row.word);
        self.twelve.trace_into(s, q, row);
        if is_definite(&row.word) {
            return;
        }
        let lost_at_twelve = is_lost(&row.word);
        self.fifteen.trace_into(s, q, row);
        if !is_lost(&row.word) {
            return;
        }
        if !lost_at_twelve {
            return self.twelve.trace_into(s, q, row);
        }
        if !lost_at_nine {
            return self.nine.trace_into(s, q, row);
        }
        if !lost_at_six {
            return self.six.trace_into(s, q, row);
        }
    }
}
