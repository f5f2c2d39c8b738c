//! Surfaces that are prepared once for many rows.

ghost use Rattle.std.specs.Prelude.{◌≡◌, ◌+◌, ◌*◌, IfOk};
ghost use Rattle.ladder.specs.Benches.{IsFilledFor, IsOtherKept};
ghost use Rattle.ladder.specs.Room.{HasNone};
ghost use Rattle.lensmodel.specs.Claims.RowClaims.{RowHolds};
ghost use Rattle.lensmodel.specs.Rows.Ray as ray;
ghost use Rattle.lensmodel.specs.Setup.Values as values;
ghost use Rattle.lensmodel.specs.Setup.WellFormed.{IsWellFormed};

use crate::rungs::Rungs;
use enclose::iv::Iv;
use forms::form::Form;
use lensmodel::launch::Launch;
use lensmodel::row::Row;
use lensmodel::setup::Setup;
use sagform::steps::Steps;
use skewtrace::prepared::PrepFull;
use skewtrace::trace::blank;
use std::alloc::Global;
use std::marker::Model;
use std::sync::ledger::Ledger;

/// The surfaces of a lens at the scales 6, 9, 12 and 15: prepared in intervals where there is no box,
/// and in linear forms where there is one. Contracts see both kinds.
#[derive(Drop)]
pub struct Bench {
    intervals: Rungs<Iv<6>, Iv<9>, Iv<12>, Iv<15>>,
    forms: Rungs<Form<6>, Form<9>, Form<12>, Form<15>>,
}

impl Model for Bench {
    ghost use Rattle.ladder.specs.Kinds.{Kinds};
    ghost use Rattle.ladder.specs.Room.{HasRoom};

    ghost Value = { Kinds };

    ghost view = { λ b. record { intervals = b.intervals; forms = b.forms } };

    ghost invariant = { λ b. HasRoom b.intervals × HasRoom b.forms };
}

impl Bench {
    /// Room for 64 surfaces at each scale, with none prepared.
    pub fn room(alloc: Global) -> Result<Bench, PrepFull>
        ensures intervals { IfOk result (λ b. HasNone b.intervals) }
        ensures forms { IfOk result (λ b. HasNone b.forms) }
    {
        Ok(Bench {
            intervals: Rungs::room(alloc)?,
            forms: Rungs::room(alloc)?,
        })
    }

    /// Prepares the surfaces of a lens at each scale, in place of those that are there. Each counts one
    /// step at each scale. No memory is taken, and the kind that the lens doesn't need stays as it was.
    pub fn fill<L: Ledger>(&mut self, s: &Setup, steps: &mut Steps<L>)
        requires { IsWellFormed s.now }
        ensures filled { IsFilledFor s.now self.new }
        ensures other { IsOtherKept s.now self.old self.new }
        ensures ticks { steps.new ≡ steps.old + 4 * values.image s.now }
    {
        match s.toler {
            None => self.intervals.fill(s, steps),
            Some(_) => self.forms.fill(s, steps),
        }
    }

    /// The row of a ray, over surfaces that were prepared for the lens: the outcome at the least scale
    /// that is definite; else at the greatest that isn't lost; else at the greatest.
    pub fn row(&self, s: &Setup, q: &Launch) -> Row
        requires well { IsWellFormed s.now }
        requires filled { IsFilledFor s.now self.now }
        ensures exact { result ≡ ray.row s.now q.now }
        // Every chain lies in the places, and the word holds of every chain.
        ensures encloses { RowHolds s.now q.now result }
    {
        let mut row = blank();
        self.row_into(s, q, &mut row);
        row
    }

    /// The same row, written in place of a row that the caller has: no row is copied.
    pub fn row_into(&self, s: &Setup, q: &Launch, row: &mut Row)
        requires well { IsWellFormed s.now }
        requires filled { IsFilledFor s.now self.now }
        ensures exact { row.new ≡ ray.row s.now q.now }
        ensures encloses { RowHolds s.now q.now row.new }
    {
        match s.toler {
            None => self.intervals.row_into(s, q, row),
            Some(_) => self.forms.row_into(s, q, row),
        }
    }
}
