//! Surfaces that are prepared once for many rays.

ghost use Rattle.std.specs.Prelude.{◌≡◌, ◌+◌, ◌≤◌, ◌++◌, [], map, length, vec_len, vec_capacity, IfOk};
ghost use Rattle.lensmodel.specs.Claims.RowClaims.{RowHolds};
ghost use Rattle.lensmodel.specs.Rows.Outcome.{outcome_at};
ghost use Rattle.lensmodel.specs.Setup.Values as values;
ghost use Rattle.lensmodel.specs.Setup.WellFormed.{IsWellFormed};
ghost use Rattle.skewtrace.specs.Enclosing.{IsSureFrom};
ghost use Rattle.skewtrace.specs.Filled as filled;
ghost use Rattle.skewtrace.specs.Goings as goings;
ghost use Rattle.skewtrace.specs.Readies.{step_of};

use crate::going::Going;
use crate::place::empty;
use crate::ready::{Ready, kept};
use crate::start::start;
use crate::trace::{blank, end_at_image};
use crate::turn::pass;
use arrayvec::ArrayVec;
use enclose::arith::Arith;
use fixdec::step::{Step, Why};
use lensmodel::launch::Launch;
use lensmodel::row::{Place, Row, Word};
use lensmodel::setup::Setup;
use sagform::prepare::face;
use sagform::ray::Ray;
use sagform::steps::Steps;
use std::alloc::Global;
use std::marker::Model;
use std::sync::ledger::Ledger;

/// Memory was wanting for the room of prepared surfaces. No clause says when it comes.
#[derive(Clone, Copy, Debug, PartialEq, Eq)]
pub struct PrepFull;

/// The surfaces of a lens from 1 to the image, prepared in T's arithmetic. Contracts see the
/// preparations, and for how many more there is room.
#[derive(Drop)]
pub struct Prepared<T: Arith> {
    faces: Vec<Ready<T>>,
}

impl<T: Arith> Model for Prepared<T> {
    ghost use Rattle.std.specs.Prelude.{◌-◌, map, vec_len, vec_capacity};
    ghost use Rattle.skewtrace.specs.Filled.{Faces};
    ghost use Rattle.skewtrace.specs.Readies.{step_of};

    ghost Value = { Faces T };

    ghost view = { λ p. record {
      list = map step_of p.faces.items;
      spare = vec_capacity p.faces - vec_len p.faces;
    } };
}

/// Prepares all surfaces, each once, into room that is there.
fn prepare<T: Arith, L: Ledger>(s: &Setup, faces: &mut Vec<Ready<T>>, steps: &mut Steps<L>)
    requires scale { T.SCALE ≤ 15 }
    requires well { IsWellFormed s.now }
    requires empty { faces.old.items ≡ [] }
    requires room { 64 ≤ vec_capacity faces.old }
    ensures list { map step_of faces.new.items ≡ filled.all_faces T.ops T.SCALE s.now }
    ensures ticks { steps.new ≡ steps.old + values.image s.now }
    ensures capacity { vec_capacity faces.new ≡ vec_capacity faces.old }
{
    for j in 1..s.lens.surfaces.len() as u32 {
        let face = kept(face::<T, L>(s, j, steps));
        let _ = faces.insert(faces.len(), face);
    }
}

/// The walk of a ray that has started, over prepared surfaces.
fn walk<T: Arith>(s: &Setup, faces: &[Ready<T>], start: Ray<T>, row: &mut Row)
    requires scale { T.SCALE ≤ 15 }
    requires well { IsWellFormed s.now }
    requires filled { map step_of faces.now ≡ filled.all_faces T.ops T.SCALE s.now }
    ensures word { row.new.word ≡ (goings.outcome_first T.ops T.SCALE T.member s.now start).word }
    ensures places { row.new.places.items
        ≡ (goings.outcome_first T.ops T.SCALE T.member s.now start).places }
    ensures sure { IsSureFrom T.ops T.SCALE T.member s.now 1 start }
{
    empty(Word::Passes, row);
    let mut ray = start;
    for j in 1..s.lens.surfaces.len() as u32 {
        let face = &faces[j as usize - 1];
        match pass(s, j, face, &ray, row) {
            Going::On(next) => ray = next,
            Going::Image => {}
            Going::Ended(word) => {
                row.word = word;
                return;
            }
        }
    }
    end_at_image::<T>(s, row);
}

impl<T: Arith> Prepared<T> {
    /// Room for 64 surfaces, with none prepared.
    pub fn room(alloc: Global) -> Result<Prepared<T>, PrepFull>
        ensures list { IfOk result (λ p. p.list ≡ []) }
        ensures spare { IfOk result (λ p. 64 ≤ p.spare) }
    {
        match Vec::with_capacity(alloc, 64) {
            Ok(faces) => Ok(Prepared { faces }),
            Err(_) => Err(PrepFull),
        }
    }

    /// Prepares the surfaces of a lens in place of those that are there. Each counts one step. No
    /// memory is taken.
    pub fn fill<L: Ledger>(&mut self, s: &Setup, steps: &mut Steps<L>)
        requires scale { T.SCALE ≤ 15 }
        requires well { IsWellFormed s.now }
        requires room { 64 ≤ self.old.spare + length self.old.list }
        ensures list { self.new.list ≡ filled.all_faces T.ops T.SCALE s.now }
        ensures ticks { steps.new ≡ steps.old + values.image s.now }
        ensures room { self.new.spare + length self.new.list ≡ self.old.spare
            + length self.old.list }
    {
        self.faces.clear();
        prepare(s, &mut self.faces, steps);
    }

    /// The outcome of a ray at T's scale, over surfaces that were prepared for the lens: its word, and
    /// its places from surface 1 on.
    pub fn trace(&self, s: &Setup, q: &Launch) -> (Word, ArrayVec<Place, 64>)
        requires scale { T.SCALE ≤ 15 }
        requires well { IsWellFormed s.now }
        requires filled { self.now.list ≡ filled.all_faces T.ops T.SCALE s.now }
        ensures exact { let out = outcome_at T.ops T.SCALE s.now q.now in result
            ≡ (out.word, record { items = out.places }) }
        // Every chain lies in the places, and the word holds of every chain.
        ensures encloses { RowHolds s.now q.now
            (record { scale = T.SCALE; word = result.0; places = result.1 }) }
    {
        let mut row = blank();
        self.outcome(s, q, &mut row);
        (row.word, row.places)
    }

    /// The same outcome, written in place of a row that the caller has, with T's scale.
    pub fn trace_into(&self, s: &Setup, q: &Launch, row: &mut Row)
        requires scale { T.SCALE ≤ 15 }
        requires well { IsWellFormed s.now }
        requires filled { self.now.list ≡ filled.all_faces T.ops T.SCALE s.now }
        ensures scale { row.new.scale ≡ T.SCALE }
        ensures word { row.new.word ≡ (outcome_at T.ops T.SCALE s.now q.now).word }
        ensures places { row.new.places.items ≡ (outcome_at T.ops T.SCALE s.now q.now).places }
        ensures encloses { RowHolds s.now q.now row.new }
    {
        self.outcome(s, q, row);
        row.scale = T::SCALE;
    }

    /// The word and the places of a ray, in a row whose scale isn't set.
    fn outcome(&self, s: &Setup, q: &Launch, row: &mut Row)
        requires scale { T.SCALE ≤ 15 }
        requires well { IsWellFormed s.now }
        requires filled { self.now.list ≡ filled.all_faces T.ops T.SCALE s.now }
        ensures word { row.new.word ≡ (outcome_at T.ops T.SCALE s.now q.now).word }
        ensures places { row.new.places.items ≡ (outcome_at T.ops T.SCALE s.now q.now).places }
        ensures encloses { RowHolds s.now q.now
            (record { scale = T.SCALE; word = row.new.word; places = row.new.places }) }
    {
        match start::<T>(s, q) {
            Step::Val(ray) => walk(s, self.faces.as_slice(), ray, row),
            Step::Empty => empty(Word::Lost(1, Why::Root), row),
            Step::Lost(why) => empty(Word::Lost(1, why), row),
        }
    }
}
