//! What a walk does at one surface.

ghost use Rattle.std.specs.Prelude.{◌≡◌, None, false, nat_eq, suc, ◌-◌, ◌<◌, ◌≤◌, ◌++◌, length};
ghost use Rattle.lensmodel.specs.Rows.Hit as hits;
ghost use Rattle.lensmodel.specs.Rows.Outcome.{places_of};
ghost use Rattle.lensmodel.specs.Rows.Preparation as preparation;
ghost use Rattle.lensmodel.specs.Setup.Values as values;
ghost use Rattle.lensmodel.specs.Setup.WellFormed.{IsWellFormed};
ghost use Rattle.lensmodel.specs.declared.setup.Setup.{Setup};
ghost use Rattle.skewtrace.specs.Enclosing as enclosing;
ghost use Rattle.skewtrace.specs.Goings as goings;
ghost use Rattle.skewtrace.specs.Readies.{step_of};
ghost use Rattle.skewtrace.specs.Turns as turns;
ghost use Rattle.skewtrace.specs.Words.{noted_all};

use crate::departure::departure;
use crate::going::Going;
use crate::place::{add, heading_of, hull_if, is_clipped};
use crate::ready::Ready;
use enclose::arith::Arith;
use fixdec::span::Span;
use fixdec::step::{Step, Why};
use hitsolve::hit::hit;
use lensmodel::row::{Row, Word};
use lensmodel::setup::Setup;
use sagform::constant::residual_units;
use sagform::face::Face;
use sagform::ray::{Dir, Hit, Ray};

/// The ray that leaves a point in a direction.
fn leaving<T: Arith>(h: &Hit<T>, d: &Dir<T>) -> Ray<T>
    ensures { result ≡ record {
      x = h.now.x;
      y = h.now.y;
      z = h.now.z;
      l = d.now.l;
      m = d.now.m;
      n
          = d.now.n;
      path = h.now.path;
    } }
{
    Ray {
        x: h.x,
        y: h.y,
        z: h.z,
        l: d.l,
        m: d.m,
        n: d.n,
        path: h.path,
    }
}

/// What follows the bending phase of surface `j`.
fn leave<T: Arith>(
    j: u32,
    h: &Hit<T>,
    rim2: Option<Span>,
    d: Step<Dir<T>>,
    row: &mut Row,
) -> Going<T>
    requires scale { T.SCALE ≤ 15 }
    requires room { length row.old.places.items < 64 }
    ensures going { (s : Setup)
        → result ≡ goings.going_of (turns.turn_left T.ops T.SCALE s j h.now rim2 d) }
    ensures word { (s : Setup)
        → row.new.word ≡ goings.word_after row.old j
        (turns.turn_left T.ops T.SCALE s j h.now rim2 d) }
    ensures places { (s : Setup)
        → row.new.places.items
        ≡ goings.places_after row.old (turns.turn_left T.ops T.SCALE s j h.now rim2 d) }
    ensures count { length row.new.places.items ≤ suc (length row.old.places.items) }
{
    match d {
        Step::Val(d) => {
            add(row, j, h, Some(heading_of(&d)), rim2);
            Going::On(leaving(h, &d))
        }
        Step::Empty => {
            add(row, j, h, None, rim2);
            Going::Ended(Word::Tir(j))
        }
        Step::Lost(why) => {
            add(row, j, h, None, rim2);
            Going::Ended(Word::Lost(j, why))
        }
    }
}

/// What follows the point on surface `j`: the rim, the image, or the bending phase.
fn at_rim<T: Arith>(
    s: &Setup,
    j: u32,
    f: &Face<T>,
    r: &Ray<T>,
    h: &Hit<T>,
    rim2: Option<Span>,
    row: &mut Row,
) -> Going<T>
    requires scale { T.SCALE ≤ 15 }
    requires well { IsWellFormed s.now }
    requires low { 1 ≤ j }
    requires high { j ≤ values.image s.now }
    requires room { length row.old.places.items < 64 }
    ensures going { result
        ≡ goings.going_of (turns.turn_at_rim T.ops T.SCALE s.now j f.now r.now h.now rim2) }
    ensures word { row.new.word
        ≡ goings.word_after row.old j
        (turns.turn_at_rim T.ops T.SCALE s.now j f.now r.now h.now rim2) }
    ensures places { row.new.places.items
        ≡ goings.places_after row.old
        (turns.turn_at_rim T.ops T.SCALE s.now j f.now r.now h.now rim2) }
    ensures count { length row.new.places.items ≤ suc (length row.old.places.items) }
    ensures sure { enclosing.LeavesSurely T.ops T.SCALE T.member s.now j f.now r.now h.now rim2 }
{
    if is_clipped(h.rho.hull(), &rim2) {
        add(row, j, h, None, rim2);
        return Going::Ended(Word::Vignetted(j));
    }
    if j as usize == s.lens.surfaces.len() - 1 {
        add(row, j, h, None, rim2);
        return Going::Image;
    }
    leave(j, h, rim2, departure(s, j, f, r, h), row)
}

/// What follows the point on surface `j`, whose rim is that of the prepared surface.
fn meet<T: Arith>(s: &Setup, j: u32, f: &Face<T>, r: &Ray<T>, h: &Hit<T>, row: &mut Row) -> Going<T>
    requires scale { T.SCALE ≤ 15 }
    requires well { IsWellFormed s.now }
    requires low { 1 ≤ j }
    requires high { j ≤ values.image s.now }
    requires room { length row.old.places.items < 64 }
    ensures going { result
        ≡ goings.going_of (turns.met_turn T.ops T.SCALE s.now j f.now r.now h.now) }
    ensures word { row.new.word
        ≡ goings.word_after row.old j (turns.met_turn T.ops T.SCALE s.now j f.now r.now h.now) }
    ensures places { row.new.places.items
        ≡ goings.places_after row.old (turns.met_turn T.ops T.SCALE s.now j f.now r.now h.now) }
    ensures count { length row.new.places.items ≤ suc (length row.old.places.items) }
    ensures sure { enclosing.MeetsSurely T.ops T.SCALE T.member s.now j f.now r.now h.now }
{
    at_rim(s, j, f, r, h, hull_if(&f.rim2()), row)
}

/// The crossing phase of surface `j`, and what follows it.
fn cross<T: Arith>(s: &Setup, j: u32, f: &Face<T>, r: &Ray<T>, row: &mut Row) -> Going<T>
    requires scale { T.SCALE ≤ 15 }
    requires well { IsWellFormed s.now }
    requires low { 1 ≤ j }
    requires high { j ≤ values.image s.now }
    requires room { length row.old.places.items < 64 }
    ensures going { result ≡ goings.going_of (turns.cross_turn T.ops T.SCALE s.now j f.now r.now) }
    ensures word { row.new.word
        ≡ goings.word_after row.old j (turns.cross_turn T.ops T.SCALE s.now j f.now r.now) }
    ensures places { row.new.places.items
        ≡ goings.places_after row.old (turns.cross_turn T.ops T.SCALE s.now j f.now r.now) }
    ensures count { length row.new.places.items ≤ suc (length row.old.places.items) }
    ensures sure { enclosing.MovesSurely T.ops T.SCALE T.member s.now j f.now r.now }
{
    match hit(f, r, residual_units(T::SCALE, s.res)) {
        Step::Val(h) => meet(s, j, f, r, &h, row),
        Step::Empty => Going::Ended(Word::Outside(j)),
        Step::Lost(why) => Going::Ended(Word::Lost(j, why)),
    }
}

/// What follows the preparation of surface `j`.
#[tactic(auto, unfolding(crate::specs::Turns::turn, crate::specs::Enclosing::TurnsSurely))]
fn turn<T: Arith>(s: &Setup, j: u32, ready: &Ready<T>, r: &Ray<T>, row: &mut Row) -> Going<T>
    requires scale { T.SCALE ≤ 15 }
    requires well { IsWellFormed s.now }
    requires low { 1 ≤ j }
    requires high { j ≤ values.image s.now }
    requires room { length row.old.places.items < 64 }
    ensures going { result
        ≡ goings.going_of (turns.turn T.ops T.SCALE s.now j (step_of ready.now) r.now) }
    ensures word { row.new.word
        ≡ goings.word_after row.old j (turns.turn T.ops T.SCALE s.now j (step_of ready.now) r.now) }
    ensures places { row.new.places.items
        ≡ goings.places_after row.old (turns.turn T.ops T.SCALE s.now j (step_of ready.now) r.now) }
    ensures count { length row.new.places.items ≤ suc (length row.old.places.items) }
    ensures sure { enclosing.TurnsSurely T.ops T.SCALE T.member s.now j (step_of ready.now) r.now }
{
    match ready {
        Ready::Face(f) => cross(s, j, f, r, row),
        Ready::Empty => Going::Ended(Word::Lost(j, Why::Root)),
        Ready::Lost(why) => Going::Ended(Word::Lost(j, *why)),
    }
}

/// What a walk does at surface `j`, and how it goes on.
pub(crate) fn pass<T: Arith>(
    s: &Setup,
    j: u32,
    ready: &Ready<T>,
    r: &Ray<T>,
    row: &mut Row,
) -> Going<T>
    requires scale { T.SCALE ≤ 15 }
    requires well { IsWellFormed s.now }
    requires low { 1 ≤ j }
    requires high { j ≤ values.image s.now }
    requires room { length row.old.places.items < 64 }
    requires ready { step_of ready.now ≡ turns.prepared_at T.ops T.SCALE s.now j }
    ensures on { goings.GoesOnBy T.ops T.SCALE T.member s.now j r.now row.old result row.new }
    ensures count { length row.new.places.items ≤ suc (length row.old.places.items) }
{
    turn(s, j, ready, r, row)
}
