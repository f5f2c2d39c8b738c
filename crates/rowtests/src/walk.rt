//! The walk of a ray, phase by phase.

ghost use Rattle.std.specs.Prelude.{◌≡◌, ◌<◌, ◌≤◌, IsTrue};
ghost use Rattle.std.specs.List.{All};
ghost use Rattle.lensmodel.specs.Setup.Ranges.{is_ask};
ghost use Rattle.lensmodel.specs.Setup.Values as values;
ghost use Rattle.lensmodel.specs.Setup.WellFormed.{IsWellFormed};

use crate::files::{Texts, joined};
use crate::values::{push_direction, push_point};
use enclose::arith::Arith;
use fixdec::step::Step;
use hitsolve::hit::hit;
use lensmodel::job::Ask;
use lensmodel::launch::Launch;
use lensmodel::setup::Setup;
use refract::bend::bend;
use sagform::constant::residual_units;
use sagform::prepare::face;
use sagform::ray::{Dir, Hit, Ray};
use sagform::steps::Steps;
use skewtrace::start::start;
use spotfan::launch::{count, launch};
use std::alloc::Global;
use std::marker::Brand;
use std::sync::ledger::{Blank, Ledger};
use std::test::Fail;

/// The ray that leaves a point in a direction.
fn leaving<T: Arith>(h: &Hit<T>, d: &Dir<T>) -> Ray<T> {
    Ray {
        x: h.x,
        y: h.y,
        z: h.z,
        l: d.l,
        m: d.m,
        n: d.n,
        path: h.path,
    }
}

/// Appends what a ray does at surface `j`, and gives it as it goes on; none where it ends there.
fn turn<T: Arith, L: Ledger>(
    alloc: Global,
    s: &Setup,
    j: u32,
    r: &Ray<T>,
    steps: &mut Steps<L>,
    out: &mut String,
) -> Result<Option<Ray<T>>, Fail>
    requires scale { T.SCALE ≤ 15 }
    requires well { IsWellFormed s.now }
    requires low { 1 ≤ j }
    requires high { j ≤ values.image s.now }
{
    let e = residual_units(T::SCALE, s.res);
    let Step::Val(f) = face::<T, L>(s, j, steps) else {
        return Ok(None);
    };
    let Step::Val(h) = hit(&f, r, e) else {
        return Ok(None);
    };
    push_point(alloc, j, &f, &h, e, out)?;
    if j as usize + 1 == s.lens.surfaces.len() {
        return Ok(None);
    }
    let Step::Val(d) = bend(&f, r, &h, e) else {
        return Ok(None);
    };
    push_direction(alloc, j, &d, out)?;
    Ok(Some(leaving(&h, &d)))
}

/// Appends what a ray does at each surface, up to the image or to where it ends.
fn walk<T: Arith, L: Ledger>(
    alloc: Global,
    s: &Setup,
    q: &Launch,
    steps: &mut Steps<L>,
    out: &mut String,
) -> Result<(), Fail>
    requires scale { T.SCALE ≤ 15 }
    requires well { IsWellFormed s.now }
{
    let Step::Val(mut r) = start::<T>(s, q) else {
        return Ok(());
    };
    for j in 1..s.lens.surfaces.len() as u32 {
        match turn::<T, L>(alloc, s, j, &r, steps, out)? {
            Some(next) => r = next,
            None => return Ok(()),
        }
    }
    Ok(())
}

/// Appends what the rays of a line of a job do.
fn walk_all<T: Arith, L: Ledger>(
    alloc: Global,
    s: &Setup,
    ask: &Ask,
    steps: &mut Steps<L>,
    out: &mut String,
) -> Result<(), Fail>
    requires scale { T.SCALE ≤ 15 }
    requires well { IsWellFormed s.now }
    requires ask { IsTrue (is_ask ask.now) }
{
    for k in 0..count(ask) {
        walk::<T, L>(alloc, s, &launch(ask, k), steps, out)?;
    }
    Ok(())
}

/// What the rays of these texts do.
fn walked_by<T: Arith, L: Ledger>(
    alloc: Global,
    texts: &Texts,
    blank: Blank,
) -> Result<String, Fail>
    requires scale { T.SCALE ≤ 15 }
    requires name { blank.name ≡ L.name }
    requires parts { blank.parts ≡ L.parts }
    requires some { 0 < L.parts }
{
    let mut steps = Steps::<L>::start(blank);
    let mut out = String::new(alloc);
    let (setup, job) = joined(alloc, texts).ok_or("a text is refused")?;
    for ask in job.asks.as_slice() {
        walk_all::<T, L>(alloc, &setup, ask, &mut steps, &mut out)?;
    }
    Ok(out)
}

/// The same over a ledger of its own.
pub(crate) fn walked<T: Arith>(alloc: Global, texts: &Texts) -> Result<String, Fail>
    requires { T.SCALE ≤ 15 }
{
    walked_by::<T, Brand>(alloc, texts, Blank::new(1))
}
