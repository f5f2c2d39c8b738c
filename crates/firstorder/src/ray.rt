//! Paraxial rays through all surfaces before the image.

ghost use Rattle.std.specs.Prelude.{◌≡◌, ℕ, ℤ, pos, suc, ◌+◌, ◌*◌, ◌-◌, ◌<◌, ◌≤◌, ◌≤ℤ◌, ◌∷◌, [], List, length};
ghost use Rattle.enclose.specs.IvLaws.{iv_member};
ghost use Rattle.fixdec.specs.Ends.{InCap};
ghost use Rattle.fixdec.specs.IntervalOperations.{operations};
ghost use Rattle.firstorder.specs.Stepped as stepped;
ghost use Rattle.firstorder.specs.Tracks.{EnclosesTrack};
ghost use Rattle.firstorder.specs.Workings.{worked};
ghost use Rattle.lensmodel.specs.Paraxial.FirstOrderRows as rows;
ghost use Rattle.lensmodel.specs.Paraxial.Losses as losses;
ghost use Rattle.lensmodel.specs.Paraxial.TraceRows as trace;
ghost use Rattle.lensmodel.specs.Rows.Constants.{residual_units as units_of_residual, decimal_row};
ghost use Rattle.lensmodel.specs.Setup.Values as values;
ghost use Rattle.lensmodel.specs.Setup.WellFormed.{IsWellFormed};

use crate::surface::{height_from, signed_index, slope_from, vertex_curvature};
use crate::worked::{Worked, hull_of};
use arrayvec::ArrayVec;
use enclose::arith::Arith;
use enclose::iv::Iv;
use fixdec::dec::Dec;
use fixdec::span::Span;
use fixdec::step::Step;
use lensmodel::setup::Setup;
use sagform::constant::{decimal, residual_units};
use std::marker::Model;

/// A paraxial ray at one surface: how it arrives, and what the surface makes of it. The indices
/// carry the sign of travel.
#[derive(Clone, Copy, Debug)]
pub struct Passing<T> {
    /// The height with which the ray arrives, in lens units.
    pub y: Worked<T>,
    /// The slope with which the ray arrives.
    pub u: Worked<T>,
    /// The curvature at the vertex, with that of the first even term.
    pub cv: Worked<T>,
    /// The signed index before the surface.
    pub n: Worked<T>,
    /// The signed index behind the surface.
    pub n2: Worked<T>,
    /// The slope behind the surface.
    pub behind: Worked<T>,
    /// The height at the next surface, in lens units.
    pub next: Worked<T>,
}

impl<T> Model for Passing<T> {
    ghost use Rattle.lensmodel.specs.Paraxial.FirstOrderRows.{Passing as Passed};

    ghost Value = { Passed T };

    ghost use Rattle.firstorder.specs.Workings.{worked, kept, kept_worked};

    ghost view = { λ p. record {
      y = worked p.y;
      u = worked p.u;
      cv = worked p.cv;
      n = worked p.n;
      n2 = worked p.n2;
      behind = worked p.behind;
      next = worked p.next;
    } };

    ghost inverse = { λ p. record {
      y = kept p.y;
      u = kept p.u;
      cv = kept p.cv;
      n = kept p.n;
      n2 = kept p.n2;
      behind = kept p.behind;
      next = kept p.next;
    } };

    ghost inverse_ok = { λ a h. Prim.rw (
      kept_worked a.y,
      kept_worked a.u,
      kept_worked a.cv,
      kept_worked a.n,
      kept_worked a.n2,
      kept_worked a.behind,
      kept_worked a.next,
    ) };
}

impl<T> Default for Passing<T> {
    ghost use Rattle.std.specs.Prelude.{◌≡◌};
    ghost use Rattle.lensmodel.specs.Paraxial.FirstOrderRows.{nowhere};

    ghost is_default = { λ p. p ≡ nowhere };

    fn default() -> Passing<T> {
        Passing {
            y: Worked::default(),
            u: Worked::default(),
            cv: Worked::default(),
            n: Worked::default(),
            n2: Worked::default(),
            behind: Worked::default(),
            next: Worked::default(),
        }
    }
}

/// A paraxial ray at each surface from 1 to the one before the image, in this order.
#[derive(Drop)]
pub struct Track<const S: u32> {
    list: ArrayVec<Passing<Iv<S>>, 64>,
}

impl<const S: u32> Model for Track<S> {
    ghost use Rattle.std.specs.Prelude.{List};
    ghost use Rattle.fixdec.specs.Ends.{Ends};
    ghost use Rattle.lensmodel.specs.Paraxial.FirstOrderRows.{Passing as Passed};

    ghost Value = { List (Passed Ends) };

    ghost view = { λ t. t.list.items };
}

impl<const S: u32> Track<S> {
    /// The ray at its surfaces, from surface 1 on.
    pub fn as_slice(&self) -> &[Passing<Iv<S>>]
        ensures value { result.now ≡ self.now }
        ensures fits { length result.now ≤ 64 }
    {
        self.list.as_slice()
    }

    /// The ray at surface 1.
    pub(crate) fn first(&self) -> Passing<Iv<S>>
        requires { 0 < length self.now }
        ensures { result ≡ rows.first_of self.now }
    {
        self.list.as_slice()[0]
    }

    /// The ray at the surface before the image.
    pub(crate) fn last(&self) -> Passing<Iv<S>>
        requires { 0 < length self.now }
        ensures { result ≡ rows.last_of self.now }
    {
        let list = self.list.as_slice();
        list[list.len() - 1]
    }

    /// The height at surface `j`, from 1 to the image.
    pub(crate) fn height(&self, j: u32) -> Worked<Iv<S>>
        requires some { 0 < length self.now }
        requires low { 1 ≤ j }
        requires high { j ≤ length self.now + 1 }
        ensures { worked result ≡ rows.height_at j self.now }
    {
        let list = self.list.as_slice();
        let place = j as usize - 1;
        if place < list.len() {
            let here = &list[place];
            here.y
        } else {
            let last = self.last();
            last.next
        }
    }
}

/// Whether a row at a surface is lost because a number passed the cap.
fn is_by_range_at<T: Copy>(p: &Passing<T>) -> bool
    ensures { result ≡ losses.some_by_range (rows.rows_of (p.now ∷ [])) }
{
    p.y.is_by_range()
        || p.u.is_by_range()
        || p.cv.is_by_range()
        || p.n.is_by_range()
        || p.n2.is_by_range()
        || p.behind.is_by_range()
        || p.next.is_by_range()
}

impl<const S: u32> Track<S> {
    /// Whether a row of the ray is lost because a number passed the cap.
    pub fn is_by_range(&self) -> bool
        ensures { result ≡ losses.some_by_range (rows.rows_of self.now) }
    {
        let list = self.list.as_slice();
        for p in list {
            if is_by_range_at(p) {
                return true;
            }
        }
        false
    }

    /// The height and the slope behind at each surface from 1 on; the image's slope is the one that
    /// arrives.
    pub(crate) fn trail(&self) -> ArrayVec<(Step<Span>, Step<Span>), 64>
        requires scale { S ≤ 15 }
        requires some { 0 < length self.now }
        requires room { length self.now < 64 }
        ensures { result.items ≡ rows.trail_of (operations S).hull self.now }
    {
        let mut trail: ArrayVec<(Step<Span>, Step<Span>), 64> = ArrayVec::new();
        let list = self.list.as_slice();
        for p in list {
            trail.push((hull_of(p.y), hull_of(p.behind)));
        }
        let last = self.last();
        trail.push((hull_of(last.next), hull_of(last.behind)));
        trail
    }
}

/// The number of row `i` of ray `ray` at surface `j`, in the order of all rows.
pub(crate) fn row_number(j: u32, ray: u32, i: u32) -> u32
    requires surface { j ≤ 64 }
    requires ray { ray ≤ 2 }
    requires row { i ≤ 9 }
    ensures { result ≡ rows.ray_row j ray i }
{
    100 * j + 10 * ray + i
}

/// The slope behind a surface, from rows that may be lost.
fn slope_worked<T: Arith>(
    row: u32,
    y: Worked<T>,
    u: Worked<T>,
    cv: Worked<T>,
    n: Worked<T>,
    n2: Worked<T>,
    e: i128,
) -> Worked<T>
    requires scale { T.SCALE ≤ 15 }
    requires low { pos 0 ≤ℤ e }
    requires high { InCap e }
    ensures { worked result
        ≡ losses.row row (worked n ∷ worked u ∷ worked y ∷ worked cv ∷ worked n2 ∷ [])
        (stepped.slope_from T.ops T.SCALE (losses.to_step (worked y)) (losses.to_step (worked u))
        (losses.to_step (worked cv)) (losses.to_step (worked n)) (losses.to_step (worked n2)) e) }
{
    let answer = slope_from(y.step(), u.step(), cv.step(), n.step(), n2.step(), e);
    let needs = n.earlier(u).earlier(y).earlier(cv).earlier(n2);
    needs.needed(row, answer)
}

/// The height at the surface after `j`, from rows that may be lost.
fn height_worked<T: Arith>(
    s: &Setup,
    row: u32,
    j: u32,
    y: Worked<T>,
    u: Worked<T>,
    e: i128,
) -> Worked<T>
    requires scale { T.SCALE ≤ 15 }
    requires surface { j < length s.now.lens.surfaces.items }
    requires low { pos 0 ≤ℤ e }
    requires high { InCap e }
    ensures { worked result ≡ losses.row row (worked y ∷ worked u ∷ [])
        (stepped.height_from T.ops T.SCALE (values.surface_at s.now j)
        (losses.to_step (worked y)) (losses.to_step (worked u)) e) }
{
    let answer = height_from(s, j, y.step(), u.step(), e);
    y.earlier(u).needed(row, answer)
}

/// Ray `ray` at the surface behind surface `before`, where it arrives with height `y` and slope `u`.
fn pass<T: Arith>(s: &Setup, ray: u32, before: u32, y: Worked<T>, u: Worked<T>) -> Passing<T>
    requires scale { T.SCALE ≤ 15 }
    requires well { IsWellFormed s.now }
    requires ray { ray ≤ 2 }
    requires surface { before + 1 < values.image s.now }
    requires few { before ≤ 62 }
    ensures { result ≡ rows.passing T.ops T.SCALE s.now (units_of_residual T.SCALE s.now.res)
        ray before (worked y) (worked u) }
{
    let e = residual_units(T::SCALE, s.res);
    let j = before + 1;
    let cv = Worked::of_step(row_number(j, ray, 0), vertex_curvature(s, j));
    let n = Worked::of_step(row_number(j, ray, 1), signed_index(s, before));
    let n2 = Worked::of_step(row_number(j, ray, 2), signed_index(s, j));
    let behind = slope_worked(row_number(j, ray, 3), y, u, cv, n, n2, e);
    let next = height_worked(s, row_number(j, ray, 4), j, y, behind, e);
    Passing {
        y,
        u,
        cv,
        n,
        n2,
        behind,
        next,
    }
}

/// The rows of ray `ray` at every surface before the image.
#[tactic(auto, unfolding(lensmodel::specs::Paraxial::FirstOrderRows::ray_rows))]
fn rows_of<const S: u32>(s: &Setup, ray: u32, y: &Dec, u: &Dec) -> Track<S>
    requires scale { S ≤ 15 }
    requires well { IsWellFormed s.now }
    requires ray { ray ≤ 2 }
    ensures room { length result ≤ 62 }
    ensures exact { result
        ≡ rows.ray_rows (operations S) S s.now (units_of_residual S s.now.res) ray y.now u.now }
{
    let mut list: ArrayVec<Passing<Iv<S>>, 64> = ArrayVec::new();
    let mut height = Worked::of_step(row_number(0, ray, 0), decimal::<Iv<S>>(y));
    let mut slope = Worked::of_step(row_number(0, ray, 1), decimal::<Iv<S>>(u));
    for before in 0..s.lens.surfaces.len() as u32 - 2 {
        let here = pass(s, ray, before, height, slope);
        height = here.next;
        slope = here.behind;
        list.push(here);
    }
    Track { list }
}

/// The ray numbered `ray`, which is 0, 1 or 2, through every surface before the image: it arrives
/// at surface 1 with height `y`, in lens units, and slope `u`.
pub fn ray_through<const S: u32>(s: &Setup, ray: u32, y: &Dec, u: &Dec) -> Track<S>
    requires scale { S ≤ 15 }
    requires well { IsWellFormed s.now }
    requires ray { ray ≤ 2 }
    ensures exact { result
        ≡ rows.ray_rows (operations S) S s.now (units_of_residual S s.now.res) ray y.now u.now }
    ensures count { length result + 1 ≡ values.image s.now }
    ensures room { length result ≤ 62 }

    // The values at each surface hold those of every ray that starts so.
    ensures encloses { EnclosesTrack (iv_member S) s.now y.now u.now result }
{
    rows_of(s, ray, y, u)
}
