//! The Seidel sums of all surfaces.

ghost use Rattle.std.specs.Prelude.{◌≡◌, ℤ, pos, ◌+◌, ◌<◌, ◌≤◌, ◌≤ℤ◌, length, map};
ghost use Rattle.fixdec.specs.Ends.{InCap};
ghost use Rattle.firstorder.specs.Workings.{worked};
ghost use Rattle.fixdec.specs.IntervalOperations.{operations};
ghost use Rattle.lensmodel.specs.Paraxial.FirstOrderRows.{ray_row};
ghost use Rattle.lensmodel.specs.Paraxial.SeidelRows as rows;
ghost use Rattle.seidel.specs.Surfaces.{in_short};
ghost use Rattle.seidel.specs.Wholes as wholes;

use crate::surface::{Summed, Sums, contribution, sums_by_range};
use arrayvec::ArrayVec;
use enclose::arith::Arith;
use enclose::iv::Iv;
use firstorder::ray::Passing;
use firstorder::worked::Worked;
use fixdec::step::Step;
use fixdec::val;
use lensmodel::paraxial::Five;
use lensmodel::setup::Setup;

/// What each surface before the image contributes, from surface 1 on, with the marginal ray and the
/// chief ray there.
pub(crate) fn contributions<const S: u32>(
    s: &Setup,
    e: i128,
    marginal: &[Passing<Iv<S>>],
    chief: &[Passing<Iv<S>>],
) -> ArrayVec<Summed<Iv<S>>, 64>
    requires scale { S ≤ 15 }
    requires same { length marginal.now ≡ length chief.now }
    requires surfaces { length marginal.now + 1 < length s.now.lens.surfaces.items }
    requires few { length marginal.now ≤ 64 }
    requires low { pos 0 ≤ℤ e }
    requires high { InCap e }
    ensures { result.items
        ≡ map in_short (rows.contributions (operations S) S s.now e 0 marginal.now chief.now) }
{
    let mut all: ArrayVec<Summed<Iv<S>>, 64> = ArrayVec::new();
    for j in 0..marginal.len() {
        all.push(contribution(s, e, j as u32, &marginal[j], &chief[j]));
    }
    all
}

/// The intervals of the sums of each surface.
pub(crate) fn fives<T: Arith>(all: &[Summed<T>]) -> ArrayVec<Five, 64>
    requires scale { T.SCALE ≤ 15 }
    requires few { length all.now ≤ 64 }
    ensures { result.items ≡ map (λ d. rows.five T.ops T.SCALE d.sums) all.now }
{
    let mut fives: ArrayVec<Five, 64> = ArrayVec::new();
    for one in all {
        fives.push(one.sums.five());
    }
    fives
}

/// Whether a row of some surface is lost because a number passed the cap.
pub(crate) fn some_summed_by_range<T: Copy>(all: &[Summed<T>]) -> bool
    ensures { result ≡ wholes.some_summed_by_range all.now }
{
    for one in all {
        if one.by_range {
            return true;
        }
    }
    false
}

/// A sum, from steps.
fn plus_if<T: Arith>(total: Step<T>, next: Step<T>) -> Step<T>
    requires { T.SCALE ≤ 15 }
    ensures { result ≡ wholes.plus_if T.ops total next }
{
    let total = val!(total);
    total.plus(val!(next))
}

/// A total and one number more, as row `row`.
fn plus_of<T: Arith>(row: u32, total: Worked<T>, next: Worked<T>) -> Worked<T>
    requires { T.SCALE ≤ 15 }
    ensures { worked result ≡ wholes.plus_of T.ops row (worked total) (worked next) }
{
    let answer = plus_if(total.step(), next.step());
    total.earlier(next).needed(row, answer)
}

/// The number of row `i` at the image, in the order of all rows.
fn whole_row(image: u32, i: u32) -> u32
    requires image { image ≤ 64 }
    requires row { i ≤ 4 }
    ensures { result ≡ ray_row image 0 i }
{
    100 * image + i
}

/// The totals and the sums of one surface more.
fn plus_sums<T: Arith>(image: u32, totals: &Sums<T>, next: &Sums<T>) -> Sums<T>
    requires scale { T.SCALE ≤ 15 }
    requires image { image ≤ 64 }
    ensures { result ≡ wholes.plus_sums T.ops image totals.now next.now }
{
    Sums {
        s1: plus_of(whole_row(image, 0), totals.s1, next.s1),
        s2: plus_of(whole_row(image, 1), totals.s2, next.s2),
        s3: plus_of(whole_row(image, 2), totals.s3, next.s3),
        s4: plus_of(whole_row(image, 3), totals.s4, next.s4),
        s5: plus_of(whole_row(image, 4), totals.s5, next.s5),
    }
}

/// The totals begin with the sums of the first surface.
fn first_of<T: Copy>(first: &Sums<T>) -> Summed<T>
    ensures { result ≡ wholes.first_of first.now }
{
    Summed {
        sums: *first,
        by_range: sums_by_range(first),
    }
}

/// The totals with one surface more.
fn with_more<T: Arith>(image: u32, totals: &Summed<T>, next: &Sums<T>) -> Summed<T>
    requires scale { T.SCALE ≤ 15 }
    requires image { image ≤ 64 }
    ensures { result ≡ wholes.with_more T.ops image totals.now next.now }
{
    let sums = plus_sums(image, &totals.sums, next);
    Summed {
        sums,
        by_range: totals.by_range || sums_by_range(&sums),
    }
}

/// The totals with all further surfaces.
fn with_all<T: Arith>(image: u32, first: Summed<T>, more: &[Summed<T>]) -> Summed<T>
    requires scale { T.SCALE ≤ 15 }
    requires image { image ≤ 64 }
    ensures { result ≡ wholes.with_all T.ops image first more.now }
{
    let mut totals = first;
    for next in more {
        totals = with_more(image, &totals, &next.sums);
    }
    totals
}

/// The sums of the whole lens: those of all surfaces, added up from the first on. `image` is the
/// number of the image.
pub(crate) fn whole_of<T: Arith>(image: u32, all: &[Summed<T>]) -> Summed<T>
    requires scale { T.SCALE ≤ 15 }
    requires image { image ≤ 64 }
    ensures { result ≡ wholes.whole_of T.ops image all.now }
{
    match all.split_first() {
        None => Summed::default(),
        Some((first, more)) => with_all(image, first_of(&first.sums), more),
    }
}
