//! The six first-order values, from the rays that they are made of.

ghost use Rattle.std.specs.Prelude.{◌≡◌, ◌+◌, ◌<◌, ◌≤◌, ◌∷◌, [], length};
ghost use Rattle.fixdec.specs.IntervalOperations.{operations};
ghost use Rattle.firstorder.specs.Stepped as stepped;
ghost use Rattle.firstorder.specs.Workings.{worked};
ghost use Rattle.lensmodel.specs.Paraxial.FirstOrderRows as rows;
ghost use Rattle.lensmodel.specs.Paraxial.Losses as losses;
ghost use Rattle.lensmodel.specs.Rows.Constants.{residual_units as units_of_residual};
ghost use Rattle.lensmodel.specs.Setup.Values as values;
ghost use Rattle.lensmodel.specs.Setup.WellFormed.{IsWellFormed};

use crate::ray::{Track, row_number};
use crate::worked::Worked;
use enclose::arith::Arith;
use enclose::iv::Iv;
use fixdec::step::{Step, Why};
use fixdec::val;
use lensmodel::setup::Setup;
use sagform::constant::{residual_units, whole};
use std::marker::Model;

/// The first-order values, in lens units.
#[derive(Clone, Copy)]
pub(crate) struct FirstRows<T> {
    /// The effective focal length.
    pub(crate) efl: Worked<T>,
    /// The back focal length, from the last vertex before the image.
    pub(crate) bfl: Worked<T>,
    /// The front focal length, from vertex 1.
    pub(crate) ffl: Worked<T>,
    /// The back principal point, from the last vertex before the image.
    pub(crate) back: Worked<T>,
    /// The front principal point, from vertex 1.
    pub(crate) front: Worked<T>,
    /// The entrance pupil, from vertex 1.
    pub(crate) enp: Worked<T>,
}

impl<T> Model for FirstRows<T> {
    ghost use Rattle.lensmodel.specs.Paraxial.FirstOrderRows.{FirstRows as Values};

    ghost Value = { Values T };

    ghost use Rattle.firstorder.specs.Workings.{worked, kept, kept_worked};

    ghost view = { λ v. record {
      efl = worked v.efl;
      bfl = worked v.bfl;
      ffl = worked v.ffl;
      back = worked v.back;
      front = worked v.front;
      enp = worked v.enp;
    } };

    ghost inverse = { λ v. record {
      efl = kept v.efl;
      bfl = kept v.bfl;
      ffl = kept v.ffl;
      back = kept v.back;
      front = kept v.front;
      enp = kept v.enp;
    } };

    ghost inverse_ok = { λ a h. Prim.rw (
      kept_worked a.efl,
      kept_worked a.bfl,
      kept_worked a.ffl,
      kept_worked a.back,
      kept_worked a.front,
      kept_worked a.enp,
    ) };
}

/// `wd(a)/b`, from steps that may be lost.
fn over<T: Arith>(s: &Setup, a: Step<T>, b: Step<T>) -> Step<T>
    requires { T.SCALE ≤ 15 }
    ensures { result ≡ stepped.over_from T.ops T.SCALE s.now (units_of_residual T.SCALE s.now.res)
        a b }
{
    let a = val!(a);
    let b = val!(b);
    val!(a.widen(residual_units(T::SCALE, s.res))).over(b)
}

/// `wd(0 - a)/b`, from steps that may be lost.
fn minus_over<T: Arith>(s: &Setup, a: Step<T>, b: Step<T>) -> Step<T>
    requires { T.SCALE ≤ 15 }
    ensures { result ≡ stepped.minus_over_from T.ops T.SCALE s.now
        (units_of_residual T.SCALE s.now.res) a b }
{
    let a = val!(a);
    let b = val!(b);
    let turned = val!(val!(whole::<T>(0)).minus(a));
    val!(turned.widen(residual_units(T::SCALE, s.res))).over(b)
}

/// The effective focal length, `wd(0 - 1)/Ca`.
fn focal_length<T: Arith>(s: &Setup, ca: Step<T>) -> Step<T>
    requires { T.SCALE ≤ 15 }
    ensures { result ≡ stepped.efl_from T.ops T.SCALE s.now (units_of_residual T.SCALE s.now.res)
        ca }
{
    let ca = val!(ca);
    minus_over(s, whole(1), Step::Val(ca))
}

/// The difference of two values that may be lost.
fn difference<T: Arith>(a: Step<T>, b: Step<T>) -> Step<T>
    requires { T.SCALE ≤ 15 }
    ensures { result ≡ stepped.minus_from T.ops a b }
{
    let a = val!(a);
    let b = val!(b);
    a.minus(b)
}

/// The front principal point, `ffl + ((n0*efl)/nk)`.
fn front_point<T: Arith>(s: &Setup, ffl: Step<T>, n0: Step<T>, efl: Step<T>, nk: Step<T>) -> Step<T>
    requires { T.SCALE ≤ 15 }
    ensures { result ≡ stepped.front_from T.ops T.SCALE s.now (units_of_residual T.SCALE s.now.res)
        ffl n0 efl nk }
{
    let ffl = val!(ffl);
    let n0 = val!(n0);
    let efl = val!(efl);
    let nk = val!(nk);
    ffl.plus(val!(val!(n0.times(efl)).over(nk)))
}

/// `wd(a)/b`, from rows that may be lost.
fn over_row<T: Arith>(s: &Setup, row: u32, a: Worked<T>, b: Worked<T>) -> Worked<T>
    requires { T.SCALE ≤ 15 }
    ensures { worked result ≡ losses.row row (worked a ∷ worked b ∷ [])
        (stepped.over_from T.ops T.SCALE s.now (units_of_residual T.SCALE s.now.res)
        (losses.to_step (worked a)) (losses.to_step (worked b))) }
{
    let answer = over(s, a.step(), b.step());
    a.earlier(b).needed(row, answer)
}

/// `wd(0 - a)/b`, from rows that may be lost.
fn minus_over_row<T: Arith>(s: &Setup, row: u32, a: Worked<T>, b: Worked<T>) -> Worked<T>
    requires { T.SCALE ≤ 15 }
    ensures { worked result ≡ losses.row row (worked a ∷ worked b ∷ [])
        (stepped.minus_over_from T.ops T.SCALE s.now (units_of_residual T.SCALE s.now.res)
        (losses.to_step (worked a)) (losses.to_step (worked b))) }
{
    let answer = minus_over(s, a.step(), b.step());
    a.earlier(b).needed(row, answer)
}

/// The effective focal length, from a row that may be lost.
fn focal_length_row<T: Arith>(s: &Setup, row: u32, ca: Worked<T>) -> Worked<T>
    requires { T.SCALE ≤ 15 }
    ensures { worked result ≡ losses.row row (worked ca ∷ [])
        (stepped.efl_from T.ops T.SCALE s.now (units_of_residual T.SCALE s.now.res)
        (losses.to_step (worked ca))) }
{
    let answer = focal_length(s, ca.step());
    ca.needed(row, answer)
}

/// The difference of rows that may be lost.
fn difference_row<T: Arith>(row: u32, a: Worked<T>, b: Worked<T>) -> Worked<T>
    requires { T.SCALE ≤ 15 }
    ensures { worked result ≡ losses.row row (worked a ∷ worked b ∷ [])
        (stepped.minus_from T.ops (losses.to_step (worked a)) (losses.to_step (worked b))) }
{
    let answer = difference(a.step(), b.step());
    a.earlier(b).needed(row, answer)
}

/// The front principal point, from rows that may be lost.
fn front_row<T: Arith>(
    s: &Setup,
    row: u32,
    ffl: Worked<T>,
    n0: Worked<T>,
    efl: Worked<T>,
    nk: Worked<T>,
) -> Worked<T>
    requires { T.SCALE ≤ 15 }
    ensures { worked result ≡ losses.row row (worked ffl ∷ worked n0 ∷ worked efl ∷ worked nk ∷ [])
        (stepped.front_from T.ops T.SCALE s.now (units_of_residual T.SCALE s.now.res)
        (losses.to_step (worked ffl)) (losses.to_step (worked n0))
        (losses.to_step (worked efl)) (losses.to_step (worked nk))) }
{
    let answer = front_point(s, ffl.step(), n0.step(), efl.step(), nk.step());
    let needs = ffl.earlier(n0).earlier(efl).earlier(nk);
    needs.needed(row, answer)
}

/// The entrance pupil from vertex 1, by the heights of both rays at the stop. An object that is the
/// stop has none.
fn entrance_pupil<const S: u32>(s: &Setup, row: u32, a: &Track<S>, b: &Track<S>) -> Worked<Iv<S>>
    requires scale { S ≤ 15 }
    requires well { IsWellFormed s.now }
    requires row { row ≡ rows.ray_row (values.image s.now) 0 5 }
    requires a { length a.now + 1 ≡ values.image s.now }
    requires b { length b.now + 1 ≡ values.image s.now }
    ensures { worked result ≡ rows.enp_rows (operations S) S s.now (units_of_residual S s.now.res)
        s.now.lens.stop a.now b.now }
{
    let stop = s.lens.stop;
    if stop == 0 {
        return Worked::Gone(row, Why::Root);
    }
    let sa = a.height(stop);
    let sb = b.height(stop);
    over_row(s, row, sb, sa)
}

/// The values, from the slopes `ca` and `cb` of both rays behind the last surface before the image,
/// the first ray's height `ya` there, the first and the last index, and the entrance pupil.
fn values_from<T: Arith>(
    s: &Setup,
    ca: Worked<T>,
    cb: Worked<T>,
    ya: Worked<T>,
    n0: Worked<T>,
    nk: Worked<T>,
    enp: Worked<T>,
) -> FirstRows<T>
    requires scale { T.SCALE ≤ 15 }
    requires well { IsWellFormed s.now }
    ensures { result ≡ stepped.values_from T.ops T.SCALE s.now (units_of_residual T.SCALE s.now.res)
        (worked ca) (worked cb) (worked ya) (worked n0) (worked nk) (worked enp) }
{
    let image = s.lens.surfaces.len() as u32 - 1;
    let efl = focal_length_row(s, row_number(image, 0, 0), ca);
    let bfl = minus_over_row(s, row_number(image, 0, 1), ya, ca);
    let ffl = over_row(s, row_number(image, 0, 2), cb, ca);
    let back = difference_row(row_number(image, 0, 3), bfl, efl);
    let front = front_row(s, row_number(image, 0, 4), ffl, n0, efl, nk);
    FirstRows {
        efl,
        bfl,
        ffl,
        back,
        front,
        enp,
    }
}

/// The values of the rays `a`, which starts with height 1 and slope 0, and `b`, which starts with
/// height 0 and slope 1.
pub(crate) fn values_of<const S: u32>(s: &Setup, a: &Track<S>, b: &Track<S>) -> FirstRows<Iv<S>>
    requires scale { S ≤ 15 }
    requires well { IsWellFormed s.now }
    requires a { length a.now + 1 ≡ values.image s.now }
    requires b { length b.now + 1 ≡ values.image s.now }
    ensures { result ≡ rows.value_rows (operations S) S s.now (units_of_residual S s.now.res) a.now
        b.now }
{
    let image = s.lens.surfaces.len() as u32 - 1;
    let enp = entrance_pupil(s, row_number(image, 0, 5), a, b);
    let first = a.first();
    let last = a.last();
    let last_of_b = b.last();
    values_from(
        s,
        last.behind,
        last_of_b.behind,
        last.y,
        first.n,
        last.n2,
        enp,
    )
}
