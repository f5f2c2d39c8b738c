//! The Seidel sums of one surface.

ghost use Rattle.std.specs.Prelude.{◌≡◌, ℤ, pos, suc, ◌+◌, ◌<◌, ◌≤◌, ◌≤ℤ◌, length};
ghost use Rattle.fixdec.specs.Ends.{InCap};
ghost use Rattle.firstorder.specs.Workings.{worked};
ghost use Rattle.lensmodel.specs.Paraxial.SeidelRows as rows;
ghost use Rattle.seidel.specs.Surfaces as surfaces;

use crate::lossy::{
    asphericity_of, invariant_of, lagrange_of, petzval_of, s1_of, s2_of, s3_of, s4_of, s5_of,
    slope_change_of, square_change_of, square_of,
};
use enclose::arith::Arith;
use firstorder::ray::Passing;
use firstorder::worked::{Worked, hull_of};
use lensmodel::paraxial::Five;
use lensmodel::setup::Setup;
use lensmodel::surface::Surface;
use sagform::layout::surface;
use std::marker::Model;

/// What the sums of a surface are made of.
#[derive(Clone, Copy, Debug)]
pub(crate) struct Terms<T> {
    /// The refraction invariants of the marginal and of the chief ray.
    pub(crate) a: Worked<T>,
    pub(crate) ab: Worked<T>,
    /// Lagrange's invariant.
    pub(crate) h: Worked<T>,
    /// The Petzval term.
    pub(crate) p: Worked<T>,
    /// The changes of u/n and of 1/n^2.
    pub(crate) dun: Worked<T>,
    pub(crate) dn2: Worked<T>,
    /// The aspheric term.
    pub(crate) k8: Worked<T>,
    /// The squares of the heights of the marginal and of the chief ray.
    pub(crate) yy: Worked<T>,
    pub(crate) bb: Worked<T>,
}

impl<T> Model for Terms<T> {
    ghost use Rattle.seidel.specs.Surfaces.{Terms as TermRows};
    ghost use Rattle.firstorder.specs.Workings.{worked, kept, kept_worked};

    ghost Value = { TermRows T };

    ghost view = { λ t. record {
      a = worked t.a;
      ab = worked t.ab;
      h = worked t.h;
      p = worked t.p;
      dun = worked t.dun;
      dn2 = worked t.dn2;
      k8 = worked t.k8;
      yy = worked t.yy;
      bb = worked t.bb;
    } };

    ghost inverse = { λ t. record {
      a = kept t.a;
      ab = kept t.ab;
      h = kept t.h;
      p = kept t.p;
      dun = kept t.dun;
      dn2 = kept t.dn2;
      k8 = kept t.k8;
      yy = kept t.yy;
      bb = kept t.bb;
    } };

    ghost inverse_ok = { λ t h. Prim.rw (
      kept_worked t.a,
      kept_worked t.ab,
      kept_worked t.h,
      kept_worked t.p,
      kept_worked t.dun,
      kept_worked t.dn2,
      kept_worked t.k8,
      kept_worked t.yy,
      kept_worked t.bb,
    ) };
}

/// The five sums of a surface, or of the whole lens.
#[derive(Clone, Copy, Debug)]
pub(crate) struct Sums<T> {
    pub(crate) s1: Worked<T>,
    pub(crate) s2: Worked<T>,
    pub(crate) s3: Worked<T>,
    pub(crate) s4: Worked<T>,
    pub(crate) s5: Worked<T>,
}

impl<T> Model for Sums<T> {
    ghost use Rattle.lensmodel.specs.Paraxial.SeidelRows.{Sums as SumRows};
    ghost use Rattle.firstorder.specs.Workings.{worked, kept, kept_worked};

    ghost Value = { SumRows T };

    ghost view = { λ v. record {
      s1 = worked v.s1;
      s2 = worked v.s2;
      s3 = worked v.s3;
      s4 = worked v.s4;
      s5 = worked v.s5;
    } };

    ghost inverse = { λ v. record {
      s1 = kept v.s1;
      s2 = kept v.s2;
      s3 = kept v.s3;
      s4 = kept v.s4;
      s5 = kept v.s5;
    } };

    ghost inverse_ok = { λ v h. Prim.rw (
      kept_worked v.s1,
      kept_worked v.s2,
      kept_worked v.s3,
      kept_worked v.s4,
      kept_worked v.s5,
    ) };
}

impl<T: Arith> Sums<T> {
    /// The intervals of the sums.
    pub(crate) fn five(&self) -> Five
        requires { T.SCALE ≤ 15 }
        ensures { result ≡ rows.five T.ops T.SCALE self.now }
    {
        Five {
            s1: hull_of(self.s1),
            s2: hull_of(self.s2),
            s3: hull_of(self.s3),
            s4: hull_of(self.s4),
            s5: hull_of(self.s5),
        }
    }
}

/// Five sums, and whether a row of them is lost because a number passed the cap.
#[derive(Clone, Copy, Debug)]
pub(crate) struct Summed<T> {
    pub(crate) sums: Sums<T>,
    pub(crate) by_range: bool,
}

impl<T> Model for Summed<T> {
    ghost use Rattle.seidel.specs.Surfaces.{Summed as SummedRows};

    ghost Value = { SummedRows T };

    ghost view = { λ c. record { sums = c.sums; by_range = c.by_range } };

    ghost inverse = { λ c. record { sums = c.sums; by_range = c.by_range } };
}

impl<T> Default for Summed<T> {
    ghost use Rattle.std.specs.Prelude.{◌≡◌};
    ghost use Rattle.seidel.specs.Wholes.{none};

    ghost is_default = { λ c. c ≡ none };

    fn default() -> Summed<T> {
        Summed {
            sums: Sums {
                s1: Worked::default(),
                s2: Worked::default(),
                s3: Worked::default(),
                s4: Worked::default(),
                s5: Worked::default(),
            },
            by_range: false,
        }
    }
}

/// Whether a term is lost because a number passed the cap.
fn terms_by_range<T: Copy>(t: &Terms<T>) -> bool
    ensures { result ≡ surfaces.terms_by_range t.now }
{
    t.a.is_by_range()
        || t.ab.is_by_range()
        || t.h.is_by_range()
        || t.p.is_by_range()
        || t.dun.is_by_range()
        || t.dn2.is_by_range()
        || t.k8.is_by_range()
        || t.yy.is_by_range()
        || t.bb.is_by_range()
}

/// Whether one of five sums is lost because a number passed the cap.
pub(crate) fn sums_by_range<T: Copy>(v: &Sums<T>) -> bool
    ensures { result ≡ surfaces.sums_by_range v.now }
{
    v.s1.is_by_range()
        || v.s2.is_by_range()
        || v.s3.is_by_range()
        || v.s4.is_by_range()
        || v.s5.is_by_range()
}

/// A surface's terms and sums in short.
fn short<T: Copy>(terms: &Terms<T>, sums: Sums<T>) -> Summed<T>
    ensures { result ≡ surfaces.short terms.now sums }
{
    let by_range = terms_by_range(terms) || sums_by_range(&sums);
    Summed { sums, by_range }
}

/// The number of row `i` of the sums at surface `j`, in the order of all rows.
fn sum_row(j: u32, i: u32) -> u32
    requires surface { j ≤ 64 }
    requires row { i ≤ 13 }
    ensures { result ≡ rows.sum_row j i }
{
    100 * j + 30 + i
}

/// The terms at surface `j`, with the marginal ray and the chief ray there.
pub(crate) fn terms_at<T: Arith>(f: &Surface, j: u32, m: &Passing<T>, b: &Passing<T>) -> Terms<T>
    requires scale { T.SCALE ≤ 15 }
    requires surface { j ≤ 64 }
    ensures { result ≡ surfaces.terms_of T.ops T.SCALE f.now j m.now b.now }
{
    let a = invariant_of(sum_row(j, 0), m.n, m.y, m.cv, m.u);
    let ab = invariant_of(sum_row(j, 1), m.n, b.y, m.cv, b.u);
    Terms {
        a,
        ab,
        h: lagrange_of(sum_row(j, 2), ab, m.y, a, b.y),
        p: petzval_of(sum_row(j, 3), m.cv, m.n, m.n2),
        dun: slope_change_of(sum_row(j, 4), m.behind, m.n2, m.u, m.n),
        dn2: square_change_of(sum_row(j, 5), m.n, m.n2),
        k8: asphericity_of(sum_row(j, 6), f, m.cv, m.n, m.n2),
        yy: square_of(sum_row(j, 7), m.y),
        bb: square_of(sum_row(j, 8), b.y),
    }
}

/// The sums of surface `j`, from its terms.
pub(crate) fn sums_at<T: Arith>(
    j: u32,
    m: &Passing<T>,
    b: &Passing<T>,
    t: &Terms<T>,
    e: i128,
) -> Sums<T>
    requires scale { T.SCALE ≤ 15 }
    requires surface { j ≤ 64 }
    requires low { pos 0 ≤ℤ e }
    requires high { InCap e }
    ensures { result ≡ surfaces.sums_of T.ops T.SCALE e j m.now b.now t.now }
{
    Sums {
        s1: s1_of(sum_row(j, 9), t.k8, t.yy, t.a, m.y, t.dun, e),
        s2: s2_of(sum_row(j, 10), t.k8, t.yy, m.y, b.y, t.a, t.ab, t.dun, e),
        s3: s3_of(sum_row(j, 11), t.k8, t.yy, t.bb, t.ab, m.y, t.dun, e),
        s4: s4_of(sum_row(j, 12), t.h, t.p, e),
        s5: s5_of(
            sum_row(j, 13),
            t.k8,
            m.y,
            b.y,
            t.bb,
            t.ab,
            t.dn2,
            t.p,
            t.h,
            e,
        ),
    }
}

/// What the surface after `j` contributes, with the marginal ray and the chief ray there.
pub(crate) fn contribution<T: Arith>(
    s: &Setup,
    e: i128,
    j: u32,
    m: &Passing<T>,
    b: &Passing<T>,
) -> Summed<T>
    requires scale { T.SCALE ≤ 15 }
    requires surface { j + 1 < length s.now.lens.surfaces.items }
    requires few { j < 64 }
    requires low { pos 0 ≤ℤ e }
    requires high { InCap e }
    ensures { result ≡ surfaces.in_short (rows.contribution T.ops T.SCALE s.now e j m.now b.now) }
{
    let terms = terms_at(surface(s, j + 1), j + 1, m, b);
    let sums = sums_at(j + 1, m, b, &terms, e);
    short(&terms, sums)
}
