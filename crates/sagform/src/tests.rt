//! Indices with the values that an independent program of the same rules gives, and one count.

ghost use Rattle.std.specs.Prelude.{◌≡◌, ◌⊎◌, pos, negsuc, ◌<◌, ◌≤◌, ◌≤ℤ◌};
ghost use Rattle.lensmodel.specs.Equations.Dispersion.{IsKnown};

use crate::index::index;
use crate::steps::Steps;
use arrayvec::ArrayVec;
use enclose::arith::Arith;
use enclose::iv::Iv;
use exactdec::scale;
use fixdec::dec::Dec;
use fixdec::step::Step;
use lensmodel::glass::{Glass, Medium};
use std::marker::Brand;
use std::process::Abort;
use std::sync::ledger::{Blank, Ledger};
use std::test::Fail;

mod lenses;
mod surfaces;

fn dec(mant: i64, exp: i32) -> Dec
    requires low { negsuc 107 ≤ℤ exp }
    requires high { exp ≤ℤ pos 78 }
    requires zero { mant ≡ pos 0 → exp ≡ pos 0 }
{
    Dec {
        mant: i128::from(mant),
        exp,
    }
}

fn glass(formula: u32, c: [Dec; 6]) -> Medium
    requires { (formula ≡ 1) ⊎ (formula ≡ 2) }
    ensures { IsKnown result }
{
    Medium::Of(Glass {
        name: ArrayVec::new(),
        formula,
        c0: c[0],
        c1: c[1],
        c2: c[2],
        c3: c[3],
        c4: c[4],
        c5: c[5],
        low: None,
        high: None,
    })
}

fn bk7() -> Medium
    ensures { IsKnown result }
{
    glass(
        2,
        [
            dec(103961212, -8),
            dec(600069867, -11),
            dec(231792344, -9),
            dec(200179144, -10),
            dec(101046945, -8),
            dec(103560653, -6),
        ],
    )
}

fn k5() -> Medium
    ensures { IsKnown result }
{
    glass(
        1,
        [
            dec(22850299, -7),
            dec(-86010725, -10),
            dec(11806783, -9),
            dec(20765657, -11),
            dec(-21314913, -13),
            dec(32131234, -14),
        ],
    )
}

/// The ends of an index at 0.5875618 micrometres, at T's scale; -1 and -1 where there is none.
fn ends<T: Arith>(m: &Medium) -> (i128, i128)
    requires scale { T.SCALE ≤ 15 }
    requires known { IsKnown m.now }
{
    let Step::Val(wave) = scale::span(&dec(5875618, -7), T::SCALE) else {
        return (-1, -1);
    };
    match index::<T>(m, wave, 1) {
        Step::Val(n) => (n.hull().lo, n.hull().hi),
        _ => (-1, -1),
    }
}

#[test]
fn crown_glass_by_sellmeier(rt: HostRuntime) -> Result<(), Fail> {
    assert_eq!(rt; ends::<Iv<6>>(&bk7()), (1516793, 1516807));
    assert_eq!(rt; ends::<Iv<9>>(&bk7()), (1516800030, 1516800038));
    assert_eq!(rt; ends::<Iv<12>>(&bk7()), (1516800034498, 1516800034504));
    assert_eq!(rt;
        ends::<Iv<15>>(&bk7()),
        (1516800034500587, 1516800034500590)
    );
    Ok(())
}

#[test]
fn crown_glass_by_schott(rt: HostRuntime) -> Result<(), Fail> {
    assert_eq!(rt; ends::<Iv<6>>(&k5()), (1522470, 1522510));
    assert_eq!(rt; ends::<Iv<12>>(&k5()), (1522489272119, 1522489272166));
    assert_eq!(rt; ends::<Iv<15>>(&k5()), (1522489272141052, 1522489272141067));
    Ok(())
}

#[test]
fn air_is_one(rt: HostRuntime) -> Result<(), Fail> {
    assert_eq!(rt; ends::<Iv<6>>(&Medium::Air), (1000000, 1000000));
    Ok(())
}

/// A count that is raised once takes no bytes.
fn counts_once<R: Abort, L: Ledger>(rt: &R, blank: Blank)
    requires name { blank.name ≡ L.name }
    requires parts { blank.parts ≡ L.parts }
    requires some { 0 < L.parts }
{
    let mut steps = Steps::<L>::start(blank);
    steps.tick();
    assert_eq!(rt; size_of::<Steps<Brand>>(), 0);
}

#[test]
fn steps_store_nothing(rt: HostRuntime) {
    counts_once::<HostRuntime, Brand>(&rt, Blank::new(1));
}
