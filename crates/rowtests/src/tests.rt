//! Rays through a triplet, an even asphere, two mirrors and a plate.

ghost use Rattle.std.specs.Prelude.{◌≤◌};

use crate::files::Texts;
use crate::rows;
use crate::walk::walked;
use enclose::arith::Arith;
use enclose::iv::Iv;
use forms::form::Form;
use std::alloc::Global;
use std::process::Abort;
use std::test::Fail;

/// Asserts what the rays of these texts do, in this arithmetic.
fn expect<R: Abort, T: Arith>(rt: &R, alloc: Global, texts: &Texts, due: &str) -> Result<(), Fail>
    requires { T.SCALE ≤ 15 }
{
    let done = walked::<T>(alloc, texts)?;
    assert_eq!(rt; done.as_str(), due, "scale {}", T::SCALE);
    Ok(())
}

/// Asserts what the rays of these texts do at the scales 6, 9, 12 and 15, in intervals.
fn expect_intervals<R: Abort>(
    rt: &R,
    alloc: Global,
    texts: &Texts,
    [six, nine, twelve, fifteen]: [&str; 4],
) -> Result<(), Fail> {
    expect::<R, Iv<6>>(rt, alloc, texts, six)?;
    expect::<R, Iv<9>>(rt, alloc, texts, nine)?;
    expect::<R, Iv<12>>(rt, alloc, texts, twelve)?;
    expect::<R, Iv<15>>(rt, alloc, texts, fifteen)
}

/// The same in linear forms.
fn expect_forms<R: Abort>(
    rt: &R,
    alloc: Global,
    texts: &Texts,
    [six, nine, twelve, fifteen]: [&str; 4],
) -> Result<(), Fail> {
    expect::<R, Form<6>>(rt, alloc, texts, six)?;
    expect::<R, Form<9>>(rt, alloc, texts, nine)?;
    expect::<R, Form<12>>(rt, alloc, texts, twelve)?;
    expect::<R, Form<15>>(rt, alloc, texts, fifteen)
}

#[test]
fn triplet(rt: HostRuntime) -> Result<(), Fail> {
    expect_intervals(&rt, rt.alloc(), &rows::TRIPLET, rows::TRIPLET_ROWS)
}

#[test]
fn triplet_in_a_box(rt: HostRuntime) -> Result<(), Fail> {
    expect_forms(&rt, rt.alloc(), &rows::BOXED, rows::BOXED_ROWS)
}

#[test]
fn asphere(rt: HostRuntime) -> Result<(), Fail> {
    expect_intervals(&rt, rt.alloc(), &rows::ASPHERE, rows::ASPHERE_ROWS)?;
    expect::<HostRuntime, Form<9>>(&rt, rt.alloc(), &rows::ASPHERE, rows::ASPHERE_FORM_ROWS)
}

#[test]
fn two_mirrors(rt: HostRuntime) -> Result<(), Fail> {
    expect_intervals(&rt, rt.alloc(), &rows::MIRRORS, rows::MIRROR_ROWS)?;
    expect::<HostRuntime, Form<9>>(&rt, rt.alloc(), &rows::MIRRORS, rows::MIRROR_FORM_ROWS)
}

#[test]
fn plate_in_a_box(rt: HostRuntime) -> Result<(), Fail> {
    expect_forms(&rt, rt.alloc(), &rows::PLATE, rows::PLATE_ROWS)
}
