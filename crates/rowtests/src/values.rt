//! The values of a ray at a surface, as text: the ends of each, in units of the scale.

ghost use Rattle.std.specs.Prelude.{◌≤◌, ◌≤ℤ◌, pos};
ghost use Rattle.fixdec.specs.Ends.{InCap};

use enclose::arith::Arith;
use fixdec::step::Step;
use sagform::face::Face;
use sagform::ray::{Dir, Hit};
use sagform::sag::{normal, sag};
use std::alloc::Global;
use std::test::Fail;

/// Appends the name and the ends of a value.
fn push_value<T: Arith>(alloc: Global, name: &str, v: &T, out: &mut String) -> Result<(), Fail>
    requires { T.SCALE ≤ 15 }
{
    let hull = v.hull();
    out.push_str(&format!(in alloc; " {name} [{},{}]", hull.lo, hull.hi)?)?;
    Ok(())
}

/// Appends the name and the ends of an answer, or that it is lost or empty.
fn push_answer<T: Arith>(
    alloc: Global,
    name: &str,
    answer: &Step<T>,
    out: &mut String,
) -> Result<(), Fail>
    requires { T.SCALE ≤ 15 }
{
    match answer {
        Step::Val(v) => push_value(alloc, name, v, out),
        Step::Lost(_) => Ok(out.push_str(&format!(in alloc; " {name} lost")?)?),
        Step::Empty => Ok(out.push_str(&format!(in alloc; " {name} empty")?)?),
    }
}

/// Appends a point on surface `j`, with the sag and the slope of the surface there.
pub(crate) fn push_point<T: Arith>(
    alloc: Global,
    j: u32,
    f: &Face<T>,
    h: &Hit<T>,
    e: i128,
    out: &mut String,
) -> Result<(), Fail>
    requires scale { T.SCALE ≤ 15 }
    requires low { pos 0 ≤ℤ e }
    requires high { InCap e }
{
    out.push_str(&format!(in alloc; "at {j}")?)?;
    push_value(alloc, "x", &h.x, out)?;
    push_value(alloc, "y", &h.y, out)?;
    push_value(alloc, "z", &h.z, out)?;
    push_value(alloc, "rho", &h.rho, out)?;
    push_value(alloc, "w", &h.w, out)?;
    push_value(alloc, "path", &h.path, out)?;
    push_answer(alloc, "sag", &sag(f, h.rho, e), out)?;
    push_answer(alloc, "slope", &normal(f, h, e), out)?;
    out.push_str("\n")?;
    Ok(())
}

/// Appends the direction in which a ray leaves surface `j`.
pub(crate) fn push_direction<T: Arith>(
    alloc: Global,
    j: u32,
    d: &Dir<T>,
    out: &mut String,
) -> Result<(), Fail>
    requires { T.SCALE ≤ 15 }
{
    out.push_str(&format!(in alloc; "to {j}")?)?;
    push_value(alloc, "L", &d.l, out)?;
    push_value(alloc, "M", &d.m, out)?;
    push_value(alloc, "N", &d.n, out)?;
    out.push_str("\n")?;
    Ok(())
}
