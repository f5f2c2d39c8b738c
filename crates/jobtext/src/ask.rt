//! What a line asks for.

ghost use Rattle.std.specs.Prelude.{◌≡◌, length, None, Some, IfOk, IfErr, OnOk};
ghost use Rattle.std.specs.Option.{option_map, is_some};
ghost use Rattle.lensmodel.specs.Files.Job.{number_at};
ghost use Rattle.lensmodel.specs.Files.JobFaults.{decimals_offence};
ghost use Rattle.lensmodel.specs.Files.Records.{decimal_at};
ghost use Rattle.lensmodel.specs.Setup.Ranges.{is_fan, is_grid};
ghost use Rattle.jobtext.specs.Records.{aim_fault, spread_fault, is_between};

use crate::number::{four, three, two, whole_between};
use crate::setting::Pupil;
use fixdec::dec::Dec;
use lensmodel::fault::JobFault;
use lensmodel::job::Ask;
use records::line::Line;
use records::number::is_whole;

/// The ray of a RAY line.
pub fn ray(line: &Line<'_>, at: u32) -> Result<Ask, JobFault>
    requires { length line.now ≡ 5 }
    ensures value { IfOk result (λ a. a ≡ Ask.Ray
        (decimal_at 1 line.now) (decimal_at 2 line.now) (decimal_at 3 line.now)
        (decimal_at 4 line.now)) }
    ensures sound { OnOk result (decimals_offence at 4 line.now ≡ None) }
    ensures fault { IfErr result (λ f. decimals_offence at 4 line.now ≡ Some f) }
{
    let (x, y, p, q) = four(line, at)?;
    Ok(Ask::Ray { x, y, p, q })
}

/// The ray of an AIM line under the pupil in force.
pub fn aim(line: &Line<'_>, at: u32, pupil: Option<Pupil>) -> Result<Ask, JobFault>
    requires { length line.now ≡ 5 }
    ensures value { IfOk result (λ a. option_map (λ s. Ask.Aim
        (decimal_at 1 line.now) (decimal_at 2 line.now) (decimal_at 3 line.now)
        (decimal_at 4 line.now) s.z s.r)
        pupil ≡ Some a) }
    ensures sound { OnOk result (aim_fault at (is_some pupil) line.now ≡ None) }
    ensures fault { IfErr result (λ f. aim_fault at (is_some pupil) line.now ≡ Some f) }
{
    let (p, q, px, py) = four(line, at)?;
    let Some(Pupil { z, r }) = pupil else {
        return Err(JobFault::Missing { line: at });
    };
    Ok(Ask::Aim { p, q, px, py, z, r })
}

/// The rays of a FAN line under the pupil in force, from 1 to 1000 on each side.
pub fn fan(line: &Line<'_>, at: u32, pupil: Option<Pupil>) -> Result<Ask, JobFault>
    requires { length line.now ≡ 4 }
    ensures value { IfOk result (λ a. option_map (λ s. Ask.Fan
        (decimal_at 1 line.now) (decimal_at 2 line.now) (number_at 3 line.now) s.z s.r) pupil
        ≡ Some a) }
    ensures sound { OnOk result (spread_fault at is_fan (is_some pupil) line.now ≡ None) }
    ensures fault { IfErr result (λ f. spread_fault at is_fan (is_some pupil) line.now ≡ Some f) }
{
    let (Spread { p, q, n }, Pupil { z, r }) = slopes_and_count(line, at, pupil, 1000)?;
    Ok(Ask::Fan { p, q, n, z, r })
}

/// The rays of a SPOT line under the pupil in force, from 1 to 60 on each side.
pub fn spot(line: &Line<'_>, at: u32, pupil: Option<Pupil>) -> Result<Ask, JobFault>
    requires { length line.now ≡ 4 }
    ensures value { IfOk result (λ a. option_map (λ s. Ask.Spot
        (decimal_at 1 line.now) (decimal_at 2 line.now) (number_at 3 line.now) s.z s.r) pupil
        ≡ Some a) }
    ensures sound { OnOk result (spread_fault at is_grid (is_some pupil) line.now ≡ None) }
    ensures fault { IfErr result (λ f. spread_fault at is_grid (is_some pupil) line.now ≡ Some f) }
{
    let (Spread { p, q, n }, Pupil { z, r }) = slopes_and_count(line, at, pupil, 60)?;
    Ok(Ask::Spot { p, q, n, z, r })
}

/// The numbers of a FAN or SPOT line: slopes, and how many rays stand on each side.
#[derive(Clone, Copy)]
struct Spread {
    p: Dec,
    q: Dec,
    n: u32,
}

/// The numbers of a FAN or SPOT line with at most `most` rays on each side, and the pupil in force.
fn slopes_and_count(
    line: &Line<'_>,
    at: u32,
    pupil: Option<Pupil>,
    most: u32,
) -> Result<(Spread, Pupil), JobFault>
    requires { length line.now ≡ 4 }
    ensures slopes { IfOk result
        (λ s. (s.0.p ≡ decimal_at 1 line.now) × (s.0.q ≡ decimal_at 2 line.now)) }
    ensures count { IfOk result (λ s. s.0.n ≡ number_at 3 line.now) }
    ensures pupil { IfOk result (λ s. pupil ≡ Some s.1) }
    ensures sound { OnOk result
        (spread_fault at (is_between 1 most) (is_some pupil) line.now ≡ None) }
    ensures fault { IfErr result
        (λ f. spread_fault at (is_between 1 most) (is_some pupil) line.now ≡ Some f) }
{
    let (p, q, n) = three(line, at)?;
    if !is_whole(&n) {
        return Err(JobFault::BadNumber { line: at });
    }
    let pupil = pupil.ok_or(JobFault::Missing { line: at })?;
    let n = whole_between(&n, 1, most).ok_or(JobFault::Range { line: at })?;
    Ok((Spread { p, q, n }, pupil))
}

/// The paraxial ray of a FIRST line.
pub fn first(line: &Line<'_>, at: u32) -> Result<Ask, JobFault>
    requires { length line.now ≡ 3 }
    ensures value { IfOk result
        (λ a. a ≡ Ask.First (decimal_at 1 line.now) (decimal_at 2 line.now)) }
    ensures sound { OnOk result (decimals_offence at 2 line.now ≡ None) }
    ensures fault { IfErr result (λ f. decimals_offence at 2 line.now ≡ Some f) }
{
    let (y, u) = two(line, at)?;
    Ok(Ask::First { y, u })
}

/// The paraxial rays of a SEIDEL line.
pub fn seidel(line: &Line<'_>, at: u32) -> Result<Ask, JobFault>
    requires { length line.now ≡ 5 }
    ensures value { IfOk result (λ a. a ≡ Ask.Seidel
        (decimal_at 1 line.now) (decimal_at 2 line.now) (decimal_at 3 line.now)
        (decimal_at 4 line.now)) }
    ensures sound { OnOk result (decimals_offence at 4 line.now ≡ None) }
    ensures fault { IfErr result (λ f. decimals_offence at 4 line.now ≡ Some f) }
{
    let (y, u, yb, ub) = four(line, at)?;
    Ok(Ask::Seidel { y, u, yb, ub })
}
